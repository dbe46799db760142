// What is said of the shift between two samples.

/// The estimate of a shift and its exact limits (Hodges and Lehmann, Annals of Mathematical
/// Statistics 34, 1963; Hollander and Wolfe, Nonparametric Statistical Methods, chapter 4).
/// Differences stand as whole numbers, `places` times what they are.
#[derive(Clone, Copy, Debug, PartialEq, Eq)]
pub struct Limits {
    /// How many differences there are of a value of the second sample less one of the first.
    pub differences: u64,
    /// The power of ten by which differences are multiplied.
    pub places: u128,
    /// The sum of the two middle differences: the estimate is half of it.
    pub middle: i128,
    /// The lower limit, where there is one.
    pub lower: Option<i128>,
    /// The upper limit, where there is one.
    pub upper: Option<i128>,
    /// How many labellings there are.
    pub total: u128,
    /// How many of them the limits miss.
    pub missed: u128,
}
