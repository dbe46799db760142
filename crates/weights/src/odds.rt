// A ratio of two small numbers.

/// The ratio of `above` to `below`, which is not reduced.
#[derive(Clone, Copy, Debug, PartialEq, Eq)]
pub struct Odds {
    pub above: u64,
    pub below: u64,
}
