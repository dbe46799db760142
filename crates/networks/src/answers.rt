// What is answered of a test, and by which way.

use crate::tail_sums::TailSum;

/// How an answer is found: by the network of stages, or by a walk through all rearrangements.
#[derive(Clone, Copy, Debug, PartialEq, Eq)]
pub enum Way {
    Network,
    Plain,
}

/// The observed statistic times its scale, the scale, the weight of all rearrangements, and of each
/// asked tail its numerator with the number of open keys; None for a tail that was not asked. By
/// the plain way no key is counted.
#[derive(Clone, Copy, Debug, Drop, PartialEq, Eq)]
pub struct Answer {
    pub statistic: i128,
    pub scale: u128,
    pub total: u128,
    pub less: Option<TailSum>,
    pub greater: Option<TailSum>,
    pub two: Option<TailSum>,
}
