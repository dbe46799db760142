// A network that is cut at a stage.
use weights::Ints;

/// The open keys of a stage that are reached through open keys alone, ascending and laid flat, each
/// with the merged weight of the ways there; and the summed weight of the extreme completions that
/// meet an inside key at that stage or before.
#[derive(Drop)]
pub struct Cut {
    pub at: usize,
    pub closed: u128,
    pub keys: Ints,
    pub weights: Ints,
}

/// The same with weights as counts, as the cut of a network of rooms gives it.
#[derive(Drop)]
pub struct CountedCut {
    pub at: usize,
    pub closed: u128,
    pub keys: Vec<i128>,
    pub weights: Vec<u128>,
}
