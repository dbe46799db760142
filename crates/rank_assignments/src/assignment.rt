// The numbers that occur in blocks, in the order in which they are given to treatments.

/// A number that so many treatments of a block get, after all lesser ones of the block. The last
/// one of a block closes it.
#[derive(Clone, Copy)]
pub struct Assignment {
    pub value: u64,
    pub count: u64,
    pub closes: bool,
}

/// What is ahead of some assignment on: how many treatments of its block are still to be assigned
/// and in how many ways all of this can be done, the least and the greatest number of its block
/// that is left, and what a treatment gets of later blocks at least and at most.
#[derive(Clone, Copy)]
pub struct Ahead {
    pub owed: u64,
    pub ways: u128,
    pub least: u64,
    pub most: u64,
    pub later_least: u64,
    pub later_most: u64,
}
