//! Tie groups, and the midranks that come from them: average ranks at ties, doubled so that they
//! are whole.
#![tactic(auto)]

mod ranks;
mod ties;

pub use ranks::{doubled, group_ranks};
pub use ties::{Tie, Ties, group_of, tie_groups};

/// The greatest number of values that are ranked together.
pub const MOST_VALUES: usize = 10_000;
