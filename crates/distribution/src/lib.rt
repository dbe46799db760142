//! The tails of a test from its whole exact distribution: sums of the weights of lines.
#![tactic(auto)]

mod answers;
mod filtered;

pub use answers::answer_from;
pub use filtered::{above, below, far};
