//! Networks of stages: what they are, what is known of their keys, and what it is to follow a test.
#![tactic(auto)]

mod additive;
mod additive_stages;
mod answers;
mod distances;
mod keys;
mod lasting;
mod lines;
mod one_of;
mod onward;
mod stages;
mod tail_sums;
mod verdicts;
mod whole;

pub use additive::{Additive, CentredSquares, SumValue};
pub use additive_stages::AdditiveStages;
pub use answers::{Answer, Way};
pub use distances::{SquareBounds, correction, far_square, near_square};
pub use keys::{behind, front, write_behind, write_front, write_key};
pub use lines::Spread;
pub use one_of::OneOf;
pub use onward::Onward;
pub use stages::{Roomed, Stages, Verdict};
pub use tail_sums::{Kept, TailSum, TailSums, Verdicts, only};
pub use verdicts::{Interval, Judge};
pub use whole::Whole;
