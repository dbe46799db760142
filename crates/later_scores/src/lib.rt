//! The least and the greatest sums of some of the scores that are still to come, stage by stage.
#![tactic(auto)]

mod ends;
mod later_scores;

pub use ends::End;
pub use later_scores::LaterScores;
