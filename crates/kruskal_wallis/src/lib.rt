//! The test of Kruskal and Wallis, whether several samples differ: `kw`, by the sums of the groups'
//! scores.
#![tactic(auto)]

mod centred_sums;
mod group_scores;
mod group_sums;
mod kruskal_wallis;
mod kruskal_wallis_ways;
mod rank_sums;
mod squared_stages;

pub use kruskal_wallis::{KruskalWallis, SquaredSums, prepare};
pub use squared_stages::SquaredStages;
