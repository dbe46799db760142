//! The rank sum test of two samples in strata: over all labellings of each stratum's subjects, the
//! sum of the second group's ranks, each among the values of its own stratum.
#![tactic(auto)]

mod part_numbers;
mod rank_columns;
mod rank_made;
mod rank_measure;
mod rank_rooms;
mod rank_stages;
mod rank_strata;
mod rank_sums;
mod strata_rank_sum;
mod stratified_ranks;

pub use rank_measure::RankMeasure;
pub use rank_rooms::RankRooms;
pub use rank_stages::RankStages;
pub use strata_rank_sum::StrataRankSum;
pub use stratified_ranks::{StratifiedRanks, prepare};
