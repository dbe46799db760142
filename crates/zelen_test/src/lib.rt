//! Zelen's test that the odds ratio is the same in all strata: over the labellings of each
//! stratum's subjects whose first cells together have the sum that they have as they are.
#![tactic(auto)]

mod cell_weights;
mod later_sums;
mod sum_counts;
mod sum_walk;
mod zelen;
mod zelen_measure;
mod zelen_rooms;
mod zelen_stages;
mod zelen_ways;

pub use zelen::Zelen;
pub use zelen_measure::ZelenMeasure;
pub use zelen_rooms::ZelenRooms;
pub use zelen_stages::ZelenStages;
