//! Kendall's test: over all ways to give the second values to the subjects, the pairs of subjects
//! whose two values stand in the same order, less those whose two values stand in the other.
#![tactic(auto)]

mod by_transposing;
mod concordant_order;
mod count_codes;
mod counts;
mod kendall;
mod kendall_counts;
mod kendall_made;
mod kendall_measure;
mod kendall_rooms;
mod kendall_stages;
mod kendall_sums;
mod pair_order;
mod pairs;
mod room_work;
mod transposed;

pub use kendall::{Kendall, prepare};
pub use kendall_measure::KendallMeasure;
pub use kendall_rooms::KendallRooms;
pub use kendall_stages::KendallStages;
pub use pair_order::PairOrder;
pub use transposed::transposed_tests;
