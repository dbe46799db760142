//! Bounds of what the completions of a partial rearrangement can come to: sums of products, sums
//! of squares, and weights of tables. No call takes memory.
#![tactic(auto)]

mod boxes;
mod fillings;
mod pairings;

pub use boxes::{box_bounds, narrow_squares};
pub use fillings::{fall, times_evenly_divided, weight_bounds};
pub use pairings::{Later, Part, greatest_linear, least_linear};
