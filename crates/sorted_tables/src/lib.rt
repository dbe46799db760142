//! Tables of counts whose sizes stand in falling order: what completes a table depends on what
//! remains of its rows whatever their order, so rooms that differ in it alone are one, and so are
//! choices that differ in the order of rows of equal size.
#![tactic(auto)]

mod choice_lines;
mod fronts;
mod gathering;
mod orders;
mod rooms;

pub use orders::rise;
pub use rooms::{SortedRooms, sorting_law};
