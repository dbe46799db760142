//! Keys of one number that lie close together: a row of cells in place of a table, with a cell for
//! each number from the lowest on, a stride apart. A cell holds the weight of its number's key, and
//! no key is kept. What a row stands for is the list of its nodes (`specs/Rows`).
#![tactic(auto)]

mod places;
mod pouring;
mod rows;
mod totals;

pub use places::{cells_apart, place_of};
pub use pouring::pour;
pub use rows::{first_full, forget, last_full};
pub use totals::{count_keys, total};
