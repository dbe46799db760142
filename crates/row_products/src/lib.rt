//! Bounds of the weight of a table that its rows give, by the factorials of its cells.
#![tactic(auto)]

mod bounds;

pub use bounds::{RowBounds, RowProducts};
