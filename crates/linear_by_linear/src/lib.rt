//! The linear-by-linear test of a table, given the sums of its rows and columns: how scores of the
//! rows go with scores of the columns.
#![tactic(auto)]

mod linear_table;
mod linear_ways;
mod single_subjects;

pub use linear_table::{LinearTable, ProductSum, prepare};
