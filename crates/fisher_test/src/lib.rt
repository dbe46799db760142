//! Fisher's exact test of a table, given the sums of its rows and columns: how probable the table
//! is, and the first cell of a table of 2 by 2.
#![tactic(auto)]

mod by_transposing;
mod fillings;
mod fisher_stages;
mod fisher_table;
mod fisher_ways;
mod last_columns;
mod scaled;
mod sorted_sums;
mod sorted_weights;
mod transposed;
mod weight_measure;

pub use fisher_stages::FisherStages;
pub use fisher_table::{FisherTable, fisher_tails, is_two_by_two};
pub use sorted_weights::{SortedStages, SortedWeights};
pub use transposed::transposed_tests;
pub use weight_measure::{WeightMeasure, WeightStages};
