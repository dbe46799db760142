//! The runs test: over all orders of the rows' labels, the number of longest blocks of equal
//! neighbouring labels.
#![tactic(auto)]

mod run_measure;
mod run_stages;
mod runs;

pub use run_stages::RunStages;
pub use runs::{RunNumber, Runs, prepare};
