//! Strata by themselves: tables of two rows and two columns, all with the sums of their rows and
//! columns, the labellings of their subjects by rows, and the first cells that these give.
#![tactic(auto)]

mod cells;
mod labels;
mod stratum;
mod sums;

pub use cells::{cell_weight, first_cells, labelled, stratum_cell};
pub use labels::{first_labels, sizes};
pub use stratum::{Stratum, strata_of};
pub use sums::{first_rows, own_sum, subjects};
