//! Tables of counts column by column: the sums of their rows and columns, and sums of scores and
//! weights over their cells, also of the tables that labellings give.
#![tactic(auto)]

mod margins;
mod sums;

pub use margins::{Margins, margins_of};
pub use sums::{count_label, front, labelled_sum, labelled_weight, observed_sum, observed_weight};

/// The greatest absolute score of a row or a column.
pub const MOST_SCORE: u64 = 1_000_000_000;
