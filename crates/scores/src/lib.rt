//! Scores of values: what each value of a list counts for in a test, as whole numbers over one
//! scale, and their sum over the subjects with a label.
#![tactic(auto)]

mod averages;
mod kinds;
mod labelled_sums;
mod multiples;
mod places;
mod ranks;
mod raw;
mod scores;
mod spread;
mod sums;
mod whole;

pub use kinds::{ScoreFault, ScoreKind, Scored, TieScores};
pub use labelled_sums::labelled_sum;
pub use multiples::common_multiple;
pub use scores::{scored, tie_scores};
pub use whole::{WholeValues, whole_values};
