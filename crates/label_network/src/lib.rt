//! Labels over columns: tied subjects are taken together, and how many of them get each label is
//! chosen column by column.
#![tactic(auto)]

mod added;
mod binomials;
mod by_intervals;
mod choice_order;
mod keys;
mod linear;
mod linear_network;
mod measure;
mod measured;
mod network;
mod rooms;

pub use binomials::Binomials;
pub use by_intervals::ByIntervals;
pub use choice_order::{first_counts, next_counts};
pub use keys::{read_sizes, rest_in, take_away, weight_in, write_sizes};
pub use later_scores::{End, LaterScores};
pub use linear::{LinearMeasure, score_choice};
pub use linear_network::{LinearStages, linear_stages};
pub use measure::Measure;
pub use measured::LabelStages;
pub use network::{LabelNetwork, label_stages};
pub use rooms::LabelRooms;
