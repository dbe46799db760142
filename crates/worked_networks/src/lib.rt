//! Networks and tests that are known by hand, each written on the public surface of the crates
//! below, as a stranger would write it.
#![tactic(auto)]

mod blocks;
mod draws;
mod from_lines;
mod label_ranks;
mod ranks;
mod signed_ranks;
#[cfg(test)]
mod tests;

pub use blocks::Blocks;
pub use draws::{DrawRooms, WhiteBalls, drawing_law, white_draws};
pub use from_lines::{OneSided, one_sided};
pub use label_ranks::{LabelRanks, tail_by_labels, tail_by_measure};
pub use ranks::Ranks;
pub use signed_ranks::{RankStages, SignedRanks};
