//! The parts of a divided run: their texts, written and read, and the merge of them.
#![tactic(auto)]

mod comparing;
mod fields;
mod lines;
mod merging;
mod names;
mod piece;
mod reader;
mod reading;
mod totals;
mod writing;

pub use merging::{MergeFault, Merged, merge};
pub use names::name_of;
pub use piece::{Piece, PieceSum, Pieces};
pub use reading::{PieceFault, read_pieces};
pub use writing::piece_text;
