//! The parts of a divided run: a network cut at a stage, the sums of the parts that the open keys
//! there are given to, their texts, and the merge of all of them.
#![tactic(auto)]

mod cuts;
mod cutting;
mod listed;
mod merges;
mod parting;

pub use cuts::{CountedCut, Cut};
pub use cutting::cut_by_rooms;
pub use listed::{cut, run_piece};
pub use merges::merge;
pub use parting::{part_sum, piece_by_rooms, prepared_part};
pub use piece_texts::{
    MergeFault, Merged, Piece, PieceFault, PieceSum, Pieces, name_of, piece_text, read_pieces,
};
