//! Numbers of blocks, ranks mostly, that are given to treatments one after another: the network of
//! the treatments' sums of squares, with treatments in order and sums reflected.
#![tactic(auto)]

mod assigned_blocks;
mod assigned_sums;
mod assignment;
mod assignments;
mod leaning;
mod reflecting;

pub use assigned_blocks::{AssignedBlocks, OrderedBlocks, has_room_for, ordered_blocks};
pub use assignment::Assignment;
pub use assignments::{Assignments, add_block};
