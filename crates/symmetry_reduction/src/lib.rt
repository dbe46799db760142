//! Keys of groups, each of which has a size, a part of it that remains, and a sum: those of equal
//! size that stand side by side are put in order, in single keys and in whole networks.
#![tactic(auto)]

mod codes;
mod keys;
mod network;
mod orders;
mod places;

pub use keys::{put_groups_in_order, put_sums_in_order};
pub use network::SymmetryReduced;
pub use orders::{Order, stay};
