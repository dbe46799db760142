//! Networks whose keys take little room: the numbers of a partial stand in one number, as digits.
#![tactic(auto)]

mod digits;
mod groups;
mod network;

pub use digits::bits_for;
pub use groups::PackedGroups;
pub use network::Packed;
