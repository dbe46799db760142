//! The keys of one stage, each with a weight, in a map that takes memory only where it is asked to.
#![tactic(auto)]

mod hashes;
mod list;
mod pool;
mod room;
mod table;

pub use list::NodeList;
pub use pool::NodePool;
pub use room::push_within;
pub use table::key_at;
