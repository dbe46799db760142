//! One run of `exact` in memory: packed words and the bytes of a file in; the report, or the line
//! that says why there is none, out. No file is opened and no process started.
#![tactic(auto)]

mod answers;
mod places;
mod runs;
mod sinks;
mod sources;

pub use answers::{Answer, answer_in_memory};
