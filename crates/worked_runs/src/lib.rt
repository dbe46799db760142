//! Worked runs and calls to the outside, from outside: a stranger's source and sink, and faults of
//! calls by their numbers.
#![tactic(auto)]

mod shelf;
#[cfg(test)]
mod tests;
mod tight;

pub use shelf::Shelf;
pub use tight::Tight;
