//! Rooms of one number: how much remains, and how much of it each choice takes; and measures of
//! networks over rooms by numbers that are never negative.
#![tactic(auto)]

mod one_count;

pub use one_count::{count_in, write_count, write_remaining};
