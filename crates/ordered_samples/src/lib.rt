//! Tests of ordered samples, by the pairs of their subjects: `jt`, where the groups rise, and
//! `umbrella`, where they rise up to a peak and fall from there on.
#![tactic(auto)]

mod counted_samples;
mod pair_counts;
mod pair_points;
mod pair_stages;
mod subjects;
mod umbrella;
mod used_pairs;

pub use pair_stages::PairStages;
pub use umbrella::{PeakedSamples, Umbrella, prepare};
