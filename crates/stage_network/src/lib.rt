//! Sums over the completions of a network of stages, and the answer of a test by it.
#![tactic(auto)]

mod answering;
mod arcs;
mod checked_sums;
mod first_tails;
mod flat_keys;
mod from_keys;
mod images;
mod links;
mod listed_keys;
mod nodes;
mod one_of;
mod ordering;
mod prepared;
mod quick;
mod rooms;
mod row_arcs;
mod row_ends;
mod row_filling;
mod row_heads;
mod row_keeping;
mod row_plans;
mod row_rooms;
mod row_settling;
mod row_starts;
mod row_sweeps;
mod settling;
mod spreads;
mod stage_arcs;
mod stops;
mod sums;
mod sweep;
mod sweeps_to;
mod walks;
mod widths;

pub use answering::{answer, distribution};
pub use flat_keys::{FlatKeys, laid_flat};
pub use from_keys::sum_from_keys;
pub use images::sum_by_images;
pub use listed_keys::{counts_of, tail_sum_from};
pub use networks::{
    Additive, AdditiveStages, Answer, Interval, Judge, Kept, OneOf, Onward, Roomed, Spread, Stages,
    SumValue, TailSum, TailSums, Verdict, Way, Whole, behind, front, only, write_key,
};
pub use nodes::StageNodes;
pub use ordering::{Entry, entries_of};
pub use prepared::{Prepared, network_of};
pub use quick::{quick_answer, quick_numerators};
pub use row_sweeps::row_sums;
pub use spreads::{spread, spread_by_rooms};
pub use sums::{tail_sum, tail_sum_by_rooms, tail_sums_by_rooms, total_of};
pub use sweep::Sweep;
pub use sweeps_to::sweep_to;
pub use walks::plain_spread;
pub use weights::{Line, PrepareFault, WideOf};
pub use widths::{Width, width_of};
