//! One run of `exact`: from the words and the bytes that come in to the bytes that go out.
#![tactic(auto)]

mod block_reports;
mod command;
mod group_reports;
mod layouts;
mod made_data;
mod pair_reports;
mod prepared_reports;
mod questions;
mod sequence_reports;
mod shift_reports;
mod strata_group_reports;
mod strata_reports;
mod sums;
mod table_reports;
mod tests;

pub use command::run;
pub use made_data::made_groups;
pub use run_outcome::Status;
