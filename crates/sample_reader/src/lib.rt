//! Samples read from the records of files: groups, also in strata, pairs, bivariate samples, blocks
//! and sequences; and the pooled sample of groups.
#![tactic(auto)]

mod block_rows;
mod dropping;
mod fields;
mod group_rows;
mod label_set;
mod labels;
mod layout;
mod order;
mod pair_rows;
mod samples;
mod sequence_rows;
mod strata_rows;
mod subjects;
mod twin_rows;

pub use block_rows::{binary_blocks, blocks};
pub use dropping::dropped;
pub use group_rows::groups;
pub use labels::Labels;
pub use layout::Layout;
pub use order::{OrderFault, reorder, reorder_strata};
pub use pair_rows::pairs;
pub use record_reader::Missing;
pub use samples::{Blocks, Groups, Pairs, Sequence, StrataGroups, Twins};
pub use sequence_rows::sequence;
pub use strata_rows::strata_groups;
pub use subjects::{Subject, ordered_subjects, pooled_subjects, values};
pub use twin_rows::twins;

/// The greatest number of labels that groups may have.
pub const MOST_LABELS: u64 = 8;

/// The greatest number of rows of a bivariate sample.
pub const MOST_TWINS: u64 = 120;
