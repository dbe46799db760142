//! Tables of counts, and strata of such tables, read from the records of files.
#![tactic(auto)]

mod counts;
mod strata_rows;
mod table_rows;
mod tables;

pub use strata_rows::strata;
pub use table_rows::table;
pub use tables::{Strata, Table};

/// The greatest count of a field.
pub const MOST_COUNT: u64 = 1_000_000;

/// The greatest number of rows of a table.
pub const MOST_TABLE_ROWS: u64 = 8;

/// The greatest number of columns of a table.
pub const MOST_TABLE_COLUMNS: usize = 64;
