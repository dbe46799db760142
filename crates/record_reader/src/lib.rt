//! The records of a data file, as `csv` reads them, and the rules by which layouts read them: which
//! fields, in which order, and the first fault.
#![tactic(auto)]

mod data;
mod dropping;
mod faults;
mod fields;
mod headers;
mod layouts;
mod missing;
mod picks;
mod rows;

pub use data::read_in;
pub use dropping::dropped;
pub use faults::{DataFault, Kind, LayoutFault};
pub use layouts::{FieldFault, Layout, Shape};
pub use missing::Missing;
pub use picks::Picks;
pub use rows::{Rows, records};

/// The greatest number of rows that a file may have below its header.
pub const MOST_ROWS: u64 = 10_000;
