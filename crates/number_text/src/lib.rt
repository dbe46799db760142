//! Number texts: values, counts and lists of whole numbers, read exactly from bytes.
//!
//! No call takes memory, and the work of each grows in proportion to the length of the text.
#![tactic(auto)]

mod blanks;
mod count;
mod digits;
mod integer;
mod list;
mod numeral;
mod significand;
mod value;

pub use blanks::trim;
pub use count::read_count;
pub use list::read_list;
use thiserror::Error;
pub use value::read_value;

/// Why a text has no value. Where several faults hold, the first of this order is given.
#[derive(Clone, Copy, Debug, PartialEq, Eq, Error)]
pub enum NumberFault {
    /// The text is empty or exactly `NA`, without the spaces and tabs around it.
    #[error("missing")]
    Missing,
    /// The text is no number text.
    #[error("not a number")]
    NotNumber,
    /// The value is no whole number of units of 10^-18, or has 10^36 units or more.
    #[error("out of range")]
    OutOfRange,
}
