//! One run of a program of tests: from the words and the bytes that come in to the bytes that go
//! out, whatever tests the program has.
#![tactic(auto)]

mod catalogue;
mod command;
mod merged;
mod parts;
mod refusing;
mod reports;
mod requests;
mod status;

pub use catalogue::Catalogue;
pub use command::run_with;
pub use parts::PartOf;
pub use reports::{ALL, Asking, GREATER, Heading, ONE_SIDED, TWO, report_prepared};
pub use requests::Request;
pub use status::Status;
