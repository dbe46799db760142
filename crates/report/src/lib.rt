//! The text of a report, and the line that tells why there is none.
#![tactic(auto)]

mod answer_lines;
mod composing;
mod decimals;
mod heading_lines;
mod headings;
mod pieces;
mod refusals;
mod shift;
mod short_line;

pub use composing::{compose, compose_head, compose_merged};
pub use decimals::six_decimals;
pub use headings::{Extra, Sizes, Title};
pub use refusals::{Refusal, refusal_line};
pub use shift::compose_shift;
pub use short_line::ShortLine;
