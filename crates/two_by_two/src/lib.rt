//! Fisher's exact test of a table of 2 by 2 with odds, its noncentral form: the first cell, of
//! labellings that weigh their subjects' odds.
#![tactic(auto)]

mod odds_rooms;
mod odds_stages;
mod odds_table;
mod odds_ways;
mod odds_weights;

pub use odds_rooms::OddsRooms;
pub use odds_stages::OddsStages;
pub use odds_table::OddsTable;
