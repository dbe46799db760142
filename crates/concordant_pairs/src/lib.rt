//! How many labellings of groups without ties have each number of concordant pairs, and how many
//! have a statistic that rises evenly with it and passes a rule.
#![tactic(auto)]

mod counts;
mod distinct;
mod tails;

pub use counts::concordant_counts;
pub use distinct::are_distinct;
pub use tails::concordant_sums;
