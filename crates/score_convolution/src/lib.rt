//! How many labellings of two groups, and how many lists of signs, have a sum of scores that passes
//! a rule, by counts of draws.
//!
//! For each number of subjects it is counted how many draws of so many of them have each sum of
//! scores. With a subject more the draws of each number, moved by its score, are added to those of
//! the next one: the shift algorithm of Streitberg and Röhmel (Exact distributions for permutation
//! and rank tests, Statistical Software Newsletter 12, 1986). The subjects are cut in two, and the
//! draws of both parts are read against each other: the split-up algorithm of van de Wiel
//! (Computational Statistics 16, 2001). Where the sums lie close together the counts stand in rows
//! of cells. Else they are lists by ascending sum, of about the root of the number of draws of all
//! (Horowitz and Sahni, Computing partitions with applications to the knapsack problem, Journal of
//! the ACM 21, 1974).
#![tactic(auto)]

mod cells;
mod cutting;
mod draws;
mod few_keys;
mod left;
mod lists;
mod meeting;
mod onward;
mod pairs;
mod rows;
mod sides;
mod signs;
mod tails;
mod tallies;

pub use onward::sign_sum_onward;
pub use signs::sign_sums;
pub use tails::drawn_sums;
