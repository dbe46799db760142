//! Keys with weights that come in runs, each from one room. Where a few runs of keys of one number
//! come together they are merged, and the keys of a run that do not ascend are sorted and merged as
//! a run of their own. All other keys are hashed.
#![tactic(auto)]

mod loose;
mod merger;
mod run_pool;

pub use loose::{Lead, add_loose, add_or_keep};
pub use run_pool::RunPool;
