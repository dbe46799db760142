//! The public calls of the crates below, each once, as a stranger would write them who has only
//! their description: called under the condition that is asked of the caller, with the promise that
//! is given to it. What stands here is proved and not run.
#![tactic(auto)]

pub mod block_tests_calls;
pub mod completion_bounds_calls;
pub mod distribution_calls;
pub mod enumerate_calls;
pub mod exact_run_calls;
pub mod homogeneity_calls;
pub mod k_sample_tests_calls;
pub mod label_network_calls;
pub mod midranks_calls;
pub mod node_pool_calls;
pub mod number_text_calls;
pub mod one_sample_tests_calls;
pub mod one_toss;
pub mod outside_calls;
pub mod pieces_calls;
pub mod record_reader_calls;
pub mod report_calls;
pub mod sample_reader_calls;
pub mod scores_calls;
pub mod sequence_tests_calls;
pub mod settings_calls;
pub mod shift_limits_calls;
pub mod stage_network_calls;
pub mod stratified_tests_calls;
pub mod table_reader_calls;
pub mod table_tests_calls;
pub mod two_sample_tests_calls;
pub mod weights_calls;
