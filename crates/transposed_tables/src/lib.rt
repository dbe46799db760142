//! Tables of counts and the same tables transposed, their rows and columns having changed places:
//! each is transposed once, and what they weigh is in one ratio.
#![tactic(auto)]

mod laws;
mod ratios;

pub use laws::transposed_weights;
pub use ratios::in_ratio;
