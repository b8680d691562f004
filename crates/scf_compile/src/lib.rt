//! The compiler: from a profile, or several, to a filter with the same answers.
#![tactic(auto)]

mod blocks;
mod compiler;
mod dispatch;
mod fault;
mod insns;
mod placing;
mod ranges;
mod rules;
mod search;
mod size;
mod values;
mod weights;

pub use compiler::{compile, compile_by_counts};
pub use fault::CompileFault;
pub use size::size_bound;
pub use weights::CallCount;
