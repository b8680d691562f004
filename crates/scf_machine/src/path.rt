//! The path of a run.

use scf_insn::Answer;

/// The answer of a run, and the indices of the instructions that it executed, in order. The first is 0, the last is the
/// returning instruction.
#[derive(Drop)]
pub struct Trace {
    pub answer: Answer,
    pub indices: Vec<usize>,
}
