//! Why a profile isn't compiled.

use scf_insn::Memory;
use thiserror::Error;

/// Why a profile isn't compiled.
#[derive(Clone, Copy, Debug, Error)]
pub enum CompileFault {
    /// The filter would have more than `BPF_MAXINSNS` (4096) instructions. This can happen only if `size_bound` exceeds
    /// that.
    #[error("the filter would have more than 4096 instructions")]
    TooLarge,
    #[error("out of memory")]
    Memory,
}

impl From<Memory> for CompileFault {
    ghost use Rattle.std.specs.Prelude.{◌≡◌};
    ghost use Rattle.scf_compile.specs.declared.fault.CompileFault.TheVariants as faults;

    ghost from_gives = { λ _ e. e ≡ faults.Memory };

    fn from(_error: Memory) -> CompileFault {
        CompileFault::Memory
    }
}
