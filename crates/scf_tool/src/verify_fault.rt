//! Why inputs weren't compared.

ghost use Rattle.std.specs.Prelude.{◌≡◌, false};
ghost use Rattle.scf_tool.specs.declared.verify_fault.VerifyFault.TheVariants as verifies;

use scf_insn::{InputFault, Memory, ReadFault};
use scf_machine::{CheckFault, PushFault};
use scf_profile::{LoadFault, TableFault};
use thiserror::Error;

/// Why inputs weren't compared.
#[derive(Clone, Copy, Debug, Error)]
pub enum VerifyFault {
    #[error("filter: {0}")]
    FilterRead(ReadFault),
    #[error("filter: {0}")]
    Check(CheckFault),
    /// A filter isn't pushed onto the stack. `verify` never returns this.
    #[error("stack: {0}")]
    Stack(PushFault),
    #[error("table: {0}")]
    TableRead(InputFault),
    #[error("table: {0}")]
    Table(TableFault),
    #[error("profile: {0}")]
    ProfileRead(InputFault),
    #[error("profile: {0}")]
    Profile(LoadFault),
    #[error("out of memory")]
    Memory,
}

impl From<ReadFault> for VerifyFault {
    ghost from_gives = { λ fault e. e ≡ verifies.FilterRead fault };

    fn from(fault: ReadFault) -> VerifyFault {
        VerifyFault::FilterRead(fault)
    }
}

impl From<LoadFault> for VerifyFault {
    ghost from_gives = { λ fault e. e ≡ verifies.Profile fault };

    fn from(fault: LoadFault) -> VerifyFault {
        VerifyFault::Profile(fault)
    }
}

impl From<Memory> for VerifyFault {
    ghost from_gives = { λ _ e. e ≡ verifies.Memory };

    fn from(_: Memory) -> VerifyFault {
        VerifyFault::Memory
    }
}

/// Why two sides weren't compared.
#[derive(Clone, Copy)]
pub struct SideFault {
    /// Whether a filter or a profile is refused that stands beside those of the left side.
    pub beside: bool,
    pub why: VerifyFault,
}

impl From<VerifyFault> for SideFault {
    ghost from_gives = { λ why e. e ≡ record { beside = false; why = why } };

    fn from(why: VerifyFault) -> SideFault {
        SideFault { beside: false, why }
    }
}

impl From<Memory> for SideFault {
    ghost from_gives = { λ _ e. e ≡ record { beside = false; why = verifies.Memory } };

    fn from(_: Memory) -> SideFault {
        SideFault::from(VerifyFault::Memory)
    }
}
