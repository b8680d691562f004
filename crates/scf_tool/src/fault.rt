//! Why a command has no result.

ghost use Rattle.std.specs.Prelude.{◌≡◌, false};
ghost use Rattle.scf_tool.specs.declared.fault.Fault.TheVariants as faults;

use crate::verify_fault::{SideFault, VerifyFault};
use scf_compile::CompileFault;
use scf_insn::{InputFault, Memory};
use scf_request::{BundleFault, RequestFault};
use scf_text::TextFault;

/// Why a command has no result.
#[derive(Clone, Copy)]
pub(crate) enum Fault {
    /// Out of memory while the command line was parsed.
    CommandLine,
    /// The arguments aren't a request.
    Request(RequestFault),
    /// Standard input can't be read.
    Input(InputFault),
    Bundle(BundleFault),
    /// The parts of a bundle aren't those that the command takes.
    Parts,
    Text(TextFault),
    Compile(CompileFault),
    /// A filter, a stack, a table or a profile is refused, or memory ran out during a comparison.
    Sides(SideFault),
    /// Out of memory for what is printed of answers.
    Answers,
    /// The table has no syscall to compare by itself.
    Calls,
}

impl From<RequestFault> for Fault {
    ghost from_gives = { λ fault e. e ≡ faults.Request fault };

    fn from(fault: RequestFault) -> Fault {
        Fault::Request(fault)
    }
}

impl From<InputFault> for Fault {
    ghost from_gives = { λ fault e. e ≡ faults.Input fault };

    fn from(fault: InputFault) -> Fault {
        Fault::Input(fault)
    }
}

impl From<BundleFault> for Fault {
    ghost from_gives = { λ fault e. e ≡ faults.Bundle fault };

    fn from(fault: BundleFault) -> Fault {
        Fault::Bundle(fault)
    }
}

impl From<VerifyFault> for Fault {
    ghost from_gives = { λ why e. e ≡ faults.Sides (record { beside = false; why = why }) };

    fn from(why: VerifyFault) -> Fault {
        Fault::Sides(SideFault::from(why))
    }
}

impl From<Memory> for Fault {
    ghost from_gives = { λ _ e. e ≡ faults.Answers };

    fn from(_: Memory) -> Fault {
        Fault::Answers
    }
}
