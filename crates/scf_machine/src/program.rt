//! Checked programs.

ghost use Rattle.std.specs.Prelude.{◌≡◌, ℕ, false, List, length};
ghost use Rattle.std.specs.List.{AllByRecursion};
ghost use Rattle.scf_insn.specs.Insn.{IsInsn};
ghost use Rattle.scf_machine.specs.Machine.{RunsSafely};
ghost use Rattle.scf_machine.specs.Rules.{IsValidList, KeepsScratchRule};

use scf_insn::Insn;
use std::marker::Model;

/// An accepted list of instructions, 1 to 4096. Only `check` makes one.
#[derive(Drop)]
pub struct Program {
    pub(crate) list: Vec<Insn>,
}

impl Model for Program {
    ghost use Rattle.std.specs.Prelude.{List};
    ghost use Rattle.scf_insn.specs.declared.insn.Insn.{Insn};
    ghost use Rattle.scf_machine.specs.Rules.{IsFilter};

    ghost Value = { List Insn };

    ghost view = { λ p. p.list.items };

    ghost invariant = { λ p. IsFilter p.list.items };
}

impl Program {
    /// The instructions. They keep the checker's rules, and each run ends in an answer within their count.
    pub fn insns(&self) -> &[Insn]
        ensures same { result.now ≡ self.now }
        ensures widths { AllByRecursion IsInsn self.now }
        ensures valid { IsValidList self.now }
        ensures stored { KeepsScratchRule self.now }
        ensures safe { (words : List ℕ) → RunsSafely self.now words }
    {
        &self.list
    }

    /// The count of instructions, 1 to 4096.
    pub fn len(&self) -> usize
        ensures { result ≡ length self.now }
    {
        self.list.len()
    }

    /// Always false: an accepted list has at least one instruction.
    pub fn is_empty(&self) -> bool
        ensures { result ≡ false }
    {
        self.list.is_empty()
    }

    /// The list of instructions, as it was checked.
    pub fn into_insns(self) -> Vec<Insn>
        ensures { result.items ≡ self }
    {
        let Program { list } = self;
        list
    }
}
