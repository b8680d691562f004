//! The symbol table.
ghost use Rattle.std.specs.Prelude.{map};
ghost use Rattle.std.specs.List.{IsDistinct};
ghost use Rattle.std.specs.List.Sorted.{IsNonDecreasing, IsSortedBy};
ghost use Rattle.std.specs.Str.{bytes_eq};
ghost use Rattle.std.proofs.lemmas.Map.Keys.{IsDistinct-prop};
ghost use Rattle.scf_text.specs.internal.Labels.{is_before};
ghost use Rattle.scf_text.specs.internal.Symbols.{name_at};
ghost use Rattle.scf_text.specs.internal.Reading.{begins_of};

use crate::numbered_insn::NumberedInsn;

/// The labels of a text, sorted, without repeats, and its instructions in order.
#[derive(Clone, Copy)]
pub(crate) struct SymbolTable<'a> {
    pub(crate) text: &'a [u8],
    pub(crate) labels: &'a [usize],
    pub(crate) parsed_insns: &'a [NumberedInsn<'a>],
    ghost sorted: { IsSortedBy (is_before text.now) labels.now },
    ghost distinct: { IsDistinct bytes_eq (map (name_at text.now) labels.now) } by { IsDistinct-prop _ _ },
    ghost following: { IsNonDecreasing (begins_of parsed_insns.now) },
}
