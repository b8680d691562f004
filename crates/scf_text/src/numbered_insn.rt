//! Parsed instructions with their lines.
ghost use Rattle.std.specs.Prelude.{IsTrue};
ghost use Rattle.scf_text.specs.ParsedInsns.{is_in_range};
ghost use Rattle.scf_text.specs.internal.Views.{parsed_view};

use crate::parsed_insn::ParsedInsn;

/// A parsed instruction whose numbers fit their fields, its line, and its offset in the text: that of its statement's
/// label, or else of the statement.
#[derive(Clone, Copy)]
pub(crate) struct NumberedInsn<'a> {
    pub(crate) line: usize,
    pub(crate) start: usize,
    pub(crate) parsed: ParsedInsn<'a>,
    ghost in_range: { IsTrue (is_in_range (parsed_view parsed)) },
}
