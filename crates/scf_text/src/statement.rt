//! The statements of a text.
ghost use Rattle.std.specs.Prelude.{◌≡◌, ◌≢◌, ◌∷◌, ◌++◌, ◌+◌, ◌≤◌, [], ℕ, List, length, IfOk, OnErr, IsSome};
ghost use Rattle.std.specs.Option.{option_map, unwrap_or};
ghost use Rattle.scf_text.specs.Statements.{Statement, label_in, instruction_in};
ghost use Rattle.scf_text.specs.internal.Reading.{parsed_insns_view, IsLeft, Leaves, part_statements};
ghost use Rattle.scf_text.specs.internal.Parts.{words_in, others_in, words_at, others_at, statements_after};
ghost use Rattle.scf_text.specs.internal.Symbols.{IsLinePart, FollowsBehind, LiesBehind, name_at, index_after};
ghost use Rattle.scf_text.specs.internal.Results.{TellsDraft, AddsLabel, AddsInstruction};
ghost use Rattle.scf_text.specs.internal.Views.{parsed_view};

use crate::encoding::Encoding;
use crate::fault::TextFault;
use crate::label::check_labels;
use crate::numbered_insn::NumberedInsn;
use crate::parsed_insn::{ParsedInsn, is_token_name, read};
use crate::part::{LinePart, Next, front};
use scf_insn::kernel::BPF_MAXINSNS;

/// Parses an instruction from its mnemonic on, and returns the text behind its statement.
#[tactic(auto, unfolding(crate::specs::ParsedInsns::parsed_of))]
fn read_instruction<'a>(
    parsed: &mut ParsedInsn<'a>,
    mnemonic: &[u8],
    part: &'a [u8],
    at: usize,
    line: usize,
) -> Result<Option<&'a [u8]>, TextFault>
    ensures tells { TellsDraft at line mnemonic.now (words_in part.now) (parsed_view parsed.new) result }
    ensures stops { IfOk result (λ after. others_in part.now ≡ statements_after after) }
    ensures behind { IfOk result (λ after. FollowsBehind part.now 0 after) }
{
    let after = read(parsed, mnemonic, part, line)?;
    if !parsed.is_in_range() {
        Err(TextFault::NumberRange { line })
    } else if at >= BPF_MAXINSNS {
        Err(TextFault::TooLong { line })
    } else {
        Ok(after)
    }
}

/// Splits off the label of a statement, if it has one: its offset in the part, and the beginning of what follows.
#[tactic(auto, using(crate::proofs::IndexLemmas::lies_behind))]
fn split_label(part: &[u8]) -> (Option<usize>, Next<'_>)
    ensures label { option_map (name_at part.now) result.0 ≡ label_in (words_in part.now) }
    ensures rest { words_at result.1 ≡ instruction_in (words_in part.now) }
    ensures stops { others_at result.1 ≡ others_in part.now }
    ensures behind { LiesBehind part.now (unwrap_or result.0 0) result.1 }
{
    let first = front(part);
    if let Next::Token(name, behind_name) = first {
        if let Next::Token(mark, behind_mark) = front(behind_name) {
            if is_token_name(name.text) && mark.text == b":".as_slice() {
                return (Some(name.start), front(behind_mark));
            }
        }
    }
    (None, first)
}

/// How many labels are stored before the search for repeats that comes early; at the end all are searched.
const CHECKED_FIRST: usize = 1 << 12;

/// Stores the label at this offset, if there is one.
///
/// A text that repeats a few labels over and over is refused early. There is one such search before the end: an input
/// holds some five million labels at most, and sorting them at each doubling takes twice the time.
fn add_label(text: &[u8], labels: &mut Vec<usize>, label: Option<usize>) -> Result<(), TextFault>
    ensures adds { AddsLabel text.now labels.old.items label result labels.new.items }
    ensures some { OnErr result (IsSome label) }
{
    let Some(start) = label else {
        return Ok(());
    };
    labels.push(start)?;
    if labels.len() == CHECKED_FIRST {
        check_labels(text, labels)
    } else {
        Ok(())
    }
}

/// Adds the instruction of a statement that begins at this offset, if it has one, and returns the text behind it.
#[tactic(auto, using(crate::proofs::IndexLemmas::follows_behind))]
fn add_instruction<'a>(
    parsed_insns: &mut Vec<NumberedInsn<'a>>,
    first: Next<'a>,
    start: usize,
    line: usize,
) -> Result<Option<&'a [u8]>, TextFault>
    ensures adds { AddsInstruction parsed_insns.old.items start line (words_at first.entry) result
        parsed_insns.new.items }
    ensures stops { IfOk result (λ after. others_at first.entry ≡ statements_after after) }
    ensures behind { IfOk result (λ after. (part : List ℕ) (index : ℕ)
        → LiesBehind part index first.entry → FollowsBehind part index after) }
    ensures some { OnErr result (words_at first.entry ≢ []) }
{
    match first {
        Next::End(after) => Ok(after),
        Next::Token(mnemonic, operands) => {
            let mut parsed = ParsedInsn::blank(Encoding::raw());
            let after = read_instruction(
                &mut parsed,
                mnemonic.text,
                operands,
                parsed_insns.len(),
                line,
            )?;
            parsed_insns.push(NumberedInsn {
                line,
                start,
                parsed,
            })?;
            Ok(after)
        }
    }
}

/// Adds the label and the instruction of a statement, and returns the text behind it.
fn add_statement<'a>(
    text: &[u8],
    labels: &mut Vec<usize>,
    parsed_insns: &mut Vec<NumberedInsn<'a>>,
    part: LinePart<'a>,
) -> Result<Option<&'a [u8]>, TextFault>
    requires { IsLinePart text.now part.line part.start part.bytes.now }
    ensures leaves { (all remaining : List Statement)
        → IsLeft text.now part.entry.start all
        ((record { line = part.entry.line; tokens = words_in part.entry.bytes.now }) ∷ remaining) labels.old.items
        parsed_insns.old.items
        → Leaves text.now result all remaining (λ after. index_after part.entry.start part.entry.bytes.now after)
        labels.new.items parsed_insns.new.items }
    ensures stops { IfOk result (λ after. others_in part.entry.bytes.now ≡ statements_after after) }
    ensures behind { IfOk result (λ after. FollowsBehind part.entry.bytes.now 0 after) }
{
    let (label, instruction) = split_label(part.bytes);
    let start = part.start + label.unwrap_or(0);
    add_label(text, labels, label.and(Some(start)))?;
    add_instruction(parsed_insns, instruction, start, part.line)
}

/// Adds the statements of a line without its comment.
pub(crate) fn add_line<'a>(
    text: &[u8],
    labels: &mut Vec<usize>,
    parsed_insns: &mut Vec<NumberedInsn<'a>>,
    line: LinePart<'a>,
) -> Result<(), TextFault>
    requires { IsLinePart text.now line.line line.start line.bytes.now }
    ensures { (all remaining : List Statement)
        → IsLeft text.now line.entry.start all (part_statements line.entry.line line.entry.bytes.now ++ remaining)
        labels.old.items parsed_insns.old.items
        → Leaves text.now result all remaining (λ _. line.entry.start + length line.entry.bytes.now + 1)
        labels.new.items parsed_insns.new.items }
{
    let mut part = line;
    'statements: loop {
        match add_statement(text, labels, parsed_insns, part)? {
            None => return Ok(()),
            Some(behind) => {
                part.start += part.bytes.len() - behind.len();
                part.bytes = behind;
            }
        }
    }
}
