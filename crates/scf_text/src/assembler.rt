//! The assembler.
ghost use Rattle.std.specs.Prelude.{◌≡◌, ◌≢◌, ◌<◌, ℕ, [], List, length, IsTrue, IfOk, IfErr, OnErr, MatchResult};
ghost use Rattle.scf_insn.specs.declared.insn.Insn.{Insn};
ghost use Rattle.scf_text.specs.declared.fault.TextFault.{TextFault};
ghost use Rattle.scf_text.specs.ParsedInsns.{is_below};
ghost use Rattle.scf_text.specs.Statements.{Statement, statements_of};
ghost use Rattle.scf_text.specs.Spelling.{Spells};
ghost use Rattle.scf_text.specs.Tokens.{tokens_of};
ghost use Rattle.scf_text.specs.Faults.{IsFault, ascii_fault, statements_fault, targets_fault, fault_of};
ghost use Rattle.scf_text.specs.internal.Reading.{parsed_insns_view, HaveTokens, IsLeft, IsRead, Leaves};
ghost use Rattle.scf_text.specs.internal.Results.{TellsTarget, TellsInsn, TellsInsns, TellsText, indices_view};
ghost use Rattle.scf_text.specs.internal.Views.{field_value_view, parsed_view};

use crate::fault::TextFault;
use crate::label::{check_labels, compare_with};
use crate::numbered_insn::NumberedInsn;
use crate::parsed_insn::FieldValue;
use crate::part::LinePart;
use crate::statement::add_line;
use crate::symbols::SymbolTable;
use crate::token::{first_line, without_comment};
use scf_insn::Insn;
use std::alloc::Global;

/// The fault of the first byte that isn't ASCII.
fn check_ascii(text: &[u8]) -> Result<(), TextFault>
    ensures first { MatchResult result (λ _. ascii_fault 1 text.now ≡ None) (λ e. ascii_fault 1 text.now ≡ Some e) }
    ensures kind { result ≢ Err TextFault.Memory }
{
    let mut line = 1;
    for byte in text {
        if !byte.is_ascii() {
            return Err(TextFault::NotAscii { line });
        }
        if *byte == b'\n' {
            line += 1;
        }
    }
    Ok(())
}

/// Collects the statements of a text; labels by the offsets where they begin.
fn read_text<'a>(
    text: &'a [u8],
    labels: &mut Vec<usize>,
    parsed_insns: &mut Vec<NumberedInsn<'a>>,
) -> Result<(), TextFault>
    ensures { (all : List Statement)
        → IsLeft text.now 0 all (statements_of text.now) labels.old.items parsed_insns.old.items
        → (end : ℕ) × Leaves text.now result all [] (λ _. end) labels.new.items parsed_insns.new.items }
{
    let mut remaining = text;
    let mut number = 1;
    'lines: loop {
        let (line, behind) = first_line(remaining);
        let part = LinePart {
            line: number,
            start: text.len() - remaining.len(),
            bytes: without_comment(line),
        };
        add_line(text, labels, parsed_insns, part)?;
        match behind {
            None => return Ok(()),
            Some(next) => {
                remaining = next;
                number += 1;
            }
        }
    }
}

/// The instruction index of a label: the count of instructions before it.
fn find_index(symbols: &SymbolTable<'_>, name: &[u8]) -> Option<usize>
    ensures { result ≡ indices_view symbols.now name.now }
{
    let Ok(index) = symbols
        .labels
        .binary_search_by(|label| compare_with(symbols.text, *label, name))
    else {
        return None;
    };
    let label = symbols.labels[index];
    Some(
        symbols
            .parsed_insns
            .partition_point(|parsed| parsed.start < label),
    )
}

/// The value of a field: its number, or the offset to its label, below the limit.
fn value_of<'a>(
    symbols: &SymbolTable<'_>,
    written: FieldValue<'a>,
    at: usize,
    limit: u64,
    line: usize,
) -> Result<u64, TextFault>
    requires { IsTrue (is_below limit (field_value_view written)) }
    ensures { TellsTarget (indices_view symbols.now) at line limit (field_value_view written.entry) result }
{
    match written {
        FieldValue::Number(number) => Ok(number),
        FieldValue::Label(name) => {
            let Some(index) = find_index(symbols, name) else {
                return Err(TextFault::Label { line });
            };
            if index <= at {
                return Err(TextFault::JumpTooFar { line });
            }
            let offset = (index - at - 1) as u64;
            if offset >= limit {
                return Err(TextFault::JumpTooFar { line });
            }
            Ok(offset)
        }
    }
}

/// The instruction at an index, with its labels resolved.
fn resolve(
    symbols: &SymbolTable<'_>,
    written: &NumberedInsn<'_>,
    at: usize,
) -> Result<Insn, TextFault>
    ensures { TellsInsn (indices_view symbols.now) at written.now.line (parsed_view written.now.parsed) result }
{
    let line = written.line;
    let parsed = written.parsed;
    let jt = value_of(symbols, parsed.jt, at, 1 << 8, line)?;
    let jf = value_of(symbols, parsed.jf, at, 1 << 8, line)?;
    let k = value_of(symbols, parsed.k, at, 1 << 32, line)?;
    Ok(Insn {
        code: parsed.code as u16,
        jt: jt as u8,
        jf: jf as u8,
        k: k as u32,
    })
}

/// All instructions, with their labels resolved.
fn resolve_all(alloc: Global, symbols: &SymbolTable<'_>) -> Result<Vec<Insn>, TextFault>
    ensures tells { TellsInsns
        (targets_fault (indices_view symbols.now) 0 (parsed_insns_view symbols.now.parsed_insns.now))
        (indices_view symbols.now) (parsed_insns_view symbols.now.parsed_insns.now) result }
    ensures some { OnErr result (0 < length symbols.now.parsed_insns.now) }
{
    let mut insns = Vec::new(alloc);
    for (at, parsed) in symbols.parsed_insns.iter().enumerate() {
        insns.push(resolve(symbols, parsed, at)?)?;
    }
    Ok(insns)
}

/// Parses the statements of an ASCII text: its sorted labels, and its instructions.
///
/// A repeated label stands in no statement behind the one at which parsing ended, and in that one its fault comes
/// first.
fn read_statements<'a>(
    alloc: Global,
    text: &'a [u8],
) -> Result<(Vec<usize>, Vec<NumberedInsn<'a>>), TextFault>
    ensures read { IfOk result (λ read. IsRead text.now read.0.items read.1.items) }
    ensures fault { IfErr result (λ e. IsFault e (statements_fault [] (statements_of text.now))) }
    ensures some { OnErr result (HaveTokens (statements_of text.now)) }
{
    let mut labels = Vec::new(alloc);
    let mut parsed_insns = Vec::new(alloc);
    let read = read_text(text, &mut labels, &mut parsed_insns);
    check_labels(text, &mut labels)?;
    read?;
    Ok((labels, parsed_insns))
}

/// Assembles an ASCII text.
fn read_all(alloc: Global, text: &[u8]) -> Result<Vec<Insn>, TextFault>
    ensures tells { ascii_fault 1 text.now ≡ None → TellsText (fault_of text.now) text.now result }
    ensures some { OnErr result (HaveTokens (statements_of text.now)) }
{
    let (labels, parsed_insns) = read_statements(alloc, text)?;
    resolve_all(
        alloc,
        &SymbolTable {
            text,
            labels: &labels,
            parsed_insns: &parsed_insns,
        },
    )
}

/// Assembles a text: the instructions that it spells, at most 4096.
///
/// An error is the text's first fault: a byte that isn't ASCII; then the first statement with a repeated label, no
/// mnemonic, operands that its mnemonic doesn't take, a number that doesn't fit, or the 4097th instruction; then the
/// first jump to a label that is undefined or out of reach. `Memory` comes if an allocation failed; never for a text
/// that isn't ASCII or has no token.
#[tactic(auto, using(crate::proofs::TextLemmas::ascii_fails, crate::proofs::TextLemmas::is_spelled, crate::proofs::TextLemmas::is_not_spelled, crate::proofs::WantedLemmas::words_tokens))]
pub fn assemble(alloc: Global, text: &[u8]) -> Result<Vec<Insn>, TextFault>
    ensures spelled { IfOk result (λ insns. Spells text.now insns.items) }
    // An error is out of memory, or the first fault of the text.
    ensures fault { IfErr result (λ e. IsFault e (fault_of text.now)) }
    // A text that isn't ASCII is refused for that: nothing was allocated before.
    ensures ascii { (e : TextFault) → ascii_fault 1 text.now ≡ Some e → result ≡ Err e }
    // Nothing is allocated for a text without tokens.
    ensures wanted { result ≡ Err TextFault.Memory → tokens_of text.now ≢ [] }
    // A text with a fault spells no instructions.
    ensures none { IfErr result (λ e. e ≢ TextFault.Memory → (insns : List Insn) → Spells text.now insns → ⊥) }
{
    check_ascii(text)?;
    read_all(alloc, text)
}
