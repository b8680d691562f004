//! Parsed instructions: an operand format filled with fields.
ghost use Rattle.std.specs.Prelude.{◌≡◌, IfSome, Some, None, if◌then◌else◌};
ghost use Rattle.std.specs.Option.{option_map};
ghost use Rattle.std.specs.List.{list_any};
ghost use Rattle.std.specs.Str.{bytes_eq};
ghost use Rattle.scf_text.specs.Encodings.{encodings};
ghost use Rattle.scf_text.specs.ParsedInsns.{is_name, with_field, spellings, put_by, fill_by, has_mnemonic};
ghost use Rattle.scf_text.specs.ParsedInsns.{blank, field_number, read_by, is_below, is_in_range};
ghost use Rattle.scf_text.specs.ParsedInsns as written;
ghost use Rattle.scf_text.specs.internal.Parts.{words_in, others_in, statements_after};
ghost use Rattle.scf_text.specs.internal.Symbols.{FollowsBehind};
ghost use Rattle.scf_text.specs.internal.Results.{Reads};
ghost use Rattle.scf_text.specs.internal.Views.{encoding_view, field_value_view, parsed_view};

use crate::encoding::{Encoding, Field, Piece};
use crate::fault::TextFault;
use crate::part::{Next, front};
use scf_insn::{NumeralFault, parse_number};

/// The text of a field: a number, or a label.
#[derive(Clone, Copy)]
pub(crate) enum FieldValue<'a> {
    /// A number; 2^64-1 in place of a larger one, since neither fits a field.
    Number(u64),
    Label(&'a [u8]),
}

/// An instruction as parsed, before labels are resolved.
#[derive(Clone, Copy)]
pub(crate) struct ParsedInsn<'a> {
    pub code: u64,
    pub jt: FieldValue<'a>,
    pub jf: FieldValue<'a>,
    pub k: FieldValue<'a>,
}

impl<'a> FieldValue<'a> {
    /// Whether this is a number below the limit, or a label.
    fn is_below(self, limit: u64) -> bool
        ensures { result ≡ is_below limit (field_value_view self.entry) }
    {
        match self {
            FieldValue::Number(number) => number < limit,
            FieldValue::Label(_) => true,
        }
    }
}

/// Whether the token is a name: it begins with a letter or `_`.
pub(crate) fn is_token_name(token: &[u8]) -> bool
    ensures { result ≡ is_name token.now }
{
    match token {
        [first, ..] => first.is_ascii_alphabetic() || *first == b'_',
        [] => false,
    }
}

impl<'a> ParsedInsn<'a> {
    /// An instruction whose fields are all 0.
    pub(crate) fn blank(encoding: Encoding) -> ParsedInsn<'a>
        ensures { parsed_view result ≡ blank (encoding_view encoding) }
    {
        let zero = FieldValue::Number(0);
        ParsedInsn {
            code: encoding.code as u64,
            jt: zero,
            jf: zero,
            k: zero,
        }
    }

    /// Sets a field.
    fn set_field(&mut self, field: Field, operand: FieldValue<'a>)
        ensures { parsed_view self.new ≡ with_field field (field_value_view operand.entry) (parsed_view self.old) }
    {
        match field {
            Field::Code => match operand {
                FieldValue::Number(code) => self.code = code,
                FieldValue::Label(_) => {}
            },
            Field::Jt => self.jt = operand,
            Field::Jf => self.jf = operand,
            Field::K => self.k = operand,
        }
    }
}

/// Whether the token spells a piece that isn't a field.
fn is_spelling(piece: Piece, token: &[u8]) -> bool
    ensures { result ≡ list_any (bytes_eq token.now) (spellings piece) }
{
    match piece {
        Piece::Mark(byte) => token == [byte].as_slice(),
        Piece::Len => token == b"len".as_slice(),
        Piece::Accumulator => matches!(token, [b'a' | b'A']),
        Piece::Index => matches!(token, [b'x' | b'X']),
        Piece::Number(..) | Piece::Target(_) => false,
    }
}

/// Sets a field to the number that a token spells, if it spells one.
#[tactic(auto, unfolding(crate::specs::ParsedInsns::field_number))]
fn put_number<'a>(parsed: &mut ParsedInsn<'a>, field: Field, token: &'a [u8]) -> bool
    ensures { option_map (λ n. with_field field (written.Number n) (parsed_view parsed.old)) (field_number token.now)
        ≡ (if result then Some (parsed_view parsed.new) else None) }
{
    let number = match parse_number(token) {
        Ok(number) => number,
        Err(NumeralFault::TooLarge) => u64::MAX,
        Err(NumeralFault::Malformed) => return false,
    };
    parsed.set_field(field, FieldValue::Number(number));
    true
}

/// Matches a token with a piece; a field is set.
fn put<'a>(parsed: &mut ParsedInsn<'a>, piece: Piece, token: &'a [u8]) -> bool
    ensures { put_by field_number piece token.now (parsed_view parsed.old)
        ≡ (if result then Some (parsed_view parsed.new) else None) }
{
    match piece {
        Piece::Number(field, _) => put_number(parsed, field, token),
        Piece::Target(field) => {
            if !is_token_name(token) {
                return put_number(parsed, field, token);
            }
            parsed.set_field(field, FieldValue::Label(token));
            true
        }
        Piece::Mark(_) | Piece::Len | Piece::Accumulator | Piece::Index => {
            is_spelling(piece, token)
        }
    }
}

/// Matches the tokens of a statement with pieces, and returns the text behind the statement.
#[tactic(auto, using(crate::proofs::IndexLemmas::follows_behind))]
fn fill<'a>(
    parsed: &mut ParsedInsn<'a>,
    pieces: &[Piece],
    part: &'a [u8],
) -> Option<Option<&'a [u8]>>
    ensures fills { fill_by field_number pieces.now (words_in part.now) (parsed_view parsed.old)
        ≡ option_map (λ _. parsed_view parsed.new) result }
    ensures stops { IfSome result (λ after. others_in part.now ≡ statements_after after) }
    ensures behind { IfSome result (λ after. FollowsBehind part.now 0 after) }
{
    let mut remaining = part;
    for piece in pieces {
        match front(remaining) {
            Next::End(_) => return None,
            Next::Token(token, behind) => {
                if !put(parsed, *piece, token.text) {
                    return None;
                }
                remaining = behind;
            }
        }
    }
    match front(remaining) {
        Next::End(after) => Some(after),
        Next::Token(..) => None,
    }
}

/// Parses a mnemonic and its operands by the first encoding of the mnemonic whose format they have, and returns the
/// text behind the statement.
pub(crate) fn read<'a>(
    parsed: &mut ParsedInsn<'a>,
    mnemonic: &[u8],
    part: &'a [u8],
    line: usize,
) -> Result<Option<&'a [u8]>, TextFault>
    ensures { Reads line (list_any (has_mnemonic mnemonic.now) encodings)
        (read_by field_number encodings mnemonic.now (words_in part.now)) part.now (parsed_view parsed.new) result }
{
    let mut is_known = false;
    for encoding in Encoding::all() {
        if !encoding.has_mnemonic(mnemonic) {
            continue;
        }
        *parsed = ParsedInsn::blank(*encoding);
        if let Some(after) = fill(parsed, encoding.pieces, part) {
            return Ok(after);
        }
        is_known = true;
    }
    if is_known {
        Err(TextFault::Operand { line })
    } else {
        Err(TextFault::Mnemonic { line })
    }
}

impl<'a> ParsedInsn<'a> {
    /// Whether each number fits its field.
    pub(crate) fn is_in_range(self) -> bool
        ensures { result ≡ is_in_range (parsed_view self.entry) }
    {
        self.code < 1 << 16
            && self.jt.is_below(1 << 8)
            && self.jf.is_below(1 << 8)
            && self.k.is_below(1 << 32)
    }
}
