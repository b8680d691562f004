//! The tokens of a text.
ghost use Rattle.std.specs.Prelude.{◌≡◌, ◌≢◌, ℕ, ◌+◌, ◌≤◌, ◌<◌, ◌^◌, ◌++◌, ◌∷◌, [], not, true, length, drop};
ghost use Rattle.std.specs.Prelude.{OnOk, OnErr, IfOk, IfSome, MatchOption};
ghost use Rattle.std.specs.List.{All, prefix_len, take_while};
ghost use Rattle.scf_text.specs.Characters.{is_line_end, is_blank, is_word_byte};
ghost use Rattle.scf_text.specs.ParsedInsns.{is_name};
ghost use Rattle.scf_text.specs.Tokens.{before_comment, lexemes_from, lines_of, tokens_of};
ghost use Rattle.scf_text.specs.Tokens.{IsSliceOf, lexemes};
ghost use Rattle.scf_text.specs.internal.Parts.{lines_after};
ghost use Rattle.scf_text.specs.internal.Symbols.{count_ends, name_at};

use scf_insn::Memory;
use std::alloc::{AllocError, Global};

/// A token: a slice of the text, and its offset.
#[derive(Clone, Copy)]
pub struct Token<'a> {
    pub start: usize,
    pub text: &'a [u8],
}

pub(crate) fn is_of_word(byte: u8) -> bool
    ensures { result ≡ is_word_byte byte }
{
    byte.is_ascii_alphanumeric() || byte == b'_'
}

/// The count of bytes before the first line end.
fn line_len(text: &[u8]) -> usize
    ensures { result ≡ prefix_len (λ b. not (is_line_end b)) text.now }
{
    text.iter().take_while(|byte| **byte != b'\n').count()
}

/// The first line, and the text behind its end.
#[tactic(auto, using(crate::proofs::TokenLemmas::lines_in_front))]
pub(crate) fn first_line(text: &[u8]) -> (&[u8], Option<&[u8]>)
    ensures lines { lines_of text.now ≡ result.0.now ∷ lines_after result.1 }
    ensures len { MatchOption result.1 (result.0.now ≡ text.now)
        (λ behind. length text.now ≡ length result.0.now + 1 + length behind.now) }
    ensures whole { MatchOption result.1 (text.now ≡ result.0.now)
        (λ behind. text.now ≡ result.0.now ++ 10 ∷ behind.now) }
    ensures unbroken { count_ends result.0.now ≡ 0 }
{
    let len = line_len(text);
    if len < text.len() {
        (&text[..len], Some(&text[len + 1..]))
    } else {
        (text, None)
    }
}

/// The line without its comment.
#[tactic(auto, using(crate::proofs::TokenLemmas::comment_step))]
pub(crate) fn without_comment(line: &[u8]) -> &[u8]
    ensures value { result.now ≡ before_comment line.now }
    ensures len { length result.now ≤ length line.now }
{
    for end in 0..line.len() {
        if let [b'/', b'/', ..] = &line[end..] {
            return &line[..end];
        }
    }
    line
}

/// The count of leading blanks.
fn blanks_len(bytes: &[u8]) -> usize
    ensures value { result ≡ prefix_len is_blank bytes.now }
    ensures within { result ≤ length bytes.now }
{
    bytes
        .iter()
        .take_while(|byte| matches!(**byte, b' ' | b'\t' | b'\r'))
        .count()
}

/// The count of leading bytes of a word.
fn word_len(bytes: &[u8]) -> usize
    ensures value { result ≡ prefix_len is_word_byte bytes.now }
    ensures within { result ≤ length bytes.now }
{
    bytes.iter().take_while(|byte| is_of_word(**byte)).count()
}

/// The word in front of a text, which may be empty.
pub(crate) fn leading_word(text: &[u8]) -> &[u8]
    ensures { result.now ≡ take_while is_word_byte text.now }
{
    &text[..word_len(text)]
}

/// The first token of a part of a line, with its offset in the part.
#[tactic(auto, using(crate::proofs::TokenLemmas::token_is, crate::proofs::TokenLemmas::none_is))]
pub(crate) fn first_token(part: &[u8]) -> Option<Token<'_>>
    ensures token { MatchOption result ((at : ℕ) → lexemes_from at part.now ≡ []) (λ t. (at : ℕ)
        → lexemes_from at part.now ≡ (record { start = at + t.start; text = t.text.now })
        ∷ lexemes_from (at + (t.start + length t.text.now)) (drop (t.start + length t.text.now) part.now)) }
    ensures some { IfSome result (λ t. 0 < length t.text.now) }
    ensures word { IfSome result (λ t. is_name t.text.now ≡ true → name_at part.now t.start ≡ t.text.now) }
    ensures within { IfSome result (λ t. t.start + length t.text.now ≤ length part.now) }
{
    let start = blanks_len(part);
    if start == part.len() {
        return None;
    }
    let text = &part[start..];
    let len = word_len(text).max(1);
    Some(Token {
        start,
        text: &text[..len],
    })
}

/// Adds the tokens of a part of a line that begins at this offset.
pub(crate) fn push_tokens<'a>(
    tokens: &mut Vec<Token<'a>>,
    start: usize,
    part: &'a [u8],
) -> Result<(), AllocError>
    requires { start + length part.now < 2 ^ 64 }
    ensures tokens { OnOk result (lexemes tokens.new.items ≡ lexemes tokens.old.items ++ lexemes_from start part.now) }
    ensures refused { OnErr result (lexemes_from start part.now ≢ []) }
{
    let mut at = start;
    let mut remaining = part;
    while let Some(token) = first_token(remaining) {
        let len = token.start + token.text.len();
        tokens.push(Token {
            start: at + token.start,
            text: token.text,
        })?;
        at += len;
        remaining = &remaining[len..];
    }
    Ok(())
}

/// The tokens of a text, in order: the words, the numbers and the other single bytes that stand outside blanks, line
/// ends and comments. `;` is one of them, and so is a byte that isn't ASCII.
///
/// Each borrows its slice of the text. `Memory` comes if an allocation failed; never for a text without tokens.
///
/// `assemble` works on the same tokens: it looks for a byte that isn't ASCII first, then takes the tokens one by one
/// from the text, and stores the names of jump targets and the offset of each label.
#[tactic(auto, unfolding(crate::specs::Tokens::tokens_of))]
pub fn tokens(alloc: Global, text: &[u8]) -> Result<Vec<Token<'_>>, Memory>
    ensures pieces { IfOk result (λ tokens. lexemes tokens.items ≡ tokens_of text.now) }
    ensures slices { IfOk result (λ tokens. All (λ t. IsSliceOf text.now t.start t.text.now) tokens.items) }
    ensures refused { OnErr result (tokens_of text.now ≢ []) }
{
    let mut tokens = Vec::new(alloc);
    let mut start = 0;
    let mut remaining = text;
    'lines: loop {
        let (line, behind) = first_line(remaining);
        push_tokens(&mut tokens, start, without_comment(line))?;
        match behind {
            None => return Ok(tokens),
            Some(next) => {
                start += line.len() + 1;
                remaining = next;
            }
        }
    }
}
