//! Parts of a line, token by token.
ghost use Rattle.std.specs.Prelude.{◌≡◌};
ghost use Rattle.scf_text.specs.internal.Parts.{words_in, others_in, words_at, others_at};
ghost use Rattle.scf_text.specs.internal.Symbols.{LiesBehind, BeginsAt};

use crate::token::{Token, first_token};

/// A part of a line, without its comment: from the beginning of a statement to the end.
#[derive(Clone, Copy)]
pub(crate) struct LinePart<'a> {
    /// The line, counted from 1.
    pub(crate) line: usize,
    /// The offset in the text.
    pub(crate) start: usize,
    pub(crate) bytes: &'a [u8],
}

/// The beginning of a part.
#[derive(Clone, Copy)]
pub(crate) enum Next<'a> {
    /// A token, with its offset in the part, and the text behind it.
    Token(Token<'a>, &'a [u8]),
    /// The end of a statement, and the text behind its `;`.
    End(Option<&'a [u8]>),
}

/// The beginning of a part of a line.
#[tactic(auto, using(crate::proofs::IndexLemmas::token_behind))]
pub(crate) fn front(part: &[u8]) -> Next<'_>
    ensures words { (words_in part.now ≡ words_at result) × (others_in part.now ≡ others_at result) }
    ensures behind { LiesBehind part.now 0 result }
    ensures word { BeginsAt part.now result }
{
    let Some(token) = first_token(part) else {
        return Next::End(None);
    };
    let behind = &part[token.start + token.text.len()..];
    if token.text == b";".as_slice() {
        Next::End(Some(behind))
    } else {
        Next::Token(token, behind)
    }
}
