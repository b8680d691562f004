//! Laws of texts and the instructions that they spell.
ghost use Rattle.std.specs.Prelude.{◌≡◌, ◌≤◌, ℕ, List, length, map};
ghost use Rattle.std.specs.List.{AllByRecursion, flat_map};
ghost use Rattle.scf_insn.specs.declared.insn.Insn.{Insn};
ghost use Rattle.scf_insn.specs.Insn.{IsInsn};
ghost use Rattle.scf_insn.specs.Kernel.{bpf_maxinsns};
ghost use Rattle.scf_text.specs.Tokens.{Lexeme, lines_of, tokens_of, words_of_line};
ghost use Rattle.scf_text.specs.Spelling.{Spells};
ghost use Rattle.scf_text.specs.Listing.{text_of};

/// A text spells at most one list.
#[tactic(auto, using(crate::proofs::LawLemmas::one_said))]
pub fn one_spelling()
    ensures { (text : List ℕ) (a b : List Insn) → Spells text a → Spells text b → a ≡ b }
{}

/// The canonical text of instructions, of which there are at most as many as a filter may have, spells them.
#[tactic(auto, using(crate::proofs::RoundTrip::round_trip))]
pub fn listing_spells()
    ensures { (insns : List Insn) → AllByRecursion IsInsn insns → length insns ≤ bpf_maxinsns
        → Spells (text_of insns) insns }
{}

/// The assembler works on the tokens: the words of the lines of a text, in order, are the texts of its tokens.
#[tactic(auto, using(crate::proofs::TokenLemmas::words_are_tokens))]
pub fn words_are_tokens()
    ensures { (text : List ℕ) → map (λ (t : Lexeme). t.text) (tokens_of text) ≡ flat_map words_of_line (lines_of text) }
{}
