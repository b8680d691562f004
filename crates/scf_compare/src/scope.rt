//! The scope of a comparison.

ghost use Rattle.std.specs.Prelude.{◌≡◌, ◌≤◌, ◌↔◌, ℕ, List, IsTrue, IfOk};
ghost use Rattle.scf_insn.specs.Architectures.{IsOf, row_of};
ghost use Rattle.scf_insn.specs.Words.{IsWords, call_of};
ghost use Rattle.scf_profile.specs.Scope.{IsInScope};

use crate::asking::{number_from, word_is};
use scf_facts::{Atom, WordFacts};
use scf_insn::{Architecture, CallRecord, Memory};
use scf_profile::Scope;
use std::alloc::Global;

/// A store that allows exactly the words of the records in the scope.
#[tactic(auto, using(crate::proofs::Bits::whole_words))]
pub(crate) fn facts_of<F: WordFacts>(alloc: Global, scope: Scope) -> Result<F, Memory>
    ensures unmarked { IfOk result (λ facts. F.level facts ≡ 0) }
    ensures scope { IfOk result (λ facts. (words : List ℕ)
        → F.allows facts 0 words ↔ (IsWords words × IsInScope scope (call_of words))) }
    ensures among { IfOk result (λ facts. IsTrue F.starts_exact → (masks : ℕ) → F.refutes_among facts 0 masks) }
{
    match scope {
        Scope::All => F::all(alloc),
        Scope::Native => facts_of_architecture(alloc, Architecture::X8664),
        Scope::Numbers {
            architecture,
            first,
            last,
        } => facts_of_numbers(alloc, architecture, first, last),
    }
}

/// Whether a call is one of the scope.
pub(crate) fn is_in_scope(scope: Scope, call: &CallRecord) -> bool
    ensures { IsTrue result ↔ IsInScope scope call.now }
{
    match scope {
        Scope::All => true,
        Scope::Native => Architecture::X8664.has(call),
        Scope::Numbers {
            architecture,
            first,
            last,
        } => architecture.has(call) && first <= call.nr && call.nr <= last,
    }
}

/// A store that allows exactly the words of an architecture's records. It learns the answers to what a profile's tree
/// asks first, so that every store knows them.
#[tactic(auto, using(crate::proofs::Bits::whole_words, scf_insn::proofs::CallWords::word_below))]
fn facts_of_architecture<F: WordFacts>(
    alloc: Global,
    architecture: Architecture,
) -> Result<F, Memory>
    ensures unmarked { IfOk result (λ facts. F.level facts ≡ 0) }
    ensures scope { IfOk result (λ facts. (words : List ℕ)
        → F.allows facts 0 words ↔ (IsWords words × IsOf architecture (call_of words))) }
    ensures among { IfOk result (λ facts. IsTrue F.starts_exact → (masks : ℕ) → F.refutes_among facts 0 masks) }
{
    let last = architecture.last();
    let mut facts: F = F::all(alloc)?;
    facts.learn(word_is(1, architecture.audit()), true)?;
    facts.learn(number_from(architecture.first()), true)?;
    if last == u32::MAX {
        return Ok(facts);
    }
    let passes_last = number_from(last + 1);
    facts.learn(passes_last, false)?;
    Ok(facts)
}

/// A store that allows exactly the words of an architecture's records with one of its syscall numbers.
#[tactic(auto, using(crate::proofs::Bits::whole_words, scf_insn::proofs::CallWords::word_below))]
fn facts_of_number<F: WordFacts>(
    alloc: Global,
    architecture: Architecture,
    number: u32,
) -> Result<F, Memory>
    requires first { (row_of architecture).first ≤ number }
    requires last { number ≤ (row_of architecture).last }
    ensures unmarked { IfOk result (λ facts. F.level facts ≡ 0) }
    ensures scope { IfOk result (λ facts. (words : List ℕ)
        → F.allows facts 0 words
        ↔ (IsWords words × IsInScope (Scope.Numbers architecture number number) (call_of words))) }
    ensures among { IfOk result (λ facts. IsTrue F.starts_exact → (masks : ℕ) → F.refutes_among facts 0 masks) }
{
    let mut facts: F = F::all(alloc)?;
    facts.learn(word_is(1, architecture.audit()), true)?;
    facts.learn(word_is(0, number), true)?;
    Ok(facts)
}

/// A store that allows exactly the words of an architecture's records with a syscall number from `first` to `last`.
fn facts_of_numbers<F: WordFacts>(
    alloc: Global,
    architecture: Architecture,
    first: u32,
    last: u32,
) -> Result<F, Memory>
    ensures unmarked { IfOk result (λ facts. F.level facts ≡ 0) }
    ensures scope { IfOk result (λ facts. (words : List ℕ)
        → F.allows facts 0 words
        ↔ (IsWords words × IsInScope (Scope.Numbers architecture first last) (call_of words))) }
    ensures among { IfOk result (λ facts. IsTrue F.starts_exact → (masks : ℕ) → F.refutes_among facts 0 masks) }
{
    if first == last && architecture.first() <= first && first <= architecture.last() {
        return facts_of_number(alloc, architecture, first);
    }
    let is_past_last = Atom::Gt {
        word: 0,
        value: last,
    };
    let mut facts: F = facts_of_architecture(alloc, architecture)?;
    facts.learn(number_from(first), true)?;
    facts.learn(is_past_last, false)?;
    Ok(facts)
}
