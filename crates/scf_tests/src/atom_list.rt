//! What `AtomList` finds. Contracts say that what it tells and picks is true, and what a comparison by it finds; they
//! don't say when something is found.

use Tell::{Always, Maybe, Never};
use scf_compare::{Finding, Limit, Side, Splits, compare_sides};
use scf_facts::{Atom, AtomList, Tell, WordFacts};
use scf_machine::{Program, check};
use scf_profile::{Relation, Scope};
use scf_text::assemble;
use std::alloc::Global;
use std::process::Abort;
use std::slice;

const ALL_BITS: u32 = u32::MAX;

/// A word's number.
macro_rules! is {
    ($word:expr, $value:expr) => {
        Atom::Eq { word: $word, mask: ALL_BITS, value: $value }
    };
}

/// Bits of a word.
macro_rules! equal {
    ($word:expr, $mask:expr, $value:expr) => {
        Atom::Eq { word: $word, mask: $mask, value: $value }
    };
}

macro_rules! above {
    ($word:expr, $value:expr) => {
        Atom::Gt { word: $word, value: $value }
    };
}

macro_rules! at_least {
    ($word:expr, $value:expr) => {
        Atom::Ge { word: $word, value: $value }
    };
}

macro_rules! within {
    ($word:expr, $low:expr, $high:expr) => {
        Atom::In { word: $word, low: $low, high: $high }
    };
}

/// Answers that are learned, one after another.
const LEARNED: &[(Atom, bool)] = &[
    (is!(4, 7), true),
    (equal!(5, 0xff, 1), false),
    (at_least!(6, 9), true),
    (within!(6, 9, 12), false),
];

/// The answers of `tell` then: what the number of word 4 decides, an atom that was learned, and nothing else.
const ANSWERS: &[(Atom, Tell)] = &[
    (is!(4, 7), Always),
    (is!(4, 8), Never),
    (equal!(4, 3, 3), Always),
    (equal!(4, 4, 0), Never),
    (equal!(0, 0, 1), Never),
    (above!(4, 6), Always),
    (above!(4, 7), Never),
    (within!(4, 7, 7), Always),
    (within!(4, 8, ALL_BITS), Never),
    (equal!(5, 0xff, 1), Never),
    (equal!(5, 0xff, 2), Maybe),
    (at_least!(6, 9), Always),
    (at_least!(6, 8), Maybe),
    (within!(6, 9, 12), Never),
];

fn learned() -> &'static [(Atom, bool)] {
    LEARNED
}

fn answers() -> &'static [(Atom, Tell)] {
    ANSWERS
}

/// Learns an answer of an atom.
fn learn(rt: &impl Abort, facts: &mut AtomList, atom: Atom, holds: bool) {
    assert!(rt; atom.word() < 16);
    facts.learn(atom, holds).expect(rt, "no fault");
}

/// That this is told of an atom.
fn tells(rt: &impl Abort, facts: &AtomList, atom: Atom, wanted: Tell) {
    let word = atom.word();
    assert!(rt; word < 16);
    assert!(rt; facts.tell(atom) == wanted, "word {word}");
}

/// That these are words 0 and 4 of what is picked.
fn picks(rt: &impl Abort, facts: &AtomList, word_0: u32, word_4: u32) {
    let words = facts.pick().expect(rt, "words");
    assert!(rt; words[0] == word_0 && words[4] == word_4);
}

#[test]
fn a_list_tells_what_it_learned(rt: HostRuntime) {
    let mut facts = AtomList::all(rt.alloc()).expect(&rt, "no fault");
    for (atom, holds) in learned() {
        learn(&rt, &mut facts, *atom, *holds);
    }
    for (atom, wanted) in answers() {
        tells(&rt, &facts, *atom, *wanted);
    }
}

#[test]
fn a_list_picks_what_it_learned(rt: HostRuntime) {
    let mut facts = AtomList::all(rt.alloc()).expect(&rt, "no fault");
    picks(&rt, &facts, 0, 0);
    learn(&rt, &mut facts, is!(4, 9), true);
    learn(&rt, &mut facts, above!(0, 5), false);
    picks(&rt, &facts, 0, 9);
}

/// Two filters that ask for a number and an architecture in either order, and one that asks for the number alone.
const NUMBER_FIRST: &str =
    "ld [0]; jeq #1, 0, 3; ld [4]; jeq #0xc000003e, 0, 1; ret #0x50001; ret #0x7fff0000";

const NUMBER_LAST: &str =
    "ld [4]; jeq #0xc000003e, 0, 3; ld [0]; jeq #1, 0, 1; ret #0x50001; ret #0x7fff0000";

const NUMBER_ALONE: &str = "ld [0]; jeq #1, 0, 1; ret #0x50001; ret #0x7fff0000";

fn filter_of(rt: &impl Abort, alloc: Global, text: &str) -> Program {
    let list = assemble(alloc, text.as_bytes()).expect(rt, "no fault");
    check(alloc, list).ok().expect(rt, "no fault")
}

/// What a comparison with the filter `NUMBER_FIRST` finds without a split.
fn finding_of(rt: &impl Abort, alloc: Global, text: &str, steps: u64) -> Finding {
    let (left, right) = (
        filter_of(rt, alloc, NUMBER_FIRST),
        filter_of(rt, alloc, text),
    );
    compare_sides::<AtomList>(
        alloc,
        &Side::Stack(slice::from_ref(&left)),
        &Side::Stack(slice::from_ref(&right)),
        Scope::All,
        Relation::Same,
        Limit {
            steps,
            splits: Splits::AtMost(0),
        },
    )
    .expect(rt, "no fault")
}

/// How many steps it took to find that all answers are the same.
fn steps_of(rt: &impl Abort, alloc: Global, limit: u64) -> Option<u64> {
    match finding_of(rt, alloc, NUMBER_LAST, limit) {
        Finding::Holds { steps } => Some(steps),
        _ => None,
    }
}

/// A comparison is decided by what was learned, and within the steps that it takes alone.
#[test]
fn a_list_decides(rt: HostRuntime) {
    let steps = steps_of(&rt, rt.alloc(), u64::MAX).expect(&rt, "the same");
    assert!(rt; steps_of(&rt, rt.alloc(), steps) == Some(steps));
    assert!(rt; steps_of(&rt, rt.alloc(), steps.saturating_sub(1)).is_none());
    let finding = finding_of(&rt, rt.alloc(), NUMBER_ALONE, u64::MAX);
    assert!(rt; matches!(finding, Finding::Fails { .. }));
}
