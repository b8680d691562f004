//! The explorer: a depth-first walk of a comparison's tree.

ghost use Rattle.std.specs.Prelude.{◌≡◌, ◌↔◌, ℕ, List, IsTrue, false, IfOk, IfSome, IfNone};
ghost use Rattle.scf_insn.specs.Words.{IsRecord, words_of};
ghost use Rattle.scf_facts.specs.Masks.{AreFew};
ghost use Rattle.scf_compare.specs.Findings.{WordsRelated};
ghost use Rattle.scf_compare.specs.Leaves.{IsLeaf, KnowsBoth, Tells};
ghost use Rattle.scf_compare.specs.internal.Leaves.{AreWordsIn, IsFirstUndecided, IsUndecidedLeaf, told_end};
ghost use Rattle.scf_compare.specs.internal.Frontier.{IsFrontier};
ghost use Rattle.scf_compare.specs.internal.Stages.{IsAdvanced, IsExplored, IsFound, IsJudged, finding_of_all};

use crate::comparison::{Comparison, PairLeaf};
use crate::finding::{Finding, Which};
use crate::frontier::{Frontier, Stage, ask, pass_on, take_branch};
use crate::step::Step;
use scf_facts::WordFacts;
use scf_insn::{CallRecord, Memory};
use std::alloc::Global;

/// What is found at a leaf.
#[derive(Clone, Copy)]
pub(crate) enum Judged {
    /// The relation holds of the answers to all words that come to it.
    Related,
    /// A record shows that it doesn't hold.
    Fails(Finding),
    /// Neither is known.
    Open,
}

/// Whether both answers are known at a leaf, and the relation holds of them.
fn is_related<C: Comparison>(comparison: &C, leaf: PairLeaf) -> bool
    ensures related { let compared = C.compared comparison.now in IsTrue result
        → (words : List ℕ) → Tells compared.left compared.right leaf words → WordsRelated compared words }
    ensures undecided { result ≡ false → IsUndecidedLeaf (C.compared comparison.now) leaf }
{
    match (leaf.left.answer, leaf.right.answer) {
        (Some(left), Some(right)) => comparison.relates(left, right),
        _ => false,
    }
}

/// Where a leaf is undecided: on the left side, unless only the right one's answer isn't known.
fn open_end_of<C: Comparison>(comparison: &C, leaf: PairLeaf) -> (Which, usize)
    requires { let compared = C.compared comparison.now in IsLeaf compared.left compared.right leaf }
    ensures open { IsFirstUndecided (C.compared comparison.now) result }
    ensures told { result ≡ told_end leaf }
{
    let _ = comparison;
    match (leaf.left.answer, leaf.right.answer) {
        (Some(_), None) => (Which::Right, leaf.right.origin.index()),
        _ => (Which::Left, leaf.left.origin.index()),
    }
}

/// The difference that a call of the scope shows, once both sides have answered it.
pub(crate) fn difference_by<C: Comparison>(comparison: &C, call: CallRecord) -> Option<Finding>
    requires record { IsRecord call }
    requires scope { (C.compared comparison.now).in_scope call }
    ensures found { IfSome result (IsFound (C.compared comparison.now)) }
    ensures related { IfNone result (WordsRelated (C.compared comparison.now) (words_of call)) }
    ensures each { let compared = C.compared comparison.now in
        IfNone result ((left right : ℕ) → compared.left.answers (words_of call) left
        → compared.right.answers (words_of call) right → compared.related left right) }
{
    let (left, right) = comparison.answers(&call);
    if comparison.relates(left, right) {
        None
    } else {
        Some(Finding::Fails { call, left, right })
    }
}

/// Judges a leaf by what the store knows there. A record is shown only after both sides answered it.
pub(crate) fn judge<C: Comparison, F: WordFacts>(
    comparison: &C,
    facts: &F,
    leaf: PairLeaf,
) -> Judged
    requires { (words : List ℕ) → F.allows facts.now (F.level facts.now) words
        → AreWordsIn (C.compared comparison.now) words }
    ensures judged { let compared = C.compared comparison.now in IsJudged compared
        (λ words. F.allows facts.now (F.level facts.now) words × Tells compared.left compared.right leaf words) result }
    ensures exact { let compared = C.compared comparison.now in
        (masks : ℕ) → AreFew masks → F.refutes_among facts.now (F.level facts.now) masks → KnowsBoth leaf
        → ((words : List ℕ) → F.allows facts.now (F.level facts.now) words
        → Tells compared.left compared.right leaf words)
        → result ≡ Judged.Open → ⊥ }
{
    if is_related(comparison, leaf) || facts.is_empty() {
        return Judged::Related;
    }
    let Some(words) = facts.pick() else {
        return Judged::Open;
    };
    match difference_by(comparison, CallRecord::from_words(&words)) {
        Some(finding) => Judged::Fails(finding),
        None => Judged::Open,
    }
}

/// One step of the walk from a node. A leaf is judged, and the newest open branch is taken. If the store doesn't decide
/// the leaf, its side and instruction index are kept as the first undecided ones, unless there were some before.
fn advance<C: Comparison, F: WordFacts>(
    comparison: &C,
    frontier: &mut Frontier<F, C::Known, C::Node>,
    known: &mut C::Known,
    node: C::Node,
    first_undecided: &mut Option<(Which, usize)>,
) -> Result<Stage<C::Node>, Memory>
    requires frontier { IsFrontier F.WordFacts (C.tree comparison.now)
        (AreWordsIn (C.compared comparison.now)) frontier.old }
    requires node { (C.tree comparison.now known.old).is_node node }
    requires index { IfSome first_undecided.old (IsFirstUndecided (C.compared comparison.now)) }
    ensures { let tree = C.tree comparison.now in
        IfOk result (IsAdvanced F.WordFacts (C.compared comparison.now) tree frontier.old frontier.new
        (tree known.old) node (tree known.new) first_undecided.old first_undecided.new) }
{
    match comparison.step(&frontier.facts, known, &node) {
        Step::Next(next) => Ok(Stage::At(next)),
        Step::Branch(atom, if_true, if_false) => {
            let next = ask(comparison, frontier, known, atom, if_true, if_false)?;
            Ok(Stage::At(next))
        }
        Step::Leaf(leaf) => match judge(comparison, &frontier.facts, leaf) {
            Judged::Related => take_branch(comparison, frontier, known),
            Judged::Fails(finding) => Ok(Stage::Found(finding)),
            Judged::Open => {
                *first_undecided = first_undecided.or(Some(open_end_of(comparison, leaf)));
                take_branch(comparison, frontier, known)
            }
        },
    }
}

/// Walks the whole tree from a node, with what is known there, for the words that the store allows.
///
/// An undecided leaf doesn't end the walk: another leaf may show a difference. `taken` becomes the count of steps, with
/// those that are passed.
pub(crate) fn explore<C: Comparison, F: WordFacts>(
    alloc: Global,
    comparison: &C,
    facts: F,
    start: C::Known,
    root: C::Node,
    limit: u64,
    taken: &mut u64,
) -> Result<Finding, Memory>
    requires node { (C.tree comparison.now start).is_node root }
    requires unmarked { F.level facts ≡ 0 }
    requires scope { (words : List ℕ) → F.allows facts 0 words ↔ AreWordsIn (C.compared comparison.now) words }
    requires reached { (words : List ℕ) → AreWordsIn (C.compared comparison.now) words
        → (C.tree comparison.now start).reaches root words }
    ensures { let tree = C.tree comparison.now start in
        IfOk result (IsExplored (C.compared comparison.now)
        (λ masks. AreFew masks × F.refutes_among facts 0 masks × tree.is_plain masks root)
        limit (tree.size root) taken.new) }
{
    let mut frontier = Frontier::new(alloc, facts);
    let mut known = start;
    let mut node = root;
    let mut first_undecided = None;
    let mut steps = 0;
    let mut open_before = 0;
    while steps < limit {
        let most = limit - steps - 1;
        let passed = pass_on(
            comparison,
            &frontier,
            open_before,
            &mut known,
            &mut node,
            most,
        );
        steps += passed + 1;
        open_before = frontier.branches.len();
        match advance(
            comparison,
            &mut frontier,
            &mut known,
            node,
            &mut first_undecided,
        )? {
            Stage::At(next) => node = next,
            Stage::AllSeen => {
                *taken = steps;
                return Ok(seen_in(steps, first_undecided));
            }
            Stage::Found(finding) => {
                *taken = steps;
                return Ok(finding);
            }
        }
    }
    *taken = limit;
    Ok(Finding::Unfinished)
}

/// The finding after everything was seen in `steps` steps.
fn seen_in(steps: u64, first_undecided: Option<(Which, usize)>) -> Finding
    ensures { result ≡ finding_of_all steps first_undecided }
{
    match first_undecided {
        Some((side, at)) => Finding::Undecided { side, at },
        None => Finding::Holds { steps },
    }
}
