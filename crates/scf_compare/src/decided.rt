//! Several steps of a side at once, where the store decides them.

ghost use Rattle.std.specs.Prelude.{IfNone, IfSome};
ghost use Rattle.scf_insn.specs.Words.{IsWords};
ghost use Rattle.scf_compare.specs.Leaves.{IsSideLeaf};
ghost use Rattle.scf_compare.specs.internal.Leaves.{side_leaves};
ghost use Rattle.scf_compare.specs.declared.step.Step.{Step};
ghost use Rattle.scf_compare.specs.internal.Trees.{Costs, IsLaterNode, IsProper, IsStep, pending_size, pending_tree};

use crate::side_tree::{SideLeaf, SideTree};
use crate::step::Step;
use scf_facts::{Tell, WordFacts};

/// How many steps are taken at once: enough that a long chain of tests whose answers are known costs few steps, and few
/// enough that each of those is short.
pub(crate) const MOST_AT_ONCE: u64 = 8;

/// The step from a node, behind those that the store decides. So many of the steps that are taken at once were taken
/// before it.
#[tactic(auto, using(crate::proofs::Steps::followed, crate::proofs::Steps::stepped))]
pub(crate) fn decided_step<T: SideTree, F: WordFacts>(
    side: &T,
    facts: &F,
    known: &mut T::Known,
    mut node: T::Node,
    taken: u64,
) -> Step<T::Node, SideLeaf>
    requires { (T.tree side.now known.old).is_node node }
    ensures { IsStep (side_leaves (T.behavior side.now))
        (λ words. IsWords words × F.allows facts.now (F.level facts.now) words)
        (T.tree side.now known.old) node (T.tree side.now known.new) result }
{
    let most = MOST_AT_ONCE.saturating_sub(taken);
    let passed = side.pass(facts, known, &mut node, most.saturating_sub(1));
    let mut step = side.step(facts, known, node);
    for _count in passed.steps + 1..most {
        let Some(next) = decided_next(side, facts, known, &step) else {
            return step;
        };
        step = side.step(facts, known, next);
    }
    step
}

/// Makes a pending step the one behind it, unless it is a leaf or asks what the store doesn't decide. So many of the
/// steps that are taken at once were taken before it.
#[tactic(auto, using(crate::proofs::Steps::followed_pending))]
pub(crate) fn follow<T: SideTree, F: WordFacts>(
    side: &T,
    facts: &F,
    known: &mut T::Known,
    pending: &mut Step<T::Node, SideLeaf>,
    taken: u64,
)
    requires { IsProper (T.tree side.now known.old) (IsSideLeaf (T.behavior side.now)) pending.old }
    ensures { let leaves = side_leaves (T.behavior side.now) in IsStep leaves
        (λ words. IsWords words × F.allows facts.now (F.level facts.now) words)
        (pending_tree leaves (T.tree side.now known.old)) pending.old (T.tree side.now known.new) pending.new }
{
    let Some(next) = decided_next(side, facts, known, pending) else {
        return;
    };
    *pending = decided_step(side, facts, known, next, taken);
}

/// Goes on from a pending step as far as the store decides it now, up to a node at which the side waits: this many
/// times as far as a step goes.
#[tactic(auto, using(crate::proofs::Steps::later))]
pub(crate) fn go_ahead<T: SideTree, F: WordFacts>(
    side: &T,
    facts: &F,
    known: &mut T::Known,
    pending: &mut Step<T::Node, SideLeaf>,
    times: u64,
)
    requires { IsProper (T.tree side.now known.old) (IsSideLeaf (T.behavior side.now)) pending.old }
    ensures { let leaves = side_leaves (T.behavior side.now) in
        IsLaterNode (λ words. IsWords words × F.allows facts.now (F.level facts.now) words)
        (pending_tree leaves (T.tree side.now known.old)) pending.old
        (pending_tree leaves (T.tree side.now known.new)) pending.new }
{
    let most = times.saturating_mul(MOST_AT_ONCE);
    let mut taken = 0;
    while taken < most {
        let Some(mut next) = decided_next(side, facts, known, pending) else {
            return;
        };
        let passed = side.pass(facts, known, &mut next, most - taken - 1);
        if side.waits_at(known, next) {
            *pending = Step::Next(next);
            return;
        }
        *pending = side.step(facts, known, next);
        taken += passed.steps + 1;
    }
}

/// The node after a step, if the store decides which one it is.
fn decided_next<T: SideTree, F: WordFacts>(
    side: &T,
    facts: &F,
    known: &T::Known,
    step: &Step<T::Node, SideLeaf>,
) -> Option<T::Node>
    requires { IsProper (T.tree side.now known.now) (IsSideLeaf (T.behavior side.now)) step.now }
    ensures decided { let tree = pending_tree (side_leaves (T.behavior side.now)) (T.tree side.now known.now) in
        IfSome result (λ next. IsLaterNode (λ words. IsWords words × F.allows facts.now (F.level facts.now) words)
        tree step.now tree (Step.Next next)) }
    ensures undecided { let tree = T.tree side.now known.now in
        IfNone result (Costs tree step.now (pending_size tree step.now)) }
{
    let _ = side;
    let _ = known;
    match *step {
        Step::Next(next) => Some(next),
        Step::Branch(Some(atom), if_true, if_false) => match facts.tell(atom) {
            Tell::Always => Some(if_true),
            Tell::Never => Some(if_false),
            Tell::Maybe => None,
        },
        Step::Branch(None, ..) | Step::Leaf(_) => None,
    }
}
