//! The profiles of several architectures as a tree of questions: each is asked in turn, and the later ones are asked of
//! the calls that aren't of its architecture.

ghost use Rattle.std.specs.Prelude.{◌≡◌, ◌≢◌, ◌<◌, ◌≤◌, ◌↔◌, ℕ, IsTrue, List, drop, length, slice_get};
ghost use Rattle.scf_insn.specs.Words.{call_of};
ghost use Rattle.scf_compare.specs.Effort.{answer_of_none, spread_in_turn};
ghost use Rattle.scf_compare.specs.Sides.{profiles_behavior};
ghost use Rattle.scf_compare.specs.internal.Profiles.{EndsForeign};
ghost use Rattle.scf_compare.specs.internal.SeveralProfiles.{IsOfNoneBefore, profiles_tree};

use crate::by_number::ByNumber;
use crate::origin::Origin;
use crate::profile::{ProfileNode, leaf_by};
use crate::side_tree::{SideLeaf, SideTree};
use crate::sources::OpenTest;
use crate::step::{Passed, Step};
use scf_facts::WordFacts;
use scf_insn::{Answer, CallRecord};
use scf_profile::{FOREIGN_ANSWER, NumberRules, Profile, Reason, profile_for};

/// The profile that is asked, and its syscall numbers.
#[derive(Clone, Copy)]
pub(crate) struct AskedProfile<'a> {
    /// Its index, or the count of the profiles where none is left to ask.
    index: usize,
    /// Its syscall numbers in rising order, each with its rules.
    numbers: &'a [NumberRules],
}

/// The profiles of several architectures.
#[derive(Drop)]
pub(crate) struct ProfilesSide<'a> {
    pub(crate) profiles: &'a [Profile],
}

impl<'a> SideTree for ProfilesSide<'a> {
    type Known = AskedProfile<'a>;

    type Node = ProfileNode;

    ghost behavior = { λ side. profiles_behavior side.profiles.now };

    ghost tree = { λ side known. profiles_tree side.profiles.now known.index known.numbers.now };

    fn start(&self) -> (AskedProfile<'a>, ProfileNode) {
        self.start_at(0)
    }

    fn step<F: WordFacts>(
        &self,
        facts: &F,
        known: &mut AskedProfile<'a>,
        node: ProfileNode,
    ) -> Step<ProfileNode, SideLeaf> {
        let Some(profile) = self.profiles.get(known.index) else {
            return Step::Leaf(leaf_by(FOREIGN_ANSWER, Reason::Foreign));
        };
        let step = ByNumber::with_numbers(profile, known.numbers).step_from(facts, node);
        // Nothing is asked behind the only profile: its answer to another architecture's call stands.
        if self.profiles.len() == 1 || !ends_foreign(&step) {
            return step;
        }
        let (later, root) = self.start_at(known.index + 1);
        *known = later;
        Step::Next(root)
    }

    fn pass<F: WordFacts>(
        &self,
        facts: &F,
        known: &mut AskedProfile<'a>,
        node: &mut ProfileNode,
        most: u64,
    ) -> Passed {
        match self.profiles.get(known.index) {
            Some(profile) => {
                ByNumber::with_numbers(profile, known.numbers).pass_from(facts, node, most)
            }
            None => Passed::NOTHING,
        }
    }

    fn open_test(&self, known: &AskedProfile<'a>) -> Option<OpenTest> {
        let _ = known;
        None
    }

    fn answer(&self, call: &CallRecord) -> Answer {
        call.within_widths();
        match profile_for(self.profiles, call) {
            Some(profile) => {
                let _rules = profile.rules();
                profile.answer(call)
            }
            None => FOREIGN_ANSWER,
        }
    }

    ghost use Rattle.scf_compare.specs.internal.Laws.{profiles_node_counts};

    ghost counts = { λ side known. profiles_node_counts side.profiles.now known.index known.numbers.now
        (slice_get side.profiles.now known.index) };
}

impl<'a> ProfilesSide<'a> {
    /// The profile at an index with its numbers, and the root of its tree; behind the last one, the answer of none.
    fn start_at(&self, index: usize) -> (AskedProfile<'a>, ProfileNode)
        requires index { index ≤ length self.now.profiles.now }
        requires later { 0 < index → length self.now.profiles.now ≢ 1 }
        ensures node { (profiles_tree self.now.profiles.now result.0.index result.0.numbers.now).is_node result.1 }
        ensures reached { (words : List ℕ) → IsOfNoneBefore self.now.profiles.now index (call_of words)
            → (profiles_tree self.now.profiles.now result.0.index result.0.numbers.now).reaches result.1 words }
        ensures size { (profiles_tree self.now.profiles.now result.0.index result.0.numbers.now).size result.1
            ≡ spread_in_turn (answer_of_none self.now.profiles.now) (drop index self.now.profiles.now) }
    {
        match self.profiles.get(index) {
            Some(profile) => {
                let numbers = profile.numbers();
                (AskedProfile { index, numbers }, ProfileNode::Architecture)
            }
            None => {
                let numbers: &[NumberRules] = &[];
                let answer = ProfileNode::Answer(FOREIGN_ANSWER, Reason::Foreign);
                (AskedProfile { index, numbers }, answer)
            }
        }
    }
}

/// Whether a step is the answer to a call of another architecture.
fn ends_foreign(step: &Step<ProfileNode, SideLeaf>) -> bool
    ensures { IsTrue result ↔ EndsForeign step.now }
{
    matches!(
        step,
        Step::Leaf(SideLeaf {
            origin: Origin::Profile(Reason::Foreign),
            ..
        })
    )
}
