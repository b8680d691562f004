//! A profile as a tree of questions about the words of a call record.

ghost use Rattle.std.specs.Prelude.{◌≡◌, ◌≢◌, ◌+◌, ◌<◌, ◌≤◌, ℕ, List, All, Contains, Some, length, take, drop};
ghost use Rattle.std.specs.Prelude.{IfSome, IsTrue, slice_get, slice_index};
ghost use Rattle.scf_insn.specs.Architectures.{IsOf, argument_in};
ghost use Rattle.scf_insn.specs.Words.{IsWords, call_of};
ghost use Rattle.scf_profile.specs.declared.condition.Condition.{Condition};
ghost use Rattle.scf_profile.specs.NumberTests.{test_of};
ghost use Rattle.scf_profile.specs.NumberRules.{AreRising};
ghost use Rattle.scf_profile.specs.Profile.{AreInOrder};
ghost use Rattle.scf_profile.specs.Rule.{IsRule};
ghost use Rattle.scf_compare.specs.internal.Conditions.{LeadsTo, successor_size};
ghost use Rattle.scf_compare.specs.Effort.{conditions_size, rules_size};
ghost use Rattle.scf_compare.specs.internal.Leaves.{side_leaves};
ghost use Rattle.scf_compare.specs.internal.Profiles.{IsAtCondition, IsAtRule, IsFrom, StandsAt};
ghost use Rattle.scf_compare.specs.internal.Profiles.{EndsForeign, calls_size, own_conditions, own_rules};
ghost use Rattle.scf_compare.specs.internal.Profiles.{profile_behavior, profile_is_node, profile_reaches};
ghost use Rattle.scf_compare.specs.internal.Profiles.{profile_size, profile_tree, size_behind, size_of_rest};
ghost use Rattle.scf_compare.specs.internal.Trees.{IsLaterNode, IsStep};

use crate::asking::{known_word, number_from, word_is};
use crate::by_number::ByNumber;
use crate::known_argument::KnownArgument;
use crate::origin::Origin;
use crate::question::{ConditionPart, Successor, question_of};
use crate::side_tree::SideLeaf;
use crate::step::{Passed, Step};
use scf_facts::{Tell, WordFacts};
use scf_insn::Answer;
use scf_profile::{FOREIGN_ANSWER, Reason, Rule, STUB_ANSWER};

/// Where a condition stands, by indices.
#[derive(Clone, Copy)]
pub(crate) struct ConditionPosition {
    /// Index of its rule's syscall number among the numbers.
    number: usize,
    /// Index of its rule among those of the number.
    rule: usize,
    /// Index of the condition among the rule's.
    condition: usize,
}

/// A node of a profile's tree.
#[derive(Clone, Copy)]
pub(crate) enum ProfileNode {
    /// Is `arch` the audit value of the profile's architecture?
    Architecture,
    /// Is the syscall number at least the architecture's first?
    First,
    /// Is the syscall number past the architecture's last?
    Last,
    /// Is the syscall number the stub's first one or a greater one?
    Stub(u32),
    /// Is the syscall number the one at this index, or one behind it?
    Number(usize),
    /// Does this part of a condition hold?
    Condition(ConditionPosition, ConditionPart),
    /// The profile's answer, and its reason.
    Answer(Answer, Reason),
}

/// A leaf of a profile's tree.
pub(crate) fn leaf_by(answer: Answer, reason: Reason) -> SideLeaf
    ensures { result ≡ record { answer = Some answer; origin = Origin.Profile reason } }
{
    SideLeaf {
        answer: Some(answer),
        origin: Origin::Profile(reason),
    }
}

impl ByNumber<'_> {
    /// The step from a node, for the words that the store allows.
    #[tactic(auto, using(crate::proofs::Numbered::steps_of_profile))]
    pub(crate) fn step_from<F: WordFacts>(
        &self,
        facts: &F,
        node: ProfileNode,
    ) -> Step<ProfileNode, SideLeaf>
        requires { profile_is_node self.now node }
        ensures step { (others : ℕ) → 0 < others → IsStep (side_leaves (profile_behavior self.now.profile))
            (λ words. IsWords words × F.allows facts.now (F.level facts.now) words)
            (profile_tree self.now others) node (profile_tree self.now others) result }
        ensures foreign { EndsForeign result → (others : ℕ) → others ≤ profile_size self.now others node }
    {
        let architecture = self.profile().architecture();
        match node {
            ProfileNode::Architecture => Step::Branch(
                Some(word_is(1, architecture.audit())),
                self.at_first(),
                ProfileNode::Answer(FOREIGN_ANSWER, Reason::Foreign),
            ),
            ProfileNode::First => Step::Branch(
                Some(number_from(architecture.first())),
                self.at_last(),
                ProfileNode::Answer(FOREIGN_ANSWER, Reason::Foreign),
            ),
            ProfileNode::Last => Step::Branch(
                Some(number_from(architecture.last() + 1)),
                ProfileNode::Answer(FOREIGN_ANSWER, Reason::Foreign),
                self.at_stub(),
            ),
            ProfileNode::Stub(first) => Step::Branch(
                Some(number_from(first)),
                ProfileNode::Answer(STUB_ANSWER, Reason::Stub),
                ProfileNode::Number(0),
            ),
            ProfileNode::Number(index) => self.ask_number(facts, index),
            ProfileNode::Condition(at, part) => self.ask_condition(at, part),
            ProfileNode::Answer(answer, reason) => Step::Leaf(leaf_by(answer, reason)),
        }
    }

    /// `First`, or the node behind it if no number is below the first.
    fn at_first(&self) -> ProfileNode
        ensures node { profile_is_node self.now result }
        ensures reached { (words : List ℕ) → IsWords words → profile_reaches self.now ProfileNode.First words
            → profile_reaches self.now result words }
        ensures size { (others : ℕ) → profile_size self.now others result
            ≤ profile_size self.now others ProfileNode.First }
    {
        if self.profile().architecture().first() > 0 {
            ProfileNode::First
        } else {
            self.at_last()
        }
    }

    /// `Last`, or the node behind it if no number is past the last.
    fn at_last(&self) -> ProfileNode
        ensures node { profile_is_node self.now result }
        ensures reached { (words : List ℕ) → IsWords words → profile_reaches self.now ProfileNode.Last words
            → profile_reaches self.now result words }
        ensures size { (others : ℕ) → profile_size self.now others result
            ≤ profile_size self.now others ProfileNode.Last }
    {
        if self.profile().architecture().last() < u32::MAX {
            ProfileNode::Last
        } else {
            self.at_stub()
        }
    }

    /// `Stub`, or the node behind it if the profile has no stub, given that the call is of the architecture.
    fn at_stub(&self) -> ProfileNode
        ensures node { profile_is_node self.now result }
        ensures reached { (words : List ℕ) → IsOf self.now.profile.architecture (call_of words)
            → profile_reaches self.now result words }
        ensures size { (others : ℕ) → profile_size self.now others result ≤ calls_size self.now }
    {
        match self.profile().stub() {
            Some(first) => ProfileNode::Stub(first),
            None => ProfileNode::Number(0),
        }
    }

    /// The question whether the syscall number is the one at an index, or the default answer behind the last index.
    ///
    /// Numbers that the store knows to be too low or too high aren't asked. If it knows the number, that one is asked
    /// at once.
    fn ask_number<F: WordFacts>(&self, facts: &F, index: usize) -> Step<ProfileNode, SideLeaf>
        ensures step { (others : ℕ) → IsStep (side_leaves (profile_behavior self.now.profile))
            (λ words. IsWords words × F.allows facts.now (F.level facts.now) words)
            (profile_tree self.now others) (ProfileNode.Number index) (profile_tree self.now others) result }
        ensures rules { EndsForeign result → ⊥ }
    {
        let default_answer = self.profile().default_answer();
        let numbers = self.numbers();
        let from = self.first_possible(facts, index);
        if from >= numbers.len() {
            return Step::Leaf(leaf_by(default_answer, Reason::Default));
        }
        let candidate = &numbers[from];
        match facts.tell(number_from(candidate.number)) {
            Tell::Never => Step::Leaf(leaf_by(default_answer, Reason::Default)),
            Tell::Always | Tell::Maybe => Step::Branch(
                Some(word_is(0, candidate.number)),
                self.next_rule(from, 0),
                ProfileNode::Number(from + 1),
            ),
        }
    }

    /// Index of the first syscall number that the record may still have, given that none before `index` is its number:
    /// the last one from `index` on that the record's is known to be at least. From 0 on it is found by binary search,
    /// from a later index, which is seldom far from it, by a gallop.
    fn first_possible<F: WordFacts>(&self, facts: &F, index: usize) -> usize
        ensures later { index ≤ result }
        ensures possible { (words : List ℕ) → IsWords words
            → F.allows facts.now (F.level facts.now) words
            → IsFrom index self.now.numbers (call_of words)
            → IsFrom result self.now.numbers (call_of words) }
    {
        let numbers = self.numbers();
        if index >= numbers.len() {
            return index;
        }
        let known = known_word(facts, 0);
        let mut least = index;
        let mut first = index + 1;
        let mut last = numbers.len();
        let mut reach = if index == 0 { usize::MAX } else { 0 };
        while first < last {
            let middle = middle_of(first, last, reach);
            let candidate = &numbers[middle];
            match tell_from(facts, known, candidate.number) {
                Tell::Always => {
                    least = middle;
                    first = middle + 1;
                    reach = reach.saturating_mul(2).saturating_add(1);
                }
                Tell::Never | Tell::Maybe => {
                    last = middle;
                    reach = usize::MAX;
                }
            }
        }
        least
    }

    /// The rules of the number at an index.
    fn rules_at(&self, number: usize) -> &[Rule]
        requires { number < length self.now.numbers }
        ensures rules { result.now ≡ own_rules self.now.numbers number }
        ensures known { All (λ r. Contains self.now.profile.rules r) result.now }
        ensures valid { All (IsRule self.now.profile.architecture) result.now }
        ensures order { AreInOrder self.now.profile.rules }
    {
        let number_rules = &self.numbers()[number];
        &number_rules.rules
    }

    /// Whether the rules of the number at an index are known to want rising values of one argument.
    fn are_rising(&self, number: usize) -> bool
        requires { number < length self.now.numbers }
        ensures { IsTrue result → AreRising (own_rules self.now.numbers number) }
    {
        self.numbers()[number].is_rising
    }

    /// The rule of a condition.
    fn rule_at(&self, at: ConditionPosition) -> &Rule
        requires number { at.number < length self.now.numbers }
        requires rule { at.rule < length (own_rules self.now.numbers at.number) }
        ensures index { at.rule < usize.MAX }
        ensures stands { slice_get (own_rules self.now.numbers at.number) at.rule ≡ Some result.now }
        ensures conditions { result.now.conditions ≡ own_conditions self.now.numbers at }
        ensures known { Contains self.now.profile.rules result.now }
        ensures valid { IsRule self.now.profile.architecture result.now }
        ensures order { AreInOrder self.now.profile.rules }
    {
        &self.rules_at(at.number)[at.rule]
    }

    /// The node for the rules of a number from an index on, given that none before it is met: that rule's first
    /// condition, or the default answer behind the last rule.
    fn next_rule(&self, number: usize, rule: usize) -> ProfileNode
        requires { number < length self.now.numbers }
        ensures node { profile_is_node self.now result }
        ensures reached { (words : List ℕ) → IsAtRule self.now number rule (call_of words)
            → profile_reaches self.now result words }
        ensures size { (others : ℕ) → profile_size self.now others result
            ≤ rules_size (drop rule (own_rules self.now.numbers number)) }
    {
        if rule < self.rules_at(number).len() {
            self.next_condition(ConditionPosition {
                number,
                rule,
                condition: 0,
            })
        } else {
            ProfileNode::Answer(self.profile().default_answer(), Reason::Default)
        }
    }

    /// Passes, from the first condition of a rule on, the rules that want another value of its argument than the store
    /// allows, in at most so many steps.
    pub(crate) fn pass_from<F: WordFacts>(
        &self,
        facts: &F,
        node: &mut ProfileNode,
        most: u64,
    ) -> Passed
        requires { profile_is_node self.now node.old }
        ensures later { (others : ℕ) → IsLaterNode
            (λ words. IsWords words × F.allows facts.now (F.level facts.now) words)
            (profile_tree self.now others) node.old (profile_tree self.now others) node.new }
        ensures size { (others : ℕ) → profile_size self.now others node.new + result.steps
            ≤ profile_size self.now others node.old }
        ensures most { result.steps ≤ most }
    {
        match *node {
            ProfileNode::Condition(at, ConditionPart::High) if at.condition == 0 => {
                let (rule, steps) = self.pass_rules(facts, at, most);
                *node = self.next_rule(at.number, rule);
                Passed {
                    steps,
                    asked: steps,
                }
            }
            _ => Passed::NOTHING,
        }
    }

    /// Passes the rules from that of a first condition on whose first condition wants another value of this argument
    /// than the store allows: the rule behind them, and in how many steps.
    fn pass_rules<F: WordFacts>(&self, facts: &F, at: ConditionPosition, most: u64) -> (usize, u64)
        requires { StandsAt self.now.numbers at }
        ensures inside { result.0 ≤ length (own_rules self.now.numbers at.number) }
        ensures most { result.1 ≤ most }
        ensures met { (words : List ℕ) → IsWords words → F.allows facts.now (F.level facts.now) words
            → IsAtRule self.now at.number at.rule (call_of words)
            → IsAtRule self.now at.number result.0 (call_of words) }
        ensures size { let own = own_rules self.now.numbers at.number in
            rules_size (drop result.0 own) + result.1 ≤ rules_size (drop at.rule own) }
    {
        let first = self.rule_at(at).conditions.as_slice()[at.condition];
        let bits = self.profile().architecture().argument_bits();
        let argument = KnownArgument::of(facts, bits, first.index);
        let rules = self.rules_at(at.number);
        let are_rising = self.are_rising(at.number);
        let mut rule = at.rule;
        let mut steps = 0;
        while rule < rules.len() && 1 < most - steps {
            let Some((count, questions)) = argument.refutes(rules, rule, are_rising) else {
                break;
            };
            let count = (count as u64).min((most - steps) / 2);
            rule += count as usize;
            steps += questions * count;
        }
        (rule, steps)
    }

    /// The node for a rule's conditions from an index on, given that all before it hold: that condition, or the rule's
    /// answer behind the last.
    fn next_condition(&self, at: ConditionPosition) -> ProfileNode
        requires number { at.number < length self.now.numbers }
        requires rule { at.rule < length (own_rules self.now.numbers at.number) }
        ensures node { profile_is_node self.now result }
        ensures reached { (words : List ℕ) → IsAtCondition self.now at (call_of words)
            → profile_reaches self.now result words }
        ensures size { (others : ℕ) → profile_size self.now others result
            ≤ conditions_size (drop at.condition (own_conditions self.now.numbers at))
            (size_behind self.now.numbers at) }
    {
        let rule = self.rule_at(at);
        if at.condition < rule.conditions.as_slice().len() {
            ProfileNode::Condition(at, ConditionPart::High)
        } else {
            ProfileNode::Answer(rule.answer, Reason::Entry(rule.entry))
        }
    }

    /// The step from a condition.
    fn ask_condition(
        &self,
        at: ConditionPosition,
        part: ConditionPart,
    ) -> Step<ProfileNode, SideLeaf>
        requires { StandsAt self.now.numbers at }
        ensures step { (others : ℕ) → IsStep (side_leaves (profile_behavior self.now.profile)) IsWords
            (profile_tree self.now others) (ProfileNode.Condition at part) (profile_tree self.now others) result }
        ensures rules { EndsForeign result → ⊥ }
    {
        let conditions = self.rule_at(at).conditions.as_slice();
        let question = question_of(conditions[at.condition], part);
        let bits = self.profile().architecture().argument_bits();
        if part.asks_of_zero(bits) {
            Step::Next(self.follow(at, question.successor_at_zero()))
        } else {
            Step::Branch(
                Some(question.atom),
                self.follow(at, question.if_true),
                self.follow(at, question.if_false),
            )
        }
    }

    /// The node to which a successor of a condition leads.
    fn follow(&self, at: ConditionPosition, successor: Successor) -> ProfileNode
        requires stands { StandsAt self.now.numbers at }
        requires rule { at.rule < usize.MAX }
        requires condition { at.condition < usize.MAX }
        ensures node { profile_is_node self.now result }
        ensures reached { (words : List ℕ) (condition : Condition) → IsWords words
            → slice_get (own_conditions self.now.numbers at) at.condition ≡ Some condition
            → IsAtCondition self.now at (call_of words)
            → LeadsTo (test_of condition) successor
            (argument_in self.now.profile.architecture (call_of words) condition.index)
            → profile_reaches self.now result words }
        ensures size { (others : ℕ) → profile_size self.now others result
            ≤ successor_size successor (size_of_rest self.now.numbers at) (size_behind self.now.numbers at) }
    {
        match successor {
            Successor::Decided(true) => self.next_condition(ConditionPosition {
                condition: at.condition + 1,
                ..at
            }),
            Successor::Decided(false) => self.next_rule(at.number, at.rule + 1),
            Successor::Then(part) => ProfileNode::Condition(at, part),
        }
    }
}

/// Whether the syscall number is at least another one: by itself if it is known, else by the store.
fn tell_from<F: WordFacts>(facts: &F, known: Option<u32>, least: u32) -> Tell
    requires { IfSome known (λ number. (words : List ℕ) → IsWords words
        → F.allows facts.now (F.level facts.now) words → slice_index words 0 ≡ number) }
    ensures always { result ≡ Tell.Always → (words : List ℕ) → IsWords words
        → F.allows facts.now (F.level facts.now) words → least ≤ slice_index words 0 }
    ensures never { result ≡ Tell.Never → (words : List ℕ) → IsWords words
        → F.allows facts.now (F.level facts.now) words → slice_index words 0 < least }
{
    match known {
        Some(number) if number >= least => Tell::Always,
        Some(_) => Tell::Never,
        None => facts.tell(number_from(least)),
    }
}

/// The index that is `reach` behind the first one, or the one halfway to the last if that is nearer.
fn middle_of(first: usize, last: usize, reach: usize) -> usize
    requires { first < last }
    ensures from { first ≤ result }
    ensures below { result < last }
{
    if reach < last - first {
        first + reach
    } else {
        first + (last - first) / 2
    }
}
