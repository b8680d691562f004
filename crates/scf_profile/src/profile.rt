//! Loaded profiles.

ghost use Rattle.std.specs.Prelude.{◌≡◌, ◌<◌, ◌↔◌, IsTrue, All, min, option_map};
ghost use Rattle.std.specs.List.{find, reduce};
ghost use Rattle.scf_insn.specs.Architectures.{IsOf};
ghost use Rattle.scf_insn.specs.Kernel.{seccomp_data_args};
ghost use Rattle.scf_profile.specs.Profile.{IsProfile};
ghost use Rattle.scf_profile.specs.NumberRules.{AreNumbersOf};
ghost use Rattle.scf_profile.specs.PlainProfile.{IsPlainProfile, IsPlainRule};
ghost use Rattle.scf_profile.specs.ProfileAnswers.{ProfileAnswers};
ghost use Rattle.scf_profile.specs.Reasons.{IsReason, entries_met};
ghost use Rattle.scf_profile.specs.Rule.{meets};
ghost use Rattle.scf_profile.specs.StatedProfile.{with_stub as stated_with_stub};
ghost use Rattle.scf_profile.specs.Stub.{enosys, is_stubbed as stubbed, stub_answer};

use crate::number_rules::NumberRules;
use crate::object::is_named;
use crate::reason::Reason;
use crate::rule::Rule;
use scf_insn::kernel::{SECCOMP_RET_ERRNO, SECCOMP_RET_KILL_PROCESS};
use scf_insn::{Answer, Architecture, CallRecord};
use std::marker::Model;

/// The answer to records of other architectures: KILL_PROCESS.
pub const FOREIGN_ANSWER: Answer = Answer(SECCOMP_RET_KILL_PROCESS);

/// `ENOSYS` of asm-generic/errno.h: the kernel has no such syscall.
const ENOSYS: u32 = 38;

/// The stub's answer: ENOSYS.
pub const STUB_ANSWER: Answer = Answer(SECCOMP_RET_ERRNO + ENOSYS);

/// A loaded profile for an architecture: a default answer, and at most `MAX_RULES` rules in the order of the text. No
/// record meets two rules with different answers. Syscall numbers are those of the architecture; argument indices are
/// below 6, none twice in a rule. It may have a stub.
#[derive(Drop)]
pub struct Profile {
    architecture: Architecture,
    default_answer: Answer,
    rules: Vec<Rule>,
    numbers: Vec<NumberRules>,
    stub: Option<u32>,
}

impl Model for Profile {
    ghost use Rattle.scf_profile.specs.NumberRules.{AreNumbersOf};
    ghost use Rattle.scf_profile.specs.Profile.{Profile, IsProfile};

    ghost Value = { Profile };

    ghost view = { λ p. record {
      architecture = p.architecture;
      default_answer = p.default_answer;
      rules = p.rules.items;
      stub = p.stub;
    } };

    ghost invariant = { λ p. IsProfile (record {
      architecture = p.architecture;
      default_answer = p.default_answer;
      rules = p.rules.items;
      stub = p.stub;
    }) × AreNumbersOf p.numbers.items p.rules.items };
}

impl Profile {
    /// The profile with a default answer, rules that don't conflict, the same rules by number, and no stub.
    pub(crate) fn new(
        architecture: Architecture,
        default_answer: Answer,
        rules: Vec<Rule>,
        numbers: Vec<NumberRules>,
    ) -> Profile
        requires profile { IsProfile (record {
          architecture = architecture;
          default_answer = default_answer;
          rules = rules.items;
          stub = None;
        }) }
        requires numbers { AreNumbersOf numbers.items rules.items }
        ensures { result ≡ record {
          architecture = architecture;
          default_answer = default_answer;
          rules = rules.items;
          stub = None;
        } }
    {
        Profile {
            architecture,
            default_answer,
            rules,
            numbers,
            stub: None,
        }
    }

    /// Gives the profile a stub, or none, if it is of an architecture.
    pub(crate) fn set_stub(&mut self, architecture: Architecture, first: Option<u32>)
        ensures { self.new ≡ stated_with_stub architecture first self.old }
    {
        if is_named(architecture.name(), self.architecture) {
            self.stub = first;
        }
    }

    /// The first syscall number that the stub answers, as a record has it, if the profile has a stub.
    pub fn stub(&self) -> Option<u32>
        ensures { result ≡ self.now.stub }
    {
        self.stub
    }

    /// The architecture whose records it answers.
    pub fn architecture(&self) -> Architecture
        ensures { result ≡ self.now.architecture }
    {
        self.architecture
    }

    /// The answer to a record of its architecture that meets no rule.
    pub fn default_answer(&self) -> Answer
        ensures { result ≡ self.now.default_answer }
    {
        self.default_answer
    }

    /// The rules in the order of the text.
    pub fn rules(&self) -> &[Rule]
        ensures rules { result.now ≡ self.now.rules }
        ensures profile { IsProfile self.now }
    {
        &self.rules
    }

    /// The distinct syscall numbers of the rules in rising order, each with its rules in the order of the text.
    pub fn numbers(&self) -> &[NumberRules]
        ensures numbers { AreNumbersOf result.now self.now.rules }
        ensures profile { IsProfile self.now }
    {
        &self.numbers
    }

    /// Whether both 32-bit halves of each mask are simple: no bit, one bit or all 32.
    pub fn is_plain(&self) -> bool
        ensures { IsTrue result ↔ IsPlainProfile self.now }
    {
        are_plain(self.rules())
    }

    /// Whether the stub answers a syscall number.
    fn is_stubbed(&self, nr: u32) -> bool
        ensures { result ≡ stubbed self.now.stub nr }
    {
        matches!(self.stub, Some(first) if first <= nr)
    }

    /// The profile's answer to a record: KILL_PROCESS for other architectures, else ENOSYS if its number is the stub's,
    /// else that of any rule it meets, else the default.
    #[tactic(auto, using(crate::specs::ProfileAnswers::foreign, crate::specs::ProfileAnswers::by_stub))]
    pub fn answer(&self, call: &CallRecord) -> Answer
        ensures { ProfileAnswers self.now call.now result.0 }
    {
        if !self.architecture.has(call) {
            return FOREIGN_ANSWER;
        }
        if self.is_stubbed(call.nr) {
            return STUB_ANSWER;
        }
        match first_met(self.architecture, &self.rules, call) {
            Some(rule) => rule.answer,
            None => self.default_answer,
        }
    }

    /// Why a record gets its answer: another architecture, the stub, the first entry of which it meets a rule, or no
    /// rule.
    #[tactic(auto, using(std::proofs::lemmas::Grind::common_steps, crate::proofs::Reasons::least_of))]
    pub fn reason(&self, call: &CallRecord) -> Reason
        ensures { IsReason self.now call.now result }
    {
        if !self.architecture.has(call) {
            return Reason::Foreign;
        }
        if self.is_stubbed(call.nr) {
            return Reason::Stub;
        }
        match first_entry_met(self.architecture, self.rules(), call) {
            Some(entry) => Reason::Entry(entry),
            None => Reason::Default,
        }
    }
}

/// Whether each rule is plain.
fn are_plain(rules: &[Rule]) -> bool
    ensures { IsTrue result ↔ All IsPlainRule rules.now }
{
    for rule in rules {
        if !rule.is_plain() {
            return false;
        }
    }
    true
}

/// The first rule that a record of an architecture meets.
fn first_met<'r>(
    architecture: Architecture,
    rules: &'r [Rule],
    call: &CallRecord,
) -> Option<&'r Rule>
    requires { All (λ r. All (λ c. c.index < seccomp_data_args) r.conditions) rules.now }
    ensures { option_map (λ r. r.now) result ≡ find (λ r. meets architecture r call.now) rules.now }
{
    for rule in rules {
        if rule.is_met(architecture, call) {
            return Some(rule);
        }
    }
    None
}

/// The least index of an entry of which a record of an architecture meets a rule.
#[tactic(auto, using(crate::proofs::Reasons::least_steps))]
fn first_entry_met(architecture: Architecture, rules: &[Rule], call: &CallRecord) -> Option<u32>
    requires { All (λ r. All (λ c. c.index < seccomp_data_args) r.conditions) rules.now }
    ensures { result ≡ reduce min (entries_met architecture rules.now call.now) }
{
    let mut least: Option<u32> = None;
    for rule in rules {
        if rule.is_met(architecture, call) {
            least = Some(least.unwrap_or(rule.entry).min(rule.entry));
        }
    }
    least
}
