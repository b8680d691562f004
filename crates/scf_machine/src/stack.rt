//! Stacks of filters.

ghost use Rattle.std.specs.Prelude.{◌≡◌, ◌==◌, [], ◌∷◌, ℕ, List, All, Some, length, slice_get, option_copied};
ghost use Rattle.std.specs.Prelude.{if◌then◌else◌, int_lt};
ghost use Rattle.scf_insn.specs.Answers.{rank_of};
ghost use Rattle.scf_insn.specs.Words.{words_of};
ghost use Rattle.scf_machine.specs.Precedence.{IsDecidedBy, IsDecision, StackAnswers, with_newest};
ghost use Rattle.scf_machine.specs.Rules.{IsFilter};
ghost use Rattle.scf_machine.specs.Stack.{IsPush};

use crate::machine::{Ending, run_to_end};
use crate::program::Program;
use scf_insn::kernel::MAX_INSNS_PER_PATH;
use scf_insn::{Action, Answer, CallRecord};
use std::alloc::Global;
use std::marker::Model;
use thiserror::Error;

/// Why a filter isn't pushed.
#[derive(Clone, Copy, Debug, Error)]
pub enum PushFault {
    #[error("the stack would count {total} instructions")]
    TooMany { total: usize },
    #[error("out of memory")]
    Memory,
}

/// The count that a filter adds to its instructions once a newer one is attached (kernel/seccomp.c,
/// seccomp_attach_filter).
const FILTER_COST: usize = 4;

/// The filters of a thread, the oldest first. All run on each syscall.
#[derive(Drop)]
pub struct FilterStack {
    filters: Vec<Program>,
    cost: usize,
}

impl Model for FilterStack {
    ghost use Rattle.std.specs.Prelude.{◌≡◌, ◌≤◌, ◌+◌, All, List};
    ghost use Rattle.scf_insn.specs.declared.insn.Insn.{Insn};
    ghost use Rattle.scf_insn.specs.Kernel.{max_insns_per_path};
    ghost use Rattle.scf_machine.specs.Rules.{IsFilter};

    ghost Value = { List (List Insn) };

    ghost use Rattle.scf_machine.specs.Stack.{cost_of};

    ghost view = { λ s. s.filters.items };

    // The newest filter's own 4 aren't counted in the total.
    ghost invariant = { λ s. (s.cost ≡ cost_of s.filters.items) × (s.cost ≤ max_insns_per_path + 4)
        × All IsFilter s.filters.items };
}

/// The answer of a stack with one more filter, the newest, from the answer without it: the newest answer, unless its
/// rank is greater.
#[tactic(auto, using(crate::proofs::Stacks::newest_decides, crate::proofs::Stacks::older_decides))]
pub fn with_newest(older: Answer, newest: Answer) -> Answer
    ensures by_rank { result.0 ≡ with_newest older.0 newest.0 }
    ensures decides { (answers : List ℕ) → IsDecision answers older.0 → IsDecision (newest.0 ∷ answers) result.0 }
{
    if older.rank() < newest.rank() {
        older
    } else {
        newest
    }
}

/// The instruction that gives a stack its answer.
#[derive(Clone, Copy)]
pub struct DecidingInsn {
    /// The index of the filter, 0 being the oldest.
    pub filter: usize,
    /// The index of the instruction in the filter.
    pub index: usize,
}

/// The answer of a stack to a record, and the instruction that gives it; `None` for a stack without filters.
#[derive(Clone, Copy)]
pub struct Decision {
    pub answer: Answer,
    pub by: Option<DecidingInsn>,
}

impl Decision {
    /// The decision with one more filter, the newest, at this index: its run's ending, unless its answer's rank is
    /// greater.
    fn with_newest(self, filter: usize, ending: Ending) -> Decision
        ensures answer { result.answer.0 ≡ with_newest self.answer.0 ending.ran.answer.0 }
        ensures by { result.by ≡ (if int_lt (rank_of self.answer.0) (rank_of ending.ran.answer.0) then self.by
            else Some (record { filter = filter; index = ending.index })) }
    {
        let newest = ending.ran.answer;
        if self.answer.rank() < newest.rank() {
            return self;
        }
        let index = ending.index;
        Decision {
            answer: newest,
            by: Some(DecidingInsn { filter, index }),
        }
    }
}

/// The answer of filters, the oldest first, to a record, and the instruction that gives it: all run, and the newest
/// answer of least rank takes precedence (seccomp(2)). ALLOW 0 for no filter.
pub fn decision_of(filters: &[Program], call: &CallRecord) -> Decision
    ensures by { IsDecidedBy filters.now (words_of call.now) result.by result.answer.0 }
    ensures answer { StackAnswers filters.now (words_of call.now) result.answer.0 }
{
    let mut decision = Decision {
        answer: Answer::new(Action::Allow, 0),
        by: None,
    };
    for (filter, program) in filters.iter().enumerate() {
        decision = decision.with_newest(filter, run_to_end(program, call));
    }
    decision
}

/// The answer of filters, the oldest first, to a record, as by `decision_of`.
pub fn decide(filters: &[Program], call: &CallRecord) -> Answer
    ensures { StackAnswers filters.now (words_of call.now) result.0 }
{
    decision_of(filters, call).answer
}

impl FilterStack {
    /// An empty stack.
    pub fn new(alloc: Global) -> FilterStack
        ensures { result ≡ [] }
    {
        FilterStack {
            filters: Vec::new(alloc),
            cost: 0,
        }
    }

    /// The count of filters.
    pub fn len(&self) -> usize
        ensures { result ≡ length self.now }
    {
        self.filters.len()
    }

    /// Whether there is no filter.
    pub fn is_empty(&self) -> bool
        ensures { result ≡ (length self.now == 0) }
    {
        self.filters.is_empty()
    }

    /// The filter at an index, 0 being the oldest; `None` from the length on.
    pub fn get(&self, i: usize) -> Option<&Program>
        ensures at { option_copied result ≡ slice_get self.now i }
        ensures filters { All IsFilter self.now }
    {
        self.filters.get(i)
    }

    /// Pushes a filter as the newest.
    ///
    /// `TooMany` if the total would exceed 32768: the filter's instructions, and those of each older filter plus 4. An
    /// error leaves the stack unchanged and hands the filter back.
    pub fn push(&mut self, program: Program) -> Result<(), (PushFault, Program)>
        ensures { IsPush self.old program result self.new }
    {
        let len = program.insns().len();
        let total = len + self.cost;
        if total > MAX_INSNS_PER_PATH {
            return Err((PushFault::TooMany { total }, program));
        }
        match self.filters.push(program) {
            Ok(()) => {
                self.cost = total + FILTER_COST;
                Ok(())
            }
            Err(refused) => Err((PushFault::Memory, refused.value)),
        }
    }

    /// The filters, the oldest first.
    pub fn filters(&self) -> &[Program]
        ensures same { result.now ≡ self.now }
        ensures filters { All IsFilter self.now }
    {
        &self.filters
    }

    /// The answer of the stack to a record, and the instruction that gives it, as by `decision_of`.
    pub fn decision(&self, call: &CallRecord) -> Decision
        ensures by { IsDecidedBy self.now (words_of call.now) result.by result.answer.0 }
        ensures answer { StackAnswers self.now (words_of call.now) result.answer.0 }
    {
        decision_of(&self.filters, call)
    }

    /// The answer of the stack to a record, as by `decide`.
    pub fn decide(&self, call: &CallRecord) -> Answer
        ensures { StackAnswers self.now (words_of call.now) result.0 }
    {
        decide(&self.filters, call)
    }
}
