//! What is known of the registers and scratch words on a path through a filter.

ghost use Rattle.std.specs.Prelude.{◌≡◌, ℕ, ◌<◌, List, Bool, true, IfSome};
ghost use Rattle.scf_insn.specs.Kernel.{bpf_memwords};
ghost use Rattle.scf_insn.specs.Words.{IsWords};
ghost use Rattle.scf_machine.specs.Machine.{State, start, sets, stores, operand_of, operand_in_computation};
ghost use Rattle.scf_machine.specs.Machine.{effect, Goes};
ghost use Rattle.scf_compare.specs.Masked.{IsMaskOf};
ghost use Rattle.scf_compare.specs.internal.ControlFlow.{UsesScratch};
ghost use Rattle.scf_compare.specs.internal.Values.{IsValue, Abstracts, IsMaskedValue, AreValues, Describes};

use crate::bit_slice::BitSlice;
use crate::computed::Computed;
use crate::sources::OpenTest;
use crate::value::{Decision, Value};
use scf_facts::WordFacts;
use scf_insn::kernel::{BPF_MEMWORDS, SECCOMP_DATA_LEN};
use scf_insn::{Answer, Arithmetic, Insn, Operand, Operation, Register};

/// What is known of both registers and the sixteen scratch words.
#[derive(Clone, Copy)]
pub(crate) struct KnownRegisters {
    pub(crate) a: Value,
    pub(crate) x: Value,
    pub(crate) scratch: [Value; BPF_MEMWORDS],
    /// The first test on the path that nothing known decides.
    pub(crate) open: Option<OpenTest>,
}

impl KnownRegisters {
    /// At the start of the first run: both registers are 0, and no scratch word is stored.
    pub(crate) fn at_start() -> KnownRegisters
        ensures values { AreValues result }
        ensures describes { (words : List ℕ) → Describes result words start }
        ensures plain { (masks : ℕ) (under : Bool) → IsMaskedValue masks under result.a }
    {
        KnownRegisters {
            a: Value::Known(0),
            x: Value::Known(0),
            scratch: [Value::Computed(Computed::UNKNOWN); BPF_MEMWORDS],
            open: None,
        }
    }

    /// Back at the start of a run. The open test stays.
    pub(crate) fn restart(&mut self)
        ensures values { AreValues self.new }
        ensures describes { (words : List ℕ) → Describes self.new words start }
        ensures plain { (masks : ℕ) (under : Bool) → IsMaskedValue masks under self.new.a }
    {
        self.a = Value::Known(0);
        self.x = Value::Known(0);
        self.scratch = [Value::Computed(Computed::UNKNOWN); BPF_MEMWORDS];
    }

    /// Sets a register.
    fn set(&mut self, register: Register, value: Value)
        requires values { AreValues self.old }
        requires value { IsValue value }
        ensures values { AreValues self.new }
        ensures describes { (words : List ℕ) (s : State) (number : ℕ) → Describes self.old words s
            → Abstracts value words number
            → Describes self.new words (sets register s number) }
        ensures accumulator { register ≡ Register.A → self.new.a ≡ value }
    {
        match register {
            Register::A => self.a = value,
            Register::X => self.x = value,
        }
    }

    /// Stores a scratch word.
    fn store(&mut self, index: u8, value: Value)
        requires values { AreValues self.old }
        requires value { IsValue value }
        requires index { index < bpf_memwords }
        ensures values { AreValues self.new }
        ensures describes { (words : List ℕ) (s : State) (number : ℕ) → Describes self.old words s
            → Abstracts value words number
            → Describes self.new words (stores s index number) }
    {
        self.scratch[index as usize] = value;
    }

    /// The second operand of a test.
    pub(crate) fn operand(&self, operand: Operand, insn: Insn) -> Value
        requires { AreValues self.now }
        ensures value { IsValue result }
        ensures stands { (words : List ℕ) (s : State) → Describes self.now words s
            → Abstracts result words (operand_of operand insn s) }
        ensures constant { operand ≡ Operand.Constant → result ≡ Value.Known insn.k }
    {
        match operand {
            Operand::Constant => Value::Known(insn.k),
            Operand::Index => self.x,
        }
    }

    /// The second operand of a computation.
    fn operand_in_computation<F: WordFacts>(
        &self,
        facts: &F,
        arithmetic: Arithmetic,
        operand: Operand,
        insn: Insn,
    ) -> Value
        requires { AreValues self.now }
        ensures value { IsValue result }
        ensures stands { (words : List ℕ) (s : State) → F.allows facts.now (F.level facts.now) words
            → Describes self.now words s
            → Abstracts result words (operand_in_computation arithmetic operand insn s) }
        ensures constant { operand ≡ Operand.Constant → result ≡ Value.Known insn.k }
    {
        match (operand, arithmetic) {
            (Operand::Index, Arithmetic::Lsh | Arithmetic::Rsh) => self.x.low_five_bits(facts),
            _ => self.operand(operand, insn),
        }
    }

    /// The accumulator as an answer, if it is known. Else its return is an open test.
    pub(crate) fn answer<F: WordFacts>(&mut self, facts: &F) -> Option<Answer>
        requires { AreValues self.old }
        ensures { (words : List ℕ) (s : State) → F.allows facts.now (F.level facts.now) words
            → Describes self.old words s
            → IfSome result (λ answer. s.a ≡ answer.0) }
    {
        let computed = self.a.in_bits(facts);
        if let Some(number) = computed.number() {
            return Some(Answer(number));
        }
        self.note_open(Decision::Open(OpenTest::of(computed.sources, false)));
        None
    }

    /// Notes a test that is open, if it is the first one on the path.
    pub(crate) fn note_open(&mut self, decision: Decision)
        requires { AreValues self.old }
        ensures values { AreValues self.new }
        ensures describes { (words : List ℕ) (s : State) → Describes self.old words s → Describes self.new words s }
        ensures accumulator { self.new.a ≡ self.old.a }
    {
        if let Decision::Open(test) = decision {
            self.open = self.open.or(Some(test));
        }
    }

    /// Applies an instruction that doesn't return.
    pub(crate) fn apply<F: WordFacts>(&mut self, facts: &F, insn: Insn, operation: Operation)
        requires values { AreValues self.old }
        requires load { operation ≡ Operation.LoadWord → insn.k < 64 }
        requires scratch { UsesScratch operation → insn.k < bpf_memwords }
        ensures values { AreValues self.new }
        ensures describes { (words : List ℕ) (s t : State) → IsWords words
            → F.allows facts.now (F.level facts.now) words
            → Describes self.old words s
            → effect operation insn words s ≡ Goes t
            → Describes self.new words t }
        ensures loaded { operation ≡ Operation.LoadWord
            → (masks : ℕ) (under : Bool) → IsMaskedValue masks under self.new.a }
        ensures masked { operation ≡ Operation.Compute Arithmetic.And Operand.Constant
            → (masks : ℕ) (under : Bool) → IsMaskOf masks insn.k → IsMaskedValue masks under self.old.a
            → IsMaskedValue masks true self.new.a }
    {
        match operation {
            Operation::LoadWord => {
                let word = BitSlice::of_word((insn.k / 4) as u8);
                self.set(Register::A, Value::Slice(word))
            }
            Operation::LoadLength(register) => {
                self.set(register, Value::Known(SECCOMP_DATA_LEN as u32))
            }
            Operation::LoadConstant(register) => self.set(register, Value::Known(insn.k)),
            Operation::LoadScratch(register) => self.set(register, self.scratch[insn.k as usize]),
            Operation::StoreScratch(Register::A) => self.store(insn.k as u8, self.a),
            Operation::StoreScratch(Register::X) => self.store(insn.k as u8, self.x),
            Operation::Compute(arithmetic, operand) => {
                let value = self.operand_in_computation(facts, arithmetic, operand, insn);
                let computed = self.a.computed(facts, arithmetic, value);
                self.set(Register::A, computed)
            }
            Operation::Negate => {
                let negated = Value::Known(0).computed(facts, Arithmetic::Sub, self.a);
                self.set(Register::A, negated)
            }
            Operation::CopyToIndex => self.set(Register::X, self.a),
            Operation::CopyToAccumulator => self.set(Register::A, self.x),
            Operation::Jump
            | Operation::JumpIf(..)
            | Operation::ReturnConstant
            | Operation::ReturnAccumulator => {}
        }
    }
}
