//! The machine that runs a filter.

ghost use Rattle.std.specs.Prelude.{◌≡◌, ◌≢◌, ◌+◌, ◌<◌, ◌≤◌, ℕ, List, length, None, if◌then◌else◌, IfOk};
ghost use Rattle.scf_insn.specs.declared.insn.Insn.{Insn};
ghost use Rattle.scf_insn.specs.Kernel.{bpf_maxinsns, bpf_memwords};
ghost use Rattle.scf_insn.specs.Words.{words_of};
ghost use Rattle.scf_machine.specs.Machine.{State, sets, stores, jumps_to, start};
ghost use Rattle.scf_machine.specs.Machine.{value_computed, computation, holds, effect, EndsAt, IsRun, RunsSafely};
ghost use Rattle.scf_machine.specs.Path.{IsPathOf};
ghost use Rattle.scf_machine.specs.Rules.{IsFine, IsFilter};
ghost use Rattle.scf_machine.specs.internal.Registers.{StandFor, Agrees, IsAt, Follows};

use crate::path::Trace;
use crate::program::Program;
use scf_insn::kernel::{BPF_MEMWORDS, SECCOMP_DATA_LEN};
use scf_insn::{Answer, Arithmetic, CallRecord, Insn, Memory, Operand, Operation, Register, Test};
use std::alloc::Global;

/// The result of a run: its answer, and how many instructions it executed (1 to the program's length).
#[derive(Clone, Copy)]
pub struct Ran {
    pub answer: Answer,
    pub steps: u32,
}

/// The result of a run, and the index of the instruction that ends it: a return, or a division by the index register
/// while that is 0.
#[derive(Clone, Copy)]
pub struct Ending {
    pub ran: Ran,
    pub index: usize,
}

/// The length of a call record in bytes.
const RECORD_LEN: u32 = SECCOMP_DATA_LEN as u32;

/// The registers and scratch words of the machine.
#[derive(Clone, Copy)]
struct Registers {
    pc: usize,
    a: u32,
    x: u32,
    scratch: [u32; BPF_MEMWORDS],
}

/// The result of a computation on two 32-bit numbers, modulo 2^32. A division has a divisor above 0, a shift at most 31
/// (the caller's conditions).
///
/// Inlined, so that an instruction's code leads straight to its computation.
#[inline(always)]
pub fn compute(arithmetic: Arithmetic, a: u32, value: u32) -> u32
    requires divisor { arithmetic ≡ Arithmetic.Div → value ≢ 0 }
    requires left { arithmetic ≡ Arithmetic.Lsh → value < 32 }
    requires right { arithmetic ≡ Arithmetic.Rsh → value < 32 }
    ensures { result ≡ value_computed arithmetic a value }
{
    match arithmetic {
        Arithmetic::Add => a.wrapping_add(value),
        Arithmetic::Sub => a.wrapping_sub(value),
        Arithmetic::Mul => a.wrapping_mul(value),
        Arithmetic::Div => a / value,
        Arithmetic::Or => a | value,
        Arithmetic::And => a & value,
        Arithmetic::Lsh => a << value,
        Arithmetic::Rsh => a >> value,
        Arithmetic::Xor => a ^ value,
    }
}

/// Whether a test of two unsigned numbers holds.
pub fn holds_of(test: Test, a: u32, value: u32) -> bool
    ensures { result ≡ holds test a value }
{
    match test {
        Test::Equal => a == value,
        Test::Greater => a > value,
        Test::GreaterOrEqual => a >= value,
        Test::CommonBit => a & value != 0,
    }
}

impl Registers {
    fn new() -> Registers
        ensures { StandFor result start }
    {
        Registers {
            pc: 0,
            a: 0,
            x: 0,
            scratch: [0; BPF_MEMWORDS],
        }
    }

    /// Sets a register and goes to the next instruction.
    fn set(&mut self, register: Register, value: u32)
        requires { self.old.pc < bpf_maxinsns }
        ensures { (s : State) (v : ℕ) → StandFor self.old s → v ≡ value → StandFor self.new (sets register s v) }
    {
        match register {
            Register::A => self.a = value,
            Register::X => self.x = value,
        }
        self.pc += 1;
    }

    /// Stores a scratch word and goes to the next instruction.
    fn store(&mut self, index: u8, value: u32)
        requires pc { self.old.pc < bpf_maxinsns }
        requires index { index < bpf_memwords }
        ensures { (s : State) (v : ℕ) → StandFor self.old s → v ≡ value → StandFor self.new (stores s index v) }
    {
        self.scratch[index as usize] = value;
        self.pc += 1;
    }

    /// Computes on the accumulator and goes to the next instruction.
    #[inline(always)]
    fn compute(&mut self, arithmetic: Arithmetic, value: u32)
        requires pc { self.old.pc < bpf_maxinsns }
        requires divisor { arithmetic ≡ Arithmetic.Div → value ≢ 0 }
        requires left { arithmetic ≡ Arithmetic.Lsh → value < 32 }
        requires right { arithmetic ≡ Arithmetic.Rsh → value < 32 }
        ensures { (s : State) (v : ℕ) → StandFor self.old s → v ≡ value
            → StandFor self.new (sets Register.A s (value_computed arithmetic s.a v)) }
    {
        self.set(Register::A, compute(arithmetic, self.a, value));
    }

    /// Computes with the index register; a shift takes its low five bits. Division by 0 returns the answer 0.
    #[inline(always)]
    #[tactic(auto, using(crate::proofs::Steps::computes_by_index))]
    fn compute_by_index(&mut self, arithmetic: Arithmetic) -> Option<Answer>
        requires { self.old.pc < bpf_maxinsns }
        ensures { (i : Insn) (s : State) → StandFor self.old s
            → Agrees (computation arithmetic Operand.Index i s) result self.new }
    {
        match arithmetic {
            Arithmetic::Div => {
                if self.x == 0 {
                    return Some(Answer(0));
                }
                self.compute(Arithmetic::Div, self.x);
            }
            Arithmetic::Lsh => self.compute(Arithmetic::Lsh, self.x % 32),
            Arithmetic::Rsh => self.compute(Arithmetic::Rsh, self.x % 32),
            _ => self.compute(arithmetic, self.x),
        }
        None
    }

    /// Goes where a test of the accumulator leads.
    #[inline(always)]
    fn branch(&mut self, test: Test, value: u32, insn: &Insn)
        requires { self.old.pc < bpf_maxinsns }
        ensures { (s : State) (v : ℕ) → StandFor self.old s → v ≡ value → StandFor self.new
            (jumps_to s (s.pc + 1 + (if holds test s.a v then insn.now.jt else insn.now.jf))) }
    {
        if holds_of(test, self.a, value) {
            self.pc += 1 + insn.jt as usize;
        } else {
            self.pc += 1 + insn.jf as usize;
        }
    }

    /// Executes one instruction. Each kind of second operand has its own arm, so that none is chosen while the filter
    /// runs.
    #[inline(always)]
    fn step(&mut self, insn: &Insn, operation: Operation, words: &[u32; 16]) -> Option<Answer>
        requires pc { self.old.pc < bpf_maxinsns }
        requires fine { IsFine bpf_maxinsns self.old.pc insn.now operation }
        ensures { (s : State) → StandFor self.old s
            → Agrees (effect operation insn.now words.now s) result self.new }
    {
        match operation {
            Operation::LoadWord => self.set(Register::A, words[(insn.k / 4) as usize]),
            Operation::LoadLength(register) => self.set(register, RECORD_LEN),
            Operation::LoadConstant(register) => self.set(register, insn.k),
            Operation::LoadScratch(register) => {
                self.set(register, self.scratch[insn.k as usize]);
            }
            Operation::StoreScratch(Register::A) => self.store(insn.k as u8, self.a),
            Operation::StoreScratch(Register::X) => self.store(insn.k as u8, self.x),
            Operation::Compute(arithmetic, Operand::Constant) => self.compute(arithmetic, insn.k),
            Operation::Compute(arithmetic, Operand::Index) => {
                return self.compute_by_index(arithmetic);
            }
            Operation::Negate => self.set(Register::A, 0u32.wrapping_sub(self.a)),
            Operation::Jump => self.pc += 1 + insn.k as usize,
            Operation::JumpIf(test, Operand::Constant) => self.branch(test, insn.k, insn),
            Operation::JumpIf(test, Operand::Index) => self.branch(test, self.x, insn),
            Operation::ReturnConstant => return Some(Answer(insn.k)),
            Operation::ReturnAccumulator => return Some(Answer(self.a)),
            Operation::CopyToIndex => self.set(Register::X, self.a),
            Operation::CopyToAccumulator => self.set(Register::A, self.x),
        }
        None
    }

    /// Executes the instruction at the current index.
    #[inline(always)]
    fn advance(&mut self, program: &Program, words: &[u32; 16]) -> Option<Answer>
        requires { (earlier : List State) × IsAt program.now words.now self.old earlier }
        ensures filter { IsFilter program.now }
        ensures follows { (earlier : List State) (at : IsAt program.now words.now self.old earlier)
            → Follows program.now words.now at.state result self.new }
    {
        let insn = &program.list[self.pc];
        let Some(operation) = insn.operation() else {
            unreachable!();
        };
        self.step(insn, operation, words)
    }
}

/// Runs a program on a call record: the answer, the length and the last instruction of its only run.
///
/// Not inlined, so that its loop has the processor's registers to itself.
#[inline(never)]
pub fn run_to_end(program: &Program, call: &CallRecord) -> Ending
    ensures run { IsRun program.now (words_of call.now) result.ran.answer.0 result.ran.steps }
    ensures end { EndsAt program.now (words_of call.now) result.index result.ran.answer.0 }
    ensures bound { result.ran.steps ≤ length program.now }
    ensures safe { RunsSafely program.now (words_of call.now) }
{
    let words = call.words();
    let mut registers = Registers::new();
    let mut steps = 0u32;
    loop {
        let index = registers.pc;
        let answered = registers.advance(program, &words);
        steps += 1;
        if let Some(answer) = answered {
            let ran = Ran { answer, steps };
            return Ending { ran, index };
        }
    }
}

/// Runs a program on a call record: the answer and the length of its only run.
pub fn run(program: &Program, call: &CallRecord) -> Ran
    ensures run { IsRun program.now (words_of call.now) result.answer.0 result.steps }
    ensures bound { result.steps ≤ length program.now }
    ensures safe { RunsSafely program.now (words_of call.now) }
{
    run_to_end(program, call).ran
}

/// Runs a program on a call record, and keeps the path: the indices of the executed instructions.
///
/// `Err`: an allocation failed.
pub fn trace(alloc: Global, program: &Program, call: &CallRecord) -> Result<Trace, Memory>
    ensures path { IfOk result (λ t.
        IsPathOf program.now (words_of call.now) t.answer.0 t.indices.items) }
    // The path is as long as the run, and the answer is the run's.
    ensures run { IfOk result (λ t.
        IsRun program.now (words_of call.now) t.answer.0 (length t.indices.items)) }
    ensures bound { IfOk result (λ t. length t.indices.items ≤ length program.now) }
{
    let words = call.words();
    let mut registers = Registers::new();
    let mut indices = Vec::new(alloc);
    loop {
        indices.push(registers.pc)?;
        let answered = registers.advance(program, &words);
        if let Some(answer) = answered {
            return Ok(Trace { answer, indices });
        }
    }
}
