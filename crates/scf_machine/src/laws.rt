//! Laws of chains of steps and of stacks. Each function does nothing: its contract is the law, for every list of
//! instructions, accepted or not.

ghost use Rattle.std.specs.Prelude.{◌≡◌, ◌↔◌, ◌+◌, ◌++◌, [], ◌∷◌, ℕ, All, Contains, List, length, map, reverse};
ghost use Rattle.scf_insn.specs.declared.insn.Insn.{Insn};
ghost use Rattle.scf_insn.specs.Answers.{IsNamed, IsNoMorePermissive, action_half, action_of};
ghost use Rattle.scf_insn.specs.Kernel.{seccomp_ret_allow};
ghost use Rattle.scf_machine.specs.Machine.{State, IsChain, IsRun, IsRunFrom, RunAnswers, step, Goes, Ends};
ghost use Rattle.scf_machine.specs.Parts.{IsPart, moved};
ghost use Rattle.scf_machine.specs.Precedence.{AreAnswers, IsDecision, StackAnswers, with_newest};
ghost use Rattle.scf_machine.specs.Rules.{IsFilter};

/// A list has one run over a record: two runs have the same answer and length.
pub fn run_once()
    ensures { (insns : List Insn) (words : List ℕ) (m n k l : ℕ) → IsRun insns words m k → IsRun insns words n l
        → (m ≡ n) × (k ≡ l) }
{}

/// Two chains that meet are one chain; a chain followed by a run is a run.
#[tactic(auto, using(crate::proofs::Chains::chains_join, crate::proofs::Chains::run_behind))]
pub fn chains_join()
    ensures chain { (insns : List Insn) (words : List ℕ) (s t u : State) (xs ys : List State)
        → IsChain insns words s t xs → IsChain insns words t u ys → IsChain insns words s u (ys ++ xs) }
    ensures run { (insns : List Insn) (words : List ℕ) (s t : State) (xs : List State) (answer steps : ℕ)
        → IsChain insns words s t xs → IsRunFrom insns words t answer steps
        → IsRunFrom insns words s answer (length xs + steps) }
{}

/// A chain inside a part of a list is a chain of the whole list, shifted by the part's index; so is an answer.
pub fn chain_of_part()
    ensures chain { (whole part : List Insn) (n : ℕ) (words : List ℕ) (s t : State) (xs : List State)
        → IsPart part n whole → IsChain part words s t xs
        → IsChain whole words (moved n s) (moved n t) (map (moved n) xs) }
    ensures answer { (whole part : List Insn) (n : ℕ) (words : List ℕ) (s : State) (answer : ℕ)
        → IsPart part n whole → step part words s ≡ Ends answer → step whole words (moved n s) ≡ Ends answer }
    ensures between { (front part back : List Insn) → IsPart part (length front) (front ++ part ++ back) }
{}

/// Exactly one of some answers takes precedence, and one more, the newest, changes that as `with_newest` says.
#[tactic(auto, using(crate::proofs::Stacks::decision_laws))]
pub fn answers_decide()
    ensures some { (answers : List ℕ) → (decision : ℕ) × IsDecision answers decision }
    ensures once { (answers : List ℕ) (m n : ℕ) → IsDecision answers m → IsDecision answers n → m ≡ n }
    ensures newest { (answers : List ℕ) (older newest : ℕ) → IsDecision answers older
        → IsDecision (newest ∷ answers) (with_newest older newest) }
{}

/// A stack has one answer to each record, which depends on its filters' answers alone. An empty stack answers ALLOW 0,
/// one filter answers as its run does, and one more, the newest, changes the answer as `with_newest` says.
pub fn stack_answers()
    ensures empty { (words : List ℕ) → StackAnswers [] words seccomp_ret_allow }
    ensures one { (filter : List Insn) (words : List ℕ) (answer : ℕ)
        → RunAnswers filter words answer ↔ StackAnswers (filter ∷ []) words answer }
    ensures some { (filters : List (List Insn)) (words : List ℕ) → All IsFilter filters
        → (answer : ℕ) × StackAnswers filters words answer }
    ensures once { (filters : List (List Insn)) (words : List ℕ) (m n : ℕ) → StackAnswers filters words m
        → StackAnswers filters words n → m ≡ n }
    ensures alike { (filters others : List (List Insn)) (words more answers : List ℕ) (m n : ℕ)
        → AreAnswers (reverse filters) words answers → AreAnswers (reverse others) more answers
        → StackAnswers filters words m → StackAnswers others more n → m ≡ n }
    ensures newest { (filters : List (List Insn)) (filter : List Insn) (words : List ℕ) (older newest : ℕ)
        → StackAnswers filters words older → RunAnswers filter words newest
        → StackAnswers (filters ++ filter ∷ []) words (with_newest older newest) }
{}

/// A stack is no more permissive than each of its filters that answers a syscall by a named action. An answer without a
/// name denies, but by its rank it may lose to one that delegates or allows.
pub fn stack_is_no_more_permissive()
    ensures { (filters : List (List Insn)) (filter : List Insn) (words : List ℕ) (decision answer : ℕ)
        → Contains filters filter → StackAnswers filters words decision → RunAnswers filter words answer
        → IsNamed (action_of (action_half answer)) → IsNoMorePermissive decision answer }
{}
