//! Code of rules.

ghost use Rattle.std.specs.Prelude.{◌≡◌, ◌++◌, ◌+◌, ◌<◌, ◌≤◌, ◌^◌, [], IfOk, OnOk, drop, length, All};
ghost use Rattle.scf_insn.specs.Kernel.{seccomp_data_args};
ghost use Rattle.scf_profile.specs.Rule.{IsRule};
ghost use Rattle.scf_compile.specs.internal.Filters.{AnswersRules, behind_rule, conditions_code, rule_code};
ghost use Rattle.scf_compile.specs.internal.NrRanges.{rules_bound};
ghost use Rattle.scf_insn.specs.declared.answer.Answer.{Answer};

use crate::blocks::put_condition;
use crate::insns::return_with;
use crate::values::{put_values, values_before};
use scf_insn::{Answer, Architecture, Insn};
use scf_profile::{Condition, Conditions, Rule};
use std::alloc::{AllocError, Global};
use std::collections::VecDeque;

/// The rule that gives each record an answer. Its number is any of the architecture's.
pub(crate) fn constant_rule(alloc: Global, architecture: Architecture, answer: Answer) -> Rule
    ensures rule { IsRule architecture result }
    ensures always { result.conditions ≡ [] }
    ensures answer { result.answer ≡ answer }
{
    Rule {
        number: architecture.first(),
        conditions: Conditions::from_vec(Vec::new(alloc)),
        answer,
        entry: 0,
    }
}

/// Puts the tests of conditions in front of the code. If one fails, the remaining ones and one more instruction are
/// skipped.
fn put_conditions(
    code: &mut VecDeque<Insn>,
    architecture: Architecture,
    conditions: &[Condition],
) -> Result<(), AllocError>
    requires few { length conditions.now ≤ seccomp_data_args }
    requires indices { All (λ c. c.index < seccomp_data_args) conditions.now }
    ensures { OnOk result (code.new.items ≡ conditions_code architecture conditions.now ++ code.old.items) }
{
    let behind = code.len();
    for i in (0..conditions.len()).rev() {
        let out = (code.len() - behind + 1) as u8;
        put_condition(code, architecture, &conditions[i], out)?;
    }
    Ok(())
}

/// Puts a rule of an architecture in front of the code: its answer if its conditions hold, else the code follows. A
/// rule without conditions takes the place of the code.
#[tactic(auto, using(crate::proofs::Sizes::few_conditions))]
fn put_rule(
    code: &mut VecDeque<Insn>,
    architecture: Architecture,
    rule: &Rule,
) -> Result<(), AllocError>
    requires { IsRule architecture rule.now }
    ensures { OnOk result (code.new.items
        ≡ rule_code architecture rule.now ++ behind_rule rule.now.conditions code.old.items) }
{
    if rule.conditions.as_slice().is_empty() {
        code.clear();
    }
    code.push_front(return_with(rule.answer))?;
    put_conditions(code, architecture, rule.conditions.as_slice())
}

/// Puts the code of the last rules before `end` in front of the code of those from there on: all that compare one
/// argument with a value, or one rule. Gives back the index of the first of them.
fn put_rules_before(
    alloc: Global,
    code: &mut VecDeque<Insn>,
    architecture: Architecture,
    rules: &[Rule],
    end: usize,
) -> Result<usize, AllocError>
    requires fine { All (IsRule architecture) rules.now }
    requires some { 0 < end }
    requires end { end ≤ length rules.now }
    requires small { rules_bound rules.now < 2 ^ 32 }
    requires code { 0 < length code.now.items }
    requires few { length code.now.items + 2 ≤ rules_bound (drop end rules.now) }
    ensures fewer { IfOk result (λ start. start < end) }
    ensures put { IfOk result (λ start. (default : Answer)
        → AnswersRules architecture default (drop end rules.now) code.old.items
        → AnswersRules architecture default (drop start rules.now) code.new.items) }
{
    let values = values_before(alloc, architecture, rules, end)?;
    if !values.is_empty() {
        let start = end - values.len();
        put_values(alloc, code, architecture, values)?;
        return Ok(start);
    }
    put_rule(code, architecture, &rules[end - 1])?;
    Ok(end - 1)
}

/// The code of rules, and the default answer behind them. A rule without conditions ends it.
pub(crate) fn rules_block(
    alloc: Global,
    architecture: Architecture,
    rules: &[Rule],
    default: Answer,
) -> Result<Vec<Insn>, AllocError>
    requires fine { All (IsRule architecture) rules.now }
    requires small { rules_bound rules.now < 2 ^ 32 }
    ensures { IfOk result (λ block. AnswersRules architecture default rules.now block.items) }
{
    let mut block = VecDeque::new(alloc);
    block.push_front(return_with(default))?;
    let mut end = rules.len();
    while end > 0 {
        end = put_rules_before(alloc, &mut block, architecture, rules, end)?;
    }
    Ok(Vec::from(block))
}
