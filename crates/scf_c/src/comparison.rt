//! The comparison of two sides, at once or over several sets of records.

ghost use Rattle.std.specs.Prelude.{◌≡◌, IfErr, IfOk, MatchOption};
ghost use Rattle.scf_tool.specs.Faults.{side_row};
ghost use Rattle.scf_c.specs.Comparisons.{
  IsCompared,
  IsComparisonRefused,
  IsOverNone,
  comparison_of,
  no_comparison,
  numbers_of,
  of_each,
  of_scope,
  side_number,
};
ghost use Rattle.scf_c.specs.Endings.{EndsAsked, IsHandedOut, IsNothingHandedOut, IsRefusal};
ghost use Rattle.scf_c.specs.Questions.{IsAsked};
ghost use Rattle.scf_c.specs.declared.comparison.Compared.{Compared};
ghost use Rattle.scf_c.specs.declared.question.Asked.{Asked};

use crate::ending::{OK, WRONG_ARGUMENT, hand_out, or_refuse};
use crate::layout::{
    Call, Comparison, Fault, FindingNumbers, Question, RecordsComparison, SideInput, Table,
};
use crate::question::{Asked, Over, asked_of};
use crate::records::pairings_of;
use crate::side::{fault_of_right, left_out_of_side, read_side};
use crate::tables::architecture_number;
use scf_compare::{Finding, Limit};
use scf_insn::Memory;
use scf_profile::Scope;
use scf_tool::{
    ComparisonOutcome, Findings, Pairing, SideFault, compare_each, joint_finding, report_by,
    side_row,
};
use std::alloc::Global;

/// What comparisons come to together and each, and the lines that the program prints of them together.
#[derive(Drop)]
struct Compared {
    pub comparison: Comparison,
    pub each: Vec<RecordsComparison>,
    pub text: Vec<u8>,
}

/// A finding as numbers.
fn numbers_of(finding: &Finding) -> FindingNumbers
    ensures { result ≡ numbers_of finding.now }
{
    let none = FindingNumbers::default();
    match finding {
        Finding::Holds { .. } => FindingNumbers { verdict: 1, ..none },
        Finding::Fails { call, left, right } => FindingNumbers {
            verdict: 2,
            left: left.0,
            right: right.0,
            call: Call::of(call),
            ..none
        },
        Finding::Undecided { side, at } => FindingNumbers {
            verdict: 3,
            side: *side as u32 + 1,
            at: *at as u64,
            ..none
        },
        Finding::Unfinished => FindingNumbers { verdict: 4, ..none },
    }
}

/// A scope with its finding as numbers: that of its architecture, 0 if it has more, and that of the only syscall, as a
/// record has it, if syscalls are compared one by one, and else 0.
fn of_scope(over: Over, scope: Scope, finding: &Finding) -> RecordsComparison
    ensures { result ≡ of_scope over scope finding.now }
{
    let (architecture, first) = match scope {
        Scope::Numbers {
            architecture,
            first,
            ..
        } => (architecture_number(architecture), first),
        _ => (0, 0),
    };
    RecordsComparison {
        architecture,
        nr: if matches!(over, Over::EachCall) {
            first
        } else {
            0
        },
        finding: numbers_of(finding),
        reserved: [0; 4],
    }
}

/// Each scope with its finding as numbers.
fn each_of(
    alloc: Global,
    over: Over,
    pairings: &[Pairing<'_>],
    findings: &[Finding],
) -> Result<Vec<RecordsComparison>, Memory>
    ensures { IfOk result (λ each. each.items ≡ of_each over pairings.now findings.now) }
{
    let found = pairings.iter().zip(findings);
    Ok(
        found
            .map(|(pairing, finding)| of_scope(over, pairing.over, finding))
            .collect(alloc)?,
    )
}

/// Compares two sides as is asked, if there is a record.
fn compare_inputs(
    alloc: Global,
    left: &SideInput,
    right: &SideInput,
    tables: &[Table],
    question: &Question,
    asked: Asked,
) -> Result<Option<Compared>, SideFault>
    ensures compared { IfOk result (λ compared. MatchOption compared
        (IsOverNone left.now right.now tables.now asked)
        (IsCompared question.now left.now right.now tables.now asked)) }
    ensures refused { IfErr result (IsComparisonRefused left.now right.now tables.now asked) }
{
    let left_side = read_side(alloc, left, asked.left, tables)?;
    let right_side = match read_side(alloc, right, asked.right, tables) {
        Ok(side) => side,
        Err(why) => return Err(fault_of_right(asked.left, asked.right, why)),
    };
    let pairings = pairings_of(alloc, asked.over, &left_side, &right_side, tables)?;
    if pairings.is_empty() {
        return Ok(None);
    }
    let limit = Limit::of_steps(question.limit);
    let shared = Some(question.total_limit);
    let findings = compare_each(alloc, &pairings, asked.relation, limit, shared)?;
    let each = each_of(alloc, asked.over, &pairings, &findings)?;
    let joint = joint_finding(&findings);
    let comparison = Comparison {
        finding: numbers_of(&joint),
        left_out_of_left: left_out_of_side(&left_side),
        left_out_of_right: left_out_of_side(&right_side),
    };
    drop(pairings);
    let outcome = ComparisonOutcome {
        findings: Findings { joint, calls: None },
        left_out_of_left: None,
        left_out: right_side.left_out(),
    };
    let text = report_by(alloc, asked.relation, &outcome)?;
    Ok(Some(Compared {
        comparison,
        each,
        text,
    }))
}

/// Compares two sides, each filters or a profile, at once or over several sets of records, and hands out the finding on
/// all, each finding, and what the program prints of that on all.
#[unsafe(no_mangle)]
pub extern "C" fn scf_compare(
    alloc: Global,
    left: &SideInput,
    right: &SideInput,
    tables: &[Table],
    question: &Question,
    comparison: &mut Comparison,
    each: &mut [RecordsComparison],
    each_needed: &mut usize,
    text: &mut [u8],
    needed: &mut usize,
    fault: &mut Fault,
) -> u32
    // The verdicts, calls and answers are those of findings that are true of these bytes.
    ensures { EndsAsked (IsAsked question.now left.now right.now tables.now)
        (λ asked. (compared : Compared) × IsCompared question.now left.now right.now tables.now asked compared
        × (comparison.new ≡ compared.comparison)
        × IsHandedOut compared.each.items each.old each.new each_needed.new
        × IsHandedOut compared.text.items text.old text.new needed.new)
        (IsOverNone left.now right.now tables.now)
        (λ asked. IsRefusal side_row (IsComparisonRefused left.now right.now tables.now asked))
        ((comparison.new ≡ no_comparison) × IsNothingHandedOut each.old each.new each_needed.new
        × IsNothingHandedOut text.old text.new needed.new) result fault.new }
{
    *comparison = Comparison::default();
    *each_needed = 0;
    *needed = 0;
    *fault = Fault::default();
    let Some(asked) = asked_of(question, left, right, tables) else {
        return WRONG_ARGUMENT;
    };
    let compared = compare_inputs(alloc, left, right, tables, question, asked);
    let Some(compared) = or_refuse!(compared, side_row, fault) else {
        return WRONG_ARGUMENT;
    };
    *comparison = compared.comparison;
    hand_out(&compared.each, each, each_needed);
    hand_out(&compared.text, text, needed);
    OK
}
