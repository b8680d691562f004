//! The report of a comparison, at once or syscall by syscall.

ghost use Rattle.std.specs.Prelude.{◌≡◌, IfOk, Some, codes, map, string_bytes};
ghost use Rattle.std.specs.List.{flat_map, join_by};
ghost use Rattle.scf_compare.specs.Verdicts.{finding_of};
ghost use Rattle.scf_tool.specs.Reports.{argument_text, call_line, finding_text, lines_of_call, rest_of_line};
ghost use Rattle.scf_tool.specs.Reports.{named_line, outcome_of, report_text, said_of};
ghost use Rattle.scf_tool.specs.Reports as spec;
ghost use Rattle.scf_tool.specs.internal.Words.{names_in};

use crate::findings::{CallFinding, ComparisonOutcome};
use crate::joint_findings::holds;
use crate::left_out::{LeftOut, LeftOutLines, NameLines, words_of_left_out};
use crate::lines::AnswerText;
use crate::verification::Outcome;
use scf_compare::{Finding, Verdict, Which};
use scf_insn::{CallRecord, Memory};
use scf_profile::Relation;
use std::alloc::Global;
use std::fmt;

/// Arguments, each behind a blank.
#[derive(Clone, Copy)]
struct Arguments<'a>(&'a [u64]);

impl fmt::Display for Arguments<'_> {
    ghost output = { λ arguments. Some (flat_map argument_text arguments.0.now) };

    fn fmt<W: fmt::Write>(&self, f: &mut fmt::Formatter<W>) -> fmt::Result {
        for argument in self.0 {
            let argument = *argument;
            write!(f, " 0x{argument:x}")?;
        }
        Ok(())
    }
}

/// The line of a call.
#[derive(Clone, Copy)]
pub(crate) struct CallLine(pub CallRecord);

impl fmt::Display for CallLine {
    ghost output = { λ line. Some (call_line line.0) };

    fn fmt<W: fmt::Write>(&self, f: &mut fmt::Formatter<W>) -> fmt::Result {
        let nr = self.0.nr;
        let arch = self.0.arch;
        let ip = self.0.ip;
        let arguments = Arguments(&self.0.args);
        write!(
            f,
            "call nr {nr} arch 0x{arch:x} ip 0x{ip:x} args{arguments}\n"
        )
    }
}

/// The words of a report: the relation that is compared by, and the names of both sides.
#[derive(Clone, Copy)]
struct Words {
    relation: Relation,
    left: &'static str,
    right: &'static str,
}

impl Words {
    /// The words for filters and a profile, for filters and others beside them, and for a profile and one beside it, by
    /// what was left out of the profiles.
    fn of(relation: Relation, left: &Option<LeftOut>, right: &Option<LeftOut>) -> Words
        ensures relation { result.relation ≡ relation }
        ensures names { names_in result ≡ spec.words_of_sides left.now right.now }
    {
        let (left, right) = match (left, right) {
            (Some(_), _) => ("profile", "beside"),
            (None, Some(_)) => ("filter", "profile"),
            (None, None) => ("filter", "beside"),
        };
        Words {
            relation,
            left,
            right,
        }
    }

    /// What is said if the relation holds, and if it doesn't.
    fn said(self) -> (&'static str, &'static str)
        ensures { (result.0.now, result.1.now) ≡ said_of self.relation }
    {
        match self.relation {
            Relation::Same => ("same", "differs"),
            Relation::NoMore => ("no more", "more"),
            Relation::NoLess => ("no less", "less"),
            Relation::SameDisposition => ("same disposition", "differs"),
        }
    }
}

/// The lines of a finding.
#[derive(Clone, Copy)]
struct FindingLines(Words, Finding);

impl fmt::Display for FindingLines {
    ghost output = { λ lines. Some (finding_text lines.0.relation (lines_of_call (names_in lines.0)) lines.1) };

    #[tactic(auto, using(std::proofs::Common::append_assoc))]
    fn fmt<W: fmt::Write>(&self, f: &mut fmt::Formatter<W>) -> fmt::Result {
        let words = self.0;
        match self.1 {
            Finding::Holds { .. } => write!(f, "{}\n", words.said().0),
            Finding::Fails { call, left, right } => {
                let call = CallLine(call);
                let left = AnswerText(left);
                let right = AnswerText(right);
                write!(f, "{}\n{call}", words.said().1)?;
                write!(f, "{} {left}\n{} {right}\n", words.left, words.right)
            }
            Finding::Undecided { at, .. } => write!(f, "undecided at {at}\n"),
            Finding::Unfinished => f.write_str("unfinished\n"),
        }
    }
}

/// The finding that a verdict is.
fn finding_of(verdict: &Verdict) -> Finding
    ensures { result ≡ finding_of verdict.now }
{
    match verdict {
        Verdict::Same { steps } => Finding::Holds { steps: *steps },
        Verdict::Differs {
            call,
            filter,
            profile,
        } => Finding::Fails {
            call: *call,
            left: *filter,
            right: *profile,
        },
        Verdict::Undecided { at } => Finding::Undecided {
            side: Which::Left,
            at: *at,
        },
        Verdict::Unfinished => Finding::Unfinished,
    }
}

/// The line of the finding that speaks for several calls.
#[derive(Clone, Copy)]
struct JointLine(Words, Finding);

impl fmt::Display for JointLine {
    ghost output = { λ line. Some (finding_text line.0.relation (λ call left right. codes "\n") line.1) };

    fn fmt<W: fmt::Write>(&self, f: &mut fmt::Formatter<W>) -> fmt::Result {
        match self.1 {
            Finding::Fails { .. } => write!(f, "{}\n", self.0.said().1),
            finding => f.write(FindingLines(self.0, finding)),
        }
    }
}

/// The names of a syscall, with commas between.
#[derive(Clone, Copy)]
struct Names<'a>(&'a [String]);

impl fmt::Display for Names<'_> {
    ghost output = { λ names. Some (join_by (λ name. name) (codes ",") (map string_bytes names.0.now)) };

    fn fmt<W: fmt::Write>(&self, f: &mut fmt::Formatter<W>) -> fmt::Result {
        if let [first, later @ ..] = self.0 {
            f.write(first.as_str())?;
            for name in later {
                write!(f, ",{}", name.as_str())?;
            }
        }
        Ok(())
    }
}

/// What the line of a syscall says behind its names.
#[derive(Clone, Copy)]
struct FoundText(Words, Finding);

impl fmt::Display for FoundText {
    ghost output = { λ text. Some (finding_text text.0.relation (rest_of_line (names_in text.0)) text.1) };

    #[tactic(auto, using(std::proofs::Common::append_assoc))]
    fn fmt<W: fmt::Write>(&self, f: &mut fmt::Formatter<W>) -> fmt::Result {
        let words = self.0;
        match self.1 {
            Finding::Fails { call, left, right } => {
                let arguments = Arguments(&call.args);
                let left = AnswerText(left);
                let right = AnswerText(right);
                write!(f, "{} args{arguments} ", words.said().1)?;
                write!(f, "{} {left} {} {right}\n", words.left, words.right)
            }
            finding => f.write(FindingLines(words, finding)),
        }
    }
}

/// A line for each syscall of which the relation doesn't hold.
#[derive(Clone, Copy)]
struct NamedLines<'a>(Words, &'a [CallFinding]);

impl fmt::Display for NamedLines<'_> {
    ghost output = { λ lines. Some (flat_map (named_line lines.0.relation (names_in lines.0)) lines.1.now) };

    fn fmt<W: fmt::Write>(&self, f: &mut fmt::Formatter<W>) -> fmt::Result {
        for call in self.1 {
            if holds(&call.finding) {
                continue;
            }
            let names = Names(call.names.as_slice());
            let found = FoundText(self.0, call.finding);
            write!(f, "{} {names} {found}", call.number)?;
        }
        Ok(())
    }
}

/// The report of an outcome: the verdict, then a line for each skipped name and one for each other architecture, in
/// order.
pub fn report(alloc: Global, outcome: &Outcome) -> Result<Vec<u8>, Memory>
    ensures { IfOk result (λ text. text.items ≡ report_text Relation.Same (outcome_of outcome.now)) }
{
    let words = Words {
        relation: Relation::Same,
        left: "filter",
        right: "profile",
    };
    let finding = FindingLines(words, finding_of(&outcome.verdict));
    let skipped = NameLines("skipped", outcome.skipped.as_slice());
    let others = NameLines("other", outcome.other_architectures.as_slice());
    Ok(format!(in alloc; "{finding}{skipped}{others}")?.into_bytes())
}

/// The report of an outcome by a relation: `no more` or `no less` in place of `same`, `more` or `less` in place of
/// `differs`. Call by call the first line says whether the relation holds of all, and there is a line for each syscall
/// for which it doesn't hold. `report` is the case of equal answers of filters and a profile, at once.
pub fn report_by(
    alloc: Global,
    relation: Relation,
    outcome: &ComparisonOutcome,
) -> Result<Vec<u8>, Memory>
    ensures { IfOk result (λ text. text.items ≡ report_text relation outcome.now) }
{
    let left = &outcome.left_out_of_left;
    let right = &outcome.left_out;
    let words = Words::of(relation, left, right);
    let of_left = LeftOutLines("skipped", "other", left);
    let (skipped, other) = words_of_left_out(left);
    let of_right = LeftOutLines(skipped, other, right);
    let joint = outcome.findings.joint;
    match &outcome.findings.calls {
        None => {
            let finding = FindingLines(words, joint);
            Ok(format!(in alloc; "{finding}{of_left}{of_right}")?.into_bytes())
        }
        Some(calls) => {
            let line = JointLine(words, joint);
            let each = NamedLines(words, calls);
            Ok(format!(in alloc; "{line}{each}{of_left}{of_right}")?.into_bytes())
        }
    }
}
