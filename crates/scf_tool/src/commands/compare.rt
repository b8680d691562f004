//! The comparison of two sides.

ghost use Rattle.std.specs.Prelude.{◌≡◌, IfOk};
ghost use Rattle.scf_request.specs.declared.request.Command.TheVariants as commands;
ghost use Rattle.scf_tool.specs.Commands.{IsReplyTo, RepliesTo};
ghost use Rattle.scf_tool.specs.Reports.{finding_status};

use crate::fault::Fault;
use crate::findings::{ComparisonOutcome, findings_of};
use crate::reply::Reply;
use crate::reporting::report_by;
use crate::sides::SidesInput;
use crate::status::Status;
use crate::verify_fault::VerifyFault;
use scf_compare::Finding;
use scf_insn::Memory;
use scf_request::Comparison;
use std::alloc::Global;

/// The exit status that goes with a finding.
fn status_of_finding(finding: &Finding) -> Status
    ensures { result ≡ finding_status finding.now }
{
    match finding {
        Finding::Holds { .. } => Status::Success,
        Finding::Fails { .. } => Status::Differs,
        Finding::Undecided { .. } | Finding::Unfinished => Status::Unknown,
    }
}

/// The report on two sides, compared as is asked.
fn report_of(alloc: Global, sides: SidesInput, comparison: Comparison) -> Result<Reply, Memory>
    ensures { IfOk result (IsReplyTo (commands.Compare comparison) sides.left sides) }
{
    let findings = findings_of(alloc, &sides, comparison)?;
    let status = status_of_finding(&findings.joint);
    let outcome = ComparisonOutcome {
        findings,
        left_out_of_left: sides.left.left_out(),
        left_out: sides.right.left_out(),
    };
    let text = report_by(alloc, comparison.relation, &outcome)?;
    Ok(Reply::Compared { text, status })
}

/// `compare`: whether two sides answer alike, or the left one is no more or no less permissive.
pub(super) fn compare_sides(
    alloc: Global,
    sides: SidesInput,
    comparison: Comparison,
) -> Result<Reply, Fault>
    ensures { RepliesTo (commands.Compare comparison) sides result }
{
    report_of(alloc, sides, comparison).map_err(|_| Fault::from(VerifyFault::Memory))
}
