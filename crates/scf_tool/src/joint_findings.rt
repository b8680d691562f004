//! The finding that speaks for several.

ghost use Rattle.std.specs.Prelude.{◌≡◌, find, max, not};
ghost use Rattle.std.specs.List.{fold};
ghost use Rattle.scf_tool.specs.JointFindings as spec;

use scf_compare::Finding;

fn fails(finding: &Finding) -> bool
    ensures { result ≡ spec.is_failure finding.now }
{
    matches!(finding, Finding::Fails { .. })
}

pub(crate) fn holds(finding: &Finding) -> bool
    ensures { result ≡ spec.is_holding finding.now }
{
    matches!(finding, Finding::Holds { .. })
}

fn steps_of(finding: &Finding) -> u64
    ensures { result ≡ spec.steps_of finding.now }
{
    match finding {
        Finding::Holds { steps } => *steps,
        _ => 0,
    }
}

/// The most steps of a finding `Holds`.
fn most_steps(findings: &[Finding]) -> u64
    ensures { result ≡ fold (λ most finding. max (spec.steps_of finding) most) 0 findings.now }
{
    findings
        .iter()
        .fold(0, |most, finding| steps_of(finding).max(most))
}

/// The first that fails.
fn first_failure(findings: &[Finding]) -> Option<Finding>
    ensures { result ≡ find spec.is_failure findings.now }
{
    findings.iter().copied().find(|finding| fails(finding))
}

/// The first that doesn't hold.
fn first_other(findings: &[Finding]) -> Option<Finding>
    ensures { result ≡ find (λ finding. not (spec.is_holding finding)) findings.now }
{
    findings.iter().copied().find(|finding| !holds(finding))
}

/// The finding that speaks for several: the first that fails, else the first that doesn't hold, else `Holds` in the
/// most steps that one of them took.
pub fn joint_finding(findings: &[Finding]) -> Finding
    ensures { result ≡ spec.joint_finding findings.now }
{
    let worst = first_failure(findings).or(first_other(findings));
    worst.unwrap_or(Finding::Holds {
        steps: most_steps(findings),
    })
}
