//! Whether scopes have call records.

ghost use Rattle.std.specs.Prelude.{◌↔◌, IsTrue};
ghost use Rattle.scf_profile.specs.Scope.{IsInScope};
ghost use Rattle.scf_request.specs.Requests.{HasRecord, HaveRecord};

use crate::bundle::BundleForm;
use crate::request::Scopes;
use scf_profile::Scope;

/// Whether a scope has a record.
#[tactic(auto, using(crate::proofs::RecordLemmas::some_record, crate::proofs::RecordLemmas::some_native))]
pub fn has_record(scope: Scope) -> bool
    ensures { IsTrue result ↔ HasRecord (IsInScope scope) }
{
    match scope {
        Scope::All | Scope::Native => true,
        Scope::Numbers {
            architecture,
            first,
            last,
        } => first.max(architecture.first()) <= last.min(architecture.last()),
    }
}

/// Whether scopes have a record. Of several architectures a range is one of each.
#[tactic(auto, using(crate::proofs::RecordLemmas::of_any))]
pub(crate) fn have_record(form: BundleForm, over: Scopes) -> bool
    ensures { IsTrue result ↔ HaveRecord form over }
{
    match (form, over) {
        (_, Scopes::EachCall) => true,
        // Every number is one of i386's.
        (BundleForm::Architectures, Scopes::AtOnce(Scope::Numbers { first, last, .. })) => {
            first <= last
        }
        (_, Scopes::AtOnce(scope)) => has_record(scope),
    }
}
