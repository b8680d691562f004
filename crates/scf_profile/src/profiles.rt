//! The profiles of several architectures.

ghost use Rattle.std.specs.Prelude.{◌≡◌, [], ◌∷◌, None, Some, length, map, option_map};
ghost use Rattle.scf_profile.specs.Profile.{AreOfApart};
ghost use Rattle.scf_profile.specs.ProfileAnswers.{OfFirst, ProfilesAnswer};
ghost use Rattle.scf_profile.specs.Reasons.{IsReasonAmong};
ghost use Rattle.scf_profile.specs.StatedProfile.{with_stub as stated_with_stub};

use crate::profile::{FOREIGN_ANSWER, Profile};
use crate::reason::Reason;
use scf_insn::{Answer, Architecture, CallRecord};
use std::marker::Model;

/// Profiles of several architectures, one for each. No record is of two of them.
#[derive(Drop)]
pub struct Profiles {
    list: Vec<Profile>,
}

impl Model for Profiles {
    ghost use Rattle.std.specs.Prelude.{List};
    ghost use Rattle.scf_profile.specs.Profile.{Profile, AreOfApart};

    ghost Value = { List Profile };

    ghost view = { λ p. p.list.items };

    ghost invariant = { λ p. AreOfApart p.list.items };
}

impl Profiles {
    /// The list of these profiles, in order.
    pub(crate) fn from_vec(list: Vec<Profile>) -> Profiles
        requires { AreOfApart list.items }
        ensures { result ≡ list.items }
    {
        Profiles { list }
    }

    /// The only profile.
    pub(crate) fn into_only(self) -> Profile
        requires { length self ≡ 1 }
        ensures { self ≡ result ∷ [] }
    {
        let mut list = self.list;
        match list.pop() {
            Some(profile) => profile,
            None => unreachable!(),
        }
    }

    /// The profiles, of which that of an architecture, if there is one, has a stub, or none.
    /// A stub answers the records of the architecture from a syscall number on, as a record has it, by ENOSYS, whatever
    /// rules they meet (runc, libcontainer/seccomp/patchbpf).
    pub fn with_stub(self, architecture: Architecture, first: Option<u32>) -> Profiles
        ensures { result ≡ map (stated_with_stub architecture first) self }
    {
        Profiles::from_vec(all_with_stub(self.list, architecture, first))
    }

    /// The answer to a record: that of the profile of its architecture, and KILL_PROCESS if there is none.
    pub fn answer(&self, call: &CallRecord) -> Answer
        ensures { ProfilesAnswer self.now call.now result.0 }
    {
        match profile_for(self.as_slice(), call) {
            Some(profile) => profile.answer(call),
            None => FOREIGN_ANSWER,
        }
    }

    /// Why a record gets its answer: the reason of the profile of its architecture, and another architecture if there
    /// is none.
    pub fn reason(&self, call: &CallRecord) -> Reason
        ensures { IsReasonAmong self.now call.now result }
    {
        match profile_for(self.as_slice(), call) {
            Some(profile) => profile.reason(call),
            None => Reason::Foreign,
        }
    }

    /// The profiles, in order.
    pub fn as_slice(&self) -> &[Profile]
        ensures profiles { result.now ≡ self.now }
        ensures apart { AreOfApart self.now }
    {
        &self.list
    }
}

/// The first profile of whose architecture a record is, if there is one.
pub fn profile_for<'p>(profiles: &'p [Profile], call: &CallRecord) -> Option<&'p Profile>
    ensures { let found = option_map (λ p. p.now) result in
        OfFirst profiles.now call.now (λ p. found ≡ Some p) (found ≡ None) }
{
    for profile in profiles {
        if profile.architecture().has(call) {
            return Some(profile);
        }
    }
    None
}

/// The profiles, of which those of an architecture have a stub, or none.
fn all_with_stub(
    mut profiles: Vec<Profile>,
    architecture: Architecture,
    first: Option<u32>,
) -> Vec<Profile>
    ensures { result.items ≡ map (stated_with_stub architecture first) profiles.items }
{
    for profile in profiles.iter_mut() {
        profile.set_stub(architecture, first);
    }
    profiles
}
