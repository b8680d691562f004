//! A profile with its rules by syscall number.

ghost use Rattle.std.specs.Prelude.{◌≡◌};

use scf_profile::{NumberRules, Profile};
use std::marker::Model;

/// A profile and its syscall numbers, each with its rules.
#[derive(Drop)]
pub(crate) struct ByNumber<'a> {
    profile: &'a Profile,
    numbers: &'a [NumberRules],
}

impl<'a> Model for ByNumber<'a> {
    ghost use Rattle.scf_compare.specs.internal.NumberedProfiles.{IsNumbered, NumberedProfile};

    ghost Value = { NumberedProfile };

    ghost view = { λ s. record { profile = s.profile.now; numbers = s.numbers.now } };

    ghost invariant = { λ s. IsNumbered (record { profile = s.profile.now; numbers = s.numbers.now }) };
}

impl<'a> ByNumber<'a> {
    ghost use Rattle.scf_profile.specs.NumberRules.{AreNumbersOf};
    ghost use Rattle.scf_compare.specs.internal.NumberedProfiles.{IsNumbered};

    /// The profile with these numbers, which are its own.
    pub(crate) fn with_numbers(profile: &'a Profile, numbers: &'a [NumberRules]) -> ByNumber<'a>
        requires { AreNumbersOf numbers.now profile.now.rules }
        ensures profile { result ≡ record { profile = profile.now; numbers = numbers.now } }
        ensures numbered { IsNumbered result }
    {
        let _rules = profile.rules();
        ByNumber { profile, numbers }
    }

    /// The profile.
    pub(crate) fn profile(&self) -> &Profile
        ensures { result.now ≡ self.now.profile }
    {
        self.profile
    }

    /// Its syscall numbers in rising order, each with its rules.
    pub(crate) fn numbers(&self) -> &[NumberRules]
        ensures numbers { result.now ≡ self.now.numbers }
        ensures numbered { IsNumbered self.now }
    {
        self.numbers
    }
}
