//! Loaded texts.

ghost use Rattle.std.specs.Prelude.{◌≡◌, length};
ghost use Rattle.scf_profile.specs.Loading.{as_only};

use crate::profile::Profile;
use crate::profiles::Profiles;
use crate::texts::Texts;

/// A profile, and what was left out of it.
#[derive(Drop)]
pub struct Loaded {
    pub profile: Profile,
    /// The names that the table lacks, each occurrence, in the order of the text.
    pub skipped: Texts,
    /// The architectures beside SCMP_ARCH_X86_64, each occurrence, in the order of the text.
    pub other_architectures: Texts,
}

/// The profiles of several architectures, and what was left out of them.
#[derive(Drop)]
pub struct LoadedProfiles {
    /// One for each table, in the order of `Architecture::all`.
    pub profiles: Profiles,
    /// The names that no table has, each occurrence, in the order of the text.
    pub skipped: Texts,
    /// The architectures without a table, each occurrence, in the order of the text.
    pub other_architectures: Texts,
}

impl LoadedProfiles {
    /// The only profile, and what was left out of it.
    pub fn into_only(self) -> Loaded
        requires { length self.profiles ≡ 1 }
        ensures { self ≡ as_only result }
    {
        Loaded {
            profile: self.profiles.into_only(),
            skipped: self.skipped,
            other_architectures: self.other_architectures,
        }
    }
}
