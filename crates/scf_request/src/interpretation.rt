//! How a profile is read: by its words or as a runtime does, and with which stubs.

ghost use Rattle.std.specs.Prelude.{◌≡◌, length, map, IfErr, IfOk};
ghost use Rattle.scf_profile.specs.Loading.{RefusesEachAs};
ghost use Rattle.scf_profile.specs.StatedProfile.{tables_of};
ghost use Rattle.scf_request.specs.Interpretations.{LoadsEachBy, stubbed, stub_of as stub_stated, stubs_of as stubs_stated};
ghost use Rattle.scf_request.specs.Contents.{rest_of_table};

use crate::bundle::BundleFault;
use crate::contents::{PartReader, TableReader};
use scf_insn::{Architecture, parse_numeral};
use scf_profile::{
    ArchitectureTable, LoadFault, LoadedProfiles, Profiles, Reading, load_profiles_as,
};
use std::alloc::{AllocError, Global};
use std::marker::Model;

/// The stub of an architecture's profile: the first syscall number that it answers, as a record has it.
#[derive(Clone, Copy)]
pub struct Stub {
    pub architecture: Architecture,
    pub first: u32,
}

/// How a profile is read: by which reading, and with which stubs.
#[derive(Drop)]
pub struct Interpretation {
    reading: Reading,
    stubs: Vec<Stub>,
}

impl Model for Interpretation {
    ghost use Rattle.scf_request.specs.Interpretations.{Interpretation};

    ghost Value = { Interpretation };

    ghost view = { λ i. record { reading = i.reading; stubs = i.stubs.items } };
}

impl Interpretation {
    /// By a reading and with these stubs.
    pub fn new(reading: Reading, stubs: Vec<Stub>) -> Interpretation
        ensures { result ≡ record { reading = reading; stubs = stubs.items } }
    {
        Interpretation { reading, stubs }
    }

    /// By a reading, and with the stubs of a bundle. The error: out of memory.
    pub fn of_parts(
        alloc: Global,
        reading: Reading,
        stubs: &[TableReader<PartReader<'_>>],
    ) -> Result<Interpretation, BundleFault>
        ensures by { IfOk result (λ by. by
            ≡ record { reading = reading; stubs = stubs_stated (map rest_of_table stubs.now) }) }
        ensures fault { IfErr result (λ fault. fault ≡ BundleFault.Memory) }
    {
        let Ok(stubs) = stubs_of(alloc, stubs) else {
            return Err(BundleFault::Memory);
        };
        Ok(Interpretation { reading, stubs })
    }

    fn reading(&self) -> Reading
        ensures { result ≡ self.now.reading }
    {
        self.reading
    }

    /// How many stubs there are.
    pub fn stub_count(&self) -> usize
        ensures { result ≡ length self.now.stubs }
    {
        self.stubs.len()
    }

    /// Profiles, each with the stubs of its architecture.
    fn each_with_stubs(&self, profiles: Profiles) -> Profiles
        ensures { result ≡ stubbed self.now.stubs profiles }
    {
        let mut profiles = profiles;
        for stub in &self.stubs {
            profiles = profiles.with_stub(stub.architecture, Some(stub.first));
        }
        profiles
    }

    /// Loads the profile of each architecture that has a table. Errors are those of `load_profiles_as`.
    pub fn load_profiles(
        &self,
        alloc: Global,
        text: &[u8],
        tables: &[ArchitectureTable],
    ) -> Result<LoadedProfiles, LoadFault>
        ensures ok { IfOk result (LoadsEachBy self.now text.now (tables_of tables.now)) }
        ensures err { IfErr result (RefusesEachAs self.now.reading text.now (tables_of tables.now)) }
    {
        let stated = load_profiles_as(alloc, self.reading(), text, tables)?;
        Ok(LoadedProfiles {
            profiles: self.each_with_stubs(stated.profiles),
            skipped: stated.skipped,
            other_architectures: stated.other_architectures,
        })
    }
}

/// The stub of a part, if it has the number of one in decimal digits.
fn stub_of(part: &TableReader<PartReader<'_>>) -> Option<Stub>
    ensures { result ≡ stub_stated (rest_of_table part.now) }
{
    match parse_numeral(part.reader.rest(), 10) {
        Ok(number) if number <= u64::from(u32::MAX) => Some(Stub {
            architecture: part.architecture,
            first: number as u32,
        }),
        _ => None,
    }
}

/// The stubs of the parts that have the number of one, in order.
fn stubs_of(alloc: Global, parts: &[TableReader<PartReader<'_>>]) -> Result<Vec<Stub>, AllocError>
    ensures { IfOk result (λ stubs. stubs.items ≡ stubs_stated (map rest_of_table parts.now)) }
{
    let mut stubs = Vec::new(alloc);
    for part in parts {
        if let Some(stub) = stub_of(part) {
            stubs.push(stub)?;
        }
    }
    Ok(stubs)
}
