//! The contents of a bundle.

ghost use Rattle.std.specs.Prelude.{◌≡◌, ◌++◌, ◌∷◌, [], Err, IfOk, IfErr, OnOk};
ghost use Rattle.scf_request.specs.Bundle.{AreNoParts, IsPartFault, kinds_of};
ghost use Rattle.scf_request.specs.Contents.{IsHeldBy, rest_of};
ghost use Rattle.scf_request.specs.internal.Contents.{AddsPart};

use crate::bundle::{BundleFault, BundleForm, PartKind, architecture_kinds, content_of, split_by};
use scf_insn::{Architecture, Failed, Source};
use std::alloc::Global;

/// The contents of a bundle, by kind, each kind in order.
#[derive(Drop)]
pub struct Contents<'a> {
    /// Readers of the filters, the oldest first.
    pub filters: Vec<PartReader<'a>>,
    pub profiles: Vec<PartReader<'a>>,
    /// Readers of the filters beside these, the oldest first.
    pub beside: Vec<PartReader<'a>>,
    /// Readers of the profiles beside the first.
    pub beside_profiles: Vec<PartReader<'a>>,
    /// Readers of the syscall tables.
    pub tables: Vec<TableReader<PartReader<'a>>>,
    /// Readers of the numbers of stubs.
    pub stubs: Vec<TableReader<PartReader<'a>>>,
    /// Readers of counts of calls.
    pub counts: Vec<TableReader<PartReader<'a>>>,
}

impl<'a> Contents<'a> {
    /// Adds the contents of a part.
    fn add(&mut self, kind: PartKind, bytes: &'a [u8]) -> Result<(), BundleFault>
        ensures { AddsPart kind bytes.now self.old result self.new }
    {
        let reader = PartReader { rest: bytes };
        match kind {
            PartKind::Filter => push(&mut self.filters, reader),
            PartKind::Profile => push(&mut self.profiles, reader),
            PartKind::Beside => push(&mut self.beside, reader),
            PartKind::BesideProfile => push(&mut self.beside_profiles, reader),
            PartKind::Table => push(&mut self.tables, reader.of(Architecture::X8664)),
            PartKind::TableOf(architecture) => push(&mut self.tables, reader.of(architecture)),
            PartKind::StubOf(architecture) => push(&mut self.stubs, reader.of(architecture)),
            PartKind::CountsOf(architecture) => push(&mut self.counts, reader.of(architecture)),
        }
    }

    /// The contents of the bundle of this form that the bytes spell. Errors are those of `split`, where the kinds of
    /// parts are those of the form.
    #[tactic(auto, using(crate::proofs::BundleLemmas::part_inside))]
    pub fn of(alloc: Global, form: BundleForm, bytes: &'a [u8]) -> Result<Contents<'a>, BundleFault>
        ensures bundle { IfOk result (IsHeldBy form bytes.now) }
        ensures fault { IfErr result (AreNoParts (kinds_of form) bytes.now) }
        ensures first { (fault : BundleFault) → IsPartFault (kinds_of form) bytes.now 0 fault
            → result ≡ Err fault }
    {
        let architectures = architecture_kinds();
        let parts = split_by(alloc, bytes, form.kinds(&architectures))?;
        let mut contents = Contents {
            filters: Vec::new(alloc),
            profiles: Vec::new(alloc),
            beside: Vec::new(alloc),
            beside_profiles: Vec::new(alloc),
            tables: Vec::new(alloc),
            stubs: Vec::new(alloc),
            counts: Vec::new(alloc),
        };
        for part in &parts {
            contents.add(part.kind, content_of(bytes, *part))?;
        }
        Ok(contents)
    }
}

/// Appends a reader. The error: out of memory.
fn push<R: Drop>(readers: &mut Vec<R>, reader: R) -> Result<(), BundleFault>
    ensures ok { OnOk result (readers.new.items ≡ readers.old.items ++ reader ∷ []) }
    ensures fault { IfErr result (λ fault. fault ≡ BundleFault.Memory) }
{
    if readers.push(reader).is_err() {
        return Err(BundleFault::Memory);
    }
    Ok(())
}

/// A reader of a syscall table, of the number of a stub or of counts of calls, and its architecture.
#[derive(Drop)]
pub struct TableReader<R> {
    pub architecture: Architecture,
    pub reader: R,
}

/// A reader of a part's contents. Never fails.
#[derive(Drop)]
pub struct PartReader<'a> {
    rest: &'a [u8],
}

impl<'a> PartReader<'a> {
    /// A reader of these bytes.
    pub fn new(bytes: &'a [u8]) -> PartReader<'a>
        ensures { rest_of result ≡ bytes.now }
    {
        PartReader { rest: bytes }
    }

    /// This reader, as one of what is of an architecture.
    fn of(self, architecture: Architecture) -> TableReader<PartReader<'a>>
        ensures { result ≡ record { architecture = architecture; reader = self.entry } }
    {
        TableReader {
            architecture,
            reader: self,
        }
    }

    /// The bytes that aren't read yet.
    pub fn rest(&self) -> &'a [u8]
        ensures { result.now ≡ rest_of self.now }
    {
        self.rest
    }
}

impl Source for PartReader<'_> {
    ghost use Rattle.std.specs.Prelude.{Some};

    ghost remaining = { λ s. Some (rest_of s) };

    ghost failures = { λ _. 0 };

    fn read(&mut self, buffer: &mut [u8]) -> Result<usize, Failed> {
        let count = self.rest.len().min(buffer.len());
        buffer[..count].copy_from_slice(&self.rest[..count]);
        self.rest = &self.rest[count..];
        Ok(count)
    }
}
