//! Bundles: files one after another, each behind a header with its kind and its length in bytes.

ghost use Rattle.std.specs.Prelude.{◌≡◌, ◌≢◌, ◌+◌, ◌-◌, ◌<◌, ◌≤◌, ◌++◌, ◌∷◌, [], ℕ, List, codes, length, take, drop};
ghost use Rattle.std.specs.Prelude.{◌↔◌, IsTrue, slice_index, Contains, MatchOption, IfSome, IfNone, IfOk, IfErr};
ghost use Rattle.scf_request.specs.Bundle as spec;
ghost use Rattle.scf_insn.specs.Numbers.{numeral};
ghost use Rattle.scf_request.specs.Bundle.{
  AreNoParts,
  HasHeader,
  IsBundleFault,
  IsBundlePart,
  IsFaultAt,
  IsHeader,
  IsPartFault,
  SpellsBundle,
  SpellsParts,
  kind_word,
  word_parts,
};

use scf_insn::{ARCHITECTURES, Architecture, parse_numeral};
use std::alloc::Global;
use thiserror::Error;

/// The kind of a part.
#[derive(Clone, Copy)]
pub enum PartKind {
    Filter,
    Profile,
    Table,
    /// A filter of another stack, beside the first.
    Beside,
    /// Another profile, beside the first.
    BesideProfile,
    /// The table of an architecture, where there may be several.
    TableOf(Architecture),
    /// The stub of the profile of an architecture.
    StubOf(Architecture),
    /// How often syscalls of an architecture are called.
    CountsOf(Architecture),
}

/// A part of a bundle: its kind, and the range of its contents, in bytes from the beginning.
#[derive(Clone, Copy)]
pub struct Part {
    pub kind: PartKind,
    pub start: usize,
    pub length: usize,
}

/// Which kinds of parts a bundle has.
#[derive(Clone, Copy)]
pub enum BundleForm {
    /// Filters, a profile and another one, and x86-64's syscall table, stub and counts of calls.
    Profile,
    /// Filters, a profile and another one, and the syscall tables, stubs and counts of calls of several architectures.
    Architectures,
    /// Filters and others beside them; call by call a syscall table, too.
    Beside { has_table: bool },
}

/// Why bytes aren't a bundle.
#[derive(Clone, Copy, Debug, Error)]
pub enum BundleFault {
    #[error("no header stands at byte {offset}")]
    Header { offset: usize },
    #[error("fewer bytes follow than the header at byte {offset} says")]
    Short { offset: usize },
    #[error("out of memory")]
    Memory,
}

impl PartKind {
    /// The beginning and the rest of the kind's word: that of a stub is `stub-` and the word of its table, that of
    /// counts `counts-` and that word.
    fn word_parts(self) -> (&'static [u8], &'static [u8])
        ensures { (result.0.now, result.1.now) ≡ word_parts self }
    {
        match self {
            PartKind::Filter => (b"", b"filter"),
            PartKind::Profile => (b"", b"profile"),
            PartKind::Table => (b"", b"table"),
            PartKind::Beside => (b"", b"beside"),
            PartKind::BesideProfile => (b"", b"beside-profile"),
            PartKind::TableOf(architecture) => (b"", architecture.part().as_bytes()),
            PartKind::StubOf(architecture) => (b"stub-", architecture.part().as_bytes()),
            PartKind::CountsOf(architecture) => (b"counts-", architecture.part().as_bytes()),
        }
    }

    /// Whether this is the kind's word.
    fn has_word(self, word: &[u8]) -> bool
        ensures { IsTrue result ↔ (word.now ≡ kind_word self) }
    {
        let (front, rest) = self.word_parts();
        match word.strip_prefix(front) {
            Some(name) => name == rest,
            None => false,
        }
    }
}

/// A parsed header, and its length in bytes.
#[derive(Clone, Copy)]
struct Header {
    kind: PartKind,
    count: usize,
    length: usize,
}

/// The value of a header's digits.
#[tactic(auto, using(std::proofs::lemmas::Grind::common_steps, crate::proofs::HeaderLemmas::no_count))]
fn count_of(digits: &[u8]) -> Option<usize>
    ensures { MatchOption result
        ((n : ℕ) → (length digits.now ≤ 8) × (numeral 10 digits.now ≡ Some n) → ⊥)
        (λ n. (length digits.now ≤ 8) × (numeral 10 digits.now ≡ Some n)) }
{
    if digits.len() > 8 {
        return None;
    }
    match parse_numeral(digits, 10) {
        Ok(count) => Some(count as usize),
        Err(_) => None,
    }
}

/// The index of the first of a byte.
fn index_of(bytes: &[u8], wanted: u8) -> Option<usize>
    ensures found { IfSome result (λ n. n < length bytes.now × (slice_index bytes.now n ≡ wanted)) }
    ensures first { IfSome result (λ n. (k : ℕ) → k < n → slice_index bytes.now k ≢ wanted) }
    ensures none { IfNone result ((k : ℕ) → k < length bytes.now → slice_index bytes.now k ≢ wanted) }
{
    bytes.iter().position(|byte| *byte == wanted)
}

/// The kind with this word, of these.
fn kind_named(kinds: &[PartKind], word: &[u8]) -> Option<PartKind>
    ensures some { IfSome result (λ kind. Contains kinds.now kind × (word.now ≡ kind_word kind)) }
    ensures none { IfNone result ((kind : PartKind) → Contains kinds.now kind → word.now ≢ kind_word kind) }
{
    kinds.iter().copied().find(|kind| kind.has_word(word))
}

/// The header at the beginning, of one of these kinds.
fn header_of(kinds: &[PartKind], bytes: &[u8]) -> Option<Header>
    ensures some { IfSome result (λ h. (h.length ≤ length bytes.now)
        × IsHeader (take h.length bytes.now) h.kind h.count) }
    ensures kind { IfSome result (λ h. Contains kinds.now h.kind) }
    ensures none { IfNone result ((kind : PartKind) (count : ℕ)
        → Contains kinds.now kind → HasHeader bytes.now kind count → ⊥) }
{
    let end = index_of(bytes, b'\n')?;
    let line = &bytes[..end];
    let blank = index_of(line, b' ')?;
    let kind = kind_named(kinds, &line[..blank])?;
    let count = count_of(&line[blank + 1..])?;
    Some(Header {
        kind,
        count,
        length: end + 1,
    })
}

/// The part at an offset, of one of these kinds.
fn part_at(kinds: &[PartKind], bytes: &[u8], offset: usize) -> Result<Part, BundleFault>
    requires { offset < length bytes.now }
    ensures inside { IfOk result (λ part. (offset < part.start + part.length)
        × (part.start + part.length ≤ length bytes.now)) }
    ensures part { IfOk result (λ part. IsBundlePart kinds.now offset part
        (take (part.start + part.length - offset) (drop offset bytes.now))) }
    ensures fault { IfErr result (IsPartFault kinds.now (drop offset bytes.now) offset) }
{
    let tail = &bytes[offset..];
    let Some(header) = header_of(kinds, tail) else {
        return Err(BundleFault::Header { offset });
    };
    if tail.len() - header.length < header.count {
        return Err(BundleFault::Short { offset });
    }
    Ok(Part {
        kind: header.kind,
        start: offset + header.length,
        length: header.count,
    })
}

/// The contents of a part.
pub(crate) fn content_of<'a>(bytes: &'a [u8], part: Part) -> &'a [u8]
    requires { part.start + part.length ≤ length bytes.now }
    ensures { result.now ≡ spec.content_of bytes.now part }
{
    &bytes[part.start..part.start + part.length]
}

/// Splits a bundle into its parts: one after another, each a header and its contents, nothing between or behind them.
///
/// A header is `filter`, `profile` or `table`, one space, 1 to 8 decimal digits and LF. The digits are the count of
/// bytes that follow. `Header` has the first offset behind whole parts where bytes follow that aren't a header, `Short`
/// the first offset of a header that announces more bytes than follow.
pub fn split(alloc: Global, bytes: &[u8]) -> Result<Vec<Part>, BundleFault>
    ensures parts { IfOk result (λ parts. SpellsBundle bytes.now parts.items) }
    // The bytes spell no other list of parts.
    ensures only { IfOk result (λ parts. (others : List Part) → SpellsBundle bytes.now others → others ≡ parts.items) }
    ensures fault { IfErr result (IsBundleFault bytes.now) }
    ensures none { IfErr result (λ fault. fault ≢ BundleFault.Memory
        → (parts : List Part) → SpellsBundle bytes.now parts → ⊥) }
    // Nothing is allocated before the first whole part.
    ensures first { (fault : BundleFault) → IsFaultAt bytes.now 0 fault → result ≡ Err fault }
{
    split_by(alloc, bytes, &SPLIT_KINDS)
}

/// The kinds of parts that `split` takes.
const SPLIT_KINDS: [PartKind; 3] = [PartKind::Filter, PartKind::Profile, PartKind::Table];

/// The kinds of parts of a bundle with a profile.
const PROFILE_KINDS: [PartKind; 6] = [
    PartKind::Filter,
    PartKind::Profile,
    PartKind::BesideProfile,
    PartKind::Table,
    PartKind::StubOf(Architecture::X8664),
    PartKind::CountsOf(Architecture::X8664),
];

/// The kinds of parts of a bundle with other filters; the table is that of a comparison call by call.
const BESIDE_KINDS: [PartKind; 3] = [PartKind::Filter, PartKind::Beside, PartKind::Table];

/// How many kinds of parts a bundle with a profile of several architectures has.
const ARCHITECTURE_KINDS: usize = 3 + 3 * ARCHITECTURES;

/// The kinds of parts of a bundle with a profile of several architectures.
pub(crate) fn architecture_kinds() -> [PartKind; ARCHITECTURE_KINDS]
    ensures { result ≡ spec.kinds_of BundleForm.Architectures }
{
    let all = Architecture::all();
    let mut kinds = [PartKind::Filter; ARCHITECTURE_KINDS];
    kinds[1] = PartKind::Profile;
    kinds[2] = PartKind::BesideProfile;
    for i in 0..ARCHITECTURES {
        kinds[3 + i] = PartKind::TableOf(all[i]);
        kinds[3 + ARCHITECTURES + i] = PartKind::StubOf(all[i]);
        kinds[3 + 2 * ARCHITECTURES + i] = PartKind::CountsOf(all[i]);
    }
    kinds
}

impl BundleForm {
    /// The kinds of parts; `architectures` are those with a profile of several architectures.
    pub(crate) fn kinds(self, architectures: &[PartKind; ARCHITECTURE_KINDS]) -> &[PartKind]
        requires { architectures.now ≡ spec.kinds_of BundleForm.Architectures }
        ensures { result.now ≡ spec.kinds_of self }
    {
        match self {
            BundleForm::Profile => &PROFILE_KINDS,
            BundleForm::Architectures => architectures,
            BundleForm::Beside { has_table: false } => &BESIDE_KINDS[..2],
            BundleForm::Beside { has_table: true } => &BESIDE_KINDS,
        }
    }
}

/// Splits a bundle into its parts, each of one of these kinds, as `split` does with its own.
#[tactic(auto, using(std::proofs::lemmas::Grind::common_steps, crate::proofs::BundleLemmas::breaks, crate::proofs::BundleLemmas::next_part, crate::proofs::BundleLemmas::first_fault, crate::proofs::BundleLemmas::broken_no_parts))]
pub(crate) fn split_by(
    alloc: Global,
    bytes: &[u8],
    kinds: &[PartKind],
) -> Result<Vec<Part>, BundleFault>
    ensures parts { IfOk result (λ parts. SpellsParts kinds.now 0 bytes.now parts.items) }
    ensures fault { IfErr result (AreNoParts kinds.now bytes.now) }
    ensures none { IfErr result (λ fault. fault ≢ BundleFault.Memory
        → (parts : List Part) → SpellsParts kinds.now 0 bytes.now parts → ⊥) }
    ensures first { (fault : BundleFault) → IsPartFault kinds.now bytes.now 0 fault → result ≡ Err fault }
{
    let mut parts = Vec::new(alloc);
    let mut offset = 0;
    while offset < bytes.len() {
        let part = part_at(kinds, bytes, offset)?;
        if parts.push(part).is_err() {
            return Err(BundleFault::Memory);
        }
        offset = part.start + part.length;
    }
    Ok(parts)
}
