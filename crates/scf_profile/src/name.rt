//! Names of syscalls in the order of their bytes, and entries of tables.

ghost use Rattle.std.specs.Prelude.{◌≡◌, IfOk, nat_eq, slice_index, Some};
ghost use Rattle.std.specs.Cmp.{partial_equiv_from_equiv};
ghost use Rattle.std.specs.Cmp.Lexicographic.{nat_list_cmp_total, nat_list_eq_equiv, pointwise, slice_cmp, texts_po, texts_ties};
ghost use Rattle.std.specs.Ordering.{nat_cmp};
ghost use Rattle.scf_profile.specs.internal.Prefixes.{IsPrefixOf};
ghost use borrow.Author.Rules.{rules};

use smallvec::SmallVec;
use std::alloc::{AllocError, Global};
use std::cmp::Ordering;
use std::marker::Model;

/// The byte at an index, 0 behind the end.
fn byte_at(text: &[u8], index: usize) -> u8
    ensures { result ≡ slice_index text.now index }
{
    match text.get(index) {
        Some(byte) => *byte,
        None => 0,
    }
}

/// The first eight bytes as one number, the first one greatest, with zeros behind a shorter text.
#[tactic(auto, using(scf_insn::proofs::Common::nat_tests))]
fn prefix_of_text(text: &[u8]) -> u64
    ensures { IsPrefixOf text.now result }
{
    u64::from_be_bytes([
        byte_at(text, 0),
        byte_at(text, 1),
        byte_at(text, 2),
        byte_at(text, 3),
        byte_at(text, 4),
        byte_at(text, 5),
        byte_at(text, 6),
        byte_at(text, 7),
    ])
}

/// A name, in the order of its bytes. Most comparisons look at the first eight bytes alone, as one number.
#[derive(Drop)]
pub(crate) struct Name<'t> {
    prefix: u64,
    text: &'t [u8],
}

impl<'t> Model for Name<'t> {
    ghost use Rattle.std.specs.Prelude.{List, ℕ, IsUtf8};
    ghost use Rattle.scf_profile.specs.internal.Prefixes.{IsPrefixOf};

    ghost Value = { List ℕ };

    ghost view = { λ name. name.text.now };

    ghost invariant = { λ name. IsPrefixOf name.text.now name.prefix × IsUtf8 name.text.now };
}

impl<'t> Name<'t> {
    /// The name that a text is.
    pub(crate) fn new(text: &'t str) -> Name<'t>
        ensures { result ≡ text.now }
    {
        let text = text.as_bytes();
        Name {
            prefix: prefix_of_text(text),
            text,
        }
    }
}

impl PartialEq for Name<'_> {
    ghost eq = { pointwise nat_eq };

    ghost laws = { partial_equiv_from_equiv nat_list_eq_equiv };

    fn eq(&self, other: &Self) -> bool {
        self.text == other.text
    }
}

impl Eq for Name<'_> {
    ghost laws = { nat_list_eq_equiv };
}

impl PartialOrd for Name<'_> {
    ghost partial_cmp = { λ x y. Some (slice_cmp nat_cmp x y) };

    ghost laws = { texts_po };

    fn partial_cmp(&self, other: &Self) -> Option<Ordering> {
        Some(self.cmp(other))
    }
}

impl Ord for Name<'_> {
    ghost cmp = { slice_cmp nat_cmp };

    ghost total = { nat_list_cmp_total };

    ghost matches_partial_cmp = { Prim.search rules };

    ghost matches_eq = { texts_ties };

    #[tactic(auto, using(crate::proofs::Prefixes::ordered_by_prefix, crate::proofs::Prefixes::ordered_after))]
    fn cmp(&self, other: &Self) -> Ordering {
        if self.prefix < other.prefix {
            Ordering::Less
        } else if self.prefix > other.prefix {
            Ordering::Greater
        } else {
            self.text.cmp(&other.text)
        }
    }
}

/// How many bytes of a name are stored without an allocation.
const INLINE_LEN: usize = 24;

/// A name of a table, and its number.
#[derive(Drop)]
pub(crate) struct TableEntry {
    prefix: u64,
    text: SmallVec<u8, INLINE_LEN>,
    number: u32,
}

impl Model for TableEntry {
    ghost use Rattle.std.specs.Prelude.{List, ℕ, IsUtf8};
    ghost use Rattle.scf_profile.specs.internal.Prefixes.{IsPrefixOf};

    ghost Value = { List ℕ × ℕ };

    ghost view = { λ entry. (entry.text.items, entry.number) };

    ghost invariant = { λ entry. IsPrefixOf entry.text.items entry.prefix × IsUtf8 entry.text.items };
}

impl TableEntry {
    /// An entry with a copy of the name. `Err`: an allocation failed.
    pub(crate) fn new(alloc: Global, name: &Name, number: u32) -> Result<TableEntry, AllocError>
        ensures { IfOk result (λ entry. entry ≡ (name.now, number)) }
    {
        Ok(TableEntry {
            prefix: name.prefix,
            text: SmallVec::from_slice(alloc, name.text)?,
            number,
        })
    }

    /// Compares a name with this one.
    pub(crate) fn order_of(&self, name: &Name) -> Ordering
        ensures { result ≡ slice_cmp nat_cmp name.now self.now.0 }
    {
        name.cmp(&Name {
            prefix: self.prefix,
            text: self.text.as_slice(),
        })
    }

    /// The name as text.
    pub(crate) fn text(&self) -> &str
        ensures { result.now ≡ self.now.0 }
    {
        let Ok(text) = str::from_utf8(self.text.as_slice()) else {
            unreachable!()
        };
        text
    }

    /// The number.
    pub(crate) fn number(&self) -> u32
        ensures { result ≡ self.now.1 }
    {
        self.number
    }
}
