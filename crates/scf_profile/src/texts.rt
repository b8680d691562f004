//! Lists of texts.

ghost use Rattle.std.specs.Prelude.{◌≡◌, ◌++◌, ◌∷◌, [], map, string_bytes, OnOk};
ghost use Rattle.scf_profile.specs.References.{texts_at};

use std::alloc::{AllocError, Global};
use std::marker::Model;

/// A list of texts, as bytes.
#[derive(Drop)]
pub struct Texts {
    list: Vec<String>,
}

impl Model for Texts {
    ghost use Rattle.std.specs.Prelude.{List, ℕ, map, string_bytes};

    ghost Value = { List (List ℕ) };

    ghost view = { λ t. map string_bytes t.list.items };
}

impl Texts {
    /// The list of these texts.
    pub fn from_vec(list: Vec<String>) -> Texts
        ensures { result ≡ map string_bytes list.items }
    {
        Texts { list }
    }

    /// An empty list.
    pub(crate) fn new(alloc: Global) -> Texts
        ensures { result ≡ [] }
    {
        Texts {
            list: Vec::new(alloc),
        }
    }

    /// Appends a text.
    pub(crate) fn push(&mut self, alloc: Global, text: &str) -> Result<(), AllocError>
        ensures { OnOk result (self.new ≡ self.old ++ text.now ∷ []) }
    {
        self.list.push(String::from_str(alloc, text)?)?;
        Ok(())
    }

    /// The texts, in order.
    pub fn as_slice(&self) -> &[String]
        ensures { map string_bytes result.now ≡ self.now }
    {
        &self.list
    }
}

/// A list of borrowed texts.
#[derive(Drop)]
pub(crate) struct BorrowedTexts<'v> {
    texts: Vec<&'v str>,
}

impl<'v> Model for BorrowedTexts<'v> {
    ghost use Rattle.std.specs.Prelude.{List, ℕ};
    ghost use Rattle.scf_profile.specs.References.{texts_at};

    ghost Value = { List (List ℕ) };

    ghost view = { λ t. texts_at t.texts.items };
}

impl<'v> BorrowedTexts<'v> {
    /// An empty list.
    pub(crate) fn new(alloc: Global) -> BorrowedTexts<'v>
        ensures { result ≡ [] }
    {
        BorrowedTexts {
            texts: Vec::new(alloc),
        }
    }

    /// Appends a text.
    pub(crate) fn push(&mut self, text: &'v str) -> Result<(), AllocError>
        ensures { OnOk result (self.new ≡ self.old ++ text.now ∷ []) }
    {
        self.texts.push(text)?;
        Ok(())
    }

    /// Drops all texts.
    pub(crate) fn clear(&mut self)
        ensures { self.new ≡ [] }
    {
        self.texts.clear();
    }

    /// Appends other texts.
    pub(crate) fn append(&mut self, others: &BorrowedTexts<'v>) -> Result<(), AllocError>
        ensures { OnOk result (self.new ≡ self.old ++ others.now) }
    {
        self.texts.extend_from_slice(&others.texts)?;
        Ok(())
    }

    /// The texts, in order.
    pub(crate) fn as_slice(&self) -> &[&'v str]
        ensures { texts_at result.now ≡ self.now }
    {
        &self.texts
    }
}
