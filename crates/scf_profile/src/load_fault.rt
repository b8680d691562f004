//! Why a text isn't loaded as a profile.

ghost use Rattle.std.specs.Prelude.{◌≡◌};
ghost use Rattle.scf_profile.specs.declared.load_fault.LoadFault.TheVariants as faults;
ghost use Rattle.scf_profile.specs.Loading.{fault_of_only};

use std::alloc::{AllocError, AllocFailed};
use std::fmt;
use thiserror::Error;

/// The first test that fails. `entry` is the index of the entry of `syscalls` in which it stands, `None` outside of
/// them.
#[derive(Clone, Copy, Debug, Error)]
pub enum LoadFault {
    /// The text isn't UTF-8, isn't JSON, or is nested more than 127 deep (serde_json, `max_depth`).
    Json,
    Missing {
        entry: Option<u32>,
    },
    Kind {
        entry: Option<u32>,
    },
    Action {
        entry: Option<u32>,
    },
    Operator {
        entry: Option<u32>,
    },
    EmptyNames {
        entry: Option<u32>,
    },
    Index {
        entry: Option<u32>,
    },
    RepeatedIndex {
        entry: Option<u32>,
    },
    Errno {
        entry: Option<u32>,
    },
    ErrnoRange {
        entry: Option<u32>,
    },
    NoX8664 {
        entry: Option<u32>,
    },
    /// The architecture of the table with this index, from 0 on, is not among the architectures.
    NotListed {
        table: usize,
    },
    /// A non-empty `archMap`, `includes` or `excludes`, whose meaning depends on a container engine.
    EngineForm {
        entry: Option<u32>,
    },
    /// More than `MAX_TEXT_LEN` bytes of text, or more than `MAX_RULES` rules.
    TooMany,
    /// Some syscall with this number meets rules of both entries, whose answers differ.
    Conflict {
        number: u32,
        first: u32,
        second: u32,
    },
    Memory,
}

impl LoadFault {
    /// The fault under a table of x86-64 alone: in place of `NotListed` comes `NoX8664`.
    pub fn of_only(self) -> LoadFault
        ensures { result ≡ fault_of_only self }
    {
        match self {
            LoadFault::NotListed { .. } => LoadFault::NoX8664 { entry: None },
            _ => self,
        }
    }
}

impl fmt::Display for LoadFault {
    fn fmt<W: fmt::Write>(&self, f: &mut fmt::Formatter<W>) -> fmt::Result {
        let (entry, text) = match *self {
            LoadFault::Json => (None, "no JSON, or nested more than 127 deep"),
            LoadFault::Missing { entry } => (entry, "a member is missing"),
            LoadFault::Kind { entry } => (entry, "a value of the wrong kind"),
            LoadFault::Action { entry } => (entry, "no name of an action"),
            LoadFault::Operator { entry } => (entry, "no name of an operator"),
            LoadFault::EmptyNames { entry } => (entry, "no names"),
            LoadFault::Index { entry } => (entry, "no index of an argument: they are 0 to 5"),
            LoadFault::RepeatedIndex { entry } => (entry, "two conditions on one argument"),
            LoadFault::Errno { entry } => (entry, "an errno beside an action that takes none"),
            LoadFault::ErrnoRange { entry } => (entry, "an errno outside 0 to 65535"),
            LoadFault::NoX8664 { entry } => (entry, "x86-64 is not among the architectures"),
            LoadFault::NotListed { table } => {
                return write!(
                    f,
                    "table {table}: its architecture is not among the architectures"
                );
            }
            LoadFault::EngineForm { entry } => (entry, "a form of container engines"),
            LoadFault::TooMany => (None, "more than 4194304 bytes, or more than 4096 rules"),
            LoadFault::Conflict {
                number,
                first,
                second,
            } => {
                return write!(f, "entries {first} and {second} conflict on call {number}");
            }
            LoadFault::Memory => (None, "out of memory"),
        };
        match entry {
            Some(entry) => write!(f, "entry {entry}: {text}"),
            None => f.write_str(text),
        }
    }
}

impl From<AllocError> for LoadFault {
    ghost from_gives = { λ _ e. e ≡ faults.Memory };

    fn from(_: AllocError) -> LoadFault {
        LoadFault::Memory
    }
}

impl<T: Drop> From<AllocFailed<T>> for LoadFault {
    ghost from_gives = { λ _ e. e ≡ faults.Memory };

    fn from(_: AllocFailed<T>) -> LoadFault {
        LoadFault::Memory
    }
}
