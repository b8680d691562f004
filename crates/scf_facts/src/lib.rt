//! What is known of the sixteen words of a call record.
#![tactic(auto)]

mod atom;
mod atom_list;
mod bits;
mod free_number;
mod high_mask;
mod interval;
mod intervals;
mod laws;
mod learned;
mod least;
mod query;
mod shared_set;
mod snapshot;
mod word_facts;
mod word_set;
mod word_sets;

pub use atom::{Atom, Tell};
pub use atom_list::AtomList;
pub use bits::Bits;
pub use high_mask::is_high_mask;
pub use interval::Interval;
pub use laws::word_sets_start_exact;
pub use snapshot::{Snapshot, Snapshots};
pub use word_facts::WordFacts;
pub use word_set::WordSet;
pub use word_sets::WordSets;
