//! Compares two sides, each a stack of filters, a profile or the profiles of several architectures, over every call
//! record of a scope.
//!
//! # How it works
//!
//! Take the filter `ld [0]; jeq #41, 0, 1; ret ERRNO; ret ALLOW` on the left, and on the right a profile that allows
//! everything but syscall 41, which gets ERRNO.
//!
//! 1. Each side is a tree of questions (`side_tree`): the filter's tree is in `filter`, the profile's in `profile`.
//!    `ld [0]` has one successor (`Step::Next`); what is known of the registers says that A now is word 0 of the record
//!    (`value::Value::Slice`). `jeq #41` asks `Atom::Eq` about word 0 (`Step::Branch`). Each `ret` is a leaf with its
//!    answer (`Step::Leaf`).
//! 2. The walk (`explore`) puts the question to the store of facts (`scf_facts`). It doesn't know the answer, so a
//!    branch for "no" stays open behind a mark of the store (`frontier`), and "yes" is learned: word 0 is 41.
//! 3. At the leaf `ret ERRNO` the right side is asked (`pair`). Is the architecture x86-64? Unknown, so another branch
//!    is opened and "yes" is learned. Is the number below 0x40000000, is it 41? Both are known. The profile's leaf has
//!    ERRNO: the answers are related.
//! 4. The newest open branch is taken: the store is undone to its mark, and "no" is learned. For other architectures
//!    the profile answers KILL_PROCESS and the filter ERRNO. The store gives a record that comes to this leaf (`pick`),
//!    the filter is run on it, the profile is asked, and the finding is `Fails`. Over x86-64 alone the walk goes on
//!    with the first branch and ends with `Holds`.
//!
//! The right side doesn't begin at its root then: at each question of the left one that the store doesn't decide it
//! goes on as far as the store decides its own (`decided`), and each branch keeps how far it came. So two filters of
//! the same tests, one after another, are walked once, side by side.
//!
//! A value that the filter computes stays known while it is a bit slice of a word (`bit_slice`) or an affine term of
//! one (`affine_term`). Of everything else only single bits are known (`computed`): those that follow from the
//! operands' known bits (`known_bits`). At a test that neither an atom about a word nor the known bits decide the walk
//! follows both sides and learns nothing. Behind it a leaf may stay undecided. The path remembers the first such test,
//! by the bits of the record on which it depends (`sources`).
//!
//! If the walk ends with such a leaf, and nothing fails, two stacks of the same filters are related all the same. Of
//! others a second walk begins (`settle`). Take the filter `ld [16]; div #3; tax; ld [24]; add x; jgt #9, ..`: the sum
//! of two words is unknown, and the test is open. The second walk splits there, on a bit of word 4 or 6: it opens a
//! branch where the highest bit is clear, learns that it is set, and begins at the root again (`settling`), until known
//! bits decide the test. The bits that splits have fixed go along (`fixed_bits`); where all are, there is one record,
//! and both sides answer it. So with enough splits (`budget`) every comparison ends with `Holds` or `Fails`, else with
//! `Undecided`.
//!
//! Everything that two sides answer is found by the same steps (`regions`): at each leaf what the store knows is kept
//! as a region (`region`), with both answers, their origins (`origin`) and a record. A side by itself is walked beside
//! a stack without filters, whose tree is one leaf.
//!
//! A stack of filters is walked oldest first (`stack`). Of the profiles of several architectures each is asked in turn
//! whether the call is its architecture's, and the later ones where it isn't (`profiles`). The proofs of the walk speak
//! of trees (`comparison`), and neither of instructions nor of rules. `Verdict` is the finding on a filter, on the
//! left, and a profile (`comparer`).
#![tactic(auto)]

mod affine_term;
mod asking;
mod bit_slice;
mod budget;
mod by_number;
mod comparer;
mod comparison;
mod computed;
mod control_flow;
mod decided;
mod explore;
mod filter;
mod finding;
mod fixed_bits;
mod frontier;
mod known_argument;
mod known_bits;
mod laws;
mod origin;
mod pair;
mod plain;
mod profile;
mod profiles;
mod question;
mod region;
mod regions;
mod registers;
mod scope;
mod settle;
mod settling;
mod side;
mod side_tree;
mod sources;
mod stack;
mod step;
mod tree_sizes;
mod value;
mod verdict;

pub use budget::{Limit, Splits};
pub use comparer::{compare, compare_sides, compare_sides_within, compare_stack};
pub use comparison::PairLeaf;
pub use finding::{Finding, Which};
pub use laws::{
    both_ways_is_one_disposition, headline, holds_over_ranges, holds_through, holds_turned,
    no_more_and_no_less_is_one_disposition, regions_partition, same_holds_by_all,
    same_is_no_more_and_no_less, sides_headline, splits_end,
};
pub use origin::Origin;
pub use plain::is_plain;
pub use region::Region;
pub use regions::{Regions, regions_of};
pub use scf_profile::{Relation, Scope};
pub use side::Side;
pub use side_tree::SideLeaf;
pub use tree_sizes::{effort, effort_sides, effort_stack};
pub use verdict::Verdict;
