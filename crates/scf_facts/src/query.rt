//! An atom's question about its word, as an interval or as bits.

ghost use Rattle.std.specs.Prelude.{◌≡◌, ℕ};
ghost use Rattle.scf_facts.specs.internal.Query.{Asks, AsksAmong, AsksSimply};

use crate::atom::Atom;
use crate::bits::Bits;
use crate::high_mask::is_high_mask;
use crate::interval::Interval;

/// An atom's question about its word.
#[derive(Clone, Copy)]
pub(crate) enum Query {
    /// Is the value in `range`? It is exactly if the atom has the answer `answer`.
    Within { range: Interval, answer: bool },
    /// Does the value have these bits?
    Masked(Bits),
}

impl Query {
    /// The question of `atom`. An `Eq` under a full mask asks for one value, under a mask of all bits from one on for a
    /// range.
    #[tactic(auto, using(crate::proofs::HighMasks::asked))]
    pub(crate) fn of(atom: Atom) -> Query
        ensures asks { Asks atom result }
        ensures simple { AsksSimply atom result }
        ensures among { (masks : ℕ) → AsksAmong masks atom result }
    {
        match atom {
            Atom::Gt { value, .. } => Query::within(0, value, false),
            Atom::Ge { value, .. } => Query::within(value, u32::MAX, true),
            Atom::In { low, high, .. } => {
                if low > high {
                    Query::within(0, u32::MAX, false)
                } else {
                    Query::within(low, high, true)
                }
            }
            Atom::Eq { mask, value, .. } => {
                if value & mask != value {
                    Query::within(0, u32::MAX, false)
                } else if mask == u32::MAX {
                    Query::within(value, value, true)
                } else if is_high_mask(mask) {
                    Query::within(value, value + !mask, true)
                } else {
                    Query::Masked(Bits { mask, value })
                }
            }
        }
    }

    /// Whether the value is in `low..=high`, which is so exactly if the atom has the answer `answer`.
    fn within(low: u32, high: u32, answer: bool) -> Query
        ensures { result ≡ Query.Within (record { low = low; high = high }) answer }
    {
        let range = Interval { low, high };
        Query::Within { range, answer }
    }
}
