//! Which relation of two answers is asked for.

ghost use Rattle.std.specs.Prelude.{◌↔◌, IsTrue};
ghost use Rattle.scf_profile.specs.Relation.{IsRelated};

use scf_insn::Answer;

/// Which relation of the left side's answer to the right side's is asked for, as of a filter's to a profile's.
#[derive(Clone, Copy)]
pub enum Relation {
    /// Both answers are the same, all 32 bits.
    Same,
    /// The left answer is no more permissive than the right one: denied < delegated < allowed.
    NoMore,
    /// The left answer is no less permissive than the right one.
    NoLess,
    /// Both answers are denied, delegated or allowed alike, whatever their data.
    SameDisposition,
}

impl Relation {
    /// Whether the relation holds of the answers of the left and the right side.
    pub fn relates(self, left: Answer, right: Answer) -> bool
        ensures { IsTrue result ↔ IsRelated self left.0 right.0 }
    {
        match self {
            Relation::Same => left == right,
            Relation::NoMore => left.is_no_more_permissive(right),
            Relation::NoLess => right.is_no_more_permissive(left),
            Relation::SameDisposition => left.disposition() == right.disposition(),
        }
    }
}
