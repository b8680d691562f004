//! How much a comparison may do where its first walk doesn't decide it.

ghost use Rattle.std.specs.Prelude.{◌≡◌};
ghost use Rattle.scf_compare.specs.Limits.{limit_of_steps};
ghost use Rattle.scf_compare.specs.internal.Budgets.{IsOneTaken, IsSplitTaken, IsStepTaken};

/// How many splits a comparison may make. A split takes the records that a walk has come to apart, by a bit of one of
/// their words, and walks the whole tree again with each half.
#[derive(Clone, Copy)]
pub enum Splits {
    /// At most so many; and below them at most as many steps as the comparison may take itself, or as are left for all
    /// comparisons.
    AtMost(u64),
    /// As many as it takes: every comparison is decided, after however long a time.
    NoLimit,
}

impl Splits {
    /// So many that no real pair of sides takes longer than a second: 10,000.
    pub const DEFAULT: Splits = Splits::AtMost(10_000);
}

/// How much a comparison may do.
#[derive(Clone, Copy)]
pub struct Limit {
    /// The most steps. Those below splits are counted apart.
    pub steps: u64,
    pub splits: Splits,
}

impl Limit {
    /// So many steps, and `Splits::DEFAULT`.
    pub fn of_steps(steps: u64) -> Limit
        ensures { result ≡ limit_of_steps steps }
    {
        Limit {
            steps,
            splits: Splits::DEFAULT,
        }
    }

    /// Takes one of the steps, if one is left. Where splits have no limit, none is counted.
    pub(crate) fn take_step(&mut self) -> bool
        ensures splits { self.new.splits ≡ self.old.splits }
        ensures steps { IsStepTaken self.old.splits result self.old.steps self.new.steps }
    {
        match self.splits {
            Splits::AtMost(_) => take_one(&mut self.steps),
            Splits::NoLimit => true,
        }
    }

    /// Takes one of the splits, if one is left.
    pub(crate) fn take_split(&mut self) -> bool
        ensures splits { IsSplitTaken result self.old.splits self.new.splits }
        ensures steps { self.new.steps ≡ self.old.steps }
    {
        match &mut self.splits {
            Splits::AtMost(splits) => take_one(splits),
            Splits::NoLimit => true,
        }
    }
}

/// Takes one of a number, if it isn't 0.
fn take_one(count: &mut u64) -> bool
    ensures { IsOneTaken result count.old count.new }
{
    match count.checked_sub(1) {
        Some(fewer) => {
            *count = fewer;
            true
        }
        None => false,
    }
}
