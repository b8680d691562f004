//! Masks of all bits from one on.

ghost use Rattle.std.specs.Prelude.{◌≡◌, ◌-◌, ◌^◌, IsTrue};
ghost use Rattle.scf_facts.specs.HighMask.{IsHighMask};

/// Whether a mask has all bits from one on, and none before it.
#[tactic(auto, using(crate::proofs::LowestBit::high_mask))]
pub fn is_high_mask(mask: u32) -> bool
    ensures high { IsTrue result → IsHighMask mask }
    ensures all { mask ≡ 2 ^ 32 - 1 → IsTrue result }
{
    mask != 0 && mask == u32::MAX << mask.trailing_zeros()
}
