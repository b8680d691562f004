//! 32-bit masks.

ghost use Rattle.std.specs.Prelude.{◌≡◌, ◌↔◌, IsTrue};
ghost use Rattle.scf_insn.specs.Masks.{mask_kind};
ghost use Rattle.scf_insn.specs.SimpleMask.{IsSimpleMask};

/// How many of the 32 bits a mask has.
#[derive(Clone, Copy)]
pub enum MaskKind {
    /// None.
    Empty,
    /// One.
    OneBit,
    /// All.
    Full,
    /// Several, but not all.
    Mixed,
}

/// The kind of a mask.
pub fn mask_kind(mask: u32) -> MaskKind
    ensures { result ≡ mask_kind mask }
{
    if mask == 0 {
        MaskKind::Empty
    } else if mask == u32::MAX {
        MaskKind::Full
    } else if mask.is_power_of_two() {
        MaskKind::OneBit
    } else {
        MaskKind::Mixed
    }
}

/// Whether a mask is simple: it has no bit, one bit or all of the 32.
#[tactic(auto, using(std::proofs::lemmas::Grind::common_steps, crate::proofs::Masks::is_simple, crate::proofs::Masks::is_mixed))]
pub fn is_simple_mask(mask: u32) -> bool
    ensures { IsTrue result ↔ IsSimpleMask mask }
{
    match mask_kind(mask) {
        MaskKind::Mixed => false,
        MaskKind::Empty | MaskKind::OneBit | MaskKind::Full => true,
    }
}
