//! A condition as a test of classic BPF (Linux uapi filter.h).

/// A test of a 64-bit number. Its 32-bit halves decide it, the high one first.
#[derive(Clone, Copy)]
pub enum NumberTest {
    /// `n & mask == value`. `value` has no bit outside the mask.
    Masked { mask: u64, value: u64 },
    /// `n > value`.
    Greater(u64),
    /// `n >= value`.
    GreaterOrEqual(u64),
}
