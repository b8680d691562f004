//! One interval of values.

/// The values `low..=high`.
#[derive(Clone, Copy)]
pub struct Interval {
    pub low: u32,
    pub high: u32,
}

impl Interval {
    /// All 32-bit values.
    pub(crate) const ALL: Interval = Interval {
        low: 0,
        high: u32::MAX,
    };
}
