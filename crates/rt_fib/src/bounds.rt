//! Numbers with bounds: rounds of marking, and ranges of entries.
ghost use Rattle.std.specs.Prelude.{◌+◌, ◌<◌, ◌≤◌, ◌^◌};

/// Holds the number of a round of marking. There is a number for the next one.
#[derive(Clone, Copy)]
pub(crate) struct Epoch {
    pub(crate) number: u32,
    ghost bounded: { number + 1 < 2 ^ 32 },
}

/// Says how many entries there are.
pub(crate) const ENTRIES: u32 = 1 << 24;

/// Holds a range of entries: from the first on, up to the end, which is no longer one of them.
#[derive(Clone, Copy)]
pub(crate) struct Span {
    pub(crate) first: u32,
    pub(crate) end: u32,
    ghost ordered: { first < end },
    ghost fits: { end ≤ 2 ^ 24 },
}
