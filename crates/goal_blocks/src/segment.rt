//! Segments of a collective, each in its own block of slots.
ghost use Rattle.std.specs.Prelude.{◌≡◌, ◌+◌, ◌*◌, ◌^◌, ◌≤◌};
ghost use Rattle.goal_blocks.specs.Segments.{exchange};

/// A segment of a collective. It uses the `width` slots from `block * width` on as the collective uses those from 0 on.
#[derive(Clone, Copy, Debug, PartialEq, Eq)]
pub struct Segment {
    /// The number of slots per block, usually all those that the collective names.
    pub width: u32,
    /// The number of the block, from 0.
    pub block: u32,
}

impl Segment {
    /// Returns the first segment, in which a collective uses its usual slots.
    #[must_use]
    pub const fn first() -> Segment
        ensures { result ≡ record { width = 0; block = 0 } }
    {
        Segment { width: 0, block: 0 }
    }

    /// Returns the slot that `slot` becomes if the first block and this block are exchanged, slot by slot. A slot
    /// outside both blocks stays.
    #[must_use]
    pub fn exchanged(self, slot: u32) -> u32
        requires { self.block * self.width + self.width ≤ 2 ^ 32 }
        ensures { result ≡ exchange self.width self.block slot }
    {
        let from = self.block * self.width;
        if slot < self.width {
            from + slot
        } else if slot >= from && slot - from < self.width {
            slot - from
        } else {
            slot
        }
    }
}
