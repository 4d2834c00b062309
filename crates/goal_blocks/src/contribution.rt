//! What values consist of.

/// A part of a value: an item of the rank that had it at the start.
#[derive(Clone, Copy, Debug, PartialEq, Eq, PartialOrd, Ord, Hash)]
pub struct Contribution {
    /// The rank that had it.
    pub rank: u32,
    /// The number of the item on that rank.
    pub item: u32,
}
