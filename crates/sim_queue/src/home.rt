//! Where the keys of slots in groups are.

/// Where the key of a slot is: in the heap of a group.
#[derive(Clone, Copy, Debug, PartialEq, Eq)]
pub struct PlaceInGroup {
    /// The group, whose heap has the key.
    pub group: u32,
    /// The number of the slot in its group, which is its slot in that heap.
    pub place: u32,
}
