//! What is held along the walk: the values of slots, and those under way.

use goal_values::{SlotValues, TermPayload};

/// The values that are under way to a receive, and how many contributions these have.
#[derive(Drop)]
pub struct Parcel {
    /// The values.
    pub payload: TermPayload,
    /// The number of their contributions.
    pub size: u64,
}

/// The values of slots, and a parcel for each send that has read its values and whose receive has not taken them.
#[derive(Drop)]
pub struct Holdings {
    /// The values of slots.
    pub store: SlotValues,
    /// The parcel of each send, if it is under way, in the order of all operations.
    pub parcels: Vec<Option<Parcel>>,
    /// The number of contributions of all parcels.
    pub carried: u64,
}
