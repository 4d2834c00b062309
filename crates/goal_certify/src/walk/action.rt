//! An action that has happened, or may.

use goal_graph::{Class, OpId};

/// A class of action, of one operation; for `Arrive` and `Data` that is the send.
#[derive(Clone, Copy)]
pub struct PlainAction {
    /// The class.
    pub class: Class,
    /// The operation; for `Arrive` and `Data` the send.
    pub op: OpId,
}
