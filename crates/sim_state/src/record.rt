//! What a caller may read of an operation.

use goal_graph::OpId;

/// What is known of an operation. What is not known is `None`.
#[derive(Clone, Copy, Debug, PartialEq, Eq)]
pub struct Record {
    /// When it started, in nanoseconds.
    pub start: Option<u64>,
    /// When it ends, in nanoseconds.
    pub end: Option<u64>,
    /// The operation with which it is paired.
    pub partner: Option<OpId>,
}
