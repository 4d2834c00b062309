//! The actions of operations, and why an operation is stuck.

/// Identifies an operation: its rank, and its number in the rank's list, from 0.
#[derive(Clone, Copy, Debug, PartialEq, Eq, PartialOrd, Ord, Hash)]
pub struct OpId {
    /// The rank, from 0.
    pub rank: u32,
    /// The number in the rank's list of operations, from 0.
    pub op: u32,
}

/// The classes of actions. Actions at the same time happen in this order.
#[derive(Clone, Copy, Debug, PartialEq, Eq, PartialOrd, Ord)]
pub enum Class {
    /// An eager message, or the request to send (RTS) of a rendezvous message, reaches the receiving rank.
    Arrive,
    /// A receive takes its message.
    Serve,
    /// A rendezvous send transfers its data.
    Data,
    /// A receive is posted.
    Post,
    /// A calc or a send begins.
    Begin,
}

/// A timed action.
#[derive(Clone, Copy, Debug, PartialEq, Eq)]
pub struct Timed {
    /// When it happens, in nanoseconds.
    pub time: u64,
    /// What happens.
    pub class: Class,
    /// Its operation; for `Arrive` and `Data` the send.
    pub op: OpId,
}

/// Why an operation never ends.
#[derive(Clone, Copy, Debug, PartialEq, Eq)]
pub enum Why {
    /// It waits for the start or the end of this operation, which never comes.
    Op(OpId),
    /// This operation fits it, and never starts.
    Partner(OpId),
    /// Every operation that fits it, if any, is paired with another.
    Alone,
}

/// A stuck operation and the reason.
#[derive(Clone, Copy, Debug, PartialEq, Eq)]
pub struct Stuck {
    /// The operation.
    pub op: OpId,
    /// Its reason.
    pub why: Why,
}
