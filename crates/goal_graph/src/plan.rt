//! The work of one rank: operations, dependencies among them, and notes on the slots that they use.
use std::marker::Model;

/// The kind of an operation.
#[derive(Clone, Copy, Debug, PartialEq, Eq)]
pub enum Kind {
    /// A computation that holds its cpu.
    Calc {
        /// The duration in nanoseconds, at most 2^48-1.
        nanos: u64,
    },
    /// A message to another rank, or to its own.
    Send {
        /// The size in bytes, at most 2^40-1.
        bytes: u64,
        /// The receiving rank.
        to: u32,
        /// The tag, which the receive must accept.
        tag: u32,
    },
    /// Room for a message.
    Recv {
        /// The room in bytes, at most 2^40-1.
        bytes: u64,
        /// The sending rank, or `None` for any.
        from: Option<u32>,
        /// The tag, or `None` for any.
        tag: Option<u32>,
    },
}

/// An operation.
#[derive(Clone, Copy, Debug, PartialEq, Eq)]
pub struct Op {
    /// Its kind, with its size or duration.
    pub kind: Kind,
    /// The cpu of its rank that it uses.
    pub cpu: u8,
    /// The NIC of its rank that it uses; 0 for a calc.
    pub nic: u8,
}

/// Whether a dependency waits for the end or the start of the earlier operation.
#[derive(Clone, Copy, Debug, PartialEq, Eq)]
pub enum When {
    /// `requires`: it waits for the end.
    AfterEnd,
    /// `irequires`: it waits for the start.
    AfterStart,
}

/// The message of a send.
#[derive(Clone, Copy, Debug, PartialEq, Eq)]
pub struct Message {
    /// The receiving rank.
    pub to: u32,
    /// The size in bytes, at most 2^40-1.
    pub bytes: u64,
    /// The tag.
    pub tag: u32,
}

/// A dependency between two operations of one rank.
#[derive(Clone, Copy, Debug, PartialEq, Eq)]
pub struct Dep {
    /// The operation that waits.
    pub later: u32,
    /// The operation that it waits for.
    pub earlier: u32,
    /// Whether it waits for the end or the start.
    pub when: When,
}

/// What an operation does to the slots of its rank.
#[derive(Clone, Copy, Debug, PartialEq, Eq)]
pub enum Note {
    /// The send `op` reads, or the receive `op` sets, the slots from `lo` to `hi`, both included.
    Moves { op: u32, lo: u32, hi: u32 },
    /// The calc `op` adds the value of slot `from` to that of slot `to`.
    Adds { op: u32, from: u32, to: u32 },
}

/// The other side of a dependency, as an operation sees it: an operation that it needs, or one that needs it.
#[derive(Clone, Copy, Debug, PartialEq, Eq)]
pub struct Need {
    /// The number of the operation.
    pub op: u32,
    /// Whether the dependency waits for the end or the start of its earlier side.
    pub when: When,
}

/// The work of one rank. Contracts see its three lists.
#[derive(Debug, Drop)]
pub struct RankPlan {
    /// Its operations. An operation's number is its place in this list.
    pub ops: Vec<Op>,
    /// The dependencies among them.
    pub deps: Vec<Dep>,
    /// The notes on its slots.
    pub notes: Vec<Note>,
}

impl Model for RankPlan {
    ghost use Rattle.goal_graph.specs.Schedule.{Plan};

    ghost Value = { Plan };

    ghost view = { λ r. record { ops = r.ops.items; deps = r.deps.items; notes = r.notes.items } };
}
