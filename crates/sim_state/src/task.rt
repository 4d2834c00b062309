//! The tasks of operations.

/// What an operation is, and whether a send is eager.
#[derive(Clone, Copy, PartialEq, Eq)]
pub enum Task {
    /// A calc.
    Calc,
    /// An eager send.
    Eager,
    /// A rendezvous send.
    Rendezvous,
    /// A receive.
    Receive,
}
