//! The resources of stations.

/// The two resources of a station, by their numbers: a cpu and a side of a NIC, or the cpu twice if it needs nothing
/// else.
#[derive(Clone, Copy, Debug, PartialEq, Eq)]
pub struct Pair {
    /// The cpu.
    pub cpu: u32,
    /// The side of a NIC, or the cpu again.
    pub side: u32,
}
