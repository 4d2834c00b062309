//! Machines.
ghost use Rattle.std.specs.Prelude.{◌≡◌, ◌≤◌, length};
ghost use Rattle.goal_limits.specs.Limits.{rank_limit};
ghost use Rattle.sim_classes.specs.Parts.{machine_of_parts, IsWhole};

use crate::pair_classes::PairClasses;
use sim_params::Params;

/// The most classes of a machine.
pub const MAX_CLASSES: u64 = 16;

/// The most pairs of nodes for which a machine may give a class.
pub const MAX_PAIRS: u64 = 65_536;

/// The greatest number of a node.
pub const MAX_NODE: u64 = 65_535;

/// A machine: classes of messages, each with its own parameters, and the class of each message, by the nodes of its
/// ranks. Contracts see it through `known`.
#[derive(Drop)]
pub struct Machine {
    pub(crate) classes: Vec<Params>,
    pub(crate) inside: u32,
    pub(crate) usual: u32,
    pub(crate) nodes: Vec<u32>,
    pub(crate) pair_classes: PairClasses,
    pub(crate) ghost few: { length nodes.items ≤ rank_limit },
    pub(crate) ghost whole: { IsWhole (machine_of_parts classes.items inside usual nodes.items pair_classes) },
}
