//! Why one of these collectives has no schedule.
ghost use Rattle.std.specs.Prelude.{◌≡◌};
ghost use Rattle.goal_rooted.specs.Faults.{as_gen_fault};

use goal_blocks::GenFault;

/// Why a reduce, gather, scatter, reduce_scatter or scan has no schedule for a number of ranks.
#[derive(Clone, Copy, Debug, PartialEq, Eq)]
pub enum RootedFault {
    /// There is no rank, or there are more than `limit`, the greatest number of ranks for this collective.
    Ranks { limit: u32 },
    /// The root is not one of the ranks.
    Root,
    /// Out of memory.
    NoMemory,
}

impl From<RootedFault> for GenFault {
    ghost from_gives = { λ fault same. same ≡ as_gen_fault fault };

    fn from(fault: RootedFault) -> GenFault {
        match fault {
            RootedFault::Ranks { limit } => GenFault::Ranks { limit },
            RootedFault::Root => GenFault::Root,
            RootedFault::NoMemory => GenFault::NoMemory,
        }
    }
}
