//! Numbers within limits, and the kinds of collectives.
ghost use Rattle.std.specs.Prelude.{◌≡◌, None, Some};
ghost use Rattle.goal_words.specs.Words.{number_from, collective_of, root_of, rootless};

use crate::options::value_of;
use goal_limits::Collective;

/// The greatest root that a command line may name.
pub const MAX_ROOT: u64 = 65_535;

/// Returns the number of a word, if it is one from `least` to `most`.
pub fn number_from(least: u64, most: u64, word: &str) -> Option<u64>
    ensures { result ≡ number_from least most word.now }
{
    match value_of(word) {
        Some(number) if least <= number && number <= most => Some(number),
        _ => None,
    }
}

// Returns the root, 0 if none is given, or `None` if it is over `MAX_ROOT`.
fn root_of(root: Option<u64>) -> Option<u32>
    ensures { result ≡ root_of root }
{
    let root = root.unwrap_or(0);
    if root <= MAX_ROOT {
        Some(root as u32)
    } else {
        None
    }
}

// Returns a collective that has no root, or `None` if a root is given.
fn rootless(what: Collective, root: Option<u64>) -> Option<Collective>
    ensures { result ≡ rootless what root }
{
    if root.is_some() { None } else { Some(what) }
}

/// Returns the collective of a KIND with the given root, by default 0. Returns `None` if the word is no KIND, if the
/// root is over `MAX_ROOT`, or if a root is given for a collective that has none.
pub fn collective_of(kind: &str, root: Option<u64>) -> Option<Collective>
    ensures { result ≡ collective_of kind.now root }
{
    match kind {
        "bcast" => Some(Collective::Bcast {
            root: root_of(root)?,
        }),
        "barrier" => rootless(Collective::Barrier, root),
        "allgather" => rootless(Collective::Allgather, root),
        "allreduce" => rootless(Collective::Allreduce, root),
        "alltoall" => rootless(Collective::Alltoall, root),
        "reduce" => Some(Collective::Reduce {
            root: root_of(root)?,
        }),
        "gather" => Some(Collective::Gather {
            root: root_of(root)?,
        }),
        "scatter" => Some(Collective::Scatter {
            root: root_of(root)?,
        }),
        "reduce_scatter" => rootless(Collective::ReduceScatter, root),
        "scan" => rootless(Collective::Scan, root),
        _ => None,
    }
}
