//! The places of ranks in a ring and in a binomial tree.
ghost use Rattle.std.specs.Prelude.{◌≡◌, ◌+◌, ◌-◌, ◌^◌, ◌<◌, ◌≤◌};
ghost use Rattle.goal_blocks.specs.Positions.{ahead, back, digits};

use goal_limits::MAX_RANKS;

/// Returns the rank that is `steps` ahead of `rank` in the ring.
#[must_use]
#[tactic(auto, unfolding(crate::specs::Positions::ahead))]
pub fn ahead(ranks: u32, rank: u32, steps: u32) -> u32
    requires few { ranks ≤ MAX_RANKS }
    requires rank { rank < ranks }
    requires steps { steps ≤ ranks }
    ensures is { result ≡ ahead ranks rank steps }
    ensures rank { result < ranks }
{
    let place = rank + steps;
    if place < ranks { place } else { place - ranks }
}

/// Returns the rank that is `steps` back from `rank` in the ring. With the root as `steps`, this is the virtual rank.
#[must_use]
#[tactic(auto, unfolding(crate::specs::Positions::back))]
pub fn back(ranks: u32, rank: u32, steps: u32) -> u32
    requires few { ranks ≤ MAX_RANKS }
    requires rank { rank < ranks }
    requires steps { steps ≤ ranks }
    ensures is { result ≡ back ranks rank steps }
    ensures rank { result < ranks }
{
    if rank < steps {
        rank + ranks - steps
    } else {
        rank - steps
    }
}

/// Returns the number of binary digits of `number`, which is 0 for 0.
#[must_use]
#[tactic(auto, unfolding(crate::specs::Positions::digits))]
pub fn digits(number: u32) -> u32
    ensures { result ≡ digits number }
{
    u32::BITS - number.leading_zeros()
}

/// Returns 2 to the power of `exponent`, which is below 32.
#[must_use]
#[tactic(auto, using(crate::proofs::RingAndTree::one_shifted))]
pub fn power(exponent: u32) -> u32
    requires { exponent < 32 }
    ensures { result ≡ 2 ^ exponent }
{
    1 << exponent
}
