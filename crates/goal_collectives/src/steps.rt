//! The steps of the broadcast, barrier, allgather, allreduce and alltoall, by the formulas of goal_blocks (specs/Made).
ghost use Rattle.std.specs.Prelude.{◌≡◌, ◌+◌, ◌-◌, ◌*◌, ◌^◌, ◌<◌, ◌≤◌, [], ◌∷◌};
ghost use Rattle.goal_blocks.specs.Steps.{entry_of, needs_of};
ghost use Rattle.goal_blocks.specs.Positions.{flipped, digits};
ghost use Rattle.goal_blocks.specs.Made.{bcast_in, bcast_count, bcast_send, round_in, barrier_in, allreduce_in, allgather_in, alltoall_in};

use goal_blocks::{Effect, Needs, Step, ahead, back, before_round, digits, power};
use goal_limits::MAX_RANKS;

/// Returns the number of operations of a virtual rank in a broadcast.
pub fn bcast_count(ranks: u32, rank: u32) -> u32
    requires few { ranks ≤ MAX_RANKS }
    requires rank { rank < ranks }
    ensures { result ≡ bcast_count ranks rank }
{
    let rounds = digits(ranks - 1 - rank);
    if rank == 0 {
        return rounds;
    }
    1 + rounds.saturating_sub(digits(rank))
}

// Returns the send of a virtual rank in a round of a broadcast.
fn bcast_send(ranks: u32, root: u32, bytes: u64, rank: u32, round: u32, needs: Needs) -> Step
    requires few { ranks ≤ MAX_RANKS }
    requires root { root < ranks }
    requires round { round < 32 }
    requires child { rank + 2 ^ round < ranks }
    ensures { entry_of result ≡ bcast_send ranks root bytes rank round (needs_of needs) }
{
    let child = ahead(ranks, rank + power(round), root);
    Step::send(bytes, child, round, needs, Effect::slot(0))
}

/// Returns operation `number` of a virtual rank in a broadcast.
pub fn bcast_step(ranks: u32, root: u32, bytes: u64, rank: u32, number: u32) -> Step
    requires few { ranks ≤ MAX_RANKS }
    requires root { root < ranks }
    requires rank { rank < ranks }
    requires number { number < bcast_count ranks rank }
    ensures { entry_of result ≡ bcast_in ranks root bytes rank number }
{
    if rank == 0 {
        return bcast_send(ranks, root, bytes, rank, number, Needs::Nothing);
    }
    let own = digits(rank);
    if number == 0 {
        let round = own - 1;
        let parent = ahead(ranks, rank - power(round), root);
        return Step::receive(bytes, parent, round, Effect::slot(0));
    }
    bcast_send(ranks, root, bytes, rank, own + (number - 1), Needs::One(0))
}

// Returns one of the three operations of a round of a barrier or an allreduce.
fn round_step(bytes: u64, to: u32, from: u32, round: u32, part: u32) -> Step
    requires { round < 32 }
    ensures { entry_of result ≡ round_in bytes to from round part }
{
    match part {
        0 => Step::send(bytes, to, round, before_round(round), Effect::slot(0)),
        1 => Step::receive(bytes, from, round, Effect::slot(round + 1)),
        _ => Step::sum(Needs::Two(3 * round, 3 * round + 1), round + 1, 0),
    }
}

/// Returns operation `number` of a rank in a barrier.
pub fn barrier_step(ranks: u32, bytes: u64, rank: u32, number: u32) -> Step
    requires few { ranks ≤ MAX_RANKS }
    requires rank { rank < ranks }
    requires number { number < 3 * digits (ranks - 1) }
    ensures { entry_of result ≡ barrier_in ranks bytes rank number }
{
    let round = number / 3;
    let distance = power(round);
    let to = ahead(ranks, rank, distance);
    let from = back(ranks, rank, distance);
    round_step(bytes, to, from, round, number % 3)
}

// Returns the rank that differs in the binary digit of a round.
fn flipped(rank: u32, round: u32) -> u32
    requires rank { rank < MAX_RANKS }
    requires round { round < 16 }
    ensures { result ≡ flipped rank round }
{
    let digit = power(round);
    if rank / digit % 2 == 0 {
        rank + digit
    } else {
        rank - digit
    }
}

/// Returns operation `number` of a rank in an allreduce.
pub fn allreduce_step(ranks: u32, bytes: u64, rank: u32, number: u32) -> Step
    requires few { ranks ≤ MAX_RANKS }
    requires rank { rank < ranks }
    requires number { number < 3 * digits (ranks - 1) }
    ensures { entry_of result ≡ allreduce_in bytes rank number }
{
    let round = number / 3;
    let other = flipped(rank, round);
    round_step(bytes, other, other, round, number % 3)
}

// Returns the needs of the send of a step of an allgather: the operation before it, unless it is the first.
fn before_send(number: u32) -> Needs
    ensures root { number ≡ 0 → needs_of result ≡ [] }
    ensures others { 0 < number → needs_of result ≡ (number - 1) ∷ [] }
{
    if number == 0 {
        return Needs::Nothing;
    }
    Needs::One(number - 1)
}

/// Returns operation `number` of a rank in an allgather.
pub fn allgather_step(ranks: u32, bytes: u64, rank: u32, number: u32) -> Step
    requires few { ranks ≤ MAX_RANKS }
    requires rank { rank < ranks }
    requires number { number < 2 * (ranks - 1) }
    ensures { entry_of result ≡ allgather_in ranks bytes rank number }
{
    let step = number / 2;
    if number % 2 == 0 {
        let to = ahead(ranks, rank, 1);
        let slot = back(ranks, rank, step);
        return Step::send(bytes, to, step, before_send(number), Effect::slot(slot));
    }
    let from = back(ranks, rank, 1);
    let slot = back(ranks, rank, step + 1);
    Step::receive(bytes, from, step, Effect::slot(slot))
}

/// Returns operation `number` of a rank in an alltoall.
pub fn alltoall_step(ranks: u32, bytes: u64, rank: u32, number: u32) -> Step
    requires few { ranks ≤ MAX_RANKS }
    requires rank { rank < ranks }
    requires number { number < 1 + 2 * (ranks - 1) }
    ensures { entry_of result ≡ alltoall_in ranks bytes rank number }
{
    if number == 0 {
        return Step::sum(Needs::Nothing, rank, ranks + rank);
    }
    let step = (number - 1) / 2 + 1;
    if number % 2 == 1 {
        let to = ahead(ranks, rank, step);
        return Step::send(bytes, to, step, Needs::Nothing, Effect::slot(to));
    }
    let from = back(ranks, rank, step);
    Step::receive(bytes, from, step, Effect::slot(ranks + from))
}
