//! The steps of the reduce, gather, scatter, reduce_scatter and scan, by the formulas of goal_blocks
//! (specs/MadeRooted).
ghost use Rattle.std.specs.Prelude.{◌≡◌, ◌+◌, ◌-◌, ◌*◌, ◌^◌, ◌<◌, ◌≤◌, ◌∷◌};
ghost use Rattle.goal_blocks.specs.Steps.{entry_of, needs_of};
ghost use Rattle.goal_blocks.specs.Positions.{rounds, upward};
ghost use Rattle.goal_blocks.specs.MadeRooted.{earlier_sum, reduce_in, gather_in, give_in, scatter_in, reduce_scatter_in, scan_in, scan_count};

use crate::tree::{children, low, parent, part, share, upward};
use goal_blocks::{Effect, Needs, Step, ahead, back, before_round, power};
use goal_limits::MAX_RANKS;

// Returns the last calc of the rounds before this one, if any, as a need.
fn earlier_sum(round: u32) -> Needs
    requires { round < 2 ^ 30 }
    ensures { needs_of result ≡ earlier_sum round }
{
    if round == 0 {
        return Needs::Nothing;
    }
    Needs::One(2 * round - 1)
}

// Returns the needs of the calc of a round: its receive, and the calc before.
fn before_sum(round: u32) -> Needs
    requires { round < 2 ^ 30 }
    ensures { needs_of result ≡ (round + round) ∷ earlier_sum round }
{
    if round == 0 {
        return Needs::One(0);
    }
    Needs::Two(2 * round, 2 * round - 1)
}

/// Returns operation `number` of a virtual rank in a reduce.
pub fn reduce_step(ranks: u32, root: u32, bytes: u64, rank: u32, number: u32) -> Step
    requires few { ranks ≤ MAX_RANKS }
    requires root { root < ranks }
    requires rank { rank < ranks }
    requires number { number < 2 * rounds ranks rank + upward rank }
    ensures { entry_of result ≡ reduce_in ranks root bytes rank number }
{
    let rounds = children(ranks, rank);
    let round = number / 2;
    if rounds <= round {
        let to = parent(ranks, root, rank);
        return Step::send(bytes, to, low(rank), earlier_sum(rounds), Effect::slot(0));
    }
    if number % 2 == 0 {
        let child = ahead(ranks, rank + power(round), root);
        return Step::receive(bytes, child, round, Effect::slot(round + 1));
    }
    Step::sum(before_sum(round), round + 1, 0)
}

/// Returns operation `number` of a virtual rank in a gather.
pub fn gather_step(ranks: u32, root: u32, bytes: u64, rank: u32, number: u32) -> Step
    requires few { ranks ≤ MAX_RANKS }
    requires root { root < ranks }
    requires rank { rank < ranks }
    requires number { number < rounds ranks rank + upward rank }
    ensures { entry_of result ≡ gather_in ranks root bytes rank number }
{
    let rounds = children(ranks, rank);
    if rounds <= number {
        let to = parent(ranks, root, rank);
        let slots = share(ranks, root, rank, part(rank));
        return Step::send(bytes, to, low(rank), Needs::Below(rounds), slots);
    }
    let size = power(number);
    let child = rank + size;
    let from = ahead(ranks, child, root);
    Step::receive(bytes, from, number, share(ranks, root, child, size))
}

// Returns the send of a virtual rank to a child in a scatter.
fn give_step(ranks: u32, root: u32, bytes: u64, rank: u32, round: u32, needs: Needs) -> Step
    requires few { ranks ≤ MAX_RANKS }
    requires root { root < ranks }
    requires rank { rank < ranks }
    requires round { round < rounds ranks rank }
    ensures { entry_of result ≡ give_in ranks root bytes rank round (needs_of needs) }
{
    let size = power(round);
    let child = rank + size;
    let to = ahead(ranks, child, root);
    Step::send(bytes, to, round, needs, share(ranks, root, child, size))
}

/// Returns operation `number` of a virtual rank in a scatter.
pub fn scatter_step(ranks: u32, root: u32, bytes: u64, rank: u32, number: u32) -> Step
    requires few { ranks ≤ MAX_RANKS }
    requires root { root < ranks }
    requires rank { rank < ranks }
    requires number { number < upward rank + rounds ranks rank }
    ensures { entry_of result ≡ scatter_in ranks root bytes rank number }
{
    let rounds = children(ranks, rank);
    if rank == 0 {
        return give_step(
            ranks,
            root,
            bytes,
            rank,
            rounds - 1 - number,
            Needs::Nothing,
        );
    }
    if number == 0 {
        let from = parent(ranks, root, rank);
        return Step::receive(bytes, from, low(rank), share(ranks, root, rank, part(rank)));
    }
    give_step(
        ranks,
        root,
        bytes,
        rank,
        rounds - 1 - (number - 1),
        Needs::One(0),
    )
}

/// Returns operation `number` of a rank in a reduce_scatter.
pub fn reduce_scatter_step(ranks: u32, bytes: u64, rank: u32, number: u32) -> Step
    requires few { ranks ≤ MAX_RANKS }
    requires rank { rank < ranks }
    requires number { number < 3 * (ranks - 1) }
    ensures { entry_of result ≡ reduce_scatter_in ranks bytes rank number }
{
    let step = number / 3;
    if number % 3 == 0 {
        let to = ahead(ranks, rank, 1);
        let slot = back(ranks, rank, step + 1);
        return Step::send(bytes, to, step, before_round(step), Effect::slot(slot));
    }
    let slot = back(ranks, rank, step + 2);
    if number % 3 == 1 {
        let from = back(ranks, rank, 1);
        return Step::receive(bytes, from, step, Effect::slot(ranks + slot));
    }
    Step::sum(Needs::One(3 * step + 1), ranks + slot, slot)
}

/// Returns the number of operations of a rank in a scan.
#[tactic(auto, unfolding(goal_blocks::specs::MadeRooted::scan_count))]
pub fn scan_count(ranks: u32, rank: u32) -> u32
    requires few { ranks ≤ MAX_RANKS }
    requires rank { rank < ranks }
    ensures { result ≡ scan_count ranks rank }
{
    let sends = if rank + 1 < ranks { 1 } else { 0 };
    2 * upward(rank) + sends
}

/// Returns operation `number` of a rank in a scan.
pub fn scan_step(bytes: u64, rank: u32, number: u32) -> Step
    requires { rank < MAX_RANKS }
    ensures { entry_of result ≡ scan_in bytes rank number }
{
    if rank == 0 {
        return Step::send(bytes, 1, 0, Needs::Nothing, Effect::slot(0));
    }
    match number {
        0 => Step::receive(bytes, rank - 1, 0, Effect::slot(1)),
        1 => Step::sum(Needs::One(0), 1, 0),
        _ => Step::send(bytes, rank + 1, 0, Needs::One(1), Effect::slot(0)),
    }
}
