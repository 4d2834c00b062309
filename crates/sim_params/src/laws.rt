//! The laws of the timed run and of its parameters. The functions do nothing: a proof cites a law by a call.
ghost use Rattle.std.specs.Prelude.{◌≡◌};
ghost use Rattle.sim_params.specs.Defaults.{default_latency, default_overhead, default_gap, default_gap_per_byte, default_overhead_per_byte, default_sync, picos_limit};
ghost use Rattle.sim_params.specs.Laws.{TimesNeverFall, PossibleStays, StartStays, PairTimeStays, PairedByAction, StartsWithFirst, EndsWithLast, IsAnInterleaving, IsACompleteInterleaving, AtMostThreeEach, RoomForPossible, EndStays, TimesRise, NewestIsLast, PossibleIsNotPast, OneIsNext, NextOrFinished, OneRunOfEachLength, OneBeginsAsTheOther, CompleteRunBeginsAsEach, OneCompleteRun, SomeCompleteRun, ReadOldestFirst, LeastEntryIsNext, WithinReach, WithinBudget, PossibleWithinBudget, ReachRisesByPart, PartsAreTheShare, ReasonsAreStuck, OpIsNeeded, PartnerIsAbsent, AloneIsAlone, CalcIsNotAlone};

use crate::params::{
    DEFAULT_GAP, DEFAULT_GAP_PER_BYTE, DEFAULT_LATENCY, DEFAULT_OVERHEAD,
    DEFAULT_OVERHEAD_PER_BYTE, DEFAULT_SYNC, MAX_PICOS,
};

/// Each default, and the limit of the picoseconds per byte, is the number of the definitions.
pub fn laws_of_defaults()
    ensures latency { DEFAULT_LATENCY ≡ default_latency }
    ensures overhead { DEFAULT_OVERHEAD ≡ default_overhead }
    ensures gap { DEFAULT_GAP ≡ default_gap }
    ensures gap_per_byte { DEFAULT_GAP_PER_BYTE ≡ default_gap_per_byte }
    ensures overhead_per_byte { DEFAULT_OVERHEAD_PER_BYTE ≡ default_overhead_per_byte }
    ensures sync { DEFAULT_SYNC ≡ default_sync }
    ensures picos { MAX_PICOS ≡ picos_limit }
{}

/// The laws of times, for every schedule, all costs and every history, a run or not:
///
/// - `times_never_fall`: another action lowers no time of an action, no start, end, ready or free time.
/// - `possible_stays`: a possible action stays possible until it happens, and its time does not fall.
/// - `start_stays`, `pair_time_stays`: the start of an operation, and the time at which it was paired, stay.
/// - `paired_by_action`: an operation is paired at the time of the action that pairs it.
/// - `starts_with_first`: an operation starts at its first action.
/// - `ends_with_last`: it ends when its last action releases the cpu.
pub fn laws_of_times()
    ensures times_never_fall { TimesNeverFall }
    ensures possible_stays { PossibleStays }
    ensures start_stays { StartStays }
    ensures pair_time_stays { PairTimeStays }
    ensures paired_by_action { PairedByAction }
    ensures starts_with_first { StartsWithFirst }
    ensures ends_with_last { EndsWithLast }
{}

/// The laws of runs, for every schedule and all costs:
///
/// - `is_an_interleaving`: a run without its times is an interleaving.
/// - `is_a_complete_interleaving`: a complete run without its times is a complete interleaving.
/// - `at_most_three_each`: at most three actions per operation have happened or are left, together.
/// - `room_for_possible`: if an action is possible, fewer than three actions per operation have happened.
/// - `end_stays`: the end of an operation stays, once it has ended.
/// - `times_rise`: an action is not earlier than the one before it.
/// - `newest_is_last`: the newest action is not earlier than any before it.
/// - `possible_is_not_past`: what is possible after a run is not earlier than any of its actions.
/// - `one_is_next`: at most one action is next.
/// - `next_or_finished`: after a run an action is next, or nothing is possible.
/// - `one_run_of_each_length`: two runs of the same length are the same.
/// - `one_begins_as_the_other`: of two runs one begins with the other.
/// - `complete_run_begins_as_each`: a complete run begins with every run.
/// - `one_complete_run`: two complete runs are the same.
/// - `some_complete_run`: there is a complete run.
/// - `read_oldest_first`: read oldest first, each action of a run is next after those before it.
/// - `least_entry_is_next`: if each possible action has an entry that is not later, then a least entry that is possible
///   at its own time is the next action.
pub fn laws_of_runs()
    ensures is_an_interleaving { IsAnInterleaving }
    ensures is_a_complete_interleaving { IsACompleteInterleaving }
    ensures at_most_three_each { AtMostThreeEach }
    ensures room_for_possible { RoomForPossible }
    ensures end_stays { EndStays }
    ensures times_rise { TimesRise }
    ensures newest_is_last { NewestIsLast }
    ensures possible_is_not_past { PossibleIsNotPast }
    ensures one_is_next { OneIsNext }
    ensures next_or_finished { NextOrFinished }
    ensures one_run_of_each_length { OneRunOfEachLength }
    ensures one_begins_as_the_other { OneBeginsAsTheOther }
    ensures complete_run_begins_as_each { CompleteRunBeginsAsEach }
    ensures one_complete_run { OneCompleteRun }
    ensures some_complete_run { SomeCompleteRun }
    ensures read_oldest_first { ReadOldestFirst }
    ensures least_entry_is_next { LeastEntryIsNext }
{}

/// The laws of the budget, for every schedule and all costs:
///
/// - `within_reach`: no time of a run is later than its reach, the latest time at which an action happened or released
///   a cpu or a NIC.
/// - `within_budget`: no time of a run is later than the budget.
/// - `possible_within_budget`: a possible action releases what it holds within the budget.
/// - `reach_rises_by_part`: an action raises the reach by at most its part of a share: for a Serve that of its partner,
///   for any other that of its operation.
/// - `parts_are_the_share`: the parts of an operation add up to its share.
pub fn laws_of_the_budget()
    ensures within_reach { WithinReach }
    ensures within_budget { WithinBudget }
    ensures possible_within_budget { PossibleWithinBudget }
    ensures reach_rises_by_part { ReachRisesByPart }
    ensures parts_are_the_share { PartsAreTheShare }
{}

/// The laws of reasons, for every schedule, whichever sends are eager:
///
/// - `reasons_are_stuck`: an operation that a reason names is itself stuck.
/// - `op_is_needed`: an operation with the reason `Op` needs the one named, and what it needs of it has not happened.
/// - `partner_is_absent`: an operation with the reason `Partner` fits the one named, which has not started.
/// - `alone_is_alone`: after a complete interleaving, each operation that fits a stuck one with the reason `Alone` has
///   started, and is paired with another.
/// - `calc_is_not_alone`: then a stuck calc never has the reason `Alone`.
pub fn laws_of_reasons()
    ensures reasons_are_stuck { ReasonsAreStuck }
    ensures op_is_needed { OpIsNeeded }
    ensures partner_is_absent { PartnerIsAbsent }
    ensures alone_is_alone { AloneIsAlone }
    ensures calc_is_not_alone { CalcIsNotAlone }
{}
