//! The laws of schedules and of the rules without times. The functions do nothing: a proof cites a law by a call.
ghost use Rattle.goal_graph.specs.Laws.{OperationNotBeforeItself, OperationsBeforeIsTransitive, OneOperationIsBefore, NotLessThanItself, LessIsTransitive, OneIsLess, KeyTellsAction, LessIsTested, CountsAreWithin, ValuesAreWithin, EagerSendsAlone, HappenedIsListed, HappenedCases, HappenedStays, PartnerStays, ReadyStays, MessageStays, AllowedStays, PartnersAreMutual, PartnersHaveMet, FitsAreReceiveAndSend, PairsArePartners, PartnersArePaired, OnePair, ArrivesAfterBegin, DataAfterPairing, ServesAfterPost, EndsAfterStart, StartsWhenReady, HappensOnce, AtMostThree, AtMostThreeEach, LeftFalls, OneAllowed, NeverBothWait, AllowedIsListed, OperationsAreListed, OperationsInOrder, ReadOldestFirst, InterleavingOldestFirst, PairedHasEnded, ReadyWaits, FittingIsTaken, ApartArePartners, ApartCompletesAlike};

/// The laws of the order of operations, by rank and number, and of actions, by keys of time, class, rank and number:
///
/// - `operation_not_before_itself`, `operations_transitive`, `one_operation_is_before`: operations are in a strict
///   total order.
/// - `not_less_than_itself`, `transitive`, `one_is_less`: so are the keys of actions.
/// - `tested`: the test `less` decides the order.
pub fn laws_of_orders()
    ensures operation_not_before_itself { OperationNotBeforeItself }
    ensures operations_transitive { OperationsBeforeIsTransitive }
    ensures one_operation_is_before { OneOperationIsBefore }
    ensures not_less_than_itself { NotLessThanItself }
    ensures transitive { LessIsTransitive }
    ensures one_is_less { OneIsLess }
    ensures key_tells_action { KeyTellsAction }
    ensures tested { LessIsTested }
{}

/// The laws of accepted schedules:
///
/// - `counts_are_within`: the numbers of ranks, operations, dependencies and notes are within their limits.
/// - `values_are_within`: so is the size or duration of each operation, and its target or source is a rank.
/// - `operations_are_listed`, `operations_in_order`: `operations` lists each operation once, by rank and number.
pub fn laws_of_schedules()
    ensures counts_are_within { CountsAreWithin }
    ensures values_are_within { ValuesAreWithin }
    ensures operations_are_listed { OperationsAreListed }
    ensures operations_in_order { OperationsInOrder }
{}

/// The laws of interleavings, for every schedule, whichever sends are eager:
///
/// - `happened_is_listed`, `happened_cases`: an action has happened exactly if it is in the list.
/// - `happened_stays`, `ready_stays`, `message_stays`: what has happened, is ready, or is there for a receive stays so.
/// - `allowed_stays`: an allowed action stays allowed until it happens.
/// - `one_allowed`: at any time, at most one action of an operation is allowed.
/// - `happens_once`: each action happens at most once.
/// - `at_most_three`: at most three actions of an operation happen.
/// - `at_most_three_each`: actions that happened and actions that are left are at most three per operation.
/// - `left_falls`: each allowed action reduces the number of those left.
/// - `arrives_after_begin`: a message arrives after its send has begun.
/// - `ends_after_start`, `starts_when_ready`: what has ended has started, and what has started was ready.
/// - `allowed_is_listed`: an allowed action belongs to an operation of the schedule.
/// - `interleaving_oldest_first`: read oldest first, each action is allowed after those before it.
/// - `eager_sends_alone`: tests of what is eager that agree on the sends have the same interleavings.
pub fn laws_of_interleavings()
    ensures happened_is_listed { HappenedIsListed }
    ensures happened_cases { HappenedCases }
    ensures happened_stays { HappenedStays }
    ensures ready_stays { ReadyStays }
    ensures message_stays { MessageStays }
    ensures allowed_stays { AllowedStays }
    ensures one_allowed { OneAllowed }
    ensures happens_once { HappensOnce }
    ensures at_most_three { AtMostThree }
    ensures at_most_three_each { AtMostThreeEach }
    ensures left_falls { LeftFalls }
    ensures arrives_after_begin { ArrivesAfterBegin }
    ensures ends_after_start { EndsAfterStart }
    ensures starts_when_ready { StartsWhenReady }
    ensures allowed_is_listed { AllowedIsListed }
    ensures interleaving_oldest_first { InterleavingOldestFirst }
    ensures eager_sends_alone { EagerSendsAlone }
{}

/// The laws of partners, for every schedule, whichever sends are eager:
///
/// - `partner_stays`: a partner stays the partner.
/// - `partners_are_mutual`: the partner of an operation's partner is that operation.
/// - `partners_have_met`: of two partners one is a send that has arrived, the other a posted receive, and they fit.
/// - `fits_are_receive_and_send`: only a receive and a send fit.
/// - `pairs_are_partners`, `partners_are_paired`: two operations are partners exactly if they are a pair.
/// - `one_pair`: each operation is in at most one pair.
/// - `data_after_pairing`: a send transfers its data after it has arrived and is paired.
/// - `serves_after_post`: a receive takes its message after it is posted and its partner's message is there.
/// - `never_both_wait`: an arrived send and a posted receive that fit never both wait.
/// - `read_oldest_first`: the oldest action that passes a test is the first in the list read oldest first, so
///   matching may be read oldest first.
pub fn laws_of_partners()
    ensures partner_stays { PartnerStays }
    ensures partners_are_mutual { PartnersAreMutual }
    ensures partners_have_met { PartnersHaveMet }
    ensures fits_are_receive_and_send { FitsAreReceiveAndSend }
    ensures pairs_are_partners { PairsArePartners }
    ensures partners_are_paired { PartnersArePaired }
    ensures one_pair { OnePair }
    ensures data_after_pairing { DataAfterPairing }
    ensures serves_after_post { ServesAfterPost }
    ensures never_both_wait { NeverBothWait }
    ensures read_oldest_first { ReadOldestFirst }
{}

/// The laws of complete interleavings, after which nothing is allowed, for every schedule, whichever sends are eager:
///
/// - `paired_has_ended`: every paired operation has ended.
/// - `ready_waits`: a ready operation that has not ended is a rendezvous send or a receive that waits for a partner.
/// - `fitting_is_taken`: each operation that fits such an operation has not started, or is paired with another.
pub fn laws_of_complete_interleavings()
    ensures paired_has_ended { PairedHasEnded }
    ensures ready_waits { ReadyWaits }
    ensures fitting_is_taken { FittingIsTaken }
{}

/// The laws of schedules in which each send fits at most one receive and each receive at most one send:
///
/// - `apart_are_partners`: a send and a receive are partners exactly if the send has arrived, the receive is posted,
///   and they fit.
/// - `apart_completes_alike`: what starts or ends in one interleaving does so in each complete one in which at least
///   the same sends are eager.
pub fn laws_of_apart_schedules()
    ensures apart_are_partners { ApartArePartners }
    ensures apart_completes_alike { ApartCompletesAlike }
{}
