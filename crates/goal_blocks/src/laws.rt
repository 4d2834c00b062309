//! The laws of matched and certified schedules and of races. The functions do nothing: a proof cites a law by a call.
ghost use Rattle.goal_blocks.specs.Laws.{OneWalk, SomeWalk, InterleavingGoesOn, SomeCompleteInterleaving, ChannelsAreApart, MatchedEndsInItsPairs, OrderIsKept, ConflictsComeInOneOrder, CertifiedEndsEverywhere, CertifiedConflictsInOneOrder, MatchedHoldsAsTheWalk, CertifiedIsRightEverywhere, FaultExcludesCertified, FaultlessIsCertified, OneFirstFault, AheadAndBack, BcastOfTwoIsCertified, RenamedIsRenamed, RenamedBack, RenamedIsAllowedAlike, RenamedInterleavesAlike, RenamedHoldsAlike, RenamedIsRight, RenamedIsCertified, ExchangeUndoesItself, BlocksAreExchanged, FirstBlockStays, ExchangedIsCertified, SlotHoldsWanted, BlockHoldsWanted, SegmentsInOneRun, BlocksInOneRun};
ghost use Rattle.goal_blocks.specs.Levels.{LevelsEnd};
ghost use Rattle.goal_blocks.specs.HeldFew.{ValuesStaySingle, HeldStaysFew};
ghost use Rattle.goal_blocks.specs.Joined.{JoinedHoldsBoth, SegmentsAtOnce};
ghost use Rattle.goal_blocks.specs.Placed.{PlacedIsPlaced, PlacedIsAllowedAlike, PlacedInterleavesAlike, PlacedHoldsAlike, PlacedIsRight, PlacedIsCertified, PlacedCollectiveIsRight};

/// The laws of matched schedules. A schedule is matched if it has no wildcards, each send has one receive of its
/// channel and each receive one send, and each operation ends in the walk:
///
/// - `channels_are_apart`: each send fits at most one receive, and each receive at most one send.
/// - `matched_ends_in_its_pairs`: in each complete interleaving, whichever sends are eager, each operation ends, and
///   each send is paired with the receive of its channel; there are no other pairs.
/// - `one_walk`: a schedule, matched or not, has at most one walk.
/// - `some_walk`: a schedule, matched or not, has a walk.
/// - `interleaving_goes_on`: every interleaving of a schedule, matched or not and whichever sends are eager, can be
///   extended to a complete one, since at most three actions per operation happen.
/// - `some_complete_interleaving`: so there is a complete interleaving for each choice of eager sends, and statements
///   on all of them are not vacuous.
/// - `levels_end`: each operation ends in each complete interleaving, whichever sends are eager, if there are levels in
///   a schedule without wildcards in which each send has one receive of its channel and each receive one send. A level
///   is a number for each operation: greater than those of the operations that it needs, and the same for a send and
///   the receive of its channel.
pub fn laws_of_matched_schedules()
    ensures channels_are_apart { ChannelsAreApart }
    ensures matched_ends_in_its_pairs { MatchedEndsInItsPairs }
    ensures one_walk { OneWalk }
    ensures some_walk { SomeWalk }
    ensures interleaving_goes_on { InterleavingGoesOn }
    ensures some_complete_interleaving { SomeCompleteInterleaving }
    ensures levels_end { LevelsEnd }
{}

/// The laws of the order of operations of one rank, whichever sends are eager:
///
/// - `order_is_kept`: if the dependencies make an operation end before another starts, it has ended wherever the other
///   has started, in each interleaving.
/// - `conflicts_come_in_one_order`: two operations conflict if one writes a slot that the other touches. Without a
///   race, two conflicting operations have one order, the same in every interleaving.
pub fn laws_of_races()
    ensures order_is_kept { OrderIsKept }
    ensures conflicts_come_in_one_order { ConflictsComeInOneOrder }
{}

/// The laws of certified schedules, for every start of the slots and every condition at the end:
///
/// - `certified_is_right_everywhere`: in each complete interleaving, whichever sends are eager, each operation ends,
///   each send is paired with the receive of its channel, there are no other pairs, and each slot holds what is wanted.
/// - `matched_holds_as_the_walk`: if a matched schedule has no race, then after each complete interleaving, whichever
///   sends are eager, each slot holds the same value as after the walk, and each send has read the same values.
/// - `certified_ends_everywhere`: in each complete interleaving, whichever sends are eager, each operation ends, each
///   send is paired with the receive of its channel, and there are no other pairs.
/// - `bcast_of_two_is_certified`: there are certified schedules, such as the one for a broadcast from rank 0 to rank 1.
/// - `certified_conflicts_in_one_order`: two conflicting operations have one order, the same in every interleaving.
pub fn laws_of_certified_schedules()
    ensures certified_is_right_everywhere { CertifiedIsRightEverywhere }
    ensures matched_holds_as_the_walk { MatchedHoldsAsTheWalk }
    ensures bcast_of_two_is_certified { BcastOfTwoIsCertified }
    ensures certified_ends_everywhere { CertifiedEndsEverywhere }
    ensures certified_conflicts_in_one_order { CertifiedConflictsInOneOrder }
{}

/// The laws of held contributions, for every schedule in which no operation adds, if each slot has at most one
/// contribution at the start. They hold after any actions, so in each prefix of each interleaving, whichever sends are
/// eager:
///
/// - `values_stay_single`: each value, in a slot or read by a send, has at most one contribution.
/// - `held_stays_few`: in all there are at most as many as at the start, plus one for each slot that a move names.
pub fn laws_of_held_contributions()
    ensures values_stay_single { ValuesStaySingle }
    ensures held_stays_few { HeldStaysFew }
{}

/// The laws of the faults for which a schedule is not certified, for every start of the slots and every condition at
/// the end:
///
/// - `fault_excludes_certified`: a schedule with one of the nine faults is not certified.
/// - `faultless_is_certified`: an accepted schedule without a first fault is certified.
/// - `one_first_fault`: a schedule has at most one first fault.
pub fn laws_of_faults()
    ensures fault_excludes_certified { FaultExcludesCertified }
    ensures faultless_is_certified { FaultlessIsCertified }
    ensures one_first_fault { OneFirstFault }
{}

/// The law of places in a ring, by which the two ends of a message around it agree:
///
/// - `ahead_and_back`: going s ahead and then s back leads to the same rank, and conversely.
pub fn laws_of_positions()
    ensures ahead_and_back { AheadAndBack }
{}

/// The laws of schedules whose slots are renamed in all notes; the names may differ by rank, and can be undone:
///
/// - `renamed_is_renamed`: a schedule whose notes are renamed one by one is a renamed schedule.
/// - `renamed_back`: renamed back, it is the original.
/// - `renamed_is_allowed_alike`: after the same actions the same actions are allowed, whichever sends are eager.
/// - `renamed_interleaves_alike`: its interleavings are the same, and so are the complete ones.
/// - `renamed_holds_alike`: a slot's new name holds what the slot held, and each send has read the same.
/// - `renamed_is_right`: it is right everywhere if and only if the original is, with start and end under the names.
/// - `renamed_is_certified`: the same for certified, if the original is not too large to be certified, and if the
///   renaming and its inverse keep slots up to 65,535 within that limit, and those below 2^32 below 2^32.
pub fn laws_of_renamed_slots()
    ensures renamed_is_renamed { RenamedIsRenamed }
    ensures renamed_back { RenamedBack }
    ensures renamed_is_allowed_alike { RenamedIsAllowedAlike }
    ensures renamed_interleaves_alike { RenamedInterleavesAlike }
    ensures renamed_holds_alike { RenamedHoldsAlike }
    ensures renamed_is_right { RenamedIsRight }
    ensures renamed_is_certified { RenamedIsCertified }
{}

/// The laws of segments: a collective that is done in several blocks of slots, in each as if it were the first:
///
/// - `exchange_undoes_itself`, `blocks_are_exchanged`, `first_block_stays`: the exchange of the first block with
///   another.
/// - `exchanged_is_certified`: a schedule with the two blocks exchanged is certified for a collective if and only if
///   the original is certified with start and end exchanged.
/// - `slot_holds_wanted`, `block_holds_wanted`: if the exchanged schedule is certified, the original ends in each
///   complete interleaving, whichever sends are eager, in the pairs of the channels, and the slot or block holds what
///   the collective wants in slot 0 or in the first block.
/// - `segments_in_one_run`, `blocks_in_one_run`: if that is certified for each of several blocks, then every complete
///   interleaving leaves in each block what is wanted there, from the start of its own segment.
pub fn laws_of_segments()
    ensures exchange_undoes_itself { ExchangeUndoesItself }
    ensures blocks_are_exchanged { BlocksAreExchanged }
    ensures first_block_stays { FirstBlockStays }
    ensures exchanged_is_certified { ExchangedIsCertified }
    ensures slot_holds_wanted { SlotHoldsWanted }
    ensures block_holds_wanted { BlockHoldsWanted }
    ensures segments_in_one_run { SegmentsInOneRun }
    ensures blocks_in_one_run { BlocksInOneRun }
{}

/// The laws of schedules on other ranks: each rank has the plan of the rank that a permutation maps to it, and all
/// peers are permuted too.
///
/// - `placed_is_placed`: putting the plans of a schedule on other ranks gives such a schedule.
/// - `placed_is_allowed_alike`, `placed_interleaves_alike`: it allows the permuted actions after the permuted ones, and
///   its interleavings and complete interleavings are the permuted ones, with the permuted sends eager.
/// - `placed_holds_alike`: from a start with relabelled contributions, the permuted rank holds what the rank holds,
///   relabelled.
/// - `placed_is_right`: a schedule that is right everywhere is right everywhere on other ranks too, for each condition
///   at the end that follows from the original one.
/// - `placed_is_certified`: a certified schedule is certified on other ranks, if few enough contributions are held
///   along the walk there, which takes the actions in another order.
/// - `placed_collective_is_right`: a schedule that does a collective everywhere, other than a scan, does it on other
///   ranks, with its root permuted, and with the slots that it assigns to ranks permuted too.
pub fn laws_of_placed_schedules()
    ensures placed_is_placed { PlacedIsPlaced }
    ensures placed_is_allowed_alike { PlacedIsAllowedAlike }
    ensures placed_interleaves_alike { PlacedInterleavesAlike }
    ensures placed_holds_alike { PlacedHoldsAlike }
    ensures placed_is_right { PlacedIsRight }
    ensures placed_is_certified { PlacedIsCertified }
    ensures placed_collective_is_right { PlacedCollectiveIsRight }
{}

/// The laws of starts that are joined, slot by slot:
///
/// - `joined_holds_both`: what is held from two joined starts is what is held from each of them, merged.
/// - `segments_at_once`: let a schedule be certified in each of several blocks, and each time also for leaving the
///   other blocks empty. Then each complete interleaving from the joined starts of all segments, whichever sends are
///   eager, leaves in each block what it leaves there from the start of its own segment alone, which is what is wanted.
pub fn laws_of_joined_starts()
    ensures joined_holds_both { JoinedHoldsBoth }
    ensures segments_at_once { SegmentsAtOnce }
{}
