//! The laws of compiled files. Their function does nothing: a proof cites a law by a call.
ghost use Rattle.std.specs.Prelude.{◌≡◌};
ghost use Rattle.goal_binary.specs.Layouts.{magic_bytes};
ghost use Rattle.goal_binary.specs.Laws.{PackedApart, LengthIsTold, WithinInput, NoLonger, TwoFiles, WithinLimits, PlansAgain, SchedulesHaveFiles, ReadAgain, FaultsAreTrue, CutIsShort, MoreIsExtra, NoFileBegins};

use crate::layout::MAGIC;

/// The laws of compiled files, for every schedule and all bytes:
///
/// - `magic`: each begins with the eight bytes `magic_bytes` of the definitions.
/// - `packed_apart`: no packed number is a prefix of another.
/// - `length_is_told`: the length of the file of version 1 follows from the numbers of ranks, operations, dependencies
///   and notes.
/// - `within_input`: where these are within their limits, it is short enough to be an input.
/// - `no_longer`: the file of version 2 is at most as long as that of version 1.
/// - `two_files`: bytes that mean plans are the file of these plans in one of the versions, so no schedule has a third.
/// - `within_limits`: plans that bytes mean have counts, sizes and numbers that a file can have.
/// - `plans_again`: each of the two files of such plans means these plans.
/// - `schedules_have_files`: a schedule has such plans.
/// - `read_again`: so the file of a schedule means the schedule.
/// - `faults_are_true`: the fault of bytes describes them. Up to the field at fault they begin a file of some plans,
///   and with the whole field they begin none; or they end inside a field; or more follows a whole file.
/// - `cut_is_short`: a file that is cut off is `Short` where it ends.
/// - `more_is_extra`: the first byte after a file is `Extra`.
/// - `no_file_begins`: no file begins with bytes in which a whole field is at fault.
pub fn laws_of_files()
    ensures magic { MAGIC ≡ magic_bytes }
    ensures packed_apart { PackedApart }
    ensures length_is_told { LengthIsTold }
    ensures within_input { WithinInput }
    ensures no_longer { NoLonger }
    ensures two_files { TwoFiles }
    ensures within_limits { WithinLimits }
    ensures plans_again { PlansAgain }
    ensures schedules_have_files { SchedulesHaveFiles }
    ensures read_again { ReadAgain }
    ensures faults_are_true { FaultsAreTrue }
    ensures cut_is_short { CutIsShort }
    ensures more_is_extra { MoreIsExtra }
    ensures no_file_begins { NoFileBegins }
{}
