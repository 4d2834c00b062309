//! The top call: from the words of a command line to the output and a status.
ghost use Rattle.std.specs.Prelude.{ℕ, ◌≡◌, ◌≤◌, ◌⊎◌, List, length, Some, OnOk, OnErr, IsErrOf};
ghost use Rattle.goal_base.specs.Device.{HostState, Rose, Held, Later, SinkLater, KeepsFiles, KeepsReading, SameReadCounts, Grows};
ghost use Rattle.goal_limits.specs.declared.limits.TheConstants.{MAX_INPUT};
ghost use Rattle.goal_graph.specs.Schedule.{Plan};
ghost use Rattle.sim_params.specs.Costs.{Numbers, log_gops};
ghost use Rattle.goal_input.specs.Input.{IfFile};
ghost use Rattle.sim_classes.specs.Machine.{MachineModel, costs_of};
ghost use Rattle.goal_words.specs.Words.{Sim, Nodes, command_in};
ghost use Rattle.goal_words.specs.Requests.{requested, IsSized, IsPriced};
ghost use Rattle.goal_cli.specs.Answer.{IfInput, ForRead, GrowsByPart, IsReadOut, ReadsHeld, InputHeld, goes_to, target_of, Gets, GetsPart, Elsewhere, WritesRose, WritesHeld, WritesSame, AnswersWhole, PrintsRun, IsCauseOf, IsCause, AnswersWith, Says, IsCutShort, Answered, IsTakenWithinLimit};
ghost use Rattle.goal_cli.specs.World.{devices, world, WorldLater};
ghost use Rattle.goal_cli.specs.Output.{machine_of, HasOutput, HasRun, HasRunOn, IsRefused};
ghost use Rattle.goal_cli.specs.Pages.{text_of, Suits};
ghost use Rattle.goal_cli.specs.WithoutWork.{IsGathered, IsAnsweredOrNoMemory, DevicesLater};
ghost use Rattle.goal_cli.specs.Refusal.{refused_line};
ghost use Rattle.goal_cli.specs.declared.answer.Refusal.{Refusal};

use crate::answer::{Answer, Ending, Status};
use crate::output::{Stop, output_of};
use crate::pages::Output;
use crate::printing::{print_output, release};
use crate::refusal::refused_line;
use crate::source::{Gathered, gather};
use goal_base::{Host, IoFault, Sink, write_all, write_file};
use goal_limits::NoMemory;
use goal_words::{LineFault, Request, View, read_words};
use std::alloc::Global;

const BAD_LINE: &[u8] = b"goal: the words are not a command line of goal\n";

const READ_FAULT: &[u8] = b"goal: reading failed\n";

const WRITE_FAULT: &[u8] = b"goal: writing failed\n";

const OUT_OF_MEMORY: &[u8] = b"goal: out of memory\n";

/// Carries out a command line, given by the words after the program's name. Most commands read a schedule, a text or a
/// compiled file, from the file NAME of `host`:
///
/// - `sim NAME`, with options for the parameters, runs it and writes the printed run to `out`, with the reason for each
///   stuck operation. `nodes NAME MACHINE` does the same with the costs of the machine described in the file MACHINE.
/// - `waits NAME` and `knots NAME`, with the same options, run it and write to `out` the report on waits, or the knots
///   of its stuck operations.
/// - `compile NAME OUT` writes its compiled file to the file OUT, and `show NAME` writes its canonical text to `out`.
/// - `certify KIND NAME` writes to `out` that it is certified for a collective, or its first fault.
///
/// Two have no input: `gen KIND RANKS BYTES` generates the schedule of a collective and writes its canonical text to
/// `out`, and `probe ROUNDS SEED` runs a random schedule and writes a summary. What went wrong is reported in a line to
/// `err`.
///
/// Any status may be replaced by `NoMemory`. A failure of `err` changes no status. `laws_of_answers` lists what follows
/// from `answered`, answer by answer.
pub fn goal<H: Host, W: Sink, E: Sink>(
    alloc: Global,
    words: &[String],
    host: &mut H,
    out: &mut W,
    err: &mut E,
) -> Status
    // For every file that is read as a schedule, text or compiled, and for all parameters whose time budget is at most
    // 2^63-1: unless memory runs out or a device fails, `out` gets the start, the end and the match of each operation
    // in the one run in which the least possible action by time and tie rule happens next, and the reason for each
    // stuck operation.
    ensures headline { (name : List ℕ) (p : Numbers) → command_in words.now ≡ Some (Sim name p)
        → IfFile (H.state host.old) name (λ input. (sched : List Plan) → HasRun p input sched
        → ReadsHeld (H.state host.old) (H.state host.new)
        → Held (W.state out.old).stops (W.state out.old).count (W.state out.new).count
        → PrintsRun result (W.state out.old) (W.state out.new) (log_gops p) sched) }

    // The same with the costs of a machine: each message has the parameters of its class.
    ensures headline_on_a_machine { (name machine : List ℕ) → command_in words.now ≡ Some (Nodes name machine)
        → IfFile (H.state host.old) name (λ schedule. IfFile (H.state host.old) machine (λ text. (sched : List Plan) (m : MachineModel)
        → HasRunOn m schedule text sched
        → ReadsHeld (H.state host.old) (H.state host.new)
        → Held (W.state out.old).stops (W.state out.old).count (W.state out.new).count
        → PrintsRun result (W.state out.old) (W.state out.new) (costs_of m) sched)) }

    // The words lead to an answer whose cause holds, and the status and what `err` got are those of that answer.
    ensures answered { Answered (command_in words.now)
        (world (H.state host.old) (W.state out.old) (E.state err.old))
        (world (H.state host.new) (W.state out.new) (E.state err.new)) result }

    // The command's output for its input, or for its words if it has none, is written whole, unless a device fails.
    ensures complete { let old = devices (H.state host.old) (W.state out.old) in
        let new = devices (H.state host.new) (W.state out.new) in
        IfInput (command_in words.now) (H.state host.old) (λ c input. (sched : List Plan)
        → HasOutput c input sched → InputHeld old new c
        → WritesHeld old new (target_of c) → AnswersWhole old new result c input) }

    // A refused input, or refused words, get the line of the refusal, unless the host fails.
    ensures refused_exact { let old = devices (H.state host.old) (W.state out.old) in
        let new = devices (H.state host.new) (W.state out.new) in
        IfInput (command_in words.now) (H.state host.old) (λ c input. (refusal : Refusal)
        → IsRefused c input refusal → InputHeld old new c
        → AnswersWith result Status.Refused (Says (E.state err.old) (E.state err.new) (refused_line refusal))) }

    // At most 2^27+1 bytes of each input are read. A command without an input leaves the open input unchanged.
    ensures taken { IsTakenWithinLimit (command_in words.now) (H.state host.old) (H.state host.new) }
    ensures later { WorldLater (world (H.state host.old) (W.state out.old) (E.state err.old))
        (world (H.state host.new) (W.state out.new) (E.state err.new)) }
{
    let answer = carry_out(alloc, words, host, out);
    tell(alloc, err, answer)
}

// Carries out the command of the words: writes its output, and returns the answer.
fn carry_out<H: Host, W: Sink>(alloc: Global, words: &[String], host: &mut H, out: &mut W) -> Answer
    ensures cause { IsCause (devices (H.state host.old) (W.state out.old))
        (devices (H.state host.new) (W.state out.new)) (command_in words.now) result }
    ensures taken { IsTakenWithinLimit (command_in words.now) (H.state host.old) (H.state host.new) }
    ensures later { DevicesLater (devices (H.state host.old) (W.state out.old))
        (devices (H.state host.new) (W.state out.new)) }
{
    match read_words(alloc, words) {
        Ok(line) => carry_out_request(alloc, &Request::of(line), host, out),
        Err(LineFault::Bad) => Answer::BadLine,
        Err(LineFault::NoMemory) => Answer::NoMemory,
    }
}

// Carries out a parsed command: writes its output, and returns the answer.
fn carry_out_request<H: Host, W: Sink>(
    alloc: Global,
    request: &Request,
    host: &mut H,
    out: &mut W,
) -> Answer
    requires sized { IsSized (requested request.now) }
    requires priced { IsPriced (requested request.now) }
    ensures cause { IsCauseOf (devices (H.state host.old) (W.state out.old))
        (devices (H.state host.new) (W.state out.new)) (requested request.now) result }
    ensures taken { IsTakenWithinLimit (Some (requested request.now)) (H.state host.old) (H.state host.new) }
    ensures later { DevicesLater (devices (H.state host.old) (W.state out.old))
        (devices (H.state host.new) (W.state out.new)) }
{
    match gather(alloc, host, request) {
        Ok(work) => write_output(alloc, request, &work, host, out),
        Err(answer) => answer,
    }
}

// Makes the output of a command from what was gathered for it, and writes it.
fn write_output<H: Host, W: Sink>(
    alloc: Global,
    request: &Request,
    work: &Gathered,
    host: &mut H,
    out: &mut W,
) -> Answer
    requires priced { IsPriced (requested request.now) }
    requires short { length work.now.machine.items ≤ MAX_INPUT }
    // The cause speaks of the host before the work was gathered from it.
    ensures cause { (first : HostState) → Later first (H.state host.old) → KeepsFiles first (H.state host.old)
        → SameReadCounts first (H.state host.old) → IsReadOut first (H.state host.old) (machine_of (requested request.now))
        → ForRead first (requested request.now) (IsGathered (requested request.now) work.now.sched work.now.machine.items)
        → IsCauseOf (devices first (W.state out.old)) (devices (H.state host.new) (W.state out.new)) (requested request.now) result }
    ensures kept { KeepsReading (H.state host.old) (H.state host.new) }
    ensures later { DevicesLater (devices (H.state host.old) (W.state out.old))
        (devices (H.state host.new) (W.state out.new)) }
{
    let mut output = match output_of(alloc, request, &work.sched, &work.machine) {
        Ok(output) => output,
        Err(Stop::Refused(refusal)) => return Answer::Refused(refusal),
        Err(Stop::NoMemory) => return Answer::NoMemory,
    };
    let ending = output.ending;
    let written = put(alloc, &request.view, host, out, &mut output);
    release(output);
    match written {
        Ok(()) => Answer::Written(ending),
        Err(IoFault::Failed) => Answer::WriteFault,
        Err(IoFault::NoMemory) => Answer::NoMemory,
    }
}

// Writes the output of a command to its target.
fn put<H: Host, W: Sink>(
    alloc: Global,
    view: &View,
    host: &mut H,
    out: &mut W,
    output: &mut Output<'_>,
) -> Result<(), IoFault>
    requires suits { Suits (goes_to view.now) output.old }
    ensures whole { let old = devices (H.state host.old) (W.state out.old) in
        let new = devices (H.state host.new) (W.state out.new) in
        OnOk result (Gets old new (goes_to view.now) (text_of output.old) × WritesSame old new (goes_to view.now)) }
    ensures part { OnErr result (GetsPart (devices (H.state host.old) (W.state out.old))
        (devices (H.state host.new) (W.state out.new)) (goes_to view.now) (text_of output.old)) }
    ensures rose { IsErrOf result IoFault.Failed → WritesRose (devices (H.state host.old) (W.state out.old))
        (devices (H.state host.new) (W.state out.new)) (goes_to view.now) }
    ensures elsewhere { Elsewhere (devices (H.state host.old) (W.state out.old))
        (devices (H.state host.new) (W.state out.new)) (goes_to view.now) }
    ensures kept { KeepsReading (H.state host.old) (H.state host.new) }
    ensures later { DevicesLater (devices (H.state host.old) (W.state out.old))
        (devices (H.state host.new) (W.state out.new)) }
{
    match view {
        View::File(name) => write_file(host, name.as_str(), output.made()),
        View::Run(_) | View::Text | View::Verdict(_) => print_output(alloc, out, output),
    }
}

// Writes a line to a sink. A fault of the sink changes no status; out of memory does.
fn say<E: Sink>(err: &mut E, line: &[u8], status: Status) -> Status
    ensures said { (result ≡ status × Says (E.state err.old) (E.state err.new) line.now)
        ⊎ (result ≡ Status.NoMemory × IsCutShort (E.state err.old) (E.state err.new) line.now) }
    ensures later { SinkLater (E.state err.old) (E.state err.new) }
{
    match write_all(err, line) {
        Ok(()) => status,
        Err(stop) => match stop.why {
            IoFault::Failed => status,
            IoFault::NoMemory => Status::NoMemory,
        },
    }
}

// Writes the line of an answer to `err`, and returns its status.
fn tell<E: Sink>(alloc: Global, err: &mut E, answer: Answer) -> Status
    ensures answered { IsAnsweredOrNoMemory (E.state err.old) (E.state err.new) answer result }
    ensures later { SinkLater (E.state err.old) (E.state err.new) }
{
    match answer {
        Answer::Written(Ending::Done) => Status::Done,
        Answer::Written(Ending::Stuck) => Status::Stuck,
        Answer::Written(Ending::NotCertified) => Status::NotCertified,
        Answer::BadLine => say(err, BAD_LINE, Status::BadLine),
        Answer::Refused(refusal) => match refused_line(alloc, refusal) {
            Ok(line) => say(err, &line, Status::Refused),
            Err(NoMemory) => say(err, OUT_OF_MEMORY, Status::NoMemory),
        },
        Answer::ReadFault => say(err, READ_FAULT, Status::ReadFault),
        Answer::WriteFault => say(err, WRITE_FAULT, Status::WriteFault),
        Answer::NoMemory => say(err, OUT_OF_MEMORY, Status::NoMemory),
    }
}
