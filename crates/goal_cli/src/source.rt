//! What a command works on: the schedule of its input or one that it generates, and the text of its machine.
ghost use Rattle.std.specs.Prelude.{◌≡◌, ◌≤◌, true, false, length, Some, OnOk, IfOk, IfErr};
ghost use Rattle.goal_limits.specs.declared.limits.TheConstants.{MAX_INPUT};
ghost use Rattle.goal_base.specs.Device.{HostState, Later, KeepsFiles, SameReadCounts};
ghost use Rattle.goal_blocks.specs.GenFaults.{IsGenFault};
ghost use Rattle.goal_input.specs.Input.{IsReadAs, ForFile};
ghost use Rattle.goal_collectives.specs.Probe.{probed};
ghost use Rattle.goal_words.specs.declared.request.View.{View};
ghost use Rattle.goal_words.specs.Words.{Command, Pricing, asks};
ghost use Rattle.goal_words.specs.Requests.{requested, IsSized};
ghost use Rattle.goal_cli.specs.Output.{input_of, machine_of, IsMade, IsFrom};
ghost use Rattle.goal_cli.specs.Answer.{ForNamed, ForRead, IsReadOut, IsTakenWithinLimit};
ghost use Rattle.goal_cli.specs.WithoutWork.{HasNoSchedule, IsNotReadWhole, HasNoWork, AreBytesOfFile, IsTakenWithinLimitFrom, IsGathered};

use crate::answer::{Answer, Refusal};
use goal_base::{Host, ReadAll, read_all};
use goal_blocks::Collective;
use goal_collectives::{GenFault, generate, probe_plan};
use goal_graph::Sched;
use goal_input::{InputFault, read_schedule};
use goal_limits::{MAX_BYTES, MAX_ROUNDS, NoMemory};
use goal_rooted::generate_rooted;
use goal_words::{Costing, Request, Source};
use std::alloc::Global;

// Returns the schedule of a collective, or why it has none.
fn generated(alloc: Global, what: Collective, ranks: u32, bytes: u64) -> Result<Sched, GenFault>
    requires { bytes ≤ MAX_BYTES }
    ensures made { IfOk result (λ sched. IsMade what ranks bytes sched) }
    ensures fault { IfErr result (λ fault. IsGenFault what ranks fault) }
{
    if what.is_made_by_generate() {
        generate(alloc, what, ranks, bytes)
    } else {
        Ok(generate_rooted(alloc, what, ranks, bytes)?)
    }
}

// The schedule of a collective.
fn make_schedule(alloc: Global, what: Collective, ranks: u32, bytes: u64) -> Result<Sched, Answer>
    requires size { bytes ≤ MAX_BYTES }
    ensures made { IfOk result (λ sched. IsMade what ranks bytes sched) }
    ensures unmade { IfErr result (λ answer. (costs : Pricing) (view : View) (host : HostState)
        → HasNoSchedule host host (asks (Source.Made what ranks bytes) costs view) answer) }
{
    match generated(alloc, what, ranks, bytes) {
        Ok(sched) => Ok(sched),
        Err(GenFault::NoMemory) => Err(Answer::NoMemory),
        Err(fault) => Err(Answer::Refused(Refusal::Generator(fault))),
    }
}

// The schedule of a probe.
fn draw(alloc: Global, rounds: u32, seed: u64) -> Result<Sched, Answer>
    requires few { rounds ≤ MAX_ROUNDS }
    ensures drawn { IfOk result (λ sched. sched ≡ probed rounds seed) }
    ensures unmade { IfErr result (λ answer. answer ≡ Answer.NoMemory) }
{
    match probe_plan(alloc, rounds, seed) {
        Ok(sched) => Ok(sched),
        Err(NoMemory) => Err(Answer::NoMemory),
    }
}

// Reads the schedule in the file of that name.
fn read_input<H: Host>(alloc: Global, host: &mut H, name: &str) -> Result<Sched, Answer>
    ensures read { IfOk result (λ sched. ForFile (H.state host.old) name.now (λ input. IsReadAs input sched)) }
    ensures input_fault { IfErr result (λ answer. (c : Command) → input_of c ≡ Some name.now
        → HasNoSchedule (H.state host.old) (H.state host.new) c answer) }
    ensures counts { OnOk result (SameReadCounts (H.state host.old) (H.state host.new)) }
    ensures kept { KeepsFiles (H.state host.old) (H.state host.new) }
    ensures later { Later (H.state host.old) (H.state host.new) }
    ensures taken { IsTakenWithinLimitFrom (H.state host.old) (H.state host.new) (Some name.now) }
{
    match read_schedule(alloc, host, name) {
        Ok(sched) => Ok(sched),
        Err(InputFault::Fault) => Err(Answer::ReadFault),
        Err(InputFault::TooLong) => Err(Answer::Refused(Refusal::TooLong)),
        Err(InputFault::Text(fault)) => Err(Answer::Refused(Refusal::Text(fault))),
        Err(InputFault::File(fault)) => Err(Answer::Refused(Refusal::File(fault))),
        Err(InputFault::NoMemory) => Err(Answer::NoMemory),
    }
}

// Returns the schedule that a command works on, read or generated. Without an input the host is not asked. `Err` is the
// answer, but a refusal is replaced by the fault of the machine if that cannot be read.
fn schedule_of<H: Host>(alloc: Global, host: &mut H, request: &Request) -> Result<Sched, Answer>
    requires sized { IsSized (requested request.now) }
    ensures schedule { IfOk result (λ sched. ForNamed (H.state host.old) (input_of (requested request.now))
        (λ schedule. IsFrom request.now.source schedule sched)) }
    ensures unmade { IfErr result (HasNoSchedule (H.state host.old) (H.state host.new) (requested request.now)) }
    ensures counts { OnOk result (SameReadCounts (H.state host.old) (H.state host.new)) }
    ensures kept { KeepsFiles (H.state host.old) (H.state host.new) }
    ensures later { Later (H.state host.old) (H.state host.new) }
    ensures taken { IsTakenWithinLimitFrom (H.state host.old) (H.state host.new) (input_of (requested request.now)) }
{
    match &request.source {
        Source::File(name) => read_input(alloc, host, name.as_str()),
        Source::Made { what, ranks, bytes } => make_schedule(alloc, *what, *ranks, *bytes),
        Source::Drawn { rounds, seed } => draw(alloc, *rounds, *seed),
    }
}

// Returns the text of the machine of a command. Without one the text is empty, and the host is not asked.
fn take_machine<H: Host>(alloc: Global, host: &mut H, request: &Request) -> Result<Vec<u8>, Answer>
    ensures got { IfOk result (λ text. AreBytesOfFile (H.state host.old) (machine_of (requested request.now)) text.items) }
    ensures short { IfOk result (λ text. length text.items ≤ MAX_INPUT) }
    ensures untold { IfErr result (IsNotReadWhole (H.state host.old) (H.state host.new) (machine_of (requested request.now))) }
    ensures read_out { OnOk result (IsReadOut (H.state host.old) (H.state host.new) (machine_of (requested request.now))) }
    ensures counts { OnOk result (SameReadCounts (H.state host.old) (H.state host.new)) }
    ensures kept { KeepsFiles (H.state host.old) (H.state host.new) }
    ensures later { Later (H.state host.old) (H.state host.new) }
    ensures taken { IsTakenWithinLimitFrom (H.state host.old) (H.state host.new) (machine_of (requested request.now)) }
{
    match &request.costs {
        Costing::Params(_) | Costing::None => Ok(Vec::new(alloc)),
        Costing::Machine(name) => match read_all(alloc, host, name.as_str()) {
            Ok(text) => Ok(text),
            Err(ReadAll::Fault) => Err(Answer::ReadFault),
            Err(ReadAll::TooLong) => Err(Answer::Refused(Refusal::TooLong)),
            Err(ReadAll::NoMemory) => Err(Answer::NoMemory),
        },
    }
}

/// What a command works on.
#[derive(Drop)]
pub struct Gathered {
    /// The schedule.
    pub sched: Sched,
    /// The text of the machine, or nothing if the command has none.
    pub machine: Vec<u8>,
}

/// Returns what a command works on. Each of its files is read to its end before one is refused. `Err` is the answer if
/// there is nothing to work on.
pub fn gather<H: Host>(alloc: Global, host: &mut H, request: &Request) -> Result<Gathered, Answer>
    requires sized { IsSized (requested request.now) }
    ensures work { IfOk result (λ work. ForRead (H.state host.old) (requested request.now)
        (IsGathered (requested request.now) work.sched work.machine.items)) }
    ensures short { IfOk result (λ work. length work.machine.items ≤ MAX_INPUT) }
    ensures idle { IfErr result (HasNoWork (H.state host.old) (H.state host.new) (requested request.now)) }
    ensures read_out { OnOk result (IsReadOut (H.state host.old) (H.state host.new) (machine_of (requested request.now))) }
    ensures counts { OnOk result (SameReadCounts (H.state host.old) (H.state host.new)) }
    ensures kept { KeepsFiles (H.state host.old) (H.state host.new) }
    ensures later { Later (H.state host.old) (H.state host.new) }
    ensures taken { IsTakenWithinLimit (Some (requested request.now)) (H.state host.old) (H.state host.new) }
{
    match schedule_of(alloc, host, request) {
        Ok(sched) => match take_machine(alloc, host, request) {
            Ok(machine) => Ok(Gathered { sched, machine }),
            Err(answer) => Err(answer),
        },
        Err(Answer::Refused(refusal)) => match take_machine(alloc, host, request) {
            Ok(_text) => Err(Answer::Refused(refusal)),
            Err(answer) => Err(answer),
        },
        Err(answer) => Err(answer),
    }
}
