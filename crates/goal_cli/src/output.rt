// Makes the output of a command from what the command works on.
ghost use Rattle.std.specs.Prelude.{ℕ, ◌≡◌, ◌≢◌, ◌<◌, ◌≤◌, List, length, Option, IfOk, IfErr};
ghost use Rattle.goal_limits.specs.declared.limits.TheConstants.{MAX_INPUT};
ghost use Rattle.sim_params.specs.Costs.{CostModel};
ghost use Rattle.sim_params.specs.Numbers.{numbers};
ghost use Rattle.sim_classes.specs.MachineModels.{machine_model};
ghost use Rattle.goal_binary.specs.File.{file};
ghost use Rattle.goal_words.specs.Words.{ByNumbers, ByMachine};
ghost use Rattle.goal_words.specs.Requests.{pricing, requested, IsPriced, ShowsRun};
ghost use Rattle.goal_input.specs.Input.{IsReadAs};
ghost use Rattle.goal_cli.specs.Answer.{goes_to};
ghost use Rattle.goal_cli.specs.Pages.{text_of, Suits};
ghost use Rattle.goal_cli.specs.Output.{Input, ending_if, IsMachineFor, IsText, IsShownAs, IsOutput, EndsAs, MayEnd};
ghost use Rattle.goal_cli.specs.WithoutWork.{IsGathered};
ghost use Rattle.goal_cli.specs.Stop.{IsStop, IsRunAtCosts, IsRunRefused};

use crate::answer::{Ending, Refusal};
use crate::pages::{Output, Pages, Whole};
use crate::verdict::verdict;
use goal_binary::{encode, laws_of_files};
use goal_graph::Sched;
use goal_limits::NoMemory;
use goal_print::{Blocks, heading};
use goal_views::show_run;
use goal_words::{Costing, Request, RunView, View};
use sim_classes::{Machine, MachineFault, read_machine};
use sim_events::EngineFault;
use sim_order::Steps;
use sim_params::{LogGops, Params};
use std::alloc::Global;
use std::marker::Brand;
use std::sync::ledger::{Blank, Ledger};

/// Why a command has no output.
pub enum Stop {
    /// It refuses its input or its words.
    Refused(Refusal),
    /// Out of memory.
    NoMemory,
}

impl From<EngineFault> for Stop {
    ghost use Rattle.goal_cli.specs.Stop.{stop_of};

    ghost from_gives = { λ fault stop. stop ≡ stop_of fault };

    fn from(fault: EngineFault) -> Stop {
        match fault {
            EngineFault::Budget { sum } => Stop::Refused(Refusal::Budget { sum }),
            EngineFault::NoMemory => Stop::NoMemory,
        }
    }
}

impl From<NoMemory> for Stop {
    ghost use Rattle.goal_cli.specs.declared.output.Stop.TheVariants.{NoMemory};

    ghost from_gives = { λ _ stop. stop ≡ NoMemory };

    fn from(_error: NoMemory) -> Stop {
        Stop::NoMemory
    }
}

// Returns how a command ends by its run.
fn ending_if(stuck: bool) -> Ending
    ensures { result ≡ ending_if stuck }
{
    if stuck { Ending::Stuck } else { Ending::Done }
}

// Reads the machine in a text, for a schedule.
fn machine_for(alloc: Global, sched: &Sched, text: &[u8]) -> Result<Machine, Stop>
    requires short { length text.now ≤ MAX_INPUT }
    ensures machine { IfOk result (λ machine. IsMachineFor text.now sched.now (machine_model machine)) }
    ensures stop { IfErr result (λ stop. (name : List ℕ) → IsRunRefused (ByMachine name) text.now sched.now stop) }
{
    let machine = match read_machine(alloc, text) {
        Ok(machine) => machine,
        Err(MachineFault::NoMemory) => return Err(Stop::NoMemory),
        Err(fault) => return Err(Stop::Refused(Refusal::Machine(fault))),
    };
    let ranks = machine.ranks();
    if ranks as usize != sched.plans().len() {
        return Err(Stop::Refused(Refusal::MachineRanks { ranks }));
    }
    Ok(machine)
}

// A view of the run of a schedule with parameters.
fn run_with<'a, L: Ledger, M: Ledger, N: Ledger>(
    alloc: Global,
    sched: &'a Sched,
    params: Params,
    how: RunView,
    steps: &mut Steps<L>,
    looks: &mut Steps<M>,
    reads: &mut Steps<N>,
) -> Result<Output<'a>, Stop>
    ensures paid { IfOk result (λ output. (text : List ℕ)
        → IsRunAtCosts (ByNumbers (numbers params)) how text sched.now (text_of output) output.ending) }
    ensures stop { IfErr result (λ stop. (text : List ℕ) → IsRunRefused (ByNumbers (numbers params)) text sched.now stop) }
{
    let run = show_run(alloc, sched, LogGops { params }, how, steps, looks, reads)?;
    let pages = Pages::of_run(run.lines);
    Ok(Output::new(run.head, pages, run.tail, ending_if(run.stuck)))
}

// A view of the run of a schedule on the machine of a text.
fn run_on<'a, L: Ledger, M: Ledger, N: Ledger>(
    alloc: Global,
    sched: &'a Sched,
    text: &[u8],
    how: RunView,
    steps: &mut Steps<L>,
    looks: &mut Steps<M>,
    reads: &mut Steps<N>,
) -> Result<Output<'a>, Stop>
    requires short { length text.now ≤ MAX_INPUT }
    ensures paid { IfOk result (λ output. (name : List ℕ)
        → IsRunAtCosts (ByMachine name) how text.now sched.now (text_of output) output.ending) }
    ensures stop { IfErr result (λ stop. (name : List ℕ) → IsRunRefused (ByMachine name) text.now sched.now stop) }
{
    let machine = machine_for(alloc, sched, text)?;
    let run = show_run(alloc, sched, machine, how, steps, looks, reads)?;
    let pages = Pages::of_run_on(run.lines);
    Ok(Output::new(run.head, pages, run.tail, ending_if(run.stuck)))
}

// Returns a view of the run of a schedule with its costs. It creates the run's counters from the three blanks.
fn run_counted<'a, L: Ledger, M: Ledger, N: Ledger>(
    alloc: Global,
    for_steps: Blank,
    for_looks: Blank,
    for_reads: Blank,
    sched: &'a Sched,
    costs: &Costing,
    text: &[u8],
    how: RunView,
) -> Result<Output<'a>, Stop>
    requires steps_name { for_steps.name ≡ L.name }
    requires steps_parts { for_steps.parts ≡ L.parts }
    requires steps_some { 0 < for_steps.parts }
    requires looks_name { for_looks.name ≡ M.name }
    requires looks_parts { for_looks.parts ≡ M.parts }
    requires looks_some { 0 < for_looks.parts }
    requires reads_name { for_reads.name ≡ N.name }
    requires reads_parts { for_reads.parts ≡ N.parts }
    requires reads_some { 0 < for_reads.parts }
    requires short { length text.now ≤ MAX_INPUT }
    requires costed { costs.now ≢ Costing.None }
    ensures paid { IfOk result (λ output.
        IsRunAtCosts (pricing costs.now) how text.now sched.now (text_of output) output.ending) }
    ensures stop { IfErr result (λ stop. IsRunRefused (pricing costs.now) text.now sched.now stop) }
{
    let mut steps = Steps::<L>::new(for_steps);
    let mut looks = Steps::<M>::new(for_looks);
    let mut reads = Steps::<N>::new(for_reads);
    let (steps, looks, reads) = (&mut steps, &mut looks, &mut reads);
    match costs {
        Costing::Params(params) => run_with(alloc, sched, *params, how, steps, looks, reads),
        Costing::Machine(_) => run_on(alloc, sched, text, how, steps, looks, reads),
        Costing::None => unreachable!(),
    }
}

// Returns a view of the run of a schedule with its costs.
fn run_costed<'a>(
    alloc: Global,
    sched: &'a Sched,
    costs: &Costing,
    text: &[u8],
    how: RunView,
) -> Result<Output<'a>, Stop>
    requires short { length text.now ≤ MAX_INPUT }
    requires costed { costs.now ≢ Costing.None }
    ensures paid { IfOk result (λ output.
        IsRunAtCosts (pricing costs.now) how text.now sched.now (text_of output) output.ending) }
    ensures stop { IfErr result (λ stop. IsRunRefused (pricing costs.now) text.now sched.now stop) }
{
    run_counted::<Brand, Brand, Brand>(
        alloc,
        Blank::new(1),
        Blank::new(1),
        Blank::new(1),
        sched,
        costs,
        text,
        how,
    )
}

// Returns the compiled file of a schedule.
fn compile(alloc: Global, sched: &Sched) -> Result<Vec<u8>, NoMemory>
    ensures file { IfOk result (λ bytes. bytes.items ≡ file sched.now) }
    ensures again { IfOk result (λ bytes. IsReadAs bytes.items sched.now) }
{
    let _plans = sched.plans();
    laws_of_files();
    encode(alloc, sched)
}

// Returns the canonical text of a schedule, as an output.
fn show<'a>(alloc: Global, sched: &'a Sched) -> Result<Output<'a>, NoMemory>
    ensures text { IfOk result (λ output. IsText sched.now (text_of output)) }
    ensures ending { IfOk result (λ output. output.ending ≡ Ending.Done) }
{
    let head = heading(alloc, sched)?;
    let blocks = Pages::Blocks(Blocks::new(sched));
    Ok(Output::new(head, blocks, Vec::new(alloc), Ending::Done))
}

// Returns a view of a schedule that is not run.
fn show_unrun<'a>(alloc: Global, sched: &'a Sched, view: &View) -> Result<Output<'a>, NoMemory>
    requires not_run { ShowsRun view.now → ⊥ }
    ensures shown { IfOk result (λ output. (costs : Option CostModel)
        → IsShownAs view.now costs sched.now (text_of output) output.ending) }
    ensures ends { IfOk result (λ output. EndsAs view.now output.ending) }
    ensures suits { IfOk result (λ output. Suits (goes_to view.now) output) }
{
    match view {
        View::Text => show(alloc, sched),
        View::File(_) => {
            let bytes = compile(alloc, sched)?;
            let ending = Ending::Done;
            Ok(Whole { bytes, ending }.into_output(alloc))
        }
        View::Verdict(what) => Ok(verdict(alloc, sched, *what)?.into_output(alloc)),
        View::Run(_) => unreachable!(),
    }
}

/// Returns the output of a command, from the schedule that it works on and the text of its machine.
pub fn output_of<'a>(
    alloc: Global,
    request: &Request,
    sched: &'a Sched,
    machine: &[u8],
) -> Result<Output<'a>, Stop>
    requires short { length machine.now ≤ MAX_INPUT }
    requires priced { IsPriced (requested request.now) }
    ensures output { IfOk result (λ output. (input : Input) → IsGathered (requested request.now) sched.now machine.now input
        → IsOutput (requested request.now) input (text_of output) output.ending) }
    ensures ends { IfOk result (λ output. MayEnd (requested request.now) output.ending) }
    ensures suits { IfOk result (λ output. Suits (goes_to request.now.view) output) }
    ensures stop { IfErr result (λ stop. (input : Input) → IsGathered (requested request.now) sched.now machine.now input
        → IsStop (requested request.now) input stop) }
{
    match &request.view {
        View::Run(how) => run_costed(alloc, sched, &request.costs, machine, *how),
        View::Text | View::File(_) | View::Verdict(_) => {
            Ok(show_unrun(alloc, sched, &request.view)?)
        }
    }
}
