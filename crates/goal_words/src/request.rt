//! The parts of a command: a schedule from a source, priced by costs, is shown in a view.
ghost use Rattle.std.specs.Prelude.{◌≡◌};
ghost use Rattle.sim_params.specs.Numbers.{numbers};
ghost use Rattle.goal_words.specs.Words.{ByNumbers, Unpriced, asks};
ghost use Rattle.goal_words.specs.Requests.{command, requested, IsPriced};

use crate::line::{FileName, Line};
use goal_limits::Collective;
use sim_params::Params;

/// Where a schedule comes from.
#[derive(Debug, Drop)]
pub enum Source {
    /// It is read from the file of this name.
    File(FileName),
    /// It is generated for the collective `what`, for `ranks` ranks (1 to 65,536), with messages of `bytes` bytes (at
    /// most 2^40-1).
    Made {
        what: Collective,
        ranks: u32,
        bytes: u64,
    },
    /// It is the probe of `rounds` rounds (1 to 300,000), drawn from the seed.
    Drawn {
        rounds: u32,
        seed: u64,
    },
}

/// The costs of the actions of a schedule.
#[derive(Debug, Drop)]
pub enum Costing {
    /// They follow from these parameters.
    Params(Params),
    /// They follow from the machine described in the file of this name.
    Machine(FileName),
    /// There are none: nothing is run.
    None,
}

/// How a run is shown.
#[derive(Clone, Copy, Debug, PartialEq, Eq)]
pub enum RunView {
    /// The timeline, and a line for each stuck operation with its reason.
    Printed,
    /// The report on waits.
    Waits,
    /// The first line of the timeline, and the knots of the stuck operations.
    Knots,
    /// The first line of the timeline, and the sum of all end times.
    Sum,
}

/// How a schedule is shown.
#[derive(Debug, Drop)]
pub enum View {
    /// Its run.
    Run(RunView),
    /// Its canonical text.
    Text,
    /// Its compiled file, written to the file of this name.
    File(FileName),
    /// The verdict on it, for this collective.
    Verdict(Collective),
}

/// What a command asks for: a schedule from a source, priced by costs, is shown in a view. A schedule without costs is
/// not run.
#[derive(Debug, Drop)]
pub struct Request {
    /// Where the schedule comes from.
    pub source: Source,
    /// What its actions cost.
    pub costs: Costing,
    /// How it is shown.
    pub view: View,
}

impl Request {
    /// Returns the request of a command line.
    pub fn of(line: Line) -> Request
        ensures request { requested result ≡ command line }
        ensures priced { IsPriced (requested result) }
    {
        match line {
            Line::Sim { name, params } => Request::of_run(name, params, RunView::Printed),
            Line::Waits { name, params } => Request::of_run(name, params, RunView::Waits),
            Line::Knots { name, params } => Request::of_run(name, params, RunView::Knots),
            Line::Nodes { name, machine } => Request {
                source: Source::File(name),
                costs: Costing::Machine(machine),
                view: View::Run(RunView::Printed),
            },
            Line::Compile { name, out } => Request::unpriced(Source::File(name), View::File(out)),
            Line::Show { name } => Request::unpriced(Source::File(name), View::Text),
            Line::Gen { what, ranks, bytes } => {
                Request::unpriced(Source::Made { what, ranks, bytes }, View::Text)
            }
            Line::Certify { what, name } => {
                Request::unpriced(Source::File(name), View::Verdict(what))
            }
            Line::Probe {
                rounds,
                seed,
                params,
            } => Request {
                source: Source::Drawn { rounds, seed },
                costs: Costing::Params(params),
                view: View::Run(RunView::Sum),
            },
        }
    }

    // Runs the schedule of a file with parameters.
    fn of_run(name: FileName, params: Params, view: RunView) -> Request
        ensures { requested result ≡ asks (Source.File name) (ByNumbers (numbers params)) (View.Run view) }
    {
        Request {
            source: Source::File(name),
            costs: Costing::Params(params),
            view: View::Run(view),
        }
    }

    // Shows a schedule without running it.
    fn unpriced(source: Source, view: View) -> Request
        ensures { requested result ≡ asks source Unpriced view }
    {
        Request {
            source,
            costs: Costing::None,
            view,
        }
    }
}
