//! The timeline, whole or page by page.
ghost use Rattle.std.specs.Prelude.{◌≡◌, ◌++◌, [], All, IfOk, OnOk, OnErr};
ghost use Rattle.std.specs.List.{flat_map};
ghost use Rattle.goal_graph.specs.Schedule.{operations};
ghost use Rattle.goal_graph.specs.Fault.{IsOp};
ghost use Rattle.sim_timeline.specs.Timeline.{line_of, timeline};

use crate::lines::{LINE, put_first_line, put_operation};
use goal_base::TextOut;
use goal_graph::{OpId, Sched};
use goal_limits::NoMemory;
use sim_events::{Engine, History, Kept};
use sim_params::Costs;
use std::alloc::Global;
use std::marker::Model;

// The number of lines that a page has at most. It is small, so that a page is still in the nearest cache when it is
// taken.
const PAGE: usize = 32;

// The room that a page reserves per line, in bytes. Most lines fit.
const ROOM: usize = 64;

// The number of bytes of lines that are written before they are appended to a text.
const LINES: usize = 1024;

/// The lines of the operations of an engine whose run is over, by rank and number, as far as they have not been taken.
/// Contracts see their text.
///
/// The line of an operation is `op R I calc start A end B`, `op R I send start A end B match Q J`, or the same with
/// `recv`. Times are in nanoseconds, and a dash means that there is none.
#[derive(Drop)]
pub struct Lines<'a, C: Costs, H: History = Kept> {
    engine: Engine<'a, C, H>,
    // the number of operations whose lines have been taken
    done: usize,
}

impl<'a, C: Costs, H: History> Model for Lines<'a, C, H> {
    ghost use Rattle.std.specs.Prelude.{ℕ, List, ◌≤◌, length};
    ghost use Rattle.goal_graph.specs.Schedule.{operations};
    ghost use Rattle.sim_timeline.specs.Pages.{lines_from};

    ghost Value = { List ℕ };

    ghost view = { λ l. lines_from l.engine.plans (C.model l.engine.costs) l.engine.history l.done };

    ghost invariant = { λ l. l.done ≤ length (operations l.engine.plans) };
}

impl<'a, C: Costs, H: History> Lines<'a, C, H> {
    /// Returns the lines of all operations.
    pub fn new(engine: Engine<'a, C, H>) -> Lines<'a, C, H>
        ensures { result ≡ flat_map (line_of engine.entry.plans (C.model engine.entry.costs) engine.entry.history)
            (operations engine.entry.plans) }
    {
        Lines { engine, done: 0 }
    }

    /// Returns the next page, of at most 32 lines. A page is empty exactly if no lines are left.
    ///
    /// # Errors
    ///
    /// Only `NoMemory`. The lines are then unchanged.
    pub fn next_page(&mut self, alloc: Global) -> Result<Vec<u8>, NoMemory>
        ensures page { IfOk result (λ page. self.old ≡ page.items ++ self.new) }
        ensures end { IfOk result (λ page. page.items ≡ [] → self.old ≡ []) }
        ensures same { OnErr result (self.new ≡ self.old) }
    {
        let left = &self.engine.sched().operations()[self.done..];
        let count = left.len().min(PAGE);
        let page = page_of(alloc, &self.engine, &left[..count])?;
        self.done += count;
        Ok(page)
    }
}

// The lines of these operations.
fn page_of<C: Costs, H: History>(
    alloc: Global,
    engine: &Engine<'_, C, H>,
    ids: &[OpId],
) -> Result<Vec<u8>, NoMemory>
    requires { All (IsOp engine.now.plans) ids.now }
    ensures { IfOk result (λ page.
        page.items ≡ flat_map (line_of engine.now.plans (C.model engine.now.costs) engine.now.history) ids.now) }
{
    let mut out = TextOut::with_room(alloc, ids.len().min(PAGE) * ROOM)?;
    put_lines(&mut out, engine, ids)?;
    Ok(out.into_bytes())
}

// Appends the lines of these operations.
fn put_lines<C: Costs, H: History>(
    out: &mut TextOut,
    engine: &Engine<'_, C, H>,
    ids: &[OpId],
) -> Result<(), NoMemory>
    requires { All (IsOp engine.now.plans) ids.now }
    ensures { OnOk result (out.new ≡ out.old
        ++ flat_map (line_of engine.now.plans (C.model engine.now.costs) engine.now.history) ids.now) }
{
    let mut lines = [0; LINES];
    let mut end = 0;
    for id in ids {
        let at = out.room_for(LINE, &lines, end)?;
        end = put_operation(&mut lines, at, engine, *id);
    }
    out.piece(&lines[..end])
}

/// Returns the timeline of an engine whose run is over, as one text: the first line, and then the lines of all
/// operations, by rank and number. `Lines` returns what follows the first line, page by page. `Err` means out of
/// memory.
pub fn timeline<C: Costs, H: History>(
    alloc: Global,
    sched: &Sched,
    engine: &Engine<'_, C, H>,
) -> Result<Vec<u8>, NoMemory>
    requires same { engine.now.plans ≡ sched.now }
    ensures { IfOk result (λ text.
        text.items ≡ timeline sched.now (C.model engine.now.costs) engine.now.history) }
{
    let mut out = TextOut::new(alloc);
    put_first_line(&mut out, sched, engine)?;
    put_lines(&mut out, engine, sched.operations())?;
    Ok(out.into_bytes())
}
