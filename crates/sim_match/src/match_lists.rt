//! Match lists, one after another in one vector of entries.
ghost use Rattle.std.specs.Prelude.{ℕ, ◌≡◌, ◌<◌, ◌≤◌, ◌+◌, Some, length, map, slice_get, slice_set, IfOk};
ghost use Rattle.goal_graph.specs.Schedule.{operations};
ghost use Rattle.sim_match.specs.MatchLists.{MatchList, is_marked, IsReady, IsFirst, pushed, skipped_to};
ghost use Rattle.sim_match.specs.Capacities.{empty_list};

use crate::capacities::{Capacity, Side};
use crate::credit::Credit;
use crate::match_list::{MatchEntry, first_that_waits};
use goal_graph::{OpId, Sched};
use goal_limits::NoMemory;
use std::alloc::Global;
use std::marker::Model;

/// The entries of a match list. It has room up to where the next one begins.
#[derive(Clone, Copy, Debug)]
pub struct Span {
    /// The place of its first entry.
    pub start: u32,
    /// The number of its entries.
    pub len: u32,
    /// The number of entries that are skipped.
    pub head: u32,
}

/// Match lists by number. Contracts see the list of them.
#[derive(Drop)]
pub struct MatchLists {
    spans: Vec<Span>,
    entries: Vec<MatchEntry>,
}

impl Model for MatchLists {
    ghost use Rattle.std.specs.Prelude.{List, map, length};
    ghost use Rattle.sim_match.specs.MatchLists.{MatchList};

    ghost Value = { List MatchList };

    ghost use Rattle.sim_match.specs.Packed.{list_at, stretches, ArePacked};

    ghost view = { λ m. map (list_at m.entries.items) (stretches m.spans.items (length m.entries.items)) };

    ghost invariant = { λ m. ArePacked (stretches m.spans.items (length m.entries.items)) m.entries.items };
}

impl MatchLists {
    /// Creates empty lists with room for this side of the capacities. It allocates all its memory here. `Err` means out
    /// of memory.
    pub fn new(alloc: Global, capacities: &[Capacity], side: Side) -> Result<MatchLists, NoMemory>
        ensures { IfOk result (λ lists. lists ≡ map (empty_list side) capacities.now) }
    {
        let mut spans = Vec::with_capacity(alloc, capacities.len())?;
        let mut end: u32 = 0;
        for capacity in capacities {
            let room = side.room(capacity);
            if room > u32::MAX - end {
                return Err(NoMemory);
            }
            let start = end;
            end += room;
            spans.push_reserved(Span {
                start,
                len: 0,
                head: 0,
            });
        }
        let none = MatchEntry {
            op: OpId { rank: 0, op: 0 },
            at: 0,
        };
        let entries = vec![in alloc; none; end as usize]?;
        Ok(MatchLists { spans, entries })
    }

    /// Appends an entry to a list.
    pub fn push(&mut self, list: usize, entry: MatchEntry)
        requires within { list < length self.old }
        requires room { (w : MatchList) → slice_get self.old list ≡ Some w → length w.entries < w.room }
        ensures { (w : MatchList) → slice_get self.old list ≡ Some w → self.new ≡ slice_set self.old list (pushed w entry) }
    {
        let span = self.spans[list];
        self.entries[(span.start + span.len) as usize] = entry;
        self.spans[list] = Span {
            start: span.start,
            len: span.len + 1,
            head: span.head,
        };
    }

    /// Returns the first waiting entry of a list, or `None` if no entry waits. Over all calls, each entry is skipped at
    /// most once. Each skipped entry costs a probe, and so does the one that is returned.
    pub fn first(
        &mut self,
        list: usize,
        sched: &Sched,
        marks: &[bool],
        credit: &mut Credit,
    ) -> Option<MatchEntry>
        requires within { list < length self.old }
        requires ready { (w : MatchList) → slice_get self.old list ≡ Some w → IsReady sched.now marks.now w }
        requires counted { (w : MatchList) → slice_get self.old list ≡ Some w → length w.entries ≤ w.head + credit.old }
        ensures first { (w : MatchList) → slice_get self.old list ≡ Some w
            → (n : ℕ) × (self.new ≡ slice_set self.old list (skipped_to w n))
            × IsFirst (is_marked (operations sched.now) marks.now) w (skipped_to w n) result
            × (credit.old + w.head ≤ credit.new + n + 1) }
        ensures less { credit.new ≤ credit.old }
    {
        let span = self.spans[list];
        let start = span.start as usize;
        let entries = &self.entries[start..start + span.len as usize];
        let (head, first) = first_that_waits(entries, span.head as usize, sched, marks, credit);
        self.spans[list] = Span {
            start: span.start,
            len: span.len,
            head: head as u32,
        };
        first
    }
}
