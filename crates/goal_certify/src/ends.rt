//! The ends of channels, sorted: which operations send into a channel, and which receive from it.
ghost use Rattle.std.specs.Prelude.{◌≡◌, ◌+◌, ◌*◌, ◌<◌, ◌≤◌, false, length, slice_index_or, Contains, IfOk, IfSome, IfNone, IsTrue, Some};
ghost use Rattle.goal_graph.specs.declared.action.OpId.{OpId};
ghost use Rattle.goal_certify.specs.declared.ends.OpAtEnd.{OpAtEnd};
ghost use Rattle.goal_certify.specs.Ends.{end_in, other_end, AreEndsOf, IsFirstAt, DoRise, DoAlternate, ArePaired};

use goal_graph::{Kind, OpId, Sched};
use std::alloc::{AllocError, Global};
use std::marker::Model;

/// One end of a channel: that of its sends, or that of its receives.
#[derive(Clone, Copy, PartialEq, Eq, PartialOrd, Ord)]
pub struct End {
    /// The rank that sends.
    pub source: u32,
    /// The rank that receives.
    pub target: u32,
    /// The tag.
    pub tag: u32,
    /// Whether it is the end of the sends.
    pub is_send: bool,
}

impl End {
    /// Returns the end of an operation of this kind. A calc and a receive with a wildcard have none.
    pub fn of(id: OpId, kind: Kind) -> Option<End>
        ensures { result ≡ end_in id (Some kind) }
    {
        match kind {
            Kind::Send { to, tag, .. } => Some(End {
                source: id.rank,
                target: to,
                tag,
                is_send: true,
            }),
            Kind::Recv {
                from: Some(from),
                tag: Some(tag),
                ..
            } => Some(End {
                source: from,
                target: id.rank,
                tag,
                is_send: false,
            }),
            Kind::Recv { .. } | Kind::Calc { .. } => None,
        }
    }

    /// Returns the other end of the channel.
    pub fn other(self) -> End
        ensures { result ≡ other_end self }
    {
        End {
            source: self.source,
            target: self.target,
            tag: self.tag,
            is_send: !self.is_send,
        }
    }
}

// Whether the first end is that of the receives of a channel, and the second that of its sends.
fn are_two_ends(receive: End, send: End) -> bool
    ensures { IsTrue result → (send ≡ other_end receive) × (receive.is_send ≡ false) }
{
    !receive.is_send && send == receive.other()
}

/// An operation and its end.
#[derive(Clone, Copy, PartialEq, Eq, PartialOrd, Ord)]
pub struct OpAtEnd {
    /// The end.
    pub end: End,
    /// The operation.
    pub op: OpId,
}

/// The operations at ends, sorted by end and then by rank and number. Contracts see a list of them.
#[derive(Drop)]
pub struct Ends {
    sorted: Vec<OpAtEnd>,
}

impl Model for Ends {
    ghost use Rattle.std.specs.Prelude.{List};
    ghost use Rattle.goal_certify.specs.declared.ends.OpAtEnd.{OpAtEnd};

    ghost Value = { List OpAtEnd };

    ghost view = { λ e. e.sorted.items };

    ghost use Rattle.std.specs.List.Sorted.{IsSorted};
    ghost use Rattle.goal_certify.specs.Ends.{entry_cmp};

    ghost invariant = { λ e. IsSorted entry_cmp e.sorted.items };
}

impl Ends {
    /// Returns the operations of a schedule that have an end. `Err` means out of memory.
    pub fn of(alloc: Global, sched: &Sched) -> Result<Ends, AllocError>
        ensures { IfOk result (λ ends. AreEndsOf sched.now ends) }
    {
        let mut sorted = Vec::with_capacity(alloc, sched.count() as usize)?;
        for id in sched.operations() {
            match End::of(*id, sched.op(*id).kind) {
                Some(end) => sorted.push(OpAtEnd { end, op: *id })?,
                None => {}
            }
        }
        sorted.sort_unstable();
        Ok(Ends { sorted })
    }

    /// Returns the least operation at this end, in as many steps as the number of operations has binary digits.
    pub fn first(&self, end: End) -> Option<OpId>
        ensures found { IfSome result (IsFirstAt self.now end) }
        ensures none { IfNone result ((x : OpId) → Contains self.now (record { end = end; op = x }) → ⊥) }
    {
        let start = self.sorted.partition_point(|entry| entry.end < end);
        match self.sorted.get(start) {
            Some(entry) if entry.end == end => Some(entry.op),
            _ => None,
        }
    }

    // Whether no two operations have the same end.
    fn do_rise(&self) -> bool
        ensures { IsTrue result → DoRise self.now }
    {
        let entries = self.sorted.as_slice();
        for place in 1..entries.len() {
            let rises = entries[place - 1].end.cmp(&entries[place].end).is_lt();
            if !rises {
                return false;
            }
        }
        true
    }

    // Whether in each of the first `pairs` pairs there are a receive and the send of its channel.
    fn do_alternate(&self, pairs: usize) -> bool
        requires { 2 * pairs ≤ length self.now }
        ensures { IsTrue result → DoAlternate self.now pairs }
    {
        for pair in 0..pairs {
            let receive = self.sorted[2 * pair].end;
            let send = self.sorted[2 * pair + 1].end;
            if !are_two_ends(receive, send) {
                return false;
            }
        }
        true
    }

    /// Returns the number of pairs if the operations are in pairs: each end has one operation, and the receive of a
    /// channel is right before its send.
    pub fn pairs(&self) -> Option<usize>
        ensures { IfSome result (ArePaired self.now) }
    {
        let pairs = self.sorted.len() / 2;
        if self.sorted.len() % 2 == 0 && self.do_rise() && self.do_alternate(pairs) {
            return Some(pairs);
        }
        None
    }

    /// Returns the two operations of the pair of this number, the receive first.
    pub fn pair(&self, number: usize) -> (OpId, OpId)
        requires { 2 * number + 1 < length self.now }
        ensures receive { (d : OpAtEnd) → result.0 ≡ (slice_index_or self.now (2 * number) d).op }
        ensures send { (d : OpAtEnd) → result.1 ≡ (slice_index_or self.now (2 * number + 1) d).op }
    {
        (self.sorted[2 * number].op, self.sorted[2 * number + 1].op)
    }
}
