//! The keys of events.
ghost use Rattle.std.specs.Prelude.{◌≡◌};

use crate::{Counted, EventOrder, Lex, Steps};
use goal_graph::{Class, OpId};
use std::marker::Model;
use std::sync::ledger::Ledger;

/// The key of an event: its time in nanoseconds, its class and its operation. Events are ordered by time, then by
/// class, then by rank, then by the number in the rank.
#[derive(Clone, Copy, Debug, PartialEq, Eq)]
pub struct EventKey {
    nest: Counted<Lex<u64, Lex<Class, Lex<u32, u32>>>>,
}

impl Model for EventKey {
    ghost use Rattle.goal_graph.specs.declared.action.Timed.{Timed};
    ghost use Rattle.sim_order.specs.Keys.{event_of, nest_of};

    ghost Value = { Timed };

    ghost view = { λ k. event_of k.nest };

    ghost inverse = { λ e. record { nest = nest_of e } };
}

impl EventKey {
    /// Returns the key of an action, at a time in nanoseconds.
    pub fn new(time: u64, class: Class, id: OpId) -> EventKey
        ensures { result ≡ record { time = time; class = class; op = id } }
    {
        EventKey {
            nest: Counted(Lex {
                first: time,
                rest: Lex {
                    first: class,
                    rest: Lex {
                        first: id.rank,
                        rest: id.op,
                    },
                },
            }),
        }
    }

    /// Returns the key of the same action at another time, in nanoseconds.
    pub fn at(&self, time: u64) -> EventKey
        ensures { result ≡ record { time = time; class = self.now.class; op = self.now.op } }
    {
        EventKey::new(time, self.class(), self.id())
    }

    /// Returns the time, in nanoseconds.
    pub fn time(&self) -> u64
        ensures { result ≡ self.now.time }
    {
        self.nest.0.first
    }

    /// Returns the class of the action.
    pub fn class(&self) -> Class
        ensures { result ≡ self.now.class }
    {
        self.nest.0.rest.first
    }

    /// Returns the operation.
    pub fn id(&self) -> OpId
        ensures { result ≡ self.now.op }
    {
        let ends = self.nest.0.rest.rest;
        OpId {
            rank: ends.first,
            op: ends.rest,
        }
    }
}

impl EventOrder for EventKey {
    ghost use Rattle.sim_order.specs.Events.{event_before};
    ghost use Rattle.sim_order.specs.EventLaws.{event_laws};

    ghost before = { event_before };

    ghost laws = { event_laws };

    fn before<L: Ledger>(&self, other: &EventKey, steps: &mut Steps<L>) -> bool {
        self.nest.before(&other.nest, steps)
    }
}
