//! The labels of a block, and the dependencies and notes that name them.
ghost use Rattle.std.specs.Prelude.{◌≡◌, ◌≢◌, ◌<◌, ◌≤◌, List, [], length, IfErr, OnOk, map, Some, None};
ghost use Rattle.goal_limits.specs.Limits.{run_limit};
ghost use Rattle.goal_parser.specs.declared.head.Mention.{Mention};
ghost use Rattle.goal_parser.specs.Items.{Definition, NamedDep, NamedNote, define, dep_ended, note_ended, dep_uses, note_uses, when_of, note_as};
ghost use Rattle.goal_parser.specs.Slots.{Keeps, NamesHold, dep_at, note_at};
ghost use Rattle.goal_parser.specs.Taken.{IsWithin};
ghost use Rattle.goal_parser.specs.Faults.{defined_fault};
ghost use Rattle.goal_parser.specs.FaultInText.{fault_in_text};

use crate::append::append;
use crate::head::{ItemHead, Mention, Verb};
use crate::labels::Labels;
use crate::sentence::State;
use crate::token_faults::TokenFault;
use goal_graph::{Dep, Note, When};
use goal_lexer::TokenKind;
use std::alloc::{AllocError, Global};

/// The labels of a block, and its dependencies and notes with the slots of labels instead of operations.
pub struct Names {
    /// The labels.
    pub labels: Labels,
    /// The dependencies.
    pub deps: Vec<Dep>,
    /// The notes.
    pub notes: Vec<Note>,
}

// A function, instead of a field by field drop: callers are then shorter to prove.
impl Drop for Names {
    fn drop(self) {
        let Names {
            labels: _labels,
            deps: _deps,
            notes: _notes,
        } = self;
    }
}

/// Returns whether a dependency with this verb waits for the end or the start of the earlier operation.
pub fn when_of(verb: Verb) -> When
    ensures { result ≡ when_of verb }
{
    match verb {
        Verb::Requires => When::AfterEnd,
        _ => When::AfterStart,
    }
}

/// Returns the note of this verb. `op` is an operation, or the slot of its label.
pub fn note_as(verb: Verb, op: u32, first: u32, second: u32) -> Note
    ensures { result ≡ note_as verb op first second }
{
    match verb {
        Verb::Moves => Note::Moves {
            op,
            lo: first,
            hi: second,
        },
        _ => Note::Adds {
            op,
            from: first,
            to: second,
        },
    }
}

impl Names {
    /// Creates an empty table.
    pub fn new(alloc: Global) -> Names
        ensures { NamesHold result [] [] [] [] }
    {
        Names {
            labels: Labels::new(alloc),
            deps: Vec::new(alloc),
            notes: Vec::new(alloc),
        }
    }

    /// Defines a label: it precedes operation number `op`.
    ///
    /// # Errors
    ///
    /// `Repeat` if the block has already defined the label, or `NoMemory`.
    #[inline(always)]
    pub fn define(&mut self, subject: &Option<Mention>, op: u32) -> Result<(), TokenFault>
        ensures ok { OnOk result ((ds : List Definition) (us : List Mention) (deps : List NamedDep) (notes : List NamedNote) → NamesHold self.old ds us deps notes →
            (defined_fault ds subject.now ≡ None) × NamesHold self.new (define subject.now op ds) us deps notes) }
        ensures fault { IfErr result (λ f. f ≢ TokenFault.NoMemory → (ds : List Definition) (us : List Mention) → Keeps self.old.labels.slots ds us → defined_fault ds subject.now ≡ Some (fault_in_text f)) }
    {
        match subject {
            Some(subject) => self.labels.define(subject.label.as_bytes(), subject.at, op),
            None => Ok(()),
        }
    }

    /// Takes the second label of a dependency, whose first byte is at this place.
    #[inline(always)]
    pub fn end_dep(&mut self, head: &ItemHead, label: &[u8], at: u64) -> Result<(), AllocError>
        requires some { 0 < length label.now }
        requires short { length label.now ≤ run_limit }
        ensures { OnOk result ((ds : List Definition) (us : List Mention) (deps : List NamedDep) (notes : List NamedNote) → NamesHold self.old ds us deps notes →
            NamesHold self.new ds (dep_uses State.Label head.now.subject (record { label = label.now; at = at }) us) (dep_ended State.Label head.now.subject head.now.verb label.now deps) notes) }
    {
        match &head.subject {
            Some(subject) => {
                let later = self.labels.mention(subject.label.as_bytes(), subject.at)?;
                let earlier = self.labels.mention(label, at)?;
                let dep = Dep {
                    later,
                    earlier,
                    when: when_of(head.verb),
                };
                append(&mut self.deps, dep)?;
                Ok(())
            }
            None => Ok(()),
        }
    }

    /// Takes the second number of a note.
    #[inline(always)]
    #[tactic(auto, unfolding(crate::specs::Numbers::is_within))]
    pub fn end_note(&mut self, state: State, head: &ItemHead, second: u64) -> Result<(), AllocError>
        requires { IsWithin state (TokenKind.Number second) }
        ensures { OnOk result ((ds : List Definition) (us : List Mention) (deps : List NamedDep) (notes : List NamedNote) → NamesHold self.old ds us deps notes →
            NamesHold self.new ds (note_uses state head.now.subject us) deps (note_ended state head.now.subject head.now.verb head.now.low second notes)) }
    {
        match (state, &head.subject) {
            (State::Note3, Some(subject)) => {
                let second = second as u32;
                let op = self.labels.mention(subject.label.as_bytes(), subject.at)?;
                append(&mut self.notes, note_as(head.verb, op, head.low, second))?;
                Ok(())
            }
            _ => Ok(()),
        }
    }

    /// Replaces the slots by the numbers of their operations.
    pub fn resolve(&mut self)
        ensures deps { self.new.deps.items ≡ map (dep_at self.old.labels.slots) self.old.deps.items }
        ensures notes { self.new.notes.items ≡ map (note_at self.old.labels.slots) self.old.notes.items }
    {
        resolve_deps(&self.labels, &mut self.deps);
        resolve_notes(&self.labels, &mut self.notes);
    }
}

/// Returns a dependency with the slots of its two labels replaced by the numbers of their operations.
fn dep_at(labels: &Labels, dep: &Dep) -> Dep
    ensures { result ≡ dep_at labels.now.slots dep.now }
{
    Dep {
        later: labels.op(dep.later),
        earlier: labels.op(dep.earlier),
        when: dep.when,
    }
}

/// Returns a note with the slot of its label replaced by the number of its operation.
fn note_at(labels: &Labels, note: &Note) -> Note
    ensures { result ≡ note_at labels.now.slots note.now }
{
    match note {
        Note::Moves { op, lo, hi } => Note::Moves {
            op: labels.op(*op),
            lo: *lo,
            hi: *hi,
        },
        Note::Adds { op, from, to } => Note::Adds {
            op: labels.op(*op),
            from: *from,
            to: *to,
        },
    }
}

/// Replaces the slots by the numbers of their operations.
fn resolve_deps(labels: &Labels, deps: &mut [Dep])
    ensures { deps.new ≡ map (dep_at labels.now.slots) deps.old }
{
    for dep in deps.iter_mut() {
        *dep = dep_at(labels, dep);
    }
}

/// Replaces the slots by the numbers of their operations.
fn resolve_notes(labels: &Labels, notes: &mut [Note])
    ensures { notes.new ≡ map (note_at labels.now.slots) notes.old }
{
    for note in notes.iter_mut() {
        *note = note_at(labels, note);
    }
}
