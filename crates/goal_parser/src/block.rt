//! The block that is being read.
ghost use Rattle.std.specs.Prelude.{◌≡◌, List, [], IfOk, OnOk, map};
ghost use Rattle.goal_parser.specs.declared.head.Mention.{Mention};
ghost use Rattle.goal_parser.specs.Actions.{op_of};
ghost use Rattle.goal_parser.specs.Items.{Definition, NamedDep, NamedNote, ended_ops, dep_by, note_by};
ghost use Rattle.goal_parser.specs.Slots.{NamesHold};

use crate::append::append;
use crate::draft::Draft;
use crate::names::Names;
use crate::sentence::State;
use goal_graph::{Op, RankPlan};
use goal_lexer::TokenKind;
use std::alloc::{AllocError, Global};
use std::mem;

/// The most items for which a list of the next block gets room at once. In most schedules the ranks have similar sizes.
/// The bound keeps the room small where many small ranks follow a large one.
const MOST_ROOM: usize = 256;

/// What was read of a block. Between blocks it is empty.
#[derive(Drop)]
pub struct Block {
    /// The operations whose actions have ended.
    pub ops: Vec<Op>,
    /// The labels, the dependencies and the notes.
    pub names: Names,
}

/// Appends the operation of the action that is open in this state, if one is. `Err` means out of memory.
#[inline(always)]
#[tactic(auto, unfolding(crate::specs::Items::ends_action))]
pub fn end_action(ops: &mut Vec<Op>, state: State, draft: &Draft) -> Result<(), AllocError>
    ensures { OnOk result (ops.new.items ≡ ended_ops state TokenKind.Close (op_of draft.now) ops.old.items) }
{
    match state {
        State::Calc2 | State::Send4 | State::Recv4 => append(ops, draft.op())?,
        _ => {}
    }
    Ok(())
}

/// Takes a whole list, shrunk to its size, and leaves an empty one with room for as many items, at most `MOST_ROOM`.
fn take_all<T>(alloc: Global, list: &mut Vec<T>) -> Result<Vec<T>, AllocError>
    ensures all { IfOk result (λ all. all.items ≡ list.old.items) }
    ensures empty { OnOk result (list.new.items ≡ []) }
{
    let empty = Vec::with_capacity(alloc, list.len().min(MOST_ROOM))?;
    let mut all = mem::replace(list, empty);
    all.shrink_to_fit();
    Ok(all)
}

impl Block {
    /// Creates an empty block.
    pub fn new(alloc: Global) -> Block
        ensures ops { result.ops.items ≡ [] }
        ensures names { NamesHold result.names [] [] [] [] }
    {
        Block {
            ops: Vec::new(alloc),
            names: Names::new(alloc),
        }
    }

    /// Ends the block in this state, and returns its plan. It leaves an empty block, which keeps the memory of the
    /// labels and has room for lists of similar sizes. `Err` means out of memory.
    pub fn close(
        &mut self,
        alloc: Global,
        state: State,
        draft: &Draft,
    ) -> Result<RankPlan, AllocError>
        ensures ops { OnOk result (self.new.ops.items ≡ []) }
        ensures names { OnOk result (NamesHold self.new.names [] [] [] []) }
        ensures plan { IfOk result (λ plan. (ds : List Definition) (us : List Mention) (deps : List NamedDep) (notes : List NamedNote) → NamesHold self.old.names ds us deps notes →
            plan ≡ record { ops = ended_ops state TokenKind.Close (op_of draft.now) self.old.ops.items; deps = map (dep_by ds) deps; notes = map (note_by ds) notes }) }
    {
        end_action(&mut self.ops, state, draft)?;
        self.names.resolve();
        self.names.labels.clear();
        let ops = take_all(alloc, &mut self.ops)?;
        let deps = take_all(alloc, &mut self.names.deps)?;
        let notes = take_all(alloc, &mut self.names.notes)?;
        Ok(RankPlan { ops, deps, notes })
    }
}
