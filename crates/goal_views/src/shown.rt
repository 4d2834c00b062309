//! What is shown of a run.
ghost use Rattle.std.specs.Prelude.{◌≡◌, ◌++◌, [], None, unwrap_or};

use sim_events::Unkept;
use sim_params::Costs;
use sim_timeline::Lines;
use std::alloc::Global;

/// What is shown of a run: a head, the lines of its operations, if the view has them, and a tail.
#[derive(Drop)]
pub struct Shown<'a, C: Costs> {
    /// The text before the lines of the operations.
    pub head: Vec<u8>,
    /// The lines of the operations; `None` if the view does not have them.
    pub lines: Option<Lines<'a, C, Unkept>>,
    /// The text after the lines of the operations.
    pub tail: Vec<u8>,
    /// Whether an operation has no end.
    pub stuck: bool,
}

impl<'a, C: Costs> Shown<'a, C> {
    /// A text that is all in the head.
    pub fn whole(alloc: Global, text: Vec<u8>, stuck: bool) -> Shown<'a, C>
        ensures text { result.head.items ++ (unwrap_or result.lines [] ++ result.tail.items) ≡ text.items }
        ensures stuck { result.stuck ≡ stuck }
    {
        Shown {
            head: text,
            lines: None,
            tail: Vec::new(alloc),
            stuck,
        }
    }
}
