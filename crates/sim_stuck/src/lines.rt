//! The lines of stuck operations.
ghost use Rattle.std.specs.Prelude.{◌≡◌, ◌++◌, OnOk, IfOk};
ghost use Rattle.sim_stuck.specs.StuckText.{why_words, named_text, stuck_line, stuck_text};

use goal_base::TextOut;
use goal_graph::{Stuck, Why};
use goal_limits::NoMemory;
use std::alloc::Global;

/// Returns a line for each stuck operation, in the order of the list: `stuck R I for op R J`, `stuck R I for partner Q
/// J` or `stuck R I alone`, with rank and number of the operation and of the one that its reason names. `Err` means out
/// of memory.
pub fn stuck_text(alloc: Global, list: &[Stuck]) -> Result<Vec<u8>, NoMemory>
    ensures { IfOk result (λ text. text.items ≡ stuck_text list.now) }
{
    let mut out = TextOut::new(alloc);
    for stuck in list {
        put_line(&mut out, *stuck)?;
    }
    Ok(out.into_bytes())
}

// Appends the line of a stuck operation.
fn put_line(out: &mut TextOut, stuck: Stuck) -> Result<(), NoMemory>
    ensures { OnOk result (out.new ≡ out.old ++ stuck_line stuck) }
{
    out.word("stuck ")?;
    out.pair(stuck.op.rank, stuck.op.op)?;
    out.word(why_words(stuck.why))?;
    put_named(out, stuck.why)?;
    out.word("\n")
}

// The words of a reason.
fn why_words(why: Why) -> &'static str
    ensures { result.now ≡ why_words why }
{
    match why {
        Why::Op(_) => " for op ",
        Why::Partner(_) => " for partner ",
        Why::Alone => " alone",
    }
}

// Appends the operation that a reason names, if any.
fn put_named(out: &mut TextOut, why: Why) -> Result<(), NoMemory>
    ensures { OnOk result (out.new ≡ out.old ++ named_text why) }
{
    match why {
        Why::Op(id) => out.pair(id.rank, id.op),
        Why::Partner(id) => out.pair(id.rank, id.op),
        Why::Alone => Ok(()),
    }
}
