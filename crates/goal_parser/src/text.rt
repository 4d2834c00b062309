//! From a text to its schedule.
ghost use Rattle.std.specs.Prelude.{◌≡◌, ◌≢◌, ◌⊎◌, IfOk, IfErr, IsErrOf};
ghost use Rattle.goal_graph.specs.Fault.{IsAccepted};
ghost use Rattle.goal_graph.specs.Widths.{AreInWidth};
ghost use Rattle.goal_parser.specs.Reads.{reads, plans, IsFaultOf};
ghost use Rattle.goal_parser.specs.FaultInText.{IsLimitFault};

use crate::faults::TextFault;
use crate::pieces::TextReader;
use goal_graph::Sched;
use std::alloc::Global;

/// Returns the schedule of a text that is one piece, or its first fault.
fn schedule_of(alloc: Global, text: &[u8]) -> Result<Sched, TextFault>
    ensures ok { IfOk result (λ sched. reads text.now ≡ plans sched) }
    ensures accepted { IfOk result (λ sched. IsAccepted sched) }
    ensures widths { IfOk result (λ sched. AreInWidth sched) }
    ensures fault { IfErr result (λ fault. fault ≢ TextFault.NoMemory → IsFaultOf (reads text.now) fault) }
{
    let mut reader = TextReader::new(alloc);
    match reader.feed(text) {
        Ok(()) => reader.finish(),
        Err(fault) => Err(fault),
    }
}

/// Returns the schedule of a text.
///
/// # Errors
///
/// - The fault of the first token that fails a test. A byte where no token can be taken, or the end of the text, counts
///   as a last token.
/// - If there is none, the first fault of the plans, which is neither `Count` nor `Value`.
/// - `NoMemory`.
pub fn read_text(alloc: Global, text: &[u8]) -> Result<Sched, TextFault>
    // The plans are those of the text, and they are a schedule.
    ensures ok { IfOk result (λ sched. reads text.now ≡ plans sched) }
    ensures accepted { IfOk result (λ sched. IsAccepted sched) }

    // Its numbers fit the widths of a compiled file.
    ensures widths { IfOk result (λ sched. AreInWidth sched) }

    // The fault is that of the text, or else that of its plans; and every such fault is returned, unless memory runs
    // out.
    ensures fault { IfErr result (λ fault. fault ≢ TextFault.NoMemory → IsFaultOf (reads text.now) fault) }
    ensures faults { (fault : TextFault) → IsFaultOf (reads text.now) fault
        → IsErrOf result fault ⊎ IsErrOf result TextFault.NoMemory }

    // The fault is never that of a count or a value over its limit.
    ensures limits { IfErr result (λ fault. IsLimitFault fault → ⊥) }
{
    schedule_of(alloc, text)
}
