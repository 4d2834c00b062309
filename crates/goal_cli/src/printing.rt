//! Writing an output to a sink.
ghost use Rattle.std.specs.Prelude.{◌≡◌, OnOk, OnErr, IsErrOf};
ghost use Rattle.goal_base.specs.Device.{Rose, SinkLater, Grows};
ghost use Rattle.goal_cli.specs.Answer.{GrowsByPart};
ghost use Rattle.goal_cli.specs.Pages.{text_of};

use crate::pages::{Output, PAGE};
use goal_base::{IoFault, Sink, write_all};
use goal_limits::NoMemory;
use std::alloc::Global;

/// Releases the memory of an output. A separate function keeps this out of the proofs of its callers.
pub fn release(output: Output<'_>) {
    let _output = output;
}

// Writes bytes to a sink.
fn print<W: Sink>(out: &mut W, bytes: &[u8]) -> Result<(), IoFault>
    ensures whole { OnOk result (Grows (W.state out.old) (W.state out.new) bytes.now) }
    ensures same { OnOk result ((W.state out.new).count ≡ (W.state out.old).count) }
    ensures part { OnErr result (GrowsByPart (W.state out.old) (W.state out.new) bytes.now) }
    ensures rose { IsErrOf result IoFault.Failed
        → Rose (W.state out.old).stops (W.state out.old).count (W.state out.new).count }
    ensures later { SinkLater (W.state out.old) (W.state out.new) }
{
    match write_all(out, bytes) {
        Ok(()) => Ok(()),
        Err(stop) => Err(stop.why),
    }
}

/// Writes an output to a sink, in full pages and a last one. The output is used up.
pub fn print_output<W: Sink>(
    alloc: Global,
    out: &mut W,
    output: &mut Output<'_>,
) -> Result<(), IoFault>
    ensures whole { OnOk result (Grows (W.state out.old) (W.state out.new) (text_of output.old)) }
    ensures same { OnOk result ((W.state out.new).count ≡ (W.state out.old).count) }
    ensures part { OnErr result (GrowsByPart (W.state out.old) (W.state out.new) (text_of output.old)) }
    ensures rose { IsErrOf result IoFault.Failed
        → Rose (W.state out.old).stops (W.state out.old).count (W.state out.new).count }
    ensures later { SinkLater (W.state out.old) (W.state out.new) }
{
    let mut page = Vec::new(alloc);
    'pages: loop {
        match output.fill(alloc, &mut page) {
            Ok(()) => {}
            Err(NoMemory) => return Err(IoFault::NoMemory),
        }
        match print(out, &page) {
            Ok(()) => {}
            Err(fault) => return Err(fault),
        }
        if page.len() < PAGE {
            return Ok(());
        }
    }
}
