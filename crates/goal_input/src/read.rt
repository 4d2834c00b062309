//! Reading a schedule from a file.
ghost use Rattle.std.specs.Prelude.{◌≡◌, ◌⊎◌, ℕ, ◌+◌, ◌≤◌, true, List, length, IfOk, IfErr};
ghost use Rattle.goal_limits.specs.declared.limits.TheConstants.{MAX_INPUT};
ghost use Rattle.goal_base.specs.Device.{Rose, SameRest, ReadsAtMost, ReadFaulted};
ghost use Rattle.goal_base.specs.DeviceCalls.{Takes};
ghost use Rattle.goal_input.specs.Input.{IsReadAs, ForFile};
ghost use Rattle.goal_input.specs.Intake.{IsRestFault};
ghost use Rattle.goal_input.specs.InputFaults.{IsInputFault, ReadsSchedule};

use crate::input_fault::InputFault;
use crate::intake::Intake;
use goal_base::{Host, IoFault, OpenFault};
use goal_graph::Sched;
use goal_limits::MAX_INPUT;
use std::alloc::Global;

// The bytes asked for per call.
const PIECE: usize = 65_536;

/// Opens a file, reads it to its end or to 2^27+1 bytes, and returns its schedule, given as a text or as a compiled
/// file. It changes no file and no output. A text is read piece by piece, and none of its bytes is kept, except those
/// of a run that is open. A compiled file is kept until it is decoded.
///
/// # Errors
///
/// The first of these that applies: `Fault` if the host failed, `TooLong`, or the first fault of the text or the
/// compiled file. So a file is always read to its end before such a fault is returned. `NoMemory` may come at any time.
pub fn read_schedule<H: Host>(alloc: Global, host: &mut H, name: &str) -> Result<Sched, InputFault>
    // The schedule is that of the file.
    ensures read { IfOk result (λ sched. ForFile (H.state host.old) name.now (λ input. IsReadAs input sched)) }

    // The file is too long, or has this fault.
    ensures input_fault { IfErr result (λ input_fault. IsInputFault (H.state host.old) name.now input_fault) }

    // `Fault` comes only where the read count rose, or the absent count rose and no known file has that name. Any other
    // result leaves both counts unchanged. No file and no output changes.
    ensures call { ReadsSchedule result (H.state host.old) (H.state host.new)
        (ReadFaulted (H.state host.old) (H.state host.new) name.now) }

    // The input is unchanged, or at most 2^27+1 bytes of the file were read.
    ensures taken { SameRest (H.state host.old) (H.state host.new)
        ⊎ ReadsAtMost (H.state host.old) (H.state host.new) name.now (MAX_INPUT + 1) }
{
    match host.open(name) {
        Ok(()) => read_rest(alloc, host),
        Err(OpenFault::NoMemory) => Err(InputFault::NoMemory),
        Err(OpenFault::Absent) => Err(InputFault::Fault),
        Err(OpenFault::Failed) => Err(InputFault::Fault),
    }
}

// Reads the open input to its end, or to 2^27+1 bytes, and returns its schedule.
fn read_rest<H: Host>(alloc: Global, host: &mut H) -> Result<Sched, InputFault>
    requires open { (H.state host.old).reading ≡ true }

    ensures read { IfOk result (λ sched. (H.state host.old).tells ≡ true → IsReadAs (H.state host.old).rest sched) }
    ensures input_fault { IfErr result (λ input_fault. IsRestFault (H.state host.old) input_fault) }
    ensures call { ReadsSchedule result (H.state host.old) (H.state host.new)
        (Rose (H.state host.old).stops (H.state host.old).read_count (H.state host.new).read_count) }
    ensures taken { (bytes : List ℕ) × (length bytes ≤ MAX_INPUT + 1)
        × Takes (H.state host.old) (H.state host.new) bytes }
{
    match vec![in alloc; 0u8; PIECE] {
        Ok(mut buffer) => read_pieces(alloc, host, buffer.as_mut_slice()),
        Err(_) => Err(InputFault::NoMemory),
    }
}

// The same, through a buffer of one piece.
fn read_pieces<H: Host>(alloc: Global, host: &mut H, buffer: &mut [u8]) -> Result<Sched, InputFault>
    requires open { (H.state host.old).reading ≡ true }
    requires piece { length buffer.old ≡ PIECE }

    ensures read { IfOk result (λ sched. (H.state host.old).tells ≡ true → IsReadAs (H.state host.old).rest sched) }
    ensures input_fault { IfErr result (λ input_fault. IsRestFault (H.state host.old) input_fault) }
    ensures call { ReadsSchedule result (H.state host.old) (H.state host.new)
        (Rose (H.state host.old).stops (H.state host.old).read_count (H.state host.new).read_count) }
    ensures taken { (bytes : List ℕ) × (length bytes ≤ MAX_INPUT + 1)
        × Takes (H.state host.old) (H.state host.new) bytes }
{
    let mut intake = Intake::Nothing;
    let mut taken = 0;
    'pieces: while taken <= MAX_INPUT {
        let room = PIECE.min(MAX_INPUT + 1 - taken);
        let count = match host.read(&mut buffer[..room]) {
            Ok(count) => count,
            Err(IoFault::Failed) => return Err(InputFault::Fault),
            Err(IoFault::NoMemory) => return Err(InputFault::NoMemory),
        };
        if count == 0 {
            return intake.finish(alloc);
        }
        intake = intake.take(alloc, &buffer[..count])?;
        taken += count;
    }
    Err(InputFault::TooLong)
}
