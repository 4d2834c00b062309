//! Writing a whole piece.
ghost use Rattle.std.specs.Prelude.{◌≡◌, ◌<◌, length, take, OnOk, IfErr};
ghost use Rattle.goal_base.specs.Device.{Grows};
ghost use Rattle.goal_base.specs.DeviceCalls.{CallsSink, stop_reason};

use crate::device::{IoFault, Sink};

/// Where a piece was cut off, and why.
#[derive(Clone, Copy, Debug, PartialEq, Eq)]
pub struct WriteStop {
    /// The number of the piece's bytes that were written: fewer than it has.
    pub done: u64,
    /// The fault of the sink that ended it.
    pub why: IoFault,
}

/// Appends a piece to a sink. On `Err` its first `done` bytes were appended.
///
/// `Failed` comes only where the sink's count rose; any other result leaves it unchanged.
pub fn write_all<S: Sink>(sink: &mut S, piece: &[u8]) -> Result<(), WriteStop>
    ensures ok { OnOk result (Grows (S.state sink.old) (S.state sink.new) piece.now) }
    ensures short { IfErr result (λ stop. stop.done < length piece.now) }
    ensures part { IfErr result (λ stop.
        Grows (S.state sink.old) (S.state sink.new) (take stop.done piece.now)) }
    ensures call { CallsSink (stop_reason result) (S.state sink.old) (S.state sink.new) }
{
    let mut done = 0;
    'pieces: while done < piece.len() {
        match sink.write(&piece[done..]) {
            Ok(count) => done += count,
            Err(why) => {
                return Err(WriteStop {
                    done: done as u64,
                    why,
                });
            }
        }
    }
    Ok(())
}
