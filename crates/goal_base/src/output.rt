//! Writing a whole file.
ghost use Rattle.std.specs.Prelude.{◌≡◌, false, OnOk, OnErr};
ghost use Rattle.goal_base.specs.Device.{Holds, HoldsPart};
ghost use Rattle.goal_base.specs.DeviceCalls.{CallsWrite};

use crate::device::{Host, IoFault};

/// Writes a file that holds exactly these bytes, and closes it. On `Err` that file is unchanged, or holds a prefix of
/// the bytes and may still be the open output. No other file changes.
///
/// `Failed` comes only where the write count rose; any other result leaves it unchanged.
pub fn write_file<H: Host>(host: &mut H, name: &str, bytes: &[u8]) -> Result<(), IoFault>
    ensures ok { OnOk result (Holds (H.state host.old) (H.state host.new) name.now bytes.now) }
    ensures ok_writing { OnOk result ((H.state host.new).writing ≡ false) }
    ensures part { OnErr result (HoldsPart (H.state host.old) (H.state host.new) name.now bytes.now) }
    ensures call { CallsWrite result (H.state host.old) (H.state host.new) }
{
    host.create(name)?;
    let mut done = 0;
    'pieces: while done < bytes.len() {
        done += host.write(&bytes[done..])?;
    }
    host.finish()?;
    Ok(())
}
