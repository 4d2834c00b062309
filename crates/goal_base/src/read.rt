//! Reading a whole file.
ghost use Rattle.std.specs.Prelude.{◌≡◌, ◌⊎◌, ℕ, ◌+◌, ◌<◌, ◌≤◌, true, List, [], length, Some, OnOk, IfOk, IsErrOf};
ghost use Rattle.goal_base.specs.Device.{Rose, SameRest, ReadsAtMost, IsTooLong, file_of, ReadFaulted};
ghost use Rattle.goal_base.specs.DeviceCalls.{Takes, ReadsFile};
ghost use Rattle.goal_base.specs.declared.read.ReadAll.TheVariants.{NoMemory};

use crate::device::{Host, IoFault, OpenFault};
use goal_limits::MAX_INPUT;
use std::alloc::{AllocError, Global};

// The bytes asked for per call.
const PIECE: usize = 16_384;

/// Why a file was not read whole.
#[derive(Clone, Copy, Debug, PartialEq, Eq)]
pub enum ReadAll {
    /// The host failed, or no file has that name. The host counts both.
    Fault,
    /// The file has more than 2^27 bytes.
    TooLong,
    /// Out of memory.
    NoMemory,
}

impl From<AllocError> for ReadAll {
    ghost from_gives = { λ _ e. e ≡ NoMemory };

    fn from(_: AllocError) -> Self {
        ReadAll::NoMemory
    }
}

/// Opens a file and reads it to its end, or to 2^27+1 bytes. It changes no file and no output.
///
/// `Fault` comes only where the read count rose, or the absent count rose and no known file has that name. Any other
/// result leaves both counts unchanged.
pub fn read_all<H: Host>(alloc: Global, host: &mut H, name: &str) -> Result<Vec<u8>, ReadAll>
    ensures ok { IfOk result (λ bytes. (H.state host.old).tells ≡ true
        → file_of (H.state host.old) name.now ≡ Some bytes.items) }
    ensures ok_length { IfOk result (λ bytes. length bytes.items ≤ MAX_INPUT) }
    ensures ok_rest { OnOk result ((H.state host.old).tells ≡ true → (H.state host.new).rest ≡ []) }
    ensures too_long { IsErrOf result ReadAll.TooLong → IsTooLong (H.state host.old) name.now }
    ensures call { ReadsFile result (H.state host.old) (H.state host.new)
        (ReadFaulted (H.state host.old) (H.state host.new) name.now) }

    // The input is unchanged, or at most 2^27+1 bytes of the file were read.
    ensures taken { SameRest (H.state host.old) (H.state host.new)
        ⊎ ReadsAtMost (H.state host.old) (H.state host.new) name.now (MAX_INPUT + 1) }
    ensures reading { OnOk result ((H.state host.new).reading ≡ true) }
    ensures reading_stays { (H.state host.old).reading ≡ true → (H.state host.new).reading ≡ true }
{
    match host.open(name) {
        Ok(()) => read_rest(alloc, host),
        Err(OpenFault::NoMemory) => Err(ReadAll::NoMemory),
        Err(OpenFault::Absent) => Err(ReadAll::Fault),
        Err(OpenFault::Failed) => Err(ReadAll::Fault),
    }
}

// Reads the open input to its end, or to 2^27+1 bytes of it.
fn read_rest<H: Host>(alloc: Global, host: &mut H) -> Result<Vec<u8>, ReadAll>
    requires open { (H.state host.old).reading ≡ true }

    ensures ok { IfOk result (λ bytes. Takes (H.state host.old) (H.state host.new) bytes.items) }
    ensures ok_length { IfOk result (λ bytes. length bytes.items ≤ MAX_INPUT) }
    ensures ok_rest { OnOk result ((H.state host.old).tells ≡ true → (H.state host.new).rest ≡ []) }
    ensures too_long { IsErrOf result ReadAll.TooLong
        → (H.state host.old).tells ≡ true → MAX_INPUT < length (H.state host.old).rest }
    ensures call { ReadsFile result (H.state host.old) (H.state host.new)
        (Rose (H.state host.old).stops (H.state host.old).read_count (H.state host.new).read_count) }
    ensures taken { (bytes : List ℕ) × (length bytes ≤ MAX_INPUT + 1)
        × Takes (H.state host.old) (H.state host.new) bytes }
    ensures reading { (H.state host.new).reading ≡ true }
{
    let mut bytes = Vec::new(alloc);
    let mut buffer = [0u8; PIECE];
    'pieces: while bytes.len() <= MAX_INPUT {
        let room = PIECE.min(MAX_INPUT + 1 - bytes.len());
        let count = match host.read(&mut buffer[..room]) {
            Ok(count) => count,
            Err(IoFault::Failed) => return Err(ReadAll::Fault),
            Err(IoFault::NoMemory) => return Err(ReadAll::NoMemory),
        };
        if count == 0 {
            return Ok(bytes);
        }
        bytes.extend_from_slice(&buffer[..count])?;
    }
    Err(ReadAll::TooLong)
}
