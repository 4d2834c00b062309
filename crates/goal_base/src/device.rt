//! The traits of the surroundings: a host with files, and a sink that takes bytes.
ghost use Rattle.std.specs.Prelude.{◌≡◌, ◌↔◌, ◌<◌, ◌≤◌, true, false, [], ◌++◌, length, take, Some, None, OnOk, OnErr, IfOk};
ghost use Rattle.goal_base.specs.Device.{HostState, SinkState, SameFiles, SameRest, file_of, Grows};
ghost use Rattle.goal_base.specs.DeviceCalls.{SameBytes, CallsOpen, CallsRead, CallsWrite, CallsSink, Creates, Writes};

/// Why a call of a host or a sink was refused.
#[derive(Clone, Copy, Debug, PartialEq, Eq)]
pub enum IoFault {
    /// The device failed. It counts this.
    Failed,
    /// Out of memory.
    NoMemory,
}

/// Why `open` opened no file.
#[derive(Clone, Copy, Debug, PartialEq, Eq)]
pub enum OpenFault {
    /// No file has that name. The host counts this.
    Absent,
    /// The device failed. It counts this.
    Failed,
    /// Out of memory.
    NoMemory,
}

/// A host with files. At most one is open as the input, and at most one as the output.
///
/// Contracts may know its contents (`tells`): the files, the rest of the input and the name of the output. They always
/// know what is open, and three counts that never fall:
///
/// - `read_count`: failed calls of `open` and `read`;
/// - `absent_count`: calls of `open` with a name that no file has;
/// - `write_count`: failed calls of `create`, `write` and `finish`.
///
/// A count may stop at 2^64-1; a count that has stopped is taken to have risen. A call returns `Failed` only where its
/// count rose; any other result leaves that count unchanged. A refused call leaves the contents and what is open
/// unchanged, except that `finish` always closes the output.
pub trait Host {
    /// What contracts know of the host.
    ghost state: { Self → HostState };

    /// Opens a file as the input, from its beginning, instead of the one that was open.
    ///
    /// `Absent` comes only where the absent count rose and no known file has that name.
    fn open(&mut self, name: &str) -> Result<(), OpenFault>
        ensures opened { OnOk result ((state self.old).tells ≡ true
            → file_of (state self.old) name.now ≡ Some (state self.new).rest) }
        ensures reading { OnOk result ((state self.new).reading ≡ true) }
        ensures err { OnErr result (SameRest (state self.old) (state self.new)) }
        ensures reading_err { OnErr result ((state self.new).reading ≡ (state self.old).reading) }
        ensures call { CallsOpen result (state self.old) (state self.new) name.now };

    /// Moves bytes from the front of the rest of the input to the front of `buf`, and returns their number: 0 only at
    /// the end of the input.
    fn read(&mut self, buf: &mut [u8]) -> Result<usize, IoFault>
        requires room { 0 < length buf.old }
        requires open { (state self.old).reading ≡ true }

        ensures bound { IfOk result (λ n. n ≤ length buf.new) }
        ensures taken { IfOk result (λ n. (state self.old).tells ≡ true
            → (state self.old).rest ≡ take n buf.new ++ (state self.new).rest) }
        ensures end { IfOk result (λ n. (state self.old).tells ≡ true → ((n ≡ 0) ↔ ((state self.old).rest ≡ []))) }
        ensures err { OnErr result (SameRest (state self.old) (state self.new)) }
        ensures reading { (state self.new).reading ≡ true }
        ensures call { CallsRead result (state self.old) (state self.new) };

    /// Creates an empty file of that name, or empties it, and opens it as the output instead of the one that was open.
    fn create(&mut self, name: &str) -> Result<(), IoFault>
        ensures created { OnOk result (Creates (state self.old) (state self.new) name.now) }
        ensures writing { OnOk result ((state self.new).writing ≡ true) }
        ensures err { OnErr result (SameFiles (state self.old) (state self.new)) }
        ensures writing_err { OnErr result ((state self.new).writing ≡ (state self.old).writing) }
        ensures call { CallsWrite result (state self.old) (state self.new) };

    /// Appends a prefix of `piece` to the output, and returns its length: at least 1, unless `piece` is empty.
    fn write(&mut self, piece: &[u8]) -> Result<usize, IoFault>
        requires open { (state self.old).writing ≡ true }

        ensures bound { IfOk result (λ n. n ≤ length piece.now) }
        ensures moves { IfOk result (λ n. 0 < length piece.now → 0 < n) }
        ensures written { IfOk result (λ n. Writes (state self.old) (state self.new) (take n piece.now)) }
        ensures err { OnErr result (SameFiles (state self.old) (state self.new)) }
        ensures writing { (state self.new).writing ≡ true }
        ensures call { CallsWrite result (state self.old) (state self.new) };

    /// Closes the output, even if the call returns an error.
    fn finish(&mut self) -> Result<(), IoFault>
        requires open { (state self.old).writing ≡ true }

        ensures files { (state self.old).tells ≡ true → (state self.new).files ≡ (state self.old).files }
        ensures output { (state self.old).tells ≡ true → (state self.new).output ≡ None }
        ensures writing { (state self.new).writing ≡ false }
        ensures call { CallsWrite result (state self.old) (state self.new) };
}

/// A sink of bytes, such as standard output. Contracts may know its bytes (`tells`). They always know its count of
/// failed writes, which never falls and may stop at 2^64-1.
pub trait Sink {
    /// What contracts know of the sink.
    ghost state: { Self → SinkState };

    /// Appends a prefix of `piece`, and returns its length: at least 1, unless `piece` is empty.
    ///
    /// `Failed` comes only where the count rose; any other result leaves it unchanged. A refused write leaves the bytes
    /// unchanged.
    fn write(&mut self, piece: &[u8]) -> Result<usize, IoFault>
        ensures bound { IfOk result (λ n. n ≤ length piece.now) }
        ensures moves { IfOk result (λ n. 0 < length piece.now → 0 < n) }
        ensures written { IfOk result (λ n. Grows (state self.old) (state self.new) (take n piece.now)) }
        ensures err { OnErr result (SameBytes (state self.old) (state self.new)) }
        ensures call { CallsSink result (state self.old) (state self.new) };
}
