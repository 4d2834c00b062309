//! Laws that follow from the contract of `read_all`.
ghost use Rattle.std.specs.Prelude.{◌≡◌, ◌<◌, ℕ, true, List, length, Some};
ghost use Rattle.goal_base.specs.Device.{HostState, Held, ReadFaulted, IsTooLong, file_of};

use goal_limits::MAX_INPUT;

/// Laws of `read_all` for an existing file of a host whose contents are known. It returns `Fault` only where the read
/// count rose (*no_fault*), and `TooLong` only if the file has more than 2^27 bytes (*no_short*).
pub fn laws_of_reading()
    ensures no_fault { (old new : HostState) (name text : List ℕ) → old.tells ≡ true
        → file_of old name ≡ Some text → Held old.stops old.read_count new.read_count
        → ReadFaulted old new name → ⊥ }
    ensures no_short { (old : HostState) (name text : List ℕ) → old.tells ≡ true
        → file_of old name ≡ Some text → IsTooLong old name → MAX_INPUT < length text }
{}
