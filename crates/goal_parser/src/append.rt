//! Appending to a list in a loop.
ghost use Rattle.std.specs.Prelude.{◌≡◌, ◌++◌, [], ◌∷◌, OnOk};

use std::alloc::AllocError;

/// Appends an item to a list. A separate function makes room, so that the rest is inlined. `Err` means out of memory.
#[inline(always)]
pub fn append<T: Copy>(list: &mut Vec<T>, item: T) -> Result<(), AllocError>
    ensures { OnOk result (list.new.items ≡ list.old.items ++ item ∷ []) }
{
    list.reserve(1)?;
    list.push_reserved(item);
    Ok(())
}
