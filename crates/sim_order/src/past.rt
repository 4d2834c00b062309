//! Lists of past items, for proofs only.
ghost use Rattle.std.specs.Prelude.{◌≡◌, List, [], ◌∷◌, ◌++◌};
ghost use Rattle.std.specs.Borrow.{ftrue};

use std::marker::{Model, PhantomData};

/// The items that were pushed so far, oldest first. Only contracts and proofs see them, as `items`: at run time it
/// takes no memory, and its calls do nothing.
#[derive(Drop)]
pub struct Past<T> {
    of: PhantomData<T>,
    pub ghost items: { List T },
}

impl<T> Model for Past<T> {
    ghost also_owns = { λ _. ftrue };
}

impl<T> Past<T> {
    /// Returns an empty list.
    #[inline(always)]
    pub fn new() -> Past<T>
        ensures { result.items ≡ [] }
    {
        Past { of: PhantomData }
    }

    /// Returns the list with another item at its end.
    #[inline(always)]
    pub fn and(&self, item: &T) -> Past<T>
        ensures { result.items ≡ self.now.items ++ item.now ∷ [] }
    {
        Past { of: PhantomData }
    }

    /// Appends an item.
    #[inline(always)]
    pub fn push(&mut self, item: &T)
        ensures { self.new.items ≡ self.old.items ++ item.now ∷ [] }
    {
        *self = self.and(item);
    }
}
