//! A list that only proofs read. It takes no memory, and its methods do nothing at run time.
ghost use Rattle.std.specs.Prelude.{◌≡◌, List, [], ◌∷◌, ◌++◌};
ghost use Rattle.std.specs.Borrow.{ftrue};

use std::marker::{Model, PhantomData};

/// What a value was told, oldest first. A clause reads it as `items`.
#[derive(Drop)]
pub struct Told<T> {
    of: PhantomData<T>,
    pub ghost items: { List T },
}

impl<T> Model for Told<T> {
    ghost also_owns = { λ _. ftrue };
}

// It owns nothing.
unsafe impl<T> Send for Told<T> {}

unsafe impl<T> Sync for Told<T> {}

impl<T> Told<T> {
    /// Nothing was told yet.
    pub fn new() -> Told<T>
        ensures { result.items ≡ [] }
    {
        Told { of: PhantomData }
    }

    /// What was told before, and `item`.
    pub fn with(&self, item: &T) -> Told<T>
        ensures { result.items ≡ self.now.items ++ item.now ∷ [] }
    {
        Told { of: PhantomData }
    }

    /// The same once more.
    pub fn again(&self) -> Told<T>
        ensures { result.items ≡ self.now.items }
    {
        Told { of: PhantomData }
    }
}
