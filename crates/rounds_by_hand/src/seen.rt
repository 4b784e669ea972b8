//! Values as they were seen, which only proofs read.
ghost use Rattle.std.specs.Prelude.{◌≡◌};
ghost use Rattle.std.specs.Borrow.{ftrue};

use std::marker::{Model, PhantomData, Send};

/// A value as it was when it was seen. It takes no memory, and does nothing at run time. Only contracts tie it to a value of the code: so a
/// type that keeps one relates it in its invariant to what it has, as [`Hand`](crate::Hand) does.
#[derive(Drop)]
pub(crate) struct Seen<T> {
    of: PhantomData<T>,
    pub(crate) ghost value: { T } by { T.code },
}

impl<T> Model for Seen<T> {
    ghost also_owns = { λ _. ftrue };
}

// Safety: it owns nothing.
unsafe impl<T: Send> Send for Seen<T> {}

impl<T> Seen<T> {
    /// The value as it is now.
    pub(crate) fn of(_value: &T) -> Seen<T>
        ensures { result.value ≡ _value.now }
    {
        Seen { of: PhantomData }
    }
}
