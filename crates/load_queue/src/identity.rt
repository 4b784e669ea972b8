//! Which loader is which, in contracts alone.
ghost use Rattle.std.specs.Prelude.{◌≡◌, ℕ};

use std::marker::Model;

/// Which loader this is. It takes no memory, and no code can read it.
///
/// A contract sees a number. No clause says which one a new loader has, so outside of this file nobody can show that
/// two loaders have the same.
#[derive(Debug, Drop)]
pub(crate) struct Identity {
    nothing: (),
}

impl Model for Identity {
    ghost Value = { ℕ };

    ghost view = { λ _. 0 };
}

impl Identity {
    /// The identity of a new loader.
    pub(crate) fn new() -> Identity {
        Identity { nothing: () }
    }

    /// The same identity once more.
    pub(crate) fn same(&self) -> Identity
        ensures { result ≡ self.now }
    {
        Identity {
            nothing: self.nothing,
        }
    }
}
