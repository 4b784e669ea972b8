//! A box, or nothing, as one pointer.
ghost use Rattle.std.specs.Prelude.{◌≡◌, Option, None, Some, option_map};
ghost use Rattle.std.specs.Coded.{coded_option};

use std::alloc::Global;
use std::marker::{Model, Send};
use std::ptr::null_mut;

/// A box's pointer, or null: what C keeps of a box.
///
/// `held` is what the box has in it. The slot owns the box, and has no `Drop`: [`Slot::into_box`] is the
/// way to let it go.
pub struct Slot<T> {
    pub at: *mut T,
    pub ghost held: { Option T } by { coded_option T.code },
}

impl<T> Model for Slot<T> {
    ghost use Rattle.foreign_handles.specs.Held.{owns_held};

    ghost also_owns = { λ s. owns_held T.row s.at s.held };
}

// Safety: it owns one box, of which nothing else has a part.
unsafe impl<T: Send> Send for Slot<T> {}

impl<T: Drop> Slot<T> {
    /// A slot at null, which holds nothing.
    pub fn vacant() -> Slot<T>
        ensures { result.held ≡ None }
    {
        Slot { at: null_mut() }
    }

    /// Takes the box's pointer, and holds what the box had in it. It takes no memory.
    pub fn of(value: Box<T>) -> Slot<T>
        ensures { result.held ≡ Some value.value }
    {
        Slot {
            at: Box::into_raw(value),
        }
    }

    /// The box that the slot was made of, or `None` at null. `alloc` takes no bytes: C passes nothing for it.
    pub fn into_box(self, alloc: Global) -> Option<Box<T>>
        ensures { option_map (λ b. b.value) result
            ≡ self.held }
    {
        let Slot { at } = self;
        if at.is_null() {
            return None;
        }
        Some(unsafe { Box::from_raw(alloc, at) })
    }
}
