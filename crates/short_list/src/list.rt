//! Lists, short or long.

ghost use Rattle.std.specs.Prelude.{◌≡◌, ◌++◌, ◌∷◌, [], OnOk, OnErr};
ghost use Rattle.std.specs.List.{AllZip};

use std::alloc::{AllocError, Global};
use std::marker::Model;
use std::mem;

/// Number of items that the first list of several has room for.
const FIRST_ROOM: usize = 4;

// Place of the items.
#[derive(Drop)]
enum Held<T> {
    None,
    One([T; 1]),
    Many(Vec<T>),
}

/// Items, in order. None and a single one take no memory of their own.
///
/// They are read as a slice. A contract sees their list.
#[derive(Drop)]
pub struct ShortList<T> {
    held: Held<T>,
}

impl<T> Model for ShortList<T> {
    ghost use Rattle.std.specs.Prelude.{List};
    ghost use Rattle.short_list.specs.Items.{items_held};

    ghost Value = { List T };

    ghost view = { λ l. items_held l.held };
}

impl<T> ShortList<T> {
    /// No items.
    pub fn new() -> ShortList<T>
        ensures { result ≡ [] }
    {
        ShortList { held: Held::None }
    }

    /// A single item.
    pub fn one(item: T) -> ShortList<T>
        ensures { result ≡ item ∷ [] }
    {
        ShortList {
            held: Held::One([item]),
        }
    }

    /// The items, in order.
    pub fn as_slice(&self) -> &[T]
        ensures { result.now ≡ self.now }
    {
        match &self.held {
            Held::None => &[],
            Held::One(one) => one.as_slice(),
            Held::Many(items) => items.as_slice(),
        }
    }
}

// The item of an array of one.
fn only<T: Drop>(one: [T; 1]) -> T
    ensures { one ≡ result ∷ [] }
{
    let [item] = one;
    item
}

impl<T: Drop> ShortList<T> {
    /// Adds an item at the end. A first one takes no memory.
    ///
    /// # Errors
    ///
    /// When out of memory, the list is what it was (`kept`).
    pub fn push(&mut self, alloc: Global, item: T) -> Result<(), AllocError>
        ensures ok { OnOk result
            (self.new ≡ self.old ++ item ∷ []) }
        ensures kept { OnErr result (self.new ≡ self.old) }
    {
        match &mut self.held {
            Held::None => self.held = Held::One([item]),
            Held::One(_) => {
                let mut items = Vec::with_capacity(alloc, FIRST_ROOM)?;
                if let Held::One(one) = mem::replace(&mut self.held, Held::None) {
                    items.push_reserved(only(one));
                }
                items.push_reserved(item);
                self.held = Held::Many(items);
            }
            Held::Many(items) => items.push(item)?,
        }
        Ok(())
    }
}

impl<T: Clone> Clone for ShortList<T> {
    ghost is_clone = { λ x y. AllZip T.is_clone x y };

    fn clone(&self) -> Result<ShortList<T>, AllocError> {
        let held = match &self.held {
            Held::None => Held::None,
            Held::One([item]) => Held::One([item.clone()?]),
            Held::Many(items) => Held::Many(items.clone()?),
        };
        Ok(ShortList { held })
    }
}
