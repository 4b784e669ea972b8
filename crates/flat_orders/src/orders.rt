//! Orders that are written one after another.
ghost use Rattle.std.specs.Prelude.{◌≡◌, ◌++◌, ◌∷◌, [], IfOk, OnOk, OnErr, length, map, slice_get, option_map};
ghost use Rattle.load_memory.specs.Cells.{cut};
ghost use Rattle.load_memory.specs.Keys.{key_of};
ghost use Rattle.load_queue.specs.Orders.{order_of};
ghost use Rattle.flat_orders.specs.Orders.{keys_of, orders_said};
ghost use Rattle.flat_orders.specs.Written.{all_texts, keys_in, size_of};

use crate::lists::{KeyLists, KeySizes};
use crate::texts::WrongSize;
use load_memory::Key;
use std::alloc::{AllocError, Global};
use std::marker::Model;

/// Orders in flat buffers: for each the number of its loader, and its keys.
///
/// A contract sees them as orders.
///
/// Orders are written once, when their round is made, so the sizes that a host asks for are those of what it
/// copies then, and a copy is a few moves of bytes.
pub struct FlatOrders {
    loaders: Vec<u32>,
    keys: KeyLists,
}

impl Model for FlatOrders {
    ghost use Rattle.std.specs.Prelude.{List, ◌≡◌, length};
    ghost use Rattle.load_queue.specs.Orders.{OrderOf};
    ghost use Rattle.flat_orders.specs.Orders.{paired_orders};

    ghost Value = { List OrderOf };

    ghost view = { λ o. paired_orders o.loaders.items o.keys };

    ghost invariant = { λ o. length o.loaders.items ≡ length o.keys };
}

impl Drop for FlatOrders {
    fn drop(self) {
        let FlatOrders {
            loaders: _loaders,
            keys: _keys,
        } = self;
    }
}

// Writes an order at the end. When out of memory, nothing is known of what was written.
fn write_order(
    loaders: &mut Vec<u32>,
    lists: &mut KeyLists,
    loader: usize,
    keys: &[Key],
) -> Result<(), AllocError>
    ensures loaders { OnOk result (loaders.new.items ≡ loaders.old.items ++ loader ∷ []) }
    ensures lists { OnOk result
        (lists.new ≡ lists.old ++ map key_of keys.now ∷ []) }
{
    let Ok(number) = u32::try_from(loader) else {
        return Err(AllocError);
    };
    loaders.push(number)?;
    lists.push(keys)
}

impl FlatOrders {
    /// No order yet.
    pub fn new(alloc: Global) -> FlatOrders
        ensures { result ≡ [] }
    {
        FlatOrders {
            loaders: Vec::new(alloc),
            keys: KeyLists::new(alloc),
        }
    }

    /// Lets all orders go. Their room stays for those that come.
    pub fn clear(&mut self)
        ensures { self.new ≡ [] }
    {
        self.loaders.clear();
        self.keys.clear();
    }

    /// Adds an order at the end.
    ///
    /// # Errors
    ///
    /// When out of memory, or where there would be more keys or bytes than 32 bits count. All orders are let go then.
    pub fn push(&mut self, loader: usize, keys: &[Key]) -> Result<(), AllocError>
        ensures pushed { OnOk result
            (self.new ≡ self.old ++ order_of loader (map key_of keys.now) ∷ []) }
        ensures cleared { OnErr result (self.new ≡ []) }
    {
        match write_order(&mut self.loaders, &mut self.keys, loader, keys) {
            Ok(()) => Ok(()),
            Err(fault) => {
                self.loaders.clear();
                self.keys.clear();
                Err(fault)
            }
        }
    }

    /// Returns how many elements the buffers have to hold that [`copy_to`](FlatOrders::copy_to) fills. There is a list of keys for each
    /// order.
    pub fn sizes(&self) -> KeySizes
        ensures orders { result.lists ≡ length self.now }
        ensures keys { result.keys
            ≡ length (keys_in (map keys_of self.now)) }
        ensures texts { result.texts
            ≡ length (all_texts (map keys_of self.now)) }
        ensures bytes { result.bytes
            ≡ size_of (all_texts (map keys_of self.now)) }
    {
        self.keys.sizes()
    }

    /// Returns how many keys the order of this number has, if there is one.
    pub fn count(&self, number: usize) -> Option<usize>
        ensures { result ≡ option_map (λ o. length
            (keys_of o)) (slice_get self.now number) }
    {
        self.keys.count(number)
    }

    /// Copies for each order the number of its loader and how many keys it has, for each key how many texts it has, where each text ends,
    /// and the texts.
    ///
    /// # Errors
    ///
    /// [`WrongSize`] where a buffer hasn't just the size that [`sizes`](FlatOrders::sizes) tells.
    pub fn copy_to(
        &self,
        loaders: &mut [u32],
        counts: &mut [u32],
        shapes: &mut [u32],
        ends: &mut [u32],
        bytes: &mut [u8],
    ) -> Result<(), WrongSize>
        ensures copied { OnOk result
            (orders_said loaders.new counts.new shapes.new (cut bytes.new 0 ends.new) ≡ self.now) }
        ensures kept { OnErr result
            ((loaders.new ≡ loaders.old) × (counts.new ≡ counts.old) × (shapes.new ≡ shapes.old)) }
        ensures kept_texts { OnErr result ((ends.new ≡ ends.old) × (bytes.new ≡ bytes.old)) }
    {
        if loaders.len() != self.loaders.len() {
            return Err(WrongSize);
        }
        self.keys.copy_to(counts, shapes, ends, bytes)?;
        loaders.copy_from_slice(&self.loaders);
        Ok(())
    }
}
