//! Rows in any order: each goes to the key that it has in the columns of the order's loader, unless that key has a fault.
ghost use Rattle.std.specs.Prelude.{◌≡◌, ◌≢◌, IfOk, IfErr, OnOk, map, option_map};
ghost use Rattle.flat_rows.specs.Keyed.{IsKeyedReply, by_of as keyed_by_of, laid_rows, replied_items};
ghost use Rattle.gq_bindings.specs.Seen.{by_of};
ghost use Rattle.load_memory.specs.Keys.{borrowed_of};
ghost use Rattle.load_memory.specs.Outcomes.{item_of};
ghost use Rattle.host_clients.specs.Clients.{KeepsOrStops};
ghost use Rattle.host_clients.specs.Keyed.{KeyedRowsFault, OfOrder, TakesKeyed};
ghost use Rattle.host_clients.specs.Lines.{by_at, columns_in, keyed_by};

use crate::client::HostClient;
use crate::fault::Fault;
use crate::loaders::line_of;
use crate::opening::mode_of;
use flat_rows::{KeyedBy, KeyedFault, KeyedReply};
use gq_bindings::{By, LoaderLine};
use load_memory::{Item, KeyMode, KeyRef};
use rounds_by_hand::Pending;
use server::Server;
use std::alloc::Global;

/// Reason why rows in any order aren't taken.
#[derive(Clone, Copy, Debug, PartialEq, Eq)]
pub enum KeyedRefusal {
    /// They are refused for this fault.
    Refused(Fault),
    /// The row of this number, from 1, has a key that wasn't asked for.
    NotAsked(u32),
}

impl From<Fault> for KeyedRefusal {
    ghost use Rattle.std.specs.Prelude.{◌≡◌};
    ghost use Rattle.host_clients.specs.declared.keyed.KeyedRefusal.TheVariants.{Refused};

    ghost from_gives = { λ e refusal. refusal ≡ Refused e };

    fn from(e: Fault) -> KeyedRefusal {
        KeyedRefusal::Refused(e)
    }
}

impl From<KeyedFault> for KeyedRefusal {
    ghost use Rattle.std.specs.Prelude.{◌≡◌};
    ghost use Rattle.host_clients.specs.Keyed.{keyed_refusal};

    ghost from_gives = { λ e refusal. refusal ≡ keyed_refusal e };

    fn from(e: KeyedFault) -> KeyedRefusal {
        match e {
            KeyedFault::BadFaults => KeyedRefusal::Refused(Fault::BadFaults),
            KeyedFault::Rows(e) => KeyedRefusal::Refused(Fault::from(e)),
            KeyedFault::NoKeyColumn => KeyedRefusal::Refused(Fault::NoKeyColumn),
            KeyedFault::NotAsked(row) => KeyedRefusal::NotAsked(row),
        }
    }
}

// The columns in which rows of a line's loader have their keys.
fn columns_of(line: &LoaderLine) -> KeyRef<'_>
    ensures { borrowed_of result
        ≡ columns_in (option_map by_of line.now.by) }
{
    match &line.by {
        None => KeyRef::All,
        Some(
            By {
                column,
                second: None,
                ..
            },
        ) => KeyRef::Text(column.as_str()),
        Some(
            By {
                column,
                second: Some(second),
                ..
            },
        ) => KeyRef::Pair(column.as_str(), second.as_str()),
    }
}

// Says in which columns the rows of a server's loader have their keys.
fn keyed_by(server: &Server, loader: usize) -> KeyedBy<'_>
    ensures { keyed_by_of result
        ≡ keyed_by (by_at server.now loader) }
{
    match line_of(server, loader) {
        Some(line) => KeyedBy {
            columns: columns_of(line),
            mode: mode_of(line),
        },
        None => KeyedBy {
            columns: KeyRef::All,
            mode: KeyMode::Exact,
        },
    }
}

impl HostClient {
    // What rows in any order, with faults of keys, say of the keys of an order that waits.
    fn keyed_items(
        &self,
        alloc: Global,
        number: usize,
        reply: &KeyedReply<'_>,
    ) -> Result<Vec<Item>, KeyedRefusal>
        ensures items { let r = laid_rows reply.now in IfOk result (λ items. OfOrder self.now number
            (λ by keys. map item_of items.items ≡ replied_items by keys r)) }
        ensures taken { let r = laid_rows reply.now in OnOk result
            (OfOrder self.now number (λ by keys. IsKeyedReply by keys r)) }
        ensures fault { IfErr result
            (KeyedRowsFault number (laid_rows reply.now) self.now) }
    {
        let Some(order) = self.order(number) else {
            return Err(KeyedRefusal::Refused(Fault::NoOrder));
        };
        match order {
            Pending::In(_) => Err(KeyedRefusal::Refused(Fault::Replied)),
            Pending::Out(order) => {
                let by = keyed_by(self.server(), order.loader());
                Ok(reply.items(alloc, &by, order.keys())?)
            }
        }
    }

    /// Takes rows for the keys of an order, in any order: each key gets the rows that have it in the columns that the order's loader is by.
    /// A key that no row has gets none. A key with a fault takes the fault in place of its rows, if it has any.
    ///
    /// # Errors
    ///
    /// The first of these that is true: [`NoOrder`](Fault::NoOrder), [`Replied`](Fault::Replied), [`BadFaults`](Fault::BadFaults); the
    /// rows' first fault; [`NoKeyColumn`](Fault::NoKeyColumn); [`NotAsked`](KeyedRefusal::NotAsked) with the first row whose key wasn't
    /// asked for. Nothing has changed then. [`NoMemory`](Fault::NoMemory) as that of [`take_rows`](HostClient::take_rows).
    pub fn take_keyed_rows(
        &mut self,
        alloc: Global,
        number: usize,
        reply: &KeyedReply<'_>,
    ) -> Result<(), KeyedRefusal>
        ensures taken { OnOk result (TakesKeyed number (laid_rows reply.now) self.old self.new) }
        ensures kept { IfErr result (λ refusal.
            refusal ≢ KeyedRefusal.Refused Fault.NoMemory → self.new ≡ self.old) }
        ensures no_memory { IfErr result (λ refusal.
            refusal ≡ KeyedRefusal.Refused Fault.NoMemory → KeepsOrStops number self.old self.new) }
        ensures fault { IfErr result
            (KeyedRowsFault number (laid_rows reply.now) self.old) }
    {
        let items = self.keyed_items(alloc, number, reply)?;
        Ok(self.take(number, Ok(items))?)
    }
}
