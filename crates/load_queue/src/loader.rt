//! A loader: a source with its name, its mode, its limit, its log and the count of its orders.
ghost use Rattle.std.specs.Prelude.{◌≡◌, ◌↔◌, ◌<◌, ℕ, Some, [], All, IfOk, OnOk, OnErr, IsErrOf, map, take};
ghost use Rattle.load_memory.specs.Keys.{key_of};
ghost use Rattle.load_queue.specs.Batches.{AreBatches};
ghost use Rattle.load_queue.specs.Loaders.{AskedOf, IsOnRecord, marked};
ghost use Rattle.load_queue.specs.Logs.{asked_of};
ghost use Rattle.load_queue.specs.Orders.{orders_of};

use crate::cut::{copy_of, cut_orders, enter, piece_length};
use crate::identity::Identity;
use crate::order::Order;
use load_memory::{Key, KeyMode, Keys};
use std::alloc::{AllocError, Global};
use std::marker::Model;
use thiserror::Error;

/// Reason why a loader can't be made.
#[derive(Clone, Copy, Debug, PartialEq, Eq, Error)]
pub enum QueueFault {
    /// The limit is 0 or over 65,535.
    #[error("bad limit")]
    BadLimit,
    /// Out of memory.
    #[error("out of memory")]
    NoMemory,
}

impl From<AllocError> for QueueFault {
    ghost use Rattle.load_queue.specs.declared.loader.QueueFault.TheVariants.{NoMemory};
    ghost use Rattle.std.specs.Prelude.{◌≡◌};

    ghost from_gives = { λ _ e. e ≡ NoMemory };

    fn from(_e: AllocError) -> QueueFault {
        QueueFault::NoMemory
    }
}

/// The largest batch limit.
pub const MAX_LIMIT: u32 = 65_535;

/// Greatest number of entries of a log whose memory is kept when the loader starts again.
const KEPT_ENTRIES: usize = 64;

/// Holds what was asked of a loader's source in one batch.
#[derive(Debug)]
pub struct LogEntry {
    /// The round, from 1.
    pub round: u32,
    /// The keys, in the order in which they were asked.
    pub keys: Keys,
    /// Tells whether the outcomes were stored. It is false while the order is out, and stays so where its
    /// round was lost.
    pub stored: bool,
}

impl Drop for LogEntry {
    fn drop(self) {
        let LogEntry {
            round: _,
            keys: _keys,
            stored: _,
        } = self;
    }
}

/// A source with its name, the way its keys are compared, its batch limit, the log of what was asked, the count of its
/// orders, and which loader it is.
///
/// A contract sees these seven.
#[derive(Drop)]
pub struct Loader<S> {
    name: String,
    source: S,
    mode: KeyMode,
    limit: Option<u32>,
    log: Vec<LogEntry>,
    // the latest round of the log, and how many entries stand before its first
    latest: u32,
    earlier: usize,
    // says how many orders were ever made of it; nothing resets it
    orders: u64,
    identity: Identity,
}

impl<S> Model for Loader<S> {
    ghost use Rattle.std.specs.Prelude.{map, string_bytes, ◌≢◌, Some, ◌<◌, ℕ, ◌≡◌};
    ghost use Rattle.load_queue.specs.Loaders.{LoaderOf};
    ghost use Rattle.load_queue.specs.Logs.{asked_of, IsLoader};

    ghost Value = { LoaderOf S };

    ghost view = { λ l. record {
      name = string_bytes l.name;
      source = l.source;
      mode = l.mode;
      limit = l.limit;
      log = map asked_of l.log.items;
      orders = l.orders;
      identity = l.identity;
    } };

    ghost invariant = { λ l. IsLoader l.limit l.latest l.earlier (map asked_of l.log.items) };
}

// Marks those entries of the log that are of this round, none of which stands before the first to look at.
fn mark(log: &mut Vec<LogEntry>, first: usize, round: u32)
    requires { All (λ (a : AskedOf). a.round ≡ round → ⊥)
        (take first (map asked_of log.old.items)) }
    ensures { map asked_of log.new.items
        ≡ map (marked round) (map asked_of log.old.items) }
{
    for index in first..log.len() {
        if log[index].round == round {
            log[index].stored = true;
        }
    }
}

impl<S> Loader<S> {
    ghost use Rattle.load_queue.specs.Logs.{asked_of};
    ghost use Rattle.load_queue.specs.Loaders.{asked_in, stored_in, unasked};

    /// The name that it was made with.
    pub fn name(&self) -> &str
        ensures { result.now ≡ self.now.name }
    {
        self.name.as_str()
    }

    /// Returns how the loader's keys are compared. A contract also sees here that no loader's limit is 0.
    pub fn mode(&self) -> KeyMode
        ensures value { result ≡ self.now.mode }
        ensures limited { (n : ℕ) → self.now.limit ≡ Some n
            → 0 < n }
    {
        self.mode
    }

    /// Returns what was asked, oldest first.
    pub fn log(&self) -> &[LogEntry]
        ensures { map asked_of result.now ≡ self.now.log }
    {
        self.log.as_slice()
    }

    /// Returns how many orders were ever made of it. It counts batches over the loader's whole life:
    /// [`restart`](Loader::restart) doesn't reset it.
    pub fn orders(&self) -> u64
        ensures { result ≡ self.now.orders }
    {
        self.orders
    }

    pub(crate) fn source(&self) -> &S
        ensures { result.now ≡ self.now.source }
    {
        &self.source
    }

    /// Cuts keys in order into batches of at most the limit, makes an order of each, counts it, and enters it in the
    /// log as asked in this round and not stored. Without a limit all keys are one batch; no keys make no order.
    ///
    /// `loader` is the number that the orders and their replies get. When out of memory, or if the count of orders
    /// would overflow, the loader and its log are as they were.
    pub fn cut(&mut self, loader: usize, round: u32, keys: &[Key]) -> Result<Vec<Order>, AllocError>
        ensures orders { IfOk result (λ orders. orders.items
            ≡ orders_of self.old.identity loader self.old.limit (map key_of keys.now)) }
        ensures pieces { IfOk result (λ orders.
            AreBatches self.old.limit (map key_of keys.now) (map (λ o. o.keys) orders.items)) }
        ensures entered { OnOk result (self.new ≡ asked_in self.old round (map key_of keys.now)) }
        ensures recorded { IsOnRecord self.old self.new }
        ensures kept { OnErr result (self.new ≡ self.old) }
    {
        let own = copy_of(*self.log.allocator(), keys)?;
        self.cut_owned(loader, round, own)
    }

    /// As [`cut`](Loader::cut), but takes the keys by value and copies none: the orders and the log share their list.
    /// When out of memory, or if the count of orders would overflow, the keys are gone, and the loader is as it was.
    pub fn cut_owned(
        &mut self,
        loader: usize,
        round: u32,
        keys: Vec<Key>,
    ) -> Result<Vec<Order>, AllocError>
        ensures orders { IfOk result (λ orders. orders.items
            ≡ orders_of self.old.identity loader self.old.limit (map key_of keys.items)) }
        ensures pieces { IfOk result (λ orders.
            AreBatches self.old.limit (map key_of keys.items) (map (λ o. o.keys) orders.items)) }
        ensures entered { OnOk result (self.new ≡ asked_in self.old round (map key_of keys.items)) }
        ensures recorded { IsOnRecord self.old self.new }
        ensures kept { OnErr result (self.new ≡ self.old) }
    {
        let alloc = *self.log.allocator();
        let most = piece_length(self.limit, &keys);
        let orders = cut_orders(alloc, &self.identity, loader, keys, most)?;
        let count = self
            .orders
            .checked_add(orders.len() as u64)
            .ok_or(AllocError)?;
        let earlier = self.log.len();
        enter(&mut self.log, round, &orders)?;
        self.orders = count;
        if self.latest < round {
            self.latest = round;
            self.earlier = earlier;
        }
        Ok(orders)
    }

    /// Marks the log entries of a round as stored, and changes nothing else. For the latest round it skips all
    /// earlier entries.
    pub fn mark_stored(&mut self, round: u32)
        ensures { self.new ≡ stored_in self.old round }
    {
        let first = if self.latest <= round {
            self.earlier
        } else {
            0
        };
        mark(&mut self.log, first, round);
    }

    /// Forgets what was asked: the loader is as it was made, but the count of its orders goes on. A short log keeps its
    /// memory for what is asked next.
    pub fn restart(&mut self)
        ensures { self.new ≡ unasked self.old }
    {
        if self.log.is_empty() {
            return;
        }
        if self.log.len() > KEPT_ENTRIES {
            self.log = Vec::new(*self.log.allocator());
        } else {
            self.log.clear();
        }
        self.latest = 0;
        self.earlier = 0;
    }
}

impl<S: Drop> Loader<S> {
    ghost use Rattle.load_queue.specs.Loaders.{IsBadLimit, made_of};

    /// A new loader with an empty log, of which no order was made yet. It asks its source for at most `max` keys at
    /// once, 1 to 65,535; `None` is no limit. No clause says which loader it is, so nobody can show that it is one made
    /// elsewhere.
    pub fn new(
        alloc: Global,
        name: &str,
        source: S,
        mode: KeyMode,
        max: Option<u32>,
    ) -> Result<Loader<S>, QueueFault>
        ensures made { IfOk result
            (λ l. l ≡ made_of l.identity name.now source mode max) }
        ensures refused { IsErrOf result QueueFault.BadLimit
            ↔ IsBadLimit max }
    {
        if let Some(limit) = max
            && (limit == 0 || limit > MAX_LIMIT)
        {
            return Err(QueueFault::BadLimit);
        }
        let name = String::from_str(alloc, name)?;
        Ok(Loader {
            name,
            source,
            mode,
            limit: max,
            log: Vec::new(alloc),
            latest: 0,
            earlier: 0,
            orders: 0,
            identity: Identity::new(),
        })
    }
}
