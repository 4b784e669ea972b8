//! The tables of a shop in memory, as sources that count how often they are asked.

use load_memory::{Item, Key, KeyMode, Row, Rows};
use load_queue::{FetchFault, Loader, LocalSource};
use load_rounds::Session;
use std::alloc::{AllocError, Global};
use std::cell::Cell;

/// The numbers of the loaders.
pub const FRIENDS_OF: usize = 0;

pub const ORDERS_OF: usize = 1;

pub const CUSTOMER_BY_ID: usize = 2;

/// Each friend of each customer. Nobody knows the id of Fay's only friend.
static FRIENDS: [(&str, &str); 8] = [
    ("ada", "bob"),
    ("ada", "cy"),
    ("ada", "dee"),
    ("bob", "ada"),
    ("bob", "cy"),
    ("dee", "eve"),
    ("fay", ""),
    ("hal", "gus"),
];

/// The amount of each order of each customer. That of the last isn't a number.
static ORDERS: [(&str, &str); 5] = [
    ("ada", "30"),
    ("bob", "5"),
    ("bob", "20"),
    ("cy", "7"),
    ("gus", "a few"),
];

/// The name of each customer.
static CUSTOMERS: [(&str, &str); 3] = [("ada", "Ada"), ("bob", "Bob"), ("cy", "Cy")];

/// Customer who keeps to herself what belongs to her.
const PRIVATE: &str = "eve";

/// The tables. All loaders of a session have one type of source, so this is an enum.
#[derive(Clone, Copy)]
enum ShopSource {
    Friends,
    Orders,
    Customers,
}

impl ShopSource {
    // The names of its two columns.
    fn columns(self) -> (&'static str, &'static str) {
        match self {
            ShopSource::Friends => ("customer", "friend"),
            ShopSource::Orders => ("customer", "amount"),
            ShopSource::Customers => ("id", "name"),
        }
    }

    fn rows(self) -> &'static [(&'static str, &'static str)] {
        match self {
            ShopSource::Friends => &FRIENDS,
            ShopSource::Orders => &ORDERS,
            ShopSource::Customers => &CUSTOMERS,
        }
    }

    // The rows of a key.
    fn rows_of(self, alloc: Global, key: &str) -> Result<Rows, AllocError> {
        let (by, of) = self.columns();
        let mut rows = Rows::none();
        for (known, value) in self.rows() {
            if *known == key {
                rows.push(alloc, Row::new(alloc, &[(by, key), (of, value)])?)?;
            }
        }
        Ok(rows)
    }

    // Returns what it says of a key.
    fn item(self, alloc: Global, key: &Key) -> Result<Item, FetchFault> {
        match key {
            Key::All | Key::Pair(..) => Ok(Item::Rows(Rows::none())),
            Key::Text(id) if id.as_str() == PRIVATE => {
                Ok(Item::KeyFault(String::from_str(alloc, "eve keeps it to herself")?))
            }
            Key::Text(id) => Ok(Item::Rows(self.rows_of(alloc, id.as_str())?)),
        }
    }
}

/// Counts of the calls of each loader's source.
#[derive(Drop)]
pub struct Calls {
    counts: [Cell<u64>; 3],
}

impl Calls {
    /// No source was asked.
    pub fn new() -> Calls {
        Calls {
            counts: [Cell::new(0), Cell::new(0), Cell::new(0)],
        }
    }

    /// Returns how often the source of a loader was asked.
    pub fn of(&self, loader: usize) -> u64 {
        match self.counts.get(loader) {
            Some(count) => count.get(),
            None => 0,
        }
    }
}

/// A table behind a loader, which counts its batches. It is asked on one thread, so that a cell counts them.
#[derive(Drop)]
pub struct CountedTable<'c> {
    table: ShopSource,
    calls: &'c Cell<u64>,
}

impl LocalSource for CountedTable<'_> {
    ghost use Rattle.load_rounds.specs.Histories.{any_tell};

    // whatever it answers, the promises of sessions hold
    ghost may_tell = { any_tell };

    fn ask(&self, alloc: Global, keys: &[Key]) -> Result<Vec<Item>, FetchFault> {
        self.calls.set(self.calls.get().saturating_add(1));
        let mut items = Vec::with_capacity(alloc, keys.len())?;
        for key in keys {
            items.push(self.table.item(alloc, key)?)?;
        }
        Ok(items)
    }
}

/// A new session over the three tables, whose sources are asked for at most `limit` keys at once.
pub fn session<'c>(
    alloc: Global,
    calls: &'c Calls,
    limit: Option<u32>,
) -> anyhow::Result<Session<CountedTable<'c>>> {
    let [friends, orders, customers] = &calls.counts;
    let friends = CountedTable {
        table: ShopSource::Friends,
        calls: friends,
    };
    let orders = CountedTable {
        table: ShopSource::Orders,
        calls: orders,
    };
    let customers = CountedTable {
        table: ShopSource::Customers,
        calls: customers,
    };
    let friends = Loader::new(alloc, "friendsOf", friends, KeyMode::Exact, limit)?;
    let orders = Loader::new(alloc, "ordersOf", orders, KeyMode::Exact, limit)?;
    let customers = Loader::new(alloc, "customerById", customers, KeyMode::Exact, limit)?;
    let loaders = vec![in alloc; friends, orders, customers]?;
    Ok(Session::new(alloc, loaders)?)
}
