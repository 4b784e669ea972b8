//! A directory of people, as a server would ask it over a network: many ids in one call.

ghost use Rattle.server.specs.Sources.{item_for_each};

use server::{FetchFault, Item, Key, Row, Rows, Source};
use std::alloc::Global;

/// The people by id, with their names and the ids of their managers.
const PEOPLE: [(&str, &str, &str); 4] = [
    ("1", "Ada", "3"),
    ("2", "Bob", "3"),
    ("3", "Cy", "4"),
    ("4", "Dee", ""),
];

/// The id that nobody may ask for. What else is asked together with it is answered.
const PRIVATE: &str = "0";

/// The id at which the directory breaks down, with all that is asked together with it.
const BROKEN: &str = "down";

/// The directory. It returns an item for each key, or fails as a whole.
#[derive(Clone, Copy, Drop)]
pub struct Directory;

// The row of a person.
fn person(alloc: Global, id: &str) -> Result<Rows, FetchFault> {
    let mut rows = Rows::none();
    for (known, name, manager) in PEOPLE {
        if known == id {
            rows.push(
                alloc,
                Row::new(alloc, &[("id", id), ("name", name), ("manager", manager)])?,
            )?;
        }
    }
    Ok(rows)
}

// Returns what the directory says of a key.
fn item(alloc: Global, key: &Key) -> Result<Item, FetchFault> {
    match key {
        Key::All | Key::Pair(..) => Ok(Item::Rows(Rows::none())),
        Key::Text(id) if id.as_str() == PRIVATE => Ok(Item::KeyFault(String::from_str(
            alloc,
            "nobody may ask for this person",
        )?)),
        Key::Text(id) => Ok(Item::Rows(person(alloc, id.as_str())?)),
    }
}

// Tells whether the directory breaks down at a key.
fn breaks_at(key: &Key) -> bool {
    matches!(key, Key::Text(id) if id.as_str() == BROKEN)
}

impl Source for Directory {
    ghost may_answer = { λ _ keys answer. item_for_each keys answer };

    fn fetch(&self, alloc: Global, keys: &[Key]) -> Result<Vec<Item>, FetchFault> {
        if keys.iter().any(breaks_at) {
            return Err(FetchFault::Failed(String::from_str(alloc, "the directory is down")?));
        }
        keys.iter().map(|key| item(alloc, key)).try_collect(alloc)
    }
}
