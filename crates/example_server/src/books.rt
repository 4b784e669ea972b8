//! A source of books, which a command would ask over a network: many ids in one call.

ghost use Rattle.server.specs.Sources.{any_answer};

use server::{FetchFault, Item, Key, Row, Rows, Source};
use std::alloc::Global;

/// The books by id.
const TITLES: [(&str, &str); 3] = [("1", "Emma"), ("2", "Ulysses"), ("3", "Walden")];

/// The books.
#[derive(Clone, Copy, Drop)]
pub struct Books;

// The rows of one id: none where there is no such book.
fn rows(alloc: Global, id: &str) -> Result<Rows, FetchFault> {
    let mut rows = Rows::none();
    for (own, title) in TITLES {
        if own == id {
            rows.push(alloc, Row::new(alloc, &[("id", id), ("title", title)])?)?;
        }
    }
    Ok(rows)
}

// The item of a key. Keys of these loaders are texts.
fn item(alloc: Global, key: &Key) -> Result<Item, FetchFault> {
    match key {
        Key::Text(id) => Ok(Item::Rows(rows(alloc, id.as_str())?)),
        _ => Ok(Item::Rows(Rows::none())),
    }
}

/// An item for each key, in order. [`source_fn`](server::source_fn) makes a source of it.
pub fn fetch_books(alloc: Global, keys: &[Key]) -> Result<Vec<Item>, FetchFault> {
    keys.iter().map(|key| item(alloc, key)).try_collect(alloc)
}

impl Source for Books {
    ghost may_answer = { λ _ keys answer. any_answer keys answer };

    fn fetch(&self, alloc: Global, keys: &[Key]) -> Result<Vec<Item>, FetchFault> {
        fetch_books(alloc, keys)
    }
}
