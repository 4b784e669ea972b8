//! Records of a session's loaders, beside what their sources counted.

use crate::shop::{Calls, CountedTable};
use load_memory::Key;
use load_queue::{Loader, LogEntry};
use load_rounds::Session;
use std::alloc::{AllocError, Global};

/// Adds keys to a text, as `[ada bob]`.
pub fn push_keys(text: &mut String, keys: &[Key]) -> Result<(), AllocError> {
    let mut mark = "[";
    for key in keys {
        text.push_str(mark)?;
        match key {
            Key::All => text.push_str("all")?,
            Key::Text(id) => text.push_str(id.as_str())?,
            Key::Pair(pair) => write!(text, "({},{})", pair.one, pair.two)?,
        }
        mark = " ";
    }
    text.push(']')
}

// Adds a batch of a log, as `round 1 [ada bob] stored`.
fn push_batch(text: &mut String, batch: &LogEntry) -> Result<(), AllocError> {
    let round = batch.round;
    write!(text, "; round {round} ")?;
    push_keys(text, batch.keys.as_slice())?;
    text.push_str(if batch.stored {
        " stored"
    } else {
        " not stored"
    })
}

// Adds a line of a loader: the orders that were ever made of it, the calls that its source counted, and its log.
fn push_loader(
    text: &mut String,
    loader: &Loader<CountedTable<'_>>,
    calls: u64,
) -> Result<(), AllocError> {
    let name = loader.name();
    let orders = loader.orders();
    write!(text, "    {name}: orders {orders}, calls {calls}")?;
    for batch in loader.log() {
        push_batch(text, batch)?;
    }
    text.push('\n')
}

/// A line of each loader of which an order was made.
pub fn record(
    alloc: Global,
    session: &Session<CountedTable<'_>>,
    calls: &Calls,
) -> Result<String, AllocError> {
    let mut text = String::new(alloc);
    for (number, loader) in session.loaders().iter().enumerate() {
        if loader.orders() != 0 {
            push_loader(&mut text, loader, calls.of(number))?;
        }
    }
    Ok(text)
}
