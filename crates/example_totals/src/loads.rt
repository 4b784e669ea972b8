//! The calls of a session that DataLoaders have too: load, load many, prime, clear, and to start again.

use crate::report::record;
use crate::shop::{CUSTOMER_BY_ID, Calls, CountedTable, session};
use anyhow::Result;
use load_memory::{Cell, Item, Key, Outcome, Row};
use load_rounds::Session;
use std::alloc::{AllocError, Global};

fn key_of(alloc: Global, id: &str) -> Result<Key, AllocError> {
    Key::of_text(alloc, id)
}

// The name in a customer's row.
fn name_of(rows: &[Row]) -> &str {
    match rows {
        [] => "nobody",
        [row, ..] => match row.get("name") {
            Cell::Text(name) => name,
            Cell::NoColumn | Cell::Null => "no name",
        },
    }
}

// Adds what came of a key.
fn push_outcome(text: &mut String, outcome: &Outcome) -> Result<(), AllocError> {
    text.push(' ')?;
    match outcome {
        Outcome::Rows(rows) => text.push_str(name_of(rows)),
        Outcome::KeyFault(fault) | Outcome::BatchFault(fault) => text.push_str(fault.as_str()),
    }
}

// Customers, in one round.
fn load_many(
    alloc: Global,
    session: &mut Session<CountedTable<'_>>,
    ids: &[&str],
) -> Result<String> {
    let mut keys = Vec::with_capacity(alloc, ids.len())?;
    for id in ids {
        keys.push(key_of(alloc, id)?)?;
    }
    let outcomes = session.load_many(CUSTOMER_BY_ID, keys.as_slice())?;
    let mut text = String::from_str(alloc, "load many:")?;
    for outcome in outcomes.iter() {
        push_outcome(&mut text, outcome)?;
    }
    Ok(text)
}

// One customer.
fn load(alloc: Global, session: &mut Session<CountedTable<'_>>, id: &str) -> Result<String> {
    let outcome = session.load(CUSTOMER_BY_ID, key_of(alloc, id)?)?;
    let mut text = format!(in alloc; "load {id}:")?;
    push_outcome(&mut text, &outcome)?;
    Ok(text)
}

// A customer that is known from elsewhere, unless one of that id is known.
fn prime(
    alloc: Global,
    session: &mut Session<CountedTable<'_>>,
    id: &str,
    name: &str,
) -> Result<String> {
    let row = Row::new(alloc, &[("id", id), ("name", name)])?;
    let item = Item::Rows(row.into());
    let added = session.prime(CUSTOMER_BY_ID, &key_of(alloc, id)?, item)?;
    Ok(format!(in alloc; "prime {id} as {name}: {added}")?)
}

// Forgets what was known of a customer.
fn clear(alloc: Global, session: &mut Session<CountedTable<'_>>, id: &str) -> Result<String> {
    let known = session.clear(CUSTOMER_BY_ID, &key_of(alloc, id)?)?;
    Ok(format!(in alloc; "clear {id}: {known}")?)
}

// Writes a step, and what stands on record after it.
fn write_step(
    rt: &impl Print,
    alloc: Global,
    step: &str,
    session: &Session<CountedTable<'_>>,
    calls: &Calls,
) -> Result<()> {
    let record = record(alloc, session, calls)?;
    print!(rt; "  {step}\n{record}")?;
    Ok(())
}

/// Shows the calls on one session, one after another.
pub fn show(rt: &impl Print, alloc: Global) -> Result<()> {
    let calls = Calls::new();
    let mut shop = session(alloc, &calls, None)?;
    let text = load_many(alloc, &mut shop, &["ada", "bob", "ada"])?;
    write_step(rt, alloc, text.as_str(), &shop, &calls)?;
    let text = load(alloc, &mut shop, "bob")?;
    write_step(rt, alloc, text.as_str(), &shop, &calls)?;
    let text = prime(alloc, &mut shop, "bob", "Robert")?;
    write_step(rt, alloc, text.as_str(), &shop, &calls)?;
    let text = prime(alloc, &mut shop, "cy", "Cyrus")?;
    write_step(rt, alloc, text.as_str(), &shop, &calls)?;
    let text = load_many(alloc, &mut shop, &["cy", "eve", "zoe"])?;
    write_step(rt, alloc, text.as_str(), &shop, &calls)?;
    let text = clear(alloc, &mut shop, "cy")?;
    write_step(rt, alloc, text.as_str(), &shop, &calls)?;
    let text = load(alloc, &mut shop, "cy")?;
    write_step(rt, alloc, text.as_str(), &shop, &calls)?;
    shop.restart()?;
    write_step(rt, alloc, "restart", &shop, &calls)?;
    let text = load(alloc, &mut shop, "cy")?;
    write_step(rt, alloc, text.as_str(), &shop, &calls)
}
