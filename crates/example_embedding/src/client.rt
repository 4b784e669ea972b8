//! The lines of a client.

use crate::directory::Directory;
use server::{ClientSession, Item, Key, Request, RequestInput, Row, Workers};
use std::alloc::Global;
use std::sync::Wait;
use std::thread::Threads;

/// The number of the one loader.
const PERSON_BY_ID: usize = 0;

fn key_of(alloc: Global, id: &str) -> anyhow::Result<Key> {
    Ok(Key::of_text(alloc, id)?)
}

// Returns what a client tells of a person is believed for its session, where nothing is known of that
// person yet.
fn prime<'n>(
    alloc: Global,
    session: &mut ClientSession<Directory>,
    id: &'n str,
    name: &'n str,
) -> anyhow::Result<String> {
    let row = Row::new(alloc, &[("id", id), ("name", name), ("manager", "")])?;
    let item = Item::Rows(row.into());
    let added = session.prime(PERSON_BY_ID, &key_of(alloc, id)?, item)?;
    Ok(format!(in alloc; "primed: {added}")?)
}

// Forgets what was known of a person, so that the directory is asked again.
fn clear(
    alloc: Global,
    session: &mut ClientSession<Directory>,
    id: &str,
) -> anyhow::Result<String> {
    let known = session.clear(PERSON_BY_ID, &key_of(alloc, id)?)?;
    Ok(format!(in alloc; "cleared: {known}")?)
}

// The batches that the directory was asked, oldest first, each with its round.
fn log(alloc: Global, session: &ClientSession<Directory>) -> anyhow::Result<String> {
    let mut text = String::from_str(alloc, "log:")?;
    for batch in session.session().logs(PERSON_BY_ID).unwrap_or(&[]) {
        text.push_str(format!(in alloc; " round {}", batch.round)?.as_str())?;
        for key in batch.keys.as_slice() {
            if let Key::Text(id) = key {
                text.push(' ')?;
                text.push_str(id.as_str())?;
            }
        }
        text.push(';')?;
    }
    Ok(text)
}

// The response to a query, and its rounds.
fn answer<R: Threads + Wait + Sync>(
    alloc: Global,
    workers: &Workers<'_, R>,
    session: &mut ClientSession<Directory>,
    query: &str,
) -> anyhow::Result<String> {
    let request = Request {
        query,
        operation_name: None,
        variables: None,
    };
    let answer = session.answer_with(workers, RequestInput::One(&request))?;
    Ok(format!(in alloc; "{} rounds: {}", answer.rounds, answer.text)?)
}

/// Returns what a client reads for its line.
pub fn reply<R: Threads + Wait + Sync>(
    alloc: Global,
    workers: &Workers<'_, R>,
    session: &mut ClientSession<Directory>,
    line: &str,
) -> anyhow::Result<String> {
    if line == "log" {
        return log(alloc, session);
    }
    if let Some(id) = line.strip_prefix("clear ") {
        return clear(alloc, session, id);
    }
    match line
        .strip_prefix("prime ")
        .and_then(|rest| rest.split_once(' '))
    {
        Some((id, name)) => prime(alloc, session, id, name),
        None => answer(alloc, workers, session, line),
    }
}
