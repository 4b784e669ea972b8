//! The tokens of rounds, batches and keys, one after another.

ghost use Rattle.std.specs.Prelude.{◌≡◌, ◌++◌, OnOk, map};
ghost use Rattle.json.specs.Tree.{json_tokens, items_tokens};
ghost use Rattle.json.specs.Value.{items_of};
ghost use Rattle.load_memory.specs.Keys.{key_of};
ghost use Rattle.load_queue.specs.Logs.{asked_of};
ghost use Rattle.load_trace.specs.Traces.{key_json, batch_json, batch_of, batches_in, batches_tokens, round_json, round_batches, rounds_json, rounds_upto};

use json::Writer;
use load_memory::Key;
use load_queue::{Loader, LogEntry};
use std::alloc::AllocError;

// Writes a key.
fn put_key(writer: &mut Writer, key: &Key) -> Result<(), AllocError>
    ensures ok { OnOk result
        (writer.new.tokens ≡ writer.old.tokens ++ json_tokens (key_json (key_of key.now))) }
    ensures before { writer.new.before ≡ writer.old.before }
{
    match key {
        Key::All => writer.null(),
        Key::Text(text) => writer.string(text.as_str()),
        Key::Pair(pair) => {
            writer.begin_array()?;
            writer.string(pair.one.as_str())?;
            writer.string(pair.two.as_str())?;
            writer.end_array()
        }
    }
}

// Writes keys and the end of their list.
fn put_keys(writer: &mut Writer, keys: &[Key]) -> Result<(), AllocError>
    ensures ok { OnOk result (writer.new.tokens
        ≡ writer.old.tokens ++ items_tokens (items_of (map key_json (map key_of keys.now)))) }
    ensures before { writer.new.before ≡ writer.old.before }
{
    for key in keys {
        put_key(writer, key)?;
    }
    writer.end_array()
}

// Writes a batch.
fn put_batch(writer: &mut Writer, loader: &str, keys: &[Key]) -> Result<(), AllocError>
    ensures ok { OnOk result (writer.new.tokens ≡ writer.old.tokens ++ json_tokens
        (batch_json (batch_of loader.now (map key_of keys.now)))) }
    ensures before { writer.new.before ≡ writer.old.before }
{
    writer.begin_object()?;
    writer.key("loader")?;
    writer.string(loader)?;
    writer.key("keys")?;
    writer.begin_array()?;
    put_keys(writer, keys)?;
    writer.end_object()
}

// Writes the batches of a round that stand in a loader's log.
fn put_entries(
    writer: &mut Writer,
    loader: &str,
    log: &[LogEntry],
    round: u32,
) -> Result<(), AllocError>
    ensures ok { OnOk result (writer.new.tokens ≡ writer.old.tokens ++ batches_tokens
        (batches_in round loader.now (map asked_of log.now))) }
    ensures before { writer.new.before ≡ writer.old.before }
{
    for entry in log {
        if entry.round == round {
            put_batch(writer, loader, entry.keys.as_slice())?;
        }
    }
    Ok(())
}

// Writes the batches of a round.
fn put_batches<S>(writer: &mut Writer, loaders: &[Loader<S>], round: u32) -> Result<(), AllocError>
    ensures ok { OnOk result (writer.new.tokens
        ≡ writer.old.tokens ++ batches_tokens (round_batches round loaders.now)) }
    ensures before { writer.new.before ≡ writer.old.before }
{
    for loader in loaders {
        put_entries(writer, loader.name(), loader.log(), round)?;
    }
    Ok(())
}

// Writes a round.
fn put_round<S>(writer: &mut Writer, loaders: &[Loader<S>], round: u32) -> Result<(), AllocError>
    ensures ok { OnOk result (writer.new.tokens
        ≡ writer.old.tokens ++ json_tokens (round_json (round_batches round loaders.now))) }
    ensures before { writer.new.before ≡ writer.old.before }
{
    writer.begin_array()?;
    put_batches(writer, loaders, round)?;
    writer.end_array()
}

/// Writes the list of the rounds up to this one.
pub fn put_rounds<S>(
    writer: &mut Writer,
    loaders: &[Loader<S>],
    last: u32,
) -> Result<(), AllocError>
    ensures ok { OnOk result (writer.new.tokens
        ≡ writer.old.tokens ++ json_tokens (rounds_json (rounds_upto last loaders.now))) }
    ensures before { writer.new.before ≡ writer.old.before }
{
    writer.begin_array()?;
    let mut round = 0;
    while round < last {
        round += 1;
        put_round(writer, loaders, round)?;
    }
    writer.end_array()
}
