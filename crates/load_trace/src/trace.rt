//! The text of a trace.

ghost use Rattle.std.specs.Prelude.{◌≡◌, ◌++◌, [], IfOk, OnOk, string_bytes};
ghost use Rattle.json.specs.Print.{print};
ghost use Rattle.json.specs.Tree.{json_tokens, members_tokens};
ghost use Rattle.load_trace.specs.Traces.{count_member, trace_json, trace_of, trace_of_logs, trace_text};

use crate::put::put_rounds;
use crate::rounds::last_round;
use json::Writer;
use load_queue::Loader;
use load_rounds::Session;
use std::alloc::{AllocError, Global};

/// The room that a text has from the start.
const FIRST_ROOM: usize = 128;

// Returns what was written, as text.
fn into_text(writer: Writer) -> String
    requires { writer.before ≡ [] }
    ensures { string_bytes result ≡ print writer.tokens }
{
    let bytes = writer.into_inner();
    // SAFETY: a writer's text is UTF-8.
    unsafe { String::from_utf8_unchecked(bytes) }
}

// Writes the count, where there is one, and the end of the object.
fn put_count(writer: &mut Writer, key_by_key: Option<u64>) -> Result<(), AllocError>
    ensures ok { OnOk result
        (writer.new.tokens ≡ writer.old.tokens ++ members_tokens (count_member key_by_key)) }
    ensures before { writer.new.before ≡ writer.old.before }
{
    if let Some(count) = key_by_key {
        writer.key("keyByKey")?;
        writer.u64(count)?;
    }
    writer.end_object()
}

// Writes the rounds of the logs, and the count.
fn put_trace<S>(
    writer: &mut Writer,
    loaders: &[Loader<S>],
    key_by_key: Option<u64>,
) -> Result<(), AllocError>
    ensures ok { OnOk result (writer.new.tokens
        ≡ writer.old.tokens ++ json_tokens (trace_json (trace_of_logs loaders.now key_by_key))) }
    ensures before { writer.new.before ≡ writer.old.before }
{
    writer.begin_object()?;
    writer.key("rounds")?;
    put_rounds(writer, loaders, last_round(loaders))?;
    put_count(writer, key_by_key)
}

/// The batches of a session's logs as an object with the member `rounds`: an array of the rounds, each an array of its batches, each an
/// object with the `loader`'s name and its `keys` in the order in which they were asked. A key is a string, a pair an array of two, and
/// all rows are `null`. Rounds that were lost are there too. Strings are escaped as in answers. Where it is given, the member `keyByKey`
/// is how many calls execution key by key would have made.
///
/// # Errors
///
/// Only when out of memory.
pub fn write_trace<S>(
    alloc: Global,
    session: &Session<S>,
    key_by_key: Option<u64>,
) -> Result<String, AllocError>
    ensures { IfOk result (λ text.
        string_bytes text ≡ trace_text (trace_of session.now key_by_key)) }
{
    let mut writer = Writer::new(Vec::with_capacity(alloc, FIRST_ROOM)?);
    put_trace(&mut writer, session.loaders(), key_by_key)?;
    Ok(into_text(writer))
}
