//! The texts of answers.

ghost use Rattle.std.specs.Prelude.{◌≡◌, ◌++◌, [], IfOk, OnOk, Some, string_bytes};
ghost use Rattle.json.specs.Lex.{tokens};
ghost use Rattle.json.specs.Print.{print};
ghost use Rattle.json.specs.Tree.{json_tokens};
ghost use Rattle.answer_json.specs.Answer.{errors_of, answer_front, request_error_json, refusal_json, json_text, ReadsBack};

use crate::field_error::FieldError;
use crate::put::{put_errors, put_places, put_text};
use gq_lexer::Place;
use json::Writer;
use std::alloc::{AllocError, Global};

/// The room that a text has from the start.
const FIRST_ROOM: usize = 128;

/// Writes the start of an answer, up to its data: its errors come first, and only where there are some. What follows is a response
/// and the end of an object.
///
/// # Errors
///
/// Only when out of memory.
pub fn begin_answer(writer: &mut Writer, errors: &[FieldError]) -> Result<(), AllocError>
    ensures ok { OnOk result (writer.new.tokens
        ≡ writer.old.tokens ++ answer_front (errors_of errors.now)) }
    ensures before { writer.new.before ≡ writer.old.before }
{
    writer.begin_object()?;
    if !errors.is_empty() {
        writer.key("errors")?;
        writer.begin_array()?;
        put_errors(writer, errors)?;
    }
    writer.key("data")
}

/// Writes the error of a request.
fn put_request_error(
    writer: &mut Writer,
    message: &str,
    place: Option<Place>,
) -> Result<(), AllocError>
    ensures ok { OnOk result (writer.new.tokens
        ≡ writer.old.tokens ++ json_tokens (request_error_json message.now place)) }
    ensures before { writer.new.before ≡ writer.old.before }
{
    writer.begin_object()?;
    put_text(writer, "message", message)?;
    if let Some(place) = place {
        put_places(writer, place)?;
    }
    writer.end_object()
}

/// Writes a refusal.
fn put_refusal(writer: &mut Writer, message: &str, place: Option<Place>) -> Result<(), AllocError>
    ensures ok { OnOk result
        (writer.new.tokens ≡ writer.old.tokens ++ json_tokens (refusal_json message.now place)) }
    ensures before { writer.new.before ≡ writer.old.before }
{
    writer.begin_object()?;
    writer.key("errors")?;
    writer.begin_array()?;
    put_request_error(writer, message, place)?;
    writer.end_array()?;
    writer.end_object()
}

/// Returns what was written, as text.
pub fn writer_text(writer: Writer) -> String
    requires { writer.before ≡ [] }
    ensures text { string_bytes result
        ≡ print writer.tokens }
    ensures tokens { tokens (string_bytes result)
        ≡ writer.tokens }
{
    let bytes = writer.into_inner();
    // SAFETY: a writer's text is UTF-8.
    unsafe { String::from_utf8_unchecked(bytes) }
}

/// The text of a request that is refused (section 7.1.2, request errors): an object whose only member `errors` has one
/// error, without `path`, and without `locations` where there is no place.
///
/// # Errors
///
/// Only when out of memory.
pub fn write_refusal(
    alloc: Global,
    message: &str,
    place: Option<Place>,
) -> Result<String, AllocError>
    ensures text { IfOk result (λ s. string_bytes s
        ≡ json_text (refusal_json message.now place)) }
    ensures reads_back { IfOk result (λ s.
        ReadsBack (refusal_json message.now place) (string_bytes s)) }
{
    let mut writer = Writer::new(Vec::with_capacity(alloc, FIRST_ROOM)?);
    put_refusal(&mut writer, message, place)?;
    Ok(writer_text(writer))
}
