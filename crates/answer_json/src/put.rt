//! The tokens of errors, one after another.

ghost use Rattle.std.specs.Prelude.{◌≡◌, [], ◌∷◌, ◌++◌, OnOk, map, codes, decimal};
ghost use Rattle.json.specs.Token.{key, number, string};
ghost use Rattle.json.specs.Tree.{json_tokens, items_tokens};
ghost use Rattle.answer_json.specs.Answer.{part_of, error_of, errors_of, place_json, places_json, path_json, error_json, errors_json};

use crate::field_error::{FieldError, PathSegment};
use gq_lexer::Place;
use json::Writer;
use std::alloc::AllocError;

/// Writes a member that is a number.
fn put_number(writer: &mut Writer, name: &str, value: u32) -> Result<(), AllocError>
    ensures ok { OnOk result
        (writer.new.tokens ≡ writer.old.tokens ++ key name.now ∷ number (decimal value) ∷ []) }
    ensures before { writer.new.before ≡ writer.old.before }
{
    writer.key(name)?;
    writer.u64(u64::from(value))
}

/// Writes a member that is a string.
pub fn put_text(writer: &mut Writer, name: &str, text: &str) -> Result<(), AllocError>
    ensures ok { OnOk result
        (writer.new.tokens ≡ writer.old.tokens ++ key name.now ∷ string text.now ∷ []) }
    ensures before { writer.new.before ≡ writer.old.before }
{
    writer.key(name)?;
    writer.string(text)
}

/// Writes a place.
fn put_place(writer: &mut Writer, place: Place) -> Result<(), AllocError>
    ensures ok { OnOk result
        (writer.new.tokens ≡ writer.old.tokens ++ json_tokens (place_json place)) }
    ensures before { writer.new.before ≡ writer.old.before }
{
    writer.begin_object()?;
    put_number(writer, "line", place.line)?;
    put_number(writer, "column", place.column)?;
    writer.end_object()
}

/// Writes the member of a place.
pub fn put_places(writer: &mut Writer, place: Place) -> Result<(), AllocError>
    ensures ok { OnOk result (writer.new.tokens
        ≡ writer.old.tokens ++ key (codes "locations") ∷ json_tokens (places_json place)) }
    ensures before { writer.new.before ≡ writer.old.before }
{
    writer.key("locations")?;
    writer.begin_array()?;
    put_place(writer, place)?;
    writer.end_array()
}

/// Writes the parts of a path and its end.
fn put_path(writer: &mut Writer, path: &Vec<PathSegment>) -> Result<(), AllocError>
    ensures ok { OnOk result
        (writer.new.tokens ≡ writer.old.tokens ++ items_tokens (path_json (map part_of path.now.items))) }
    ensures before { writer.new.before ≡ writer.old.before }
{
    for part in path {
        match part {
            PathSegment::Key(key) => writer.string(key.as_str())?,
            PathSegment::Item(index) => writer.u64(*index as u64)?,
        }
    }
    writer.end_array()
}

/// Writes a field error.
fn put_error(writer: &mut Writer, error: &FieldError) -> Result<(), AllocError>
    ensures ok { OnOk result
        (writer.new.tokens ≡ writer.old.tokens ++ json_tokens (error_json (error_of error.now))) }
    ensures before { writer.new.before ≡ writer.old.before }
{
    writer.begin_object()?;
    put_text(writer, "message", error.message.as_str())?;
    put_places(writer, error.place)?;
    writer.key("path")?;
    writer.begin_array()?;
    put_path(writer, &error.path)?;
    writer.end_object()
}

/// Writes field errors and the end of their list.
pub fn put_errors(writer: &mut Writer, errors: &[FieldError]) -> Result<(), AllocError>
    ensures ok { OnOk result
        (writer.new.tokens ≡ writer.old.tokens ++ items_tokens (errors_json (errors_of errors.now))) }
    ensures before { writer.new.before ≡ writer.old.before }
{
    for error in errors {
        put_error(writer, error)?;
    }
    writer.end_array()
}
