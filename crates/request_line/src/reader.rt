//! Reading request lines, one after another.

ghost use Rattle.std.specs.Prelude.{◌≡◌, None, Some, IfOk, IfSome, MatchOption, IsUtf8};
ghost use Rattle.serde_json.specs.View.{view};
ghost use Rattle.serde_json.specs.Read.{read};
ghost use Rattle.request_line.specs.Seen.{IsReading};

use crate::line::Line;
use crate::plain::read_plain;
use json::Scratch;
use serde_json::Value;
use serde_json::error::Category;
use std::alloc::{AllocError, Global};
use std::str;

// The value that a line is. `None` is no JSON text: not UTF-8, or not read by `serde_json`, which refuses more than 127 levels
// of nesting, numbers beyond a float's range, lone surrogate escapes and a byte order mark.
fn read_value(alloc: Global, line: &[u8]) -> Result<Option<Value>, AllocError>
    ensures { IfOk result (λ r. MatchOption r (IsUtf8 line.now → read line.now ≡ None)
        (λ value. IsUtf8 line.now × (read line.now ≡ Some (view value)))) }
{
    match Value::from_slice(alloc, line) {
        Ok(value) => Ok(Some(value)),
        Err(error) => {
            if error.classify() == Category::Memory {
                Err(AllocError)
            } else {
                Ok(None)
            }
        }
    }
}

// Returns what a line asks that is read as [`read_plain`] reads it.
fn read_plain_line<'l>(
    alloc: Global,
    line: &'l [u8],
    scratch: &'l mut Scratch,
    variables: &'l mut Value,
) -> Result<Option<Line<'l>>, AllocError>
    ensures { IfOk result
        (λ read. IfSome read (IsReading line.now)) }
{
    match str::from_utf8(line) {
        Ok(text) => read_plain(alloc, text, scratch, variables),
        Err(_) => Ok(None),
    }
}

// Returns what a line asks, whose value is put into `value`. The index of a text stands in its frame, and in no other.
#[inline(never)]
fn read_as_value<'l>(
    alloc: Global,
    line: &[u8],
    value: &'l mut Value,
) -> Result<Line<'l>, AllocError>
    ensures { IfOk result (IsReading line.now) }
{
    match read_value(alloc, line) {
        Ok(Some(read)) => {
            *value = read;
            Line::of_value(alloc, value)
        }
        Ok(None) => Ok(Line::NoRequest),
        Err(want) => Err(want),
    }
}

// Returns what a line asks, which is read without a value if it can be.
fn read_line<'l>(
    alloc: Global,
    line: &'l [u8],
    scratch: &'l mut Scratch,
    variables: &'l mut Value,
    value: &'l mut Value,
) -> Result<Line<'l>, AllocError>
    ensures { IfOk result (IsReading line.now) }
{
    match read_plain_line(alloc, line, scratch, variables) {
        Ok(Some(found)) => Ok(found),
        Ok(None) => read_as_value(alloc, line, value),
        Err(want) => Err(want),
    }
}

/// Holds what reads request lines, one after another.
///
/// It is kept, since reading takes 16 KiB for the index of a text, which would be filled with zeros for each
/// line; they stand in a box that the first line makes. It holds the value of the last line that was read to
/// one, from which a request may borrow.
#[derive(Drop)]
pub struct LineReader {
    // Room for strings with escapes, and for the index of a line. It has 16 KiB, so it stands in a box: whoever holds a reader
    // moves it cheaply. The first line makes it.
    scratch: Option<Box<Scratch>>,
    // The variables of the last line, if it was read without a value of its own.
    variables: Value,
    // The value of the last line, if it was read as one.
    value: Value,
}

impl LineReader {
    /// A reader, which allocates nothing until it reads.
    pub fn new() -> LineReader {
        LineReader {
            scratch: None,
            variables: Value::Null,
            value: Value::Null,
        }
    }

    /// Returns what a line asks. A request is an object with a string `query` and, if wanted, `operationName`, a string or null, and
    /// `variables`. Other members are ignored; of a repeated member the last counts. Several are the values of an array of 1 to 16,
    /// of which each is a request or none. Everything else is no request: another value, a longer array or an empty one, what isn't
    /// UTF-8, and what `serde_json` doesn't read, which refuses more than 127 levels of nesting, numbers beyond a float's range,
    /// lone surrogate escapes and a byte order mark.
    ///
    /// # Errors
    ///
    /// Only when out of memory.
    pub fn read<'l>(&'l mut self, alloc: Global, line: &'l [u8]) -> Result<Line<'l>, AllocError>
        ensures { IfOk result (IsReading line.now) }
    {
        self.variables = Value::Null;
        self.value = Value::Null;
        let make = || Box::new(alloc, Scratch::new(alloc));
        let Ok(scratch) = self.scratch.get_or_try_insert_with(make) else {
            return Err(AllocError);
        };
        read_line(alloc, line, scratch, &mut self.variables, &mut self.value)
    }
}
