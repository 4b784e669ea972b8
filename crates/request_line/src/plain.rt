//! Requests read token by token, without a value of the whole line.
//!
//! It keeps the last string of each name, borrowed from the line, and the value of the variables, with numbers
//! read as `serde_json` reads them. It gives up at the first fault, and `serde_json` reads the line from its
//! beginning: so one place says what no request is, and only a line that is refused or an array is read twice.

ghost use Rattle.std.specs.Prelude.{◌≡◌, ◌<◌, length, IfSome, IfOk, OnOk, option_map};
ghost use Rattle.serde_json.specs.Data.{Members, no_members, object, put};
ghost use Rattle.request_line.specs.Requests.{asked};
ghost use Rattle.request_line.specs.Seen.{request_of, IsReading};
ghost use Rattle.request_line.specs.Plain.{value_seen, ReadsMembers, Says};

use crate::line::Line;
use crate::member::{MemberValue, next_value};
use crate::request::Request;
use json::{Reader, Scratch, Token};
use serde_json::Value;
use std::alloc::{AllocError, Global};

// Depth to which the value of a member of a line may nest: the line's object is the first of 127 levels.
const MEMBER_DEPTH: usize = 126;

// Holds what the members of an object say of its request.
#[derive(Drop)]
struct RequestMembers<'l> {
    // The query, if it is a string.
    query: Option<&'l str>,
    // The name of the operation, if it is a string, null or not given.
    operation_name: Option<Option<&'l str>>,
    // The variables, if they are given.
    variables: Option<Value>,
}

impl<'l> RequestMembers<'l> {
    // Of no members.
    fn new() -> RequestMembers<'l>
        ensures { Says no_members result }
    {
        RequestMembers {
            query: None,
            operation_name: Some(None),
            variables: None,
        }
    }

    // One more member, whose value counts instead of an earlier one of its name.
    fn put(&mut self, alloc: Global, name: &str, value: MemberValue<'l>) -> Result<(), AllocError>
        ensures { OnOk result ((found : Members) → Says found self.old
            → Says (put name.now (value_seen value.entry) found) self.new) }
    {
        if name == "query" {
            self.query = value.as_str();
        } else if name == "operationName" {
            self.operation_name = value.as_name();
        } else if name == "variables" {
            self.variables = Some(value.into_value(alloc)?);
        }
        Ok(())
    }

    // The request that they say, whose variables are put into a value.
    fn request(self, value: &'l mut Value) -> Option<Request<'l>>
        ensures { (found : Members) → Says found self.entry
            → option_map request_of result ≡ asked (object found) }
    {
        let query = self.query?;
        let operation_name = self.operation_name?;
        let variables: Option<&'l Value> = match self.variables {
            Some(variables) => {
                *value = variables;
                Some(value)
            }
            None => None,
        };
        Some(Request {
            query,
            operation_name,
            variables,
        })
    }
}

// Returns what the members of an object say, from the token after its brace on. `None` where one isn't read
// here.
fn read_members<'l>(
    alloc: Global,
    reader: &mut Reader<'l>,
) -> Result<Option<RequestMembers<'l>>, AllocError>
    ensures { IfOk result (λ read.
        IfSome read (ReadsMembers reader.old reader.new)) }
{
    let mut parts = RequestMembers::new();
    loop {
        let name = match reader.next_key() {
            Ok(Some(name)) => name,
            Ok(None) => return Ok(Some(parts)),
            Err(_) => return Ok(None),
        };
        let Some(value) = next_value(alloc, reader, MEMBER_DEPTH)? else {
            return Ok(None);
        };
        parts.put(alloc, name, value)?;
    }
}

/// Returns what a text asks that is an object. Its variables are put into a value. `None` says nothing of
/// the text.
///
/// # Errors
///
/// Only when out of memory.
pub(crate) fn read_plain<'l>(
    alloc: Global,
    text: &'l str,
    scratch: &'l mut Scratch,
    value: &'l mut Value,
) -> Result<Option<Line<'l>>, AllocError>
    ensures { IfOk result
        (λ read. IfSome read (IsReading text.now)) }
{
    let mut reader = Reader::new(text, scratch)?;
    let Some(Token::BeginObject) = reader.next() else {
        return Ok(None);
    };
    let Some(parts) = read_members(alloc, &mut reader)? else {
        return Ok(None);
    };
    match reader.next() {
        None => Ok(Some(Line::of_request(parts.request(value)))),
        Some(_) => Ok(None),
    }
}
