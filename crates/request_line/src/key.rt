//! Texts that determine the operations of requests.

ghost use Rattle.std.specs.Prelude.{◌≡◌, ◌++◌, ◌∷◌, IfOk, IfSome, IsTrue, OnOk, option_map, string_bytes};
ghost use Rattle.request_line.specs.Keys.{IsKey, IsLine, SaysName};
ghost use Rattle.request_line.specs.Seen.{request_of};

use crate::request::Request;
use serde_json::Value;
use std::alloc::AllocError;

/// Number of bytes of the longest first line that a key has.
const LONGEST_FLAGS: usize = 512;

// Tells whether a text is within one line.
fn is_line(text: &str) -> bool
    ensures { IsTrue result → IsLine text.now }
{
    !text.as_bytes().contains(&b'\n')
}

// Writes the names of the variables that are true, each with a space behind it.
fn write_flags(key: &mut String, variables: Option<&Value>) -> Result<(), AllocError> {
    let Some(Value::Object(members)) = variables else {
        return Ok(());
    };
    for (name, member) in members.iter() {
        if matches!(member, Value::Bool(true)) {
            key.push_str(name)?;
            key.push(' ')?;
        }
    }
    Ok(())
}

// Writes the first line of a key: the names of the variables that are true. Where a name has a line's end, or they are long, it is none.
fn write_first(key: &mut String, variables: Option<&Value>) -> Result<bool, AllocError>
    ensures { IfOk result (λ written.
        IsTrue written → IsLine (string_bytes key.new)) }
{
    key.clear();
    write_flags(key, variables)?;
    Ok(key.len() <= LONGEST_FLAGS && is_line(key))
}

// The second line of a key: the operation's name, or nothing where none is given.
fn name_line(name: Option<&str>) -> Option<&str>
    ensures line { IfSome result (λ line. IsLine line.now) }
    ensures says { IfSome result (λ line.
        SaysName line.now (option_map (λ n. n.now) name.entry)) }
{
    let Some(name) = name else {
        return Some("");
    };
    if name.is_empty() || !is_line(name) {
        return None;
    }
    Some(name)
}

// Writes what follows the first line of a key.
fn write_rest(key: &mut String, name: &str, query: &str) -> Result<(), AllocError>
    ensures { OnOk result (string_bytes key.new
        ≡ string_bytes key.old ++ 10 ∷ (name.now ++ 10 ∷ query.now)) }
{
    key.push('\n')?;
    key.push_str(name)?;
    key.push('\n')?;
    key.push_str(query)
}

impl<'v> Request<'v> {
    /// Writes a text that determines the request's query and the name of its operation, its key, if it has one: the names of the
    /// variables that are the JSON value `true` in the first line, the operation's name in the second, and then the query. So
    /// requests that differ in what directives may look at mostly have keys of their own. There is none where the names of these
    /// variables have a line's end, or more than 512 bytes in all.
    ///
    /// # Errors
    ///
    /// Only when out of memory.
    pub fn write_key(&self, key: &mut String) -> Result<bool, AllocError>
        ensures { IfOk result (λ written. IsTrue written
            → IsKey (string_bytes key.new) (request_of self.now)) }
    {
        if !write_first(key, self.variables)? {
            return Ok(false);
        }
        let Some(name) = name_line(self.operation_name) else {
            return Ok(false);
        };
        write_rest(key, name, self.query)?;
        Ok(true)
    }
}
