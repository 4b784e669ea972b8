//! Requests.

ghost use Rattle.std.specs.Prelude.{◌≡◌, option_map, codes};
ghost use Rattle.serde_json.specs.View.{view};
ghost use Rattle.serde_json.specs.Find.{get, as_str};
ghost use Rattle.request_line.specs.Requests.{asked, name_of};
ghost use Rattle.request_line.specs.Seen.{request_of};

use serde_json::Value;

/// A request, whose parts lie in what it was read from.
#[derive(Clone, Copy)]
pub struct Request<'v> {
    /// A GraphQL document.
    pub query: &'v str,
    /// The name of the operation to answer; a null one counts as not given.
    pub operation_name: Option<&'v str>,
    /// The variables as they were given, of whatever kind of value.
    pub variables: Option<&'v Value>,
}

// The name of the operation: none where it is not given or null, and no request where it is no string.
fn operation_name(value: &Value) -> Option<Option<&str>>
    ensures { option_map (λ name. option_map (λ s. s.now) name) result
        ≡ name_of (get (codes "operationName") (view value.now)) }
{
    match value.get("operationName") {
        None => Some(None),
        Some(Value::Null) => Some(None),
        Some(Value::String(name)) => Some(Some(name.as_str())),
        Some(_) => None,
    }
}

impl<'v> Request<'v> {
    /// The request that a value is: an object with a string `query` and, if wanted, `operationName`, a string or null, and
    /// `variables`. Other members are ignored; of a repeated member the last counts. `None` is no request.
    pub fn of_value(value: &'v Value) -> Option<Request<'v>>
        ensures { option_map request_of result
            ≡ asked (view value.entry.now) }
    {
        let query = value.get("query").and_then(Value::as_str)?;
        let operation_name = operation_name(value)?;
        Some(Request {
            query,
            operation_name,
            variables: value.get("variables"),
        })
    }
}
