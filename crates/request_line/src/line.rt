//! Lines, and what they ask.

ghost use Rattle.std.specs.Prelude.{◌≡◌, ℕ, List, None, IfOk, option_map};
ghost use Rattle.serde_json.specs.Data.{Data};
ghost use Rattle.serde_json.specs.Find.{as_array};
ghost use Rattle.serde_json.specs.View.{view, items_view};
ghost use Rattle.request_line.specs.Requests.{IsValue, asked, asked_each};
ghost use Rattle.request_line.specs.Seen.{request_of, requests_of, IsReading};

use crate::request::Request;
use serde_json::Value;
use std::alloc::{AllocError, Global};

/// At most how many values an array has that is answered.
const MOST_REQUESTS: usize = 16;

/// Request of a line.
#[derive(Drop)]
pub enum Line<'v> {
    /// One request.
    One(Request<'v>),
    /// The values of an array of 1 to 16, in order. `None` is a value that is no request.
    Several(Vec<Option<Request<'v>>>),
    /// Neither: it is answered by a refusal.
    NoRequest,
}

// Returns what the values of an array ask, in order.
fn requests(alloc: Global, values: &[Value]) -> Result<Vec<Option<Request<'_>>>, AllocError>
    ensures { IfOk result (λ found. requests_of found.items
        ≡ asked_each (items_view values.now)) }
{
    values.iter().map(Request::of_value).collect(alloc)
}

impl<'v> Line<'v> {
    /// A line that is no array, in which this request was found or none.
    pub(crate) fn of_request(found: Option<Request<'v>>) -> Line<'v>
        ensures { (line : List ℕ) (d : Data) → IsValue line d → as_array d ≡ None
            → option_map request_of found.entry ≡ asked d → IsReading line result }
    {
        match found {
            Some(request) => Line::One(request),
            None => Line::NoRequest,
        }
    }

    /// A line that reads as this value.
    pub(crate) fn of_value(alloc: Global, value: &'v Value) -> Result<Line<'v>, AllocError>
        ensures { IfOk result (λ read.
            (line : List ℕ) → IsValue line (view value.entry.now) → IsReading line read) }
    {
        let Some(values) = value.as_array() else {
            return Ok(Line::of_request(Request::of_value(value)));
        };
        if values.is_empty() || values.len() > MOST_REQUESTS {
            return Ok(Line::NoRequest);
        }
        Ok(Line::Several(requests(alloc, values)?))
    }
}
