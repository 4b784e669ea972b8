//! Requests of a host, and their plans.
ghost use Rattle.std.specs.Prelude.{◌≡◌, length, IfOk, IfSome, IfNone, MatchOption, option_map, Option, None, Some, IsUtf8};
ghost use Rattle.serde_json.specs.Data.{Data};
ghost use Rattle.serde_json.specs.Read.{read};
ghost use Rattle.serde_json.specs.View.{view};
ghost use Rattle.host_clients.specs.Asked.{AreVariables, IsOfNoRequest, PlansHost, request as request_asked};
ghost use Rattle.host_clients.specs.Texts.{IsRequestWith, asked_in, flat_parts};

use serde_json::Value;
use serde_json::error::Category;
use server::{PlannedRequest, Queries, Request};
use std::alloc::{AllocError, Global};
use std::str;

/// A request by its parts, as a host passes them. What isn't UTF-8, or no JSON, is no request.
#[derive(Clone, Copy)]
pub struct FlatRequest<'h> {
    /// A GraphQL document.
    pub query: &'h [u8],
    /// The name of the operation to answer; empty for none.
    pub operation_name: &'h [u8],
    /// The variables, as the JSON text of an object; empty for none.
    pub variables: &'h [u8],
}

/// What a host asks, as it passes it.
#[derive(Clone, Copy)]
pub enum FlatAsked<'h> {
    /// JSON text: a request, or an array of 1 to 16 of these.
    Line(&'h [u8]),
    /// A request by its parts.
    Request(FlatRequest<'h>),
}

// The value that a text is. `None` is no JSON text.
fn read_value(alloc: Global, text: &[u8]) -> Result<Option<Value>, AllocError>
    ensures { IfOk result (λ r. MatchOption r (IsUtf8 text.now → read text.now ≡ None)
        (λ value. IsUtf8 text.now × (read text.now ≡ Some (view value)))) }
{
    match Value::from_slice(alloc, text) {
        Ok(value) => Ok(Some(value)),
        Err(error) => {
            if error.classify() == Category::Memory {
                Err(AllocError)
            } else {
                Ok(None)
            }
        }
    }
}

// The variables that a text is, which are none where it is empty. `None` is no JSON text.
fn read_variables(alloc: Global, text: &[u8]) -> Result<Option<Option<Value>>, AllocError>
    ensures { IfOk result (λ r. MatchOption r ((found : Option Data) → AreVariables text.now found
        → ⊥) (λ found. AreVariables text.now (option_map view found))) }
{
    if text.is_empty() {
        return Ok(Some(None));
    }
    match read_value(alloc, text)? {
        Some(value) => Ok(Some(Some(value))),
        None => Ok(None),
    }
}

impl FlatRequest<'_> {
    // The request of these texts, whose variables are read.
    fn request<'t>(&'t self, variables: Option<&'t Value>) -> Option<Request<'t>>
        ensures some { IfSome result
            (IsRequestWith (flat_parts self.now) (option_map (λ v. view v.now) variables.entry)) }
        ensures none { IfNone result
            (IsOfNoRequest (flat_parts self.now)) }
    {
        let query = str::from_utf8(self.query).ok()?;
        let name = str::from_utf8(self.operation_name).ok()?;
        Some(Request {
            query,
            operation_name: if name.is_empty() { None } else { Some(name) },
            variables,
        })
    }

    // Returns what these texts ask of a server. Texts of no request ask what the empty text asks, which
    // is none.
    fn plan(
        &self,
        alloc: Global,
        queries: &mut Queries,
        most: Option<usize>,
    ) -> Result<PlannedRequest, AllocError>
        ensures planned { IfOk result
            (PlansHost queries.old most (request_asked (flat_parts self.now))) }
        ensures loaders { IfOk result (λ planned.
            planned.loaders ≡ length queries.old.bindings.loaders) }
        ensures same { queries.new ≡ queries.old }
    {
        let Some(variables) = read_variables(alloc, self.variables)? else {
            return queries.plan_text(alloc, &[], most);
        };
        match self.request(variables.as_ref()) {
            Some(request) => queries.plan(alloc, &request, most),
            None => queries.plan_text(alloc, &[], most),
        }
    }
}

impl FlatAsked<'_> {
    /// Returns what it asks of a server, of whose answer the text has at most `most` bytes.
    pub(crate) fn plan(
        &self,
        alloc: Global,
        queries: &mut Queries,
        most: Option<usize>,
    ) -> Result<PlannedRequest, AllocError>
        ensures planned { IfOk result
            (PlansHost queries.old most (asked_in self.now)) }
        ensures loaders { IfOk result (λ planned.
            planned.loaders ≡ length queries.old.bindings.loaders) }
        ensures same { queries.new ≡ queries.old }
    {
        match self {
            FlatAsked::Line(line) => queries.plan_text(alloc, line, most),
            FlatAsked::Request(request) => request.plan(alloc, queries, most),
        }
    }
}
