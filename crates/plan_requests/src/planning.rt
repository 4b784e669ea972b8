//! Plans of requests, by the kept documents of their queries.

ghost use Rattle.std.specs.Prelude.{◌≡◌, ◌≤◌, ℕ, List, IfOk, IfSome, IfNone, length, string_bytes};
ghost use Rattle.std.specs.List.{Contains};
ghost use Rattle.request_line.specs.Seen.{request_of};
ghost use Rattle.plan_requests.specs.DocumentCaches.{longest, AreBounded, HasRoom};
ghost use Rattle.plan_requests.specs.Planning.{HasOperation, IsPlanAgain, IsRefusal, PlansRequest};
ghost use Rattle.plan_requests.specs.Servers.{ServerOf};
ghost use Rattle.gq_check.specs.Plans.{plan_of};

use crate::document_cache::DocumentCache;
use crate::fault::RequestFault;
use crate::refusal::refusal;
use gq_check::Plan;
use request_line::Request;
use serde_json::Value;
use std::alloc::{AllocError, Global};

impl DocumentCache {
    /// Keeps the document of a request's query, unless it is kept already or longer than any that is kept. Returns the text
    /// that refuses the request where its query is no valid document.
    ///
    /// # Errors
    ///
    /// Only when out of memory. All documents may have been let go by then.
    pub fn keep(
        &mut self,
        alloc: Global,
        request: &Request<'_>,
    ) -> Result<Option<String>, AllocError>
        ensures server { self.new.server ≡ self.old.server }
        ensures refused { IfOk result (λ refusal. IfSome refusal (λ text.
            IsRefusal self.old.server (request_of request.now) (string_bytes text))) }
        ensures kept { IfOk result (λ refusal. IfNone refusal (length request.now.query.now
            ≤ longest → Contains self.new.texts request.now.query.now)) }
        // While there is room, no text is let go.
        ensures stay { HasRoom self.old.texts request.now.query.now → (text : List ℕ)
            → Contains self.old.texts text → Contains self.new.texts text }
        ensures bounded { AreBounded self.new.texts }
    {
        match self.cache_query(alloc, request.query) {
            Ok(()) => Ok(None),
            Err(fault) => Ok(Some(refusal(alloc, &fault)?)),
        }
    }

    /// Returns what a request asks: its plan, or the text that refuses it. If the document of its query is kept, its plan shares it, and
    /// nothing is parsed. That changes neither the plan nor the refusal.
    ///
    /// # Errors
    ///
    /// Only when out of memory.
    pub fn plan(
        &self,
        alloc: Global,
        request: &Request<'_>,
    ) -> Result<Result<Plan, String>, AllocError>
        ensures { IfOk result (PlansRequest self.now.server (request_of request.now)) }
    {
        let none = Value::Null;
        let values = request.variables.unwrap_or(&none);
        match self.plan_query(alloc, request.query, request.operation_name, values) {
            Ok(plan) => Ok(Ok(plan)),
            Err(fault) => match refusal(alloc, &fault) {
                Ok(text) => Ok(Err(text)),
                Err(_) => Err(AllocError),
            },
        }
    }
}

/// Returns what a request asks, its plan or the text that refuses it, by a plan of its operation for another request with the same query
/// and the same name: that plan with the values of the request's own variables. Nothing is parsed or checked, but for the variables.
///
/// # Errors
///
/// Only when out of memory.
pub fn plan_again(
    alloc: Global,
    plan: &Plan,
    request: &Request<'_>,
) -> Result<Result<Plan, String>, AllocError>
    ensures plans { (s : ServerOf) → HasOperation s (request_of request.now) (plan_of plan.now)
        → IfOk result (PlansRequest s (request_of request.now)) }
    ensures same { IfOk result (IsPlanAgain plan.now) }
{
    let none = Value::Null;
    let given = request.variables.unwrap_or(&none);
    match plan.again(alloc, given) {
        Ok(plan) => Ok(Ok(plan)),
        Err(fault) => match refusal(alloc, &RequestFault::Prepare(fault)) {
            Ok(text) => Ok(Err(text)),
            Err(_) => Err(AllocError),
        },
    }
}
