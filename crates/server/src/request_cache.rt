//! What is kept of a client's requests: what was prepared of their operations, by texts that determine these, and documents.

ghost use Rattle.std.specs.Prelude.{◌≡◌, IfOk, IfSome, IsTrue, option_map, string_bytes};
ghost use Rattle.std.specs.Arc.{arc_value};
ghost use Rattle.text_cache.specs.TextCaches.{AreBounded};
ghost use Rattle.gq_check.specs.Plans.{IsSameBut, plan_of};
ghost use Rattle.plan_requests.specs.Planning.{HasOperation, IsRefusal, PlansRequest};
ghost use Rattle.request_line.specs.Keys.{IsKey};
ghost use Rattle.request_line.specs.Seen.{request_of};
ghost use Rattle.server.specs.Kept.{HasNoVariables, IsFoundFor, IsPlanAt, PreparesRequest, PreparesValue, plan_limits};

use gq_check::Plan;
use gq_resolve::PreparedPlan;
use plan_requests::{DocumentCache, Request, Server, not_a_request, plan_again};
use std::alloc::{AllocError, Global};
use std::marker::Model;
use std::sync::Arc;
use text_cache::{CacheLimits, TextCache};

/// At most how many plans are kept at a time, and how many bytes their keys have together.
const MOST_PLANS: CacheLimits = CacheLimits {
    texts: 2_048,
    bytes: 262_144,
};

/// Number of bytes of the longest query whose plan is kept.
const LONGEST: usize = 32_768;

/// What becomes of the plan of a request.
#[derive(Clone, Copy)]
enum PlanUse {
    /// It is used once.
    Once,
    /// It is kept.
    Kept,
}

/// The plan of one request for each key, with what was prepared of it: all requests with the key ask for the same operation, and each
/// is planned from this plan by the values of its own variables. What was prepared serves it as well, unless directives leave out
/// other fields. And documents of requests that name an operation, so that the other operations of a query share one, and of
/// requests that what is kept by their keys doesn't serve.
///
/// The plans are at most 2,048, and their keys have at most 262,144 bytes together: where one more doesn't fit, all are let go. That
/// of a query of more than 32,768 bytes isn't kept, nor that of a request without a key. A plan that is let go while it is executed lives
/// on until that is done.
///
/// A contract sees the server, the key of the last request, and the keys whose plans are kept.
pub(crate) struct RequestCache {
    documents: DocumentCache,
    plans: TextCache<Arc<PreparedPlan>>,
    key: String,
}

impl Model for RequestCache {
    ghost use Rattle.std.specs.Coded.{codes};
    ghost use Rattle.std.specs.Prelude.{string_bytes};
    ghost use Rattle.gq_parser.specs.contracts.tree.TypeRef as type_ref;
    ghost use Rattle.gq_parser.specs.contracts.tree.Literal as literal;
    ghost use Rattle.gq_parser.specs.contracts.tree.Argument as argument;
    ghost use Rattle.gq_parser.specs.contracts.tree.SelectionSet as set;
    ghost use Rattle.gq_schema.specs.contracts.input.Input as input;
    ghost use Rattle.text_cache.specs.TextCaches.{texts_of};
    ghost use Rattle.server.specs.Kept.{RequestCacheOf, KeepsPlans};

    ghost Value = { RequestCacheOf };

    ghost coded = { Prim.hlevel (codes, type_ref.the_row.coded, literal.the_row.coded, argument.the_row.coded, set.the_row.coded, input.the_row.coded) };

    ghost view = { λ c. record {
      server = c.documents.server;
      key = string_bytes c.key;
      texts = texts_of c.plans;
    } };

    ghost invariant = { λ c. KeepsPlans c.documents.server c.plans };
}

impl Drop for RequestCache {
    fn drop(self) {
        let RequestCache {
            documents: _documents,
            plans: _plans,
            key: _key,
        } = self;
    }
}

// Tells whether the document of a request's query may be of use again. Where the plan is kept, that is to requests with another
// operation's name; an operation that isn't named is the only one of its query.
fn keeps_document(request: &Request<'_>, plan_use: PlanUse) -> bool {
    match plan_use {
        PlanUse::Once => true,
        PlanUse::Kept => request.operation_name.is_some(),
    }
}

// The plan, prepared ahead unless it is used once.
fn shared_plan(
    alloc: Global,
    plan: Plan,
    plan_use: PlanUse,
) -> Result<Arc<PreparedPlan>, AllocError>
    ensures { IfOk result (λ shared. arc_value shared ≡ plan) }
{
    match plan_use {
        PlanUse::Once => Ok(Arc::new(alloc, PreparedPlan::for_one_use(plan))?),
        PlanUse::Kept => Ok(Arc::new(alloc, PreparedPlan::new(alloc, plan)?)?),
    }
}

// A plan of the operation whose plan is kept, with what was prepared of that one; where neither has a variable, they are one. Nothing
// where what was prepared doesn't serve it.
fn shared_again(
    alloc: Global,
    kept: Arc<PreparedPlan>,
    plan: Plan,
) -> Result<Option<Arc<PreparedPlan>>, AllocError>
    requires { IsSameBut (arc_value kept) plan }
    ensures { IfOk result (λ found. IfSome found
        (λ shared. arc_value shared ≡ plan)) }
{
    if plan.variables().is_empty() && kept.plan().variables().is_empty() {
        return Ok(Some(kept));
    }
    match kept.again(alloc, plan)? {
        Some(prepared) => Ok(Some(Arc::new(alloc, prepared)?)),
        None => Ok(None),
    }
}

// Tells whether no variable is given, and the operation has none.
fn has_no_variables(request: &Request<'_>, plan: &Plan) -> bool
    ensures { IsTrue result
        → HasNoVariables (request_of request.now) plan.now }
{
    request.variables.is_none()
        && plan.variables().is_empty()
        && plan.operation().variables.is_empty()
}

impl RequestCache {
    /// Nothing yet, over this server.
    pub(crate) fn new(alloc: Global, server: Server) -> RequestCache
        ensures { result.server ≡ server }
    {
        RequestCache {
            documents: DocumentCache::new(alloc, server),
            plans: TextCache::new(alloc, MOST_PLANS),
            key: String::new(alloc),
        }
    }

    /// The server.
    pub(crate) fn server(&self) -> &Server
        ensures server { result.now ≡ self.now.server }
        ensures bounded { AreBounded plan_limits self.now.texts }
    {
        self.documents.server()
    }

    // Keeps the document of a request's query ([`DocumentCache::keep`]), if it may be of use again.
    fn keep(
        &mut self,
        alloc: Global,
        request: &Request<'_>,
        plan_use: PlanUse,
    ) -> Result<Option<String>, AllocError>
        ensures server { self.new.server ≡ self.old.server }
        ensures key { self.new.key ≡ self.old.key }
        ensures refused { IfOk result (λ refusal. IfSome refusal (λ text.
            IsRefusal self.old.server (request_of request.now) (string_bytes text))) }
    {
        if !keeps_document(request, plan_use) {
            return Ok(None);
        }
        self.documents.keep(alloc, request)
    }

    // Returns what a request asks: [`DocumentCache::plan`].
    fn plan(&self, alloc: Global, request: &Request<'_>) -> Result<Result<Plan, String>, AllocError>
        ensures { IfOk result (PlansRequest self.now.server (request_of request.now)) }
    {
        self.documents.plan(alloc, request)
    }

    // Notes the key of a request, if it has one and its query isn't too long for its plan to be kept.
    fn note_key(&mut self, request: &Request<'_>) -> Result<bool, AllocError>
        ensures server { self.new.server ≡ self.old.server }
        ensures key { IfOk result (λ noted. IsTrue noted
            → IsKey self.new.key (request_of request.now)) }
    {
        if request.query.len() > LONGEST {
            return Ok(false);
        }
        request.write_key(&mut self.key)
    }

    // The plan of the operation that the request asks for whose key was noted, if one is kept.
    fn find(&self) -> Result<Option<Arc<PreparedPlan>>, AllocError>
        ensures { IfOk result (IsFoundFor self.now) }
    {
        match self.plans.get(&self.key) {
            Some(plan) => Ok(Some(Arc::try_clone(plan)?)),
            None => Ok(None),
        }
    }

    // Keeps the plan of the request whose key was noted, unless memory runs out.
    fn keep_plan(&mut self, alloc: Global, plan: &Arc<PreparedPlan>)
        requires { IsPlanAt self.old.server self.old.key (arc_value plan.now) }
        ensures { self.new.server ≡ self.old.server }
    {
        if let Ok(plan) = Arc::try_clone(plan) {
            let _ = self.plans.insert(alloc, &self.key, plan);
        }
    }

    // Returns what a request asks, whose plan isn't kept yet.
    fn prepare_anew(
        &mut self,
        alloc: Global,
        request: &Request<'_>,
        plan_use: PlanUse,
    ) -> Result<Result<Arc<PreparedPlan>, String>, AllocError>
        ensures prepared { IfOk result
            (PreparesRequest self.old.server (request_of request.now)) }
        ensures server { self.new.server ≡ self.old.server }
        ensures key { self.new.key ≡ self.old.key }
    {
        if let Some(text) = self.keep(alloc, request, plan_use)? {
            return Ok(Err(text));
        }
        match self.plan(alloc, request)? {
            Err(text) => Ok(Err(text)),
            Ok(plan) => {
                let plan = shared_plan(alloc, plan, plan_use)?;
                Ok(Ok(plan))
            }
        }
    }

    // Returns what the request asks whose key was noted, and whose plan isn't kept yet. It is kept from then on.
    fn prepare_first(
        &mut self,
        alloc: Global,
        request: &Request<'_>,
    ) -> Result<Result<Arc<PreparedPlan>, String>, AllocError>
        requires { IsKey self.old.key (request_of request.now) }
        ensures prepared { IfOk result
            (PreparesRequest self.old.server (request_of request.now)) }
        ensures server { self.new.server ≡ self.old.server }
    {
        let prepared = self.prepare_anew(alloc, request, PlanUse::Kept)?;
        if let Ok(plan) = &prepared {
            self.keep_plan(alloc, plan);
        }
        Ok(prepared)
    }

    // Returns what a request asks, whose operation has this plan of another request.
    fn prepare_again(
        &mut self,
        alloc: Global,
        request: &Request<'_>,
        kept: Arc<PreparedPlan>,
    ) -> Result<Result<Arc<PreparedPlan>, String>, AllocError>
        requires { HasOperation self.old.server
            (request_of request.now) (plan_of (arc_value kept)) }
        ensures prepared { IfOk result
            (PreparesRequest self.old.server (request_of request.now)) }
        ensures server { self.new.server ≡ self.old.server }
    {
        if has_no_variables(request, kept.plan()) {
            return Ok(Ok(kept));
        }
        let plan = match plan_again(alloc, kept.plan(), request)? {
            Err(text) => return Ok(Err(text)),
            Ok(plan) => plan,
        };
        match shared_again(alloc, kept, plan)? {
            Some(plan) => Ok(Ok(plan)),
            None => self.prepare_anew(alloc, request, PlanUse::Once),
        }
    }

    /// Returns what a request asks, its plan or the text that refuses it: by the plan that is kept under its key, if there is one, or else
    /// what is planned of it now, which is kept if the request has a key. A plan is shared with whoever answers the same request, and
    /// stays as long as one of them does.
    pub(crate) fn prepare(
        &mut self,
        alloc: Global,
        request: &Request<'_>,
    ) -> Result<Result<Arc<PreparedPlan>, String>, AllocError>
        ensures prepared { IfOk result
            (PreparesRequest self.old.server (request_of request.now)) }
        ensures server { self.new.server ≡ self.old.server }
    {
        if !self.note_key(request)? {
            return self.prepare_anew(alloc, request, PlanUse::Once);
        }
        match self.find()? {
            Some(kept) => self.prepare_again(alloc, request, kept),
            None => self.prepare_first(alloc, request),
        }
    }

    /// Returns what a value of an array asks, of which `None` is a value that is no request.
    pub(crate) fn prepare_value(
        &mut self,
        alloc: Global,
        value: &Option<Request<'_>>,
    ) -> Result<Result<Arc<PreparedPlan>, String>, AllocError>
        ensures prepared { IfOk result
            (PreparesValue self.old.server (option_map request_of value.now)) }
        ensures server { self.new.server ≡ self.old.server }
    {
        match value {
            Some(request) => self.prepare(alloc, request),
            None => Ok(Err(not_a_request(alloc)?)),
        }
    }
}
