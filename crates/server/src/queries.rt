//! What requests ask of a server, kept for those that come again.

ghost use Rattle.std.specs.Prelude.{◌≡◌, IfOk, length};
ghost use Rattle.request_line.specs.Seen.{request_of, requests_of};
ghost use Rattle.server.specs.Planned.{PlansFor, one, several, text as asked_text};

use crate::planned::{PlannedRequest, plan_none, plan_one, plan_several};
use crate::request_cache::RequestCache;
use plan_requests::{Request, Server};
use request_line::{Line, LineReader};
use std::alloc::{AllocError, Global};
use std::marker::Model;

/// What is kept of requests, and what reads their lines.
#[derive(Drop)]
pub(crate) struct KeptQueries {
    pub(crate) lines: LineReader,
    pub(crate) requests: RequestCache,
}

impl KeptQueries {
    /// Nothing yet, over this server.
    fn new(alloc: Global, server: Server) -> KeptQueries
        ensures { result.requests.server ≡ server }
    {
        KeptQueries {
            lines: LineReader::new(),
            requests: RequestCache::new(alloc, server),
        }
    }

    // Returns what a request that is JSON text asks, or an array of them ([`Queries::plan_text`]).
    fn plan_text(
        &mut self,
        alloc: Global,
        text: &[u8],
        most: Option<usize>,
    ) -> Result<PlannedRequest, AllocError>
        ensures planned { IfOk result
            (PlansFor self.old.requests.server most (asked_text text.now)) }
        ensures loaders { IfOk result (λ planned.
            planned.loaders ≡ length self.old.requests.server.bindings.loaders) }
        ensures same { self.new.requests.server ≡ self.old.requests.server }
    {
        let KeptQueries { lines, requests } = self;
        match lines.read(alloc, text) {
            Ok(Line::One(request)) => Ok(plan_one(alloc, requests, &request, most)?),
            Ok(Line::Several(values)) => Ok(plan_several(alloc, requests, &values, most)?),
            Ok(Line::NoRequest) => Ok(plan_none(alloc, requests, most)?),
            Err(_) => Err(AllocError),
        }
    }
}

/// What requests ask of a server, kept for those that come again, with whatever variables: documents that keep every rule, by their
/// texts (at most 1,024, of 262,144 bytes together), and plans, prepared, by queries, operations' names and the names of variables that
/// are true (at most 2,048, of 262,144 bytes of these together, of queries of up to 32,768 bytes). No clause says which are kept, and
/// no answer depends on it.
///
/// A client has its own. A host whose clients come and go has one for many: it plans what is asked of any of them, and the client
/// answers what was planned ([`by_hand`](crate::ClientSession::by_hand), [`into_answering`](crate::ClientSession::into_answering)).
///
/// A contract sees the server.
pub struct Queries {
    server: Server,
    // It stands in a box that the first request makes: whoever holds queries moves them cheaply, and a client that is always lent those of
    // another keeps nothing.
    kept: Option<Box<KeptQueries>>,
}

impl Model for Queries {
    ghost use Rattle.std.specs.Prelude.{◌≡◌, IfSome};
    ghost use Rattle.std.specs.Coded.{codes};
    ghost use Rattle.gq_parser.specs.contracts.tree.TypeRef as type_ref;
    ghost use Rattle.gq_parser.specs.contracts.tree.Literal as literal;
    ghost use Rattle.plan_requests.specs.Servers.{ServerOf};

    ghost Value = { ServerOf };

    ghost coded = { Prim.hlevel (codes, type_ref.the_row.coded, literal.the_row.coded) };

    ghost view = { λ q. q.server };

    ghost invariant = { λ q. IfSome q.kept (λ kept. kept.value.requests.server ≡ q.server) };
}

impl Drop for Queries {
    fn drop(self) {
        let Queries {
            server: _server,
            kept: _kept,
        } = self;
    }
}

impl Queries {
    /// Nothing yet, over this server.
    pub fn new(server: Server) -> Queries
        ensures { result ≡ server }
    {
        Queries { server, kept: None }
    }

    /// The server.
    pub fn server(&self) -> &Server
        ensures { result.now ≡ self.now }
    {
        &self.server
    }

    /// Lends what is kept, which is to be [put back](Queries::put).
    pub(crate) fn take(&mut self, alloc: Global) -> Result<Box<KeptQueries>, AllocError>
        ensures taken { IfOk result (λ kept.
            kept.value.requests.server ≡ self.old) }
        ensures same { self.new ≡ self.old }
    {
        match self.kept.take() {
            Some(kept) => Ok(kept),
            None => Ok(Box::new(alloc, KeptQueries::new(alloc, self.server.clone()?))?),
        }
    }

    /// Takes back what was lent.
    pub(crate) fn put(&mut self, kept: Box<KeptQueries>)
        requires { kept.value.requests.server ≡ self.old }
        ensures { self.new ≡ self.old }
    {
        self.kept = Some(kept);
    }

    /// Returns what a request asks of the server: its plan, of whose answer the text has at most `most` bytes, or the text that refuses
    /// it. Nothing is asked.
    ///
    /// # Errors
    ///
    /// Only when out of memory.
    pub fn plan(
        &mut self,
        alloc: Global,
        request: &Request<'_>,
        most: Option<usize>,
    ) -> Result<PlannedRequest, AllocError>
        ensures planned { IfOk result
            (PlansFor self.old most (one (request_of request.now))) }
        ensures loaders { IfOk result (λ planned.
            planned.loaders ≡ length self.old.bindings.loaders) }
        ensures same { self.new ≡ self.old }
    {
        let mut kept = self.take(alloc)?;
        let planned = plan_one(alloc, &mut kept.requests, request, most);
        self.put(kept);
        planned
    }

    /// Returns what the requests of an array ask, of which `None` is a value that is no request. Each is planned or refused, as
    /// [`plan`](Queries::plan) does it.
    ///
    /// # Errors
    ///
    /// Only when out of memory.
    pub fn plan_all(
        &mut self,
        alloc: Global,
        requests: &[Option<Request<'_>>],
        most: Option<usize>,
    ) -> Result<PlannedRequest, AllocError>
        ensures planned { IfOk result
            (PlansFor self.old most (several (requests_of requests.now))) }
        ensures loaders { IfOk result (λ planned.
            planned.loaders ≡ length self.old.bindings.loaders) }
        ensures same { self.new ≡ self.old }
    {
        let mut kept = self.take(alloc)?;
        let planned = plan_several(alloc, &mut kept.requests, requests, most);
        self.put(kept);
        planned
    }

    /// Returns what a request that is JSON text asks, or an array of 1 to 16: an object with the members `query`, `operationName` and
    /// `variables`, as clients send it. What is neither is refused with `not a request`.
    ///
    /// # Errors
    ///
    /// Only when out of memory.
    pub fn plan_text(
        &mut self,
        alloc: Global,
        text: &[u8],
        most: Option<usize>,
    ) -> Result<PlannedRequest, AllocError>
        ensures planned { IfOk result
            (PlansFor self.old most (asked_text text.now)) }
        ensures loaders { IfOk result (λ planned.
            planned.loaders ≡ length self.old.bindings.loaders) }
        ensures same { self.new ≡ self.old }
    {
        let mut kept = self.take(alloc)?;
        let planned = kept.plan_text(alloc, text, most);
        self.put(kept);
        planned
    }
}
