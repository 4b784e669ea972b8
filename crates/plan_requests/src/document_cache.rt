//! Documents of requests, kept by their texts.

ghost use Rattle.std.specs.Prelude.{◌≡◌, ◌≤◌, ℕ, List, [], Option, IfOk, IfErr, OnOk, length};
ghost use Rattle.std.specs.List.{Contains};
ghost use Rattle.serde_json.specs.Data.{Data};
ghost use Rattle.serde_json.specs.View.{view};
ghost use Rattle.gq_schema.specs.Types.{tree_of};
ghost use Rattle.gq_check.specs.Plans.{plan_of};
ghost use Rattle.plan_requests.specs.DocumentCaches.{longest, AreBounded, HasRoom, IsKept};
ghost use Rattle.plan_requests.specs.Requests.{name_given, IsPlanOf, IsRequestFault};

use crate::fault::RequestFault;
use crate::server::{Server, check_query};
use gq_check::{CheckFault, Plan, PreparedDocument, prepare_again};
use serde_json::Value;
use std::alloc::Global;
use std::marker::Model;
use text_cache::{CacheLimits, TextCache};

/// How many texts are kept at a time, and how many bytes they have together, at most.
const LIMITS: CacheLimits = CacheLimits {
    texts: 1_024,
    bytes: 262_144,
};

/// Number of bytes of the longest text that is kept.
const LONGEST: usize = 32_768;

/// Valid documents over a server, kept by their texts, so that a text that comes again is neither parsed nor checked again. A
/// document that isn't valid isn't kept.
///
/// The texts are at most 1,024, and have at most 262,144 bytes together: where one more doesn't fit, all are let go. A text of
/// more than 32,768 bytes isn't kept. Operations' names and variables are no part of what is kept.
///
/// A contract sees it as the server and the texts whose documents are kept.
///
/// A key that several texts share, such as the text without spaces, would need a proof that these mean the same.
pub struct DocumentCache {
    server: Server,
    documents: TextCache<PreparedDocument>,
}

impl Model for DocumentCache {
    ghost use Rattle.std.specs.Coded.{codes};
    ghost use Rattle.gq_parser.specs.contracts.tree.TypeRef as type_ref;
    ghost use Rattle.gq_parser.specs.contracts.tree.Literal as literal;
    ghost use Rattle.plan_requests.specs.DocumentCaches.{KeepingOf, IsKeeping};
    ghost use Rattle.text_cache.specs.TextCaches.{texts_of};

    ghost Value = { KeepingOf };

    ghost coded = { Prim.hlevel (codes, type_ref.the_row.coded, literal.the_row.coded) };

    ghost view = { λ k. record { server = k.server; texts = texts_of k.documents } };

    ghost invariant = { λ k. IsKeeping k.server.definitions k.documents };
}

impl Drop for DocumentCache {
    fn drop(self) {
        let DocumentCache {
            server: _server,
            documents: _documents,
        } = self;
    }
}

// The document of a query, to be kept.
fn new_document(
    alloc: Global,
    server: &Server,
    query: &str,
) -> Result<PreparedDocument, RequestFault>
    ensures ok { IfOk result
        (IsKept server.now.definitions query.now) }
    ensures err { (name : Option (List ℕ)) (given : Data)
        → IfErr result (IsRequestFault (tree_of server.now.definitions) query.now name given) }
{
    let checked = match check_query(alloc, server, query) {
        Ok(checked) => checked,
        Err(fault) => return Err(fault),
    };
    match PreparedDocument::of(alloc, checked) {
        Ok(kept) => Ok(kept),
        Err(_) => Err(RequestFault::Check(CheckFault::NoMemory)),
    }
}

impl DocumentCache {
    /// No documents yet, over this server.
    pub fn new(alloc: Global, server: Server) -> DocumentCache
        ensures { result ≡ record { server = server; texts = [] } }
    {
        DocumentCache {
            server,
            documents: TextCache::new(alloc, LIMITS),
        }
    }

    /// The server.
    pub fn server(&self) -> &Server
        ensures server { result.now ≡ self.now.server }
        ensures bounded { AreBounded self.now.texts }
    {
        &self.server
    }

    /// Keeps the document of a query, unless it is kept already or longer than any that is kept.
    ///
    /// # Errors
    ///
    /// [`Parse`](RequestFault::Parse), else [`Check`](RequestFault::Check), each with its fault, which may be want of memory.
    /// A query that is kept has none.
    pub(crate) fn cache_query(&mut self, alloc: Global, query: &str) -> Result<(), RequestFault>
        ensures server { self.new.server ≡ self.old.server }
        ensures kept { OnOk result
            (length query.now ≤ longest → Contains self.new.texts query.now) }
        // While there is room, no text is let go.
        ensures stay { HasRoom self.old.texts query.now → (text : List ℕ)
            → Contains self.old.texts text → Contains self.new.texts text }
        ensures bounded { AreBounded self.new.texts }
        ensures err { (name : Option (List ℕ)) (given : Data) → IfErr result
            (IsRequestFault (tree_of self.old.server.definitions) query.now name given) }
    {
        if self.documents.contains(query) {
            return Ok(());
        }
        if query.len() > LONGEST {
            return Ok(());
        }
        let kept = match new_document(alloc, &self.server, query) {
            Ok(kept) => kept,
            Err(fault) => return Err(fault),
        };
        match self.documents.insert(alloc, query, kept) {
            Ok(()) => Ok(()),
            Err(_) => Err(RequestFault::Check(CheckFault::NoMemory)),
        }
    }

    /// The plan of a query, as [`Server::plan`] gives it. Where the document of its query is kept, the plan shares it: then
    /// nothing is parsed, and only the variables are checked.
    ///
    /// # Errors
    ///
    /// Those of [`Server::plan`].
    pub(crate) fn plan_query(
        &self,
        alloc: Global,
        query: &str,
        operation_name: Option<&str>,
        variables: &Value,
    ) -> Result<Plan, RequestFault>
        ensures schema { IfOk result (λ plan. plan.definitions ≡ self.now.server.definitions) }
        ensures bindings { IfOk result (λ plan.
            plan.bindings ≡ self.now.server.bindings) }
        ensures ok { IfOk result (λ p. IsPlanOf (tree_of self.now.server.definitions) query.now
            (name_given operation_name.entry) (view variables.now) (plan_of p)) }
        ensures err { IfErr result (IsRequestFault (tree_of self.now.server.definitions)
            query.now (name_given operation_name.entry) (view variables.now)) }
    {
        let Some(kept) = self.documents.get(query) else {
            return self.server.plan(alloc, query, operation_name, variables);
        };
        let bindings = self.server.bindings();
        match prepare_again(alloc, bindings, kept, operation_name, variables) {
            Ok(plan) => Ok(plan),
            Err(fault) => Err(RequestFault::Prepare(fault)),
        }
    }
}
