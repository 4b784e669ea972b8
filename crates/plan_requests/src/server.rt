//! Servers.

ghost use Rattle.std.specs.Prelude.{◌≡◌, ℕ, List, Option, IfOk, IfErr, length};
ghost use Rattle.std.specs.Arc.{arc_value};
ghost use Rattle.serde_json.specs.Data.{Data};
ghost use Rattle.serde_json.specs.View.{view};
ghost use Rattle.gq_parser.specs.Fault.{IsDocumentOf};
ghost use Rattle.gq_parser.specs.Tree.{document_of};
ghost use Rattle.gq_schema.specs.Types.{tree_of};
ghost use Rattle.gq_check.specs.Plans.{plan_of};
ghost use Rattle.gq_check.specs.Verdict.{IsValid};
ghost use Rattle.plan_requests.specs.Requests.{name_given, IsPlanOf, IsRequestFault};
ghost use Rattle.plan_requests.specs.Servers.{ServerOf, IsServer, IsServerFault, MakesServer};

use crate::fault::RequestFault;
use gq_bindings::Bindings;
use gq_check::{CheckedDocument, Plan, check, prepare};
use gq_parser::parse;
use gq_schema::{Schema, SchemaFault};
use serde_json::Value;
use std::alloc::{AllocError, Global};
use std::marker::Model;
use std::sync::Arc;

/// A schema, and how its fields are answered. Its clones share both, so that a clone copies nothing.
///
/// A contract sees it as the definitions of the schema and the bindings.
pub struct Server {
    schema: Arc<Schema>,
    bindings: Arc<Bindings>,
}

impl Model for Server {
    ghost use Rattle.std.specs.Coded.{codes};
    ghost use Rattle.gq_parser.specs.contracts.tree.TypeRef as type_ref;
    ghost use Rattle.gq_parser.specs.contracts.tree.Literal as literal;
    ghost use Rattle.plan_requests.specs.Servers.{ServerOf};

    ghost Value = { ServerOf };

    ghost coded = { Prim.hlevel (codes, type_ref.the_row.coded, literal.the_row.coded) };

    ghost use Rattle.std.specs.Arc.{arc_value};

    ghost view = { λ s. record { definitions = arc_value s.schema; bindings = arc_value s.bindings } };
}

impl Drop for Server {
    fn drop(self) {
        let Server {
            schema: _schema,
            bindings: _bindings,
        } = self;
    }
}

/// The checked document of a query.
pub(crate) fn check_query(
    alloc: Global,
    server: &Server,
    query: &str,
) -> Result<CheckedDocument, RequestFault>
    ensures definitions { IfOk result
        (λ c. c.definitions ≡ server.now.definitions) }
    ensures says { IfOk result (λ c.
        IsDocumentOf query.now (document_of c.document)) }
    ensures valid { IfOk result (λ c.
        IsValid (tree_of server.now.definitions) (document_of c.document)) }
    ensures err { (name : Option (List ℕ)) (given : Data)
        → IfErr result (IsRequestFault (tree_of server.now.definitions) query.now name given) }
{
    let document = match parse(alloc, query) {
        Ok(document) => document,
        Err(fault) => return Err(RequestFault::Parse(fault)),
    };
    match check(alloc, server.schema(), document) {
        Ok(checked) => Ok(checked),
        Err(fault) => Err(RequestFault::Check(fault)),
    }
}

impl Server {
    /// Makes the server of a schema text and a bindings text.
    ///
    /// # Errors
    ///
    /// The schema's first fault, or else `BadBinding` for the bindings. `NoMemory` comes when out of memory, before any fault
    /// that would have been found later.
    pub fn read(alloc: Global, schema: &str, bindings: &str) -> Result<Server, SchemaFault>
        // The result is the server that the texts say.
        ensures made { IfOk result
            (IsServer schema.now bindings.now) }

        // A server that the texts say is made.
        ensures only { (s : ServerOf) → IsServer schema.now
            bindings.now s → MakesServer s result }

        // Otherwise the first fault is reported.
        ensures fault { IfErr result
            (IsServerFault schema.now bindings.now) }
    {
        let schema = match Schema::read(alloc, schema) {
            Ok(schema) => schema,
            Err(fault) => return Err(fault),
        };
        let bindings = match Bindings::read(alloc, &schema, bindings) {
            Ok(bindings) => bindings,
            Err(fault) => return Err(fault),
        };
        Ok(Server {
            schema: Arc::new(alloc, schema)?,
            bindings: Arc::new(alloc, bindings)?,
        })
    }

    /// The schema.
    pub fn schema(&self) -> &Arc<Schema>
        ensures { arc_value result.now
            ≡ self.now.definitions }
    {
        &self.schema
    }

    /// Returns how the fields of the schema are answered.
    pub fn bindings(&self) -> &Arc<Bindings>
        ensures { arc_value result.now ≡ self.now.bindings }
    {
        &self.bindings
    }

    /// Returns how many loaders the bindings have. They are numbered from 0 in the order of their lines.
    pub fn loaders(&self) -> usize
        ensures { result ≡ length
            self.now.bindings.loaders }
    {
        self.bindings.loaders().len()
    }

    /// The plan of a request: its query is parsed and checked, and the operation of this name, or the only one, is prepared
    /// with the values that are given for its variables. The plan shares the schema and the bindings, and outlives the server.
    ///
    /// # Errors
    ///
    /// [`Parse`](RequestFault::Parse), else [`Check`](RequestFault::Check), else [`Prepare`](RequestFault::Prepare), each
    /// with its fault, which may be that it is out of memory.
    pub fn plan(
        &self,
        alloc: Global,
        query: &str,
        operation_name: Option<&str>,
        variables: &Value,
    ) -> Result<Plan, RequestFault>
        ensures schema { IfOk result (λ plan.
            plan.definitions ≡ self.now.definitions) }
        ensures bindings { IfOk result
            (λ plan. plan.bindings ≡ self.now.bindings) }
        ensures ok { IfOk result (λ plan. IsPlanOf (tree_of self.now.definitions) query.now
            (name_given operation_name.entry) (view variables.now) (plan_of plan)) }
        ensures err { IfErr result (IsRequestFault (tree_of self.now.definitions)
            query.now (name_given operation_name.entry) (view variables.now)) }
    {
        let checked = match check_query(alloc, self, query) {
            Ok(checked) => checked,
            Err(fault) => return Err(fault),
        };
        match prepare(alloc, self.bindings(), checked, operation_name, variables) {
            Ok(plan) => Ok(plan),
            Err(fault) => Err(RequestFault::Prepare(fault)),
        }
    }
}

impl Clone for Server {
    ghost is_clone = { λ s t. t ≡ s };

    fn clone(&self) -> Result<Server, AllocError> {
        Ok(Server {
            schema: Arc::try_clone(&self.schema)?,
            bindings: Arc::try_clone(&self.bindings)?,
        })
    }
}
