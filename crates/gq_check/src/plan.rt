//! Plans.

ghost use Rattle.std.specs.Prelude.{◌≡◌, Ok, IfOk, IfErr, length};
ghost use Rattle.std.specs.Option.{option_map, option_copied};
ghost use Rattle.gq_parser.specs.Tree.{fragment_of};
ghost use Rattle.gq_schema.specs.Inputs.{input_of};
ghost use Rattle.gq_variables.specs.Variables.{value_in};
ghost use Rattle.gq_check.specs.Plans.{IsSameBut, plan_of, plan_parts, fragment_in};
ghost use Rattle.gq_check.specs.Planned.{IsPlan, preparation_of, prepared_in};
ghost use Rattle.gq_check.specs.Prepared.{IsPrepareFault};

use crate::fault::PrepareFault;
use crate::fragments::Fragments;
use crate::preparation::with_values;
use crate::variables::Variables;
use gq_bindings::Bindings;
use gq_parser::{Fragment, Operation};
use gq_schema::{Input, Schema};
use gq_variables::Variable;
use serde_json::Value;
use std::alloc::Global;
use std::marker::Model;
use std::sync::Arc;

/// An operation of a checked document with the values of its variables, ready to be executed over a schema and its bindings.
/// It shares all of these, and borrows nothing.
///
/// A contract sees its parts, and `plan_of` says what they are.
pub struct Plan {
    schema: Arc<Schema>,
    bindings: Arc<Bindings>,
    operation: Arc<Operation>,
    fragments: Arc<Fragments>,
    variables: Variables,
}

impl Model for Plan {
    ghost use Rattle.std.specs.Coded.{codes};
    ghost use Rattle.gq_parser.specs.contracts.tree.TypeRef as type_ref;
    ghost use Rattle.gq_parser.specs.contracts.tree.Literal as literal;
    ghost use Rattle.gq_parser.specs.contracts.tree.Argument as argument;
    ghost use Rattle.gq_parser.specs.contracts.tree.SelectionSet as set;
    ghost use Rattle.gq_schema.specs.contracts.input.Input as input;
    ghost use Rattle.gq_check.specs.Plans.{PlanParts};

    ghost Value = { PlanParts };

    ghost coded = { Prim.hlevel (codes, type_ref.the_row.coded, literal.the_row.coded, argument.the_row.coded, set.the_row.coded, input.the_row.coded) };

    ghost use Rattle.gq_check.specs.Plans.{plan_of, plan_parts};
    ghost use Rattle.gq_check.specs.Planned.{IsPlan};

    ghost view = { λ p. plan_parts p.schema p.bindings p.operation p.fragments p.variables };

    ghost invariant = { λ p. IsPlan (plan_of (plan_parts p.schema p.bindings p.operation p.fragments p.variables)) };
}

impl Drop for Plan {
    fn drop(self) {
        let Plan {
            schema: _schema,
            bindings: _bindings,
            operation: _operation,
            fragments: _fragments,
            variables: _variables,
        } = self;
    }
}

impl Plan {
    /// The plan of these parts, which are prepared from a valid document.
    pub(crate) fn of(
        schema: Arc<Schema>,
        bindings: Arc<Bindings>,
        operation: Arc<Operation>,
        fragments: Arc<Fragments>,
        variables: Variables,
    ) -> Plan
        requires { IsPlan (plan_of (plan_parts schema bindings operation fragments variables)) }
        ensures { result ≡ plan_parts schema
            bindings operation fragments variables }
    {
        Plan {
            schema,
            bindings,
            operation,
            fragments,
            variables,
        }
    }

    /// The schema.
    pub fn schema(&self) -> &Schema
        ensures { result.now ≡ self.now.definitions }
    {
        &self.schema
    }

    /// Returns how the fields of the schema are answered.
    pub fn bindings(&self) -> &Bindings
        ensures { result.now ≡ self.now.bindings }
    {
        &self.bindings
    }

    /// The operation that is executed.
    pub fn operation(&self) -> &Operation
        ensures same { result.now ≡ self.now.operation }
        // It is of a valid document, and the values of its variables are those that were given.
        ensures prepared { IsPlan (plan_of self.now) }
    {
        &self.operation
    }

    /// The fragments of the document, in the order of the text.
    pub fn fragments(&self) -> &[Fragment]
        ensures { result.now ≡ self.now.fragments }
    {
        self.fragments.as_slice()
    }

    /// The fragment of this name. It takes constant time.
    pub fn fragment(&self, name: &str) -> Option<&Fragment>
        ensures { option_map fragment_of (option_copied result)
            ≡ fragment_in (plan_of self.now).fragments name.now }
    {
        self.fragments.get(name)
    }

    /// The value of the variable of this name, without the `$`. `None` if it has no value. It takes constant time.
    pub fn variable(&self, name: &str) -> Option<&Input>
        ensures { option_map input_of (option_copied result)
            ≡ value_in (plan_of self.now).variables name.now }
    {
        self.variables.get(name)
    }

    /// The variables that have a value, in the order of the definitions.
    pub fn variables(&self) -> &[Variable]
        ensures { result.now ≡ self.now.variables }
    {
        self.variables.as_slice()
    }

    /// The plan of the same operation of the same document with other values of its variables. It shares the rest with this one.
    ///
    /// # Errors
    ///
    /// Those of [`prepare`](crate::prepare) that variables have: [`VariablesNotObject`](PrepareFault::VariablesNotObject),
    /// [`BadVariable`](PrepareFault::BadVariable) for the first in the order of the definitions, and
    /// [`NoMemory`](PrepareFault::NoMemory).
    pub fn again(&self, alloc: Global, variables: &Value) -> Result<Plan, PrepareFault>
        ensures same { IfOk result (IsSameBut self.now) }
        ensures ok { IfOk result (λ plan. preparation_of self.now.definitions
            self.now.operation variables.now ≡ Ok (prepared_in plan)) }
        ensures err { IfErr result (IsPrepareFault
            (preparation_of self.now.definitions self.now.operation variables.now)) }
    {
        let schema = Arc::try_clone(&self.schema)?;
        let bindings = Arc::try_clone(&self.bindings)?;
        let operation = Arc::try_clone(&self.operation)?;
        let fragments = Arc::try_clone(&self.fragments)?;
        with_values(alloc, schema, bindings, operation, fragments, variables)
    }

    /// Returns how many loaders a session of this plan needs: those of the bindings.
    pub fn loaders(&self) -> usize
        ensures { result ≡ length
            self.now.bindings.loaders }
    {
        self.bindings.loaders().len()
    }
}
