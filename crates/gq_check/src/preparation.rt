//! Preparing an operation (section 6.1).

ghost use Rattle.std.specs.Prelude.{◌≡◌, [], Ok, IfOk, IfErr};
ghost use Rattle.std.specs.Arc.{arc_value};
ghost use Rattle.gq_parser.specs.Tree.{operation_of};
ghost use Rattle.gq_schema.specs.Types.{tree_of};
ghost use Rattle.gq_check.specs.Plans.{IsSameBut, fragments_of, plan_parts};
ghost use Rattle.gq_check.specs.Planned.{IsChosen, preparation, preparation_in, preparation_of, prepared_in};
ghost use Rattle.gq_check.specs.Prepared.{prepare_fault, IsPrepareFault};

use crate::checked::CheckedDocument;
use crate::fault::PrepareFault;
use crate::fragments::Fragments;
use crate::operation::chosen_operation;
use crate::plan::Plan;
use crate::prepared_document::PreparedDocument;
use crate::variables::Variables;
use gq_bindings::Bindings;
use gq_parser::Operation;
use gq_schema::Schema;
use gq_variables::{VariableFault, coerce_variables};
use serde_json::Value;
use std::alloc::Global;
use std::sync::Arc;

impl From<VariableFault> for PrepareFault {
    ghost from_gives = { λ f e. e ≡ prepare_fault f };

    fn from(fault: VariableFault) -> PrepareFault {
        match fault {
            VariableFault::NotObject => PrepareFault::VariablesNotObject,
            VariableFault::Bad(name) => PrepareFault::BadVariable(name),
            VariableFault::NoMemory => PrepareFault::NoMemory,
        }
    }
}

/// The plan of a chosen operation, with the values that are given for its variables.
pub(crate) fn with_values(
    alloc: Global,
    schema: Arc<Schema>,
    bindings: Arc<Bindings>,
    operation: Arc<Operation>,
    fragments: Arc<Fragments>,
    variables: &Value,
) -> Result<Plan, PrepareFault>
    requires { IsChosen (tree_of (arc_value schema))
        (operation_of (arc_value operation)) (fragments_of (arc_value fragments)) }
    ensures same { IfOk result (IsSameBut (plan_parts schema bindings operation fragments [])) }
    ensures ok { IfOk result (λ plan. preparation_of (arc_value schema)
        (arc_value operation) variables.now ≡ Ok (prepared_in plan)) }
    ensures err { IfErr result
        (IsPrepareFault (preparation_of (arc_value schema) (arc_value operation) variables.now)) }
{
    let variables = coerce_variables(alloc, &schema, &operation.variables, variables)?;
    let variables = Variables::of(alloc, variables)?;
    Ok(Plan::of(schema, bindings, operation, fragments, variables))
}

/// Prepares an operation of a checked document: the one named `operation_name`, or the only one. `variables` holds the
/// values of its variables; null means none. The empty string is a name. The plan shares the document's schema and these bindings.
///
/// That the bindings are of this schema is no condition: a plan's program is defined for any bindings, and laws
/// of `plan_laws` say what holds where they are. It keeps the document and then prepares as [`prepare_again`]
/// does.
///
/// # Errors
///
/// The first of these: [`NoSuchOperation`](PrepareFault::NoSuchOperation),
/// [`OperationNeeded`](PrepareFault::OperationNeeded), [`VariablesNotObject`](PrepareFault::VariablesNotObject),
/// [`BadVariable`](PrepareFault::BadVariable) for the first in the order of the definitions.
/// [`NoMemory`](PrepareFault::NoMemory) comes as soon as memory runs out, before any fault that would have been found
/// later. The document is dropped then.
pub fn prepare(
    alloc: Global,
    bindings: &Arc<Bindings>,
    checked: CheckedDocument,
    operation_name: Option<&str>,
    variables: &Value,
) -> Result<Plan, PrepareFault>
    ensures schema { IfOk result
        (λ plan. plan.definitions ≡ checked.definitions) }
    ensures bindings { IfOk result
        (λ plan. plan.bindings ≡ arc_value bindings.now) }
    ensures fragments { IfOk result (λ plan.
        plan.fragments ≡ checked.document.fragments.items) }
    ensures ok { IfOk result (λ plan.
        preparation_in checked operation_name.entry variables.now ≡ Ok (prepared_in plan)) }
    ensures err { IfErr result
        (IsPrepareFault (preparation_in checked operation_name.entry variables.now)) }
{
    let kept = PreparedDocument::of(alloc, checked)?;
    prepare_again(alloc, bindings, &kept, operation_name, variables)
}

/// The plan of an operation of a kept document, as [`prepare`] gives it. It shares the document, and nothing of it is copied.
///
/// # Errors
///
/// Those of [`prepare`].
pub fn prepare_again(
    alloc: Global,
    bindings: &Arc<Bindings>,
    kept: &PreparedDocument,
    operation_name: Option<&str>,
    variables: &Value,
) -> Result<Plan, PrepareFault>
    ensures schema { IfOk result
        (λ plan. plan.definitions ≡ kept.now.definitions) }
    ensures bindings { IfOk result
        (λ plan. plan.bindings ≡ arc_value bindings.now) }
    ensures fragments { IfOk result
        (λ plan. plan.fragments ≡ kept.now.fragments) }
    ensures ok { IfOk result (λ plan. preparation kept.now.definitions
        kept.now.operations operation_name.entry variables.now ≡ Ok (prepared_in plan)) }
    ensures err { IfErr result (IsPrepareFault
        (preparation kept.now.definitions kept.now.operations operation_name.entry variables.now)) }
{
    let operations = kept.operations();
    let place = chosen_operation(alloc, operations, operation_name)?;
    let schema = Arc::try_clone(kept.schema())?;
    let bindings = Arc::try_clone(bindings)?;
    let operation = Arc::try_clone(&operations[place])?;
    let fragments = Arc::try_clone(kept.fragments())?;
    with_values(alloc, schema, bindings, operation, fragments, variables)
}
