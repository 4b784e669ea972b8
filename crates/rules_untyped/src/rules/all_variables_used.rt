//! All Variables Used (section 5.8.4).

ghost use Rattle.std.specs.Prelude.{◌≡◌, ◌<◌, ℕ, List, [], IsTrue, IfOk, OnOk, map};
ghost use Rattle.std.specs.Option.{option_map};
ghost use Rattle.gq_parser.specs.Tree.{operation_of};
ghost use Rattle.rules_parts.specs.Broken.{broken_of, earliest};
ghost use Rattle.rules_parts.specs.Parts.{VariableUse as Use, parts_in};
ghost use Rattle.rules_spreads.specs.Graphs.{GraphOf, graph_of};
ghost use Rattle.rules_untyped.specs.Scans.{Tells};
ghost use Rattle.rules_untyped.specs.AllVariablesUsed.{unused_variables, all_variables_used};
ghost use Rattle.rules_untyped.specs.VariableUseIndex.{number_by};
ghost use Rattle.rules_untyped.specs.SpanSteps.{unused_by, TellsUnused};

use crate::spans::{has_if, using_sets};
use crate::variable_use_index::{VariableNumbers, VariableUseIndex};
use crate::variable_uses::VariableUses;
use gq_parser::Operation;
use rules_parts::{EarliestViolation, Violation};
use rules_spreads::{Graph, OperationSet, OperationSpan};
use std::alloc::{AllocError, Global};

// Reports the variables that this operation never uses.
fn add_unused<'d>(
    operation: &'d Operation,
    names: &VariableNumbers,
    used: &[OperationSet],
    number: usize,
    earliest: &mut EarliestViolation<'d>,
)
    requires { number < 64 }
    ensures { Tells earliest.old earliest.new
        (unused_by used.now number (number_by names.now) (operation_of operation.now)) }
{
    for variable in &operation.variables {
        let name = names.get(variable.name.as_str()).copied();
        if !has_if(used, number, name) {
            earliest.add(Violation::of_name(variable.name.as_str(), variable.place));
        }
    }
}

// Reports the variables that the operations of a span never use.
fn add_unused_of_span<'d>(
    alloc: Global,
    table: &VariableUseIndex,
    span: &OperationSpan<'d>,
    earliest: &mut EarliestViolation<'d>,
) -> Result<(), AllocError>
    ensures { OnOk result (TellsUnused span.now table.now earliest.old earliest.new) }
{
    let used = using_sets(alloc, table, span)?;
    for number in 0..span.count {
        let operation = &span.operations[span.first + number];
        add_unused(operation, &table.names, &used, number, earliest);
    }
    Ok(())
}

// Tells whether none of the operations has variables.
fn has_no_variables(operations: &[Operation]) -> bool
    ensures { IsTrue result → (g : GraphOf) (uses : List Use) (i : ℕ)
        → unused_variables g uses i (map operation_of operations.now) ≡ [] }
{
    operations
        .iter()
        .all(|operation| operation.variables.is_empty())
}

/// All Variables Used (section 5.8.4): a variable of an operation that reaches no use of it, in itself or in fragments.
///
/// # Examples
///
/// | `query($i:ID){users{id}}` | `5.8.4 All Variables Used: i` | 7, its definition | Use it, or remove it. |
pub fn all_variables_used<'d>(
    alloc: Global,
    uses: &VariableUses<'_, 'd>,
    graph: &Graph,
) -> Result<Option<Violation<'d>>, AllocError>
    requires { graph.now
        ≡ graph_of (parts_in uses.now.parts.now) }
    ensures { IfOk result (λ broken.
        option_map broken_of broken ≡ earliest (all_variables_used (parts_in uses.now.parts.now))) }
{
    let operations = uses.parts.document.operations.as_slice();
    if has_no_variables(operations) {
        return Ok(None);
    }
    let mut earliest = EarliestViolation::new();
    let mut first = 0;
    while first < operations.len() {
        let span = OperationSpan::new(alloc, operations, graph, first)?;
        add_unused_of_span(alloc, &uses.table, &span, &mut earliest)?;
        first += span.count;
    }
    Ok(earliest.found)
}
