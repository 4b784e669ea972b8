//! All Variable Uses Defined (section 5.8.3).

ghost use Rattle.std.specs.Prelude.{◌≡◌, false, IfOk, map, slice_index_or};
ghost use Rattle.std.specs.Option.{option_map};
ghost use Rattle.gq_parser.specs.Tree.{operation_of};
ghost use Rattle.rules_parts.specs.Broken.{broken_of, earliest};
ghost use Rattle.rules_parts.specs.Parts.{parts_in};
ghost use Rattle.rules_spreads.specs.Graphs.{graph_of};
ghost use Rattle.rules_untyped.specs.AllVariableUsesDefined.{all_variable_uses_defined};
ghost use Rattle.rules_untyped.specs.SpanSteps.{AreLacking};

use crate::spans::note_lacking;
use crate::variable_use_index::{VariableUseIndex, number_at};
use crate::variable_uses::VariableUses;
use gq_parser::Operation;
use rules_parts::{EarliestViolation, Violation};
use rules_spreads::{Graph, OperationSpan};
use std::alloc::{AllocError, Global};

// Marks the uses that an operation reaches without defining their variables: for each name in an operation or fragment the one
// use that stands for the others.
fn lacking_uses(
    alloc: Global,
    operations: &[Operation],
    graph: &Graph,
    table: &VariableUseIndex,
) -> Result<Vec<bool>, AllocError>
    ensures { IfOk result (λ lacking.
        AreLacking graph.now (map operation_of operations.now) table.now lacking.items) }
{
    let mut lacking = Vec::new(alloc);
    let mut first = 0;
    while first < operations.len() {
        let span = OperationSpan::new(alloc, operations, graph, first)?;
        note_lacking(alloc, table, &span, &mut lacking)?;
        first += span.count;
    }
    Ok(lacking)
}

// Tells whether a place is noted.
fn is_noted(noted: &[bool], place: usize) -> bool
    ensures { result ≡ slice_index_or
        noted.now place false }
{
    noted.get(place).copied().unwrap_or(false)
}

/// All Variable Uses Defined (section 5.8.3): a use of a variable that an operation reaches, in itself or in fragments, without
/// defining the variable.
///
/// A use is listed once, however many operations lack its variable.
///
/// # Examples
///
/// | `{user(id:$i){name}}` | `5.8.3 All Variable Uses Defined: i` | 10, the use | Define it in every operation that reaches the use, through
/// fragments too. |
pub fn all_variable_uses_defined<'d>(
    alloc: Global,
    uses: &VariableUses<'_, 'd>,
    graph: &Graph,
) -> Result<Option<Violation<'d>>, AllocError>
    requires { graph.now
        ≡ graph_of (parts_in uses.now.parts.now) }
    ensures { IfOk result (λ broken. option_map broken_of broken
        ≡ earliest (all_variable_uses_defined (parts_in uses.now.parts.now))) }
{
    let parts = uses.parts;
    if parts.uses.is_empty() {
        return Ok(None);
    }
    let lacking = lacking_uses(alloc, &parts.document.operations, graph, &uses.table)?;
    let mut earliest = EarliestViolation::new();
    for (place, part) in parts.uses.iter().enumerate() {
        if is_noted(&lacking, number_at(&uses.table.stand_ins, place)) {
            earliest.add(Violation::of_name(part.name, part.place));
        }
    }
    Ok(earliest.found)
}
