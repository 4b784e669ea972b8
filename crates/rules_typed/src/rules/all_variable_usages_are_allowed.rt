//! All Variable Usages Are Allowed (section 5.8.5).

ghost use Rattle.std.specs.Prelude.{◌≡◌, IfOk, OnOk, map, false, slice_index_or};
ghost use Rattle.std.specs.Option.{option_map};
ghost use Rattle.rules_parts.specs.Broken.{broken_of, earliest};
ghost use Rattle.rules_parts.specs.Parts.{use_of, parts_in};
ghost use Rattle.rules_spreads.specs.Graphs.{graph_of};
ghost use Rattle.rules_typed.specs.AllVariableUsagesAreAllowed.{all_variable_usages_are_allowed};
ghost use Rattle.rules_typed.specs.UseKinds.{AreKinds};
ghost use Rattle.rules_typed.specs.UsePlaces.{ArePlaces};
ghost use Rattle.rules_typed.specs.ForbiddenMarks.{MarksForbidden, AreForbidden};

use crate::allowed_uses::allowing_sets;
use crate::use_kinds::UseKinds;
use crate::use_places::places_of;
use rules_parts::{EarliestViolation, Parts, VariableUse, Violation};
use rules_spreads::{
    Graph, OperationSpan, OwnerLists, note_missing_in_fragments, note_missing_in_operations,
};
use std::alloc::{AllocError, Global};

/// Uses of variables by their locations, and those that stand for others of their kind.
#[derive(Drop)]
struct UsageKinds<'d> {
    places: OwnerLists,
    kinds: UseKinds<'d>,
}

// Marks the uses that an operation of a span includes and forbids.
fn mark_span(
    alloc: Global,
    uses: &[VariableUse],
    table: &UsageKinds,
    span: &OperationSpan,
    marks: &mut Vec<bool>,
) -> Result<(), AllocError>
    requires places { ArePlaces table.now.places uses.now }
    requires kinds { AreKinds table.now.kinds
        (map use_of uses.now) }
    ensures { OnOk result (MarksForbidden uses.now span.now marks.old.items marks.new.items) }
{
    let sets = allowing_sets(alloc, &table.kinds, uses, span)?;
    let kinds = &table.kinds.stand_ins;
    let places = &table.places;
    note_missing_in_operations(&places.operations, span, kinds, &sets, marks)?;
    note_missing_in_fragments(&places.fragments, &span.reached, kinds, &sets, marks)?;
    Ok(())
}

// The uses that an operation forbids, a mark for each.
fn forbidden_marks(alloc: Global, parts: &Parts, graph: &Graph) -> Result<Vec<bool>, AllocError>
    ensures { IfOk result (λ marks.
        AreForbidden graph.now parts.now marks.items) }
{
    let table = UsageKinds {
        places: places_of(alloc, &parts.uses)?,
        kinds: UseKinds::new(alloc, &parts.uses)?,
    };
    let operations = parts.document.operations.as_slice();
    let mut marks = Vec::new(alloc);
    let mut first = 0;
    while first < operations.len() {
        let span = OperationSpan::new(alloc, operations, graph, first)?;
        mark_span(alloc, &parts.uses, &table, &span, &mut marks)?;
        first += span.count;
    }
    Ok(marks)
}

// Tells whether a place is marked.
fn is_marked(marks: &[bool], place: usize) -> bool
    ensures { result ≡ slice_index_or
        marks.now place false }
{
    marks.get(place).copied().unwrap_or(false)
}

/// The earliest use of a variable that isn't allowed where it stands by an operation that includes it, in itself or in a
/// fragment that it reaches by spreads (section 5.8.5). Uses of variables that the operation doesn't define are skipped.
///
/// # Examples
///
/// | `query($i:ID){user(id:$i){name}}` | `5.8.5 All Variable Usages Are Allowed: i` | 22, the use | Make the variable's type fit: `$i:ID!`, or a
/// default other than null. |
#[tactic(auto, using(crate::proofs::Keeping::keep_next))]
pub fn all_variable_usages_are_allowed<'d>(
    alloc: Global,
    parts: &Parts<'d>,
    graph: &Graph,
) -> Result<Option<Violation<'d>>, AllocError>
    requires { graph.now ≡ graph_of (parts_in parts.now) }
    ensures { IfOk result (λ broken. option_map broken_of broken
        ≡ earliest (all_variable_usages_are_allowed (parts_in parts.now))) }
{
    if parts.uses.is_empty() {
        return Ok(None);
    }
    let marks = forbidden_marks(alloc, parts, graph)?;
    let mut earliest = EarliestViolation::new();
    for (place, part) in parts.uses.iter().enumerate() {
        if is_marked(&marks, place) {
            earliest.add(Violation::of_name(part.name, part.place));
        }
    }
    Ok(earliest.found)
}
