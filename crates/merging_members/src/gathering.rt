//! The members of the own selection sets of all fields, in one walk through a document.

ghost use Rattle.std.specs.Prelude.{◌≡◌, ◌≤◌, ◌+◌, ◌∷◌, length, map, IfOk, OnOk};
ghost use Rattle.gq_parser.specs.Tree.{set_of, selection_of, below_of, operation_of, fragment_of, document_of};
ghost use Rattle.merging_members.specs.Knowledge.{ReachesAll, Gains, AddsRows, HasRows};
ghost use Rattle.merging_members.specs.Members.{count_in, count_from, count_below, count_operations, count_fragments, count_fields, members_in, members_from};
ghost use Rattle.merging_members.specs.Written.{written_in, written_from, written_below, written_operations, written_fragments, written_fields, belows};

use crate::known::FragmentMembers;
use crate::set_members::{add_field, add_fragment};
use gq_parser::{Document, Fragment, Operation, Selection, SelectionSet};
use merging_pairs::{FieldSet, ReachedFields};
use std::alloc::{AllocError, Global};
use std::sync::Arc;

// Holds what is found of a set as it is walked through.
#[derive(Drop)]
struct GatheredSet {
    // holds what it has
    reached: ReachedFields,
    // the number after its fields
    next: usize,
}

// Adds the rows of the fields in a set; the first of them has the number `first`.
#[cycle(gathering)]
fn gather_set(
    walk: &FragmentMembers,
    set: &SelectionSet,
    first: usize,
    rows: &mut Vec<FieldSet>,
) -> Result<GatheredSet, AllocError>
    requires inside { first + count_in (set_of set.now)
        ≤ length walk.now.numbers.now }
    ensures next { IfOk result (λ gathered.
        gathered.next ≡ first + count_in (set_of set.now)) }
    ensures reached { IfOk result (λ gathered.
        ReachesAll walk.now (λ spread. members_in spread first (set_of set.now)) gathered.reached) }
    ensures rows { OnOk result (AddsRows walk.now first
        (belows (written_in (set_of set.now))) rows.old.items rows.new.items) }
{
    let mut reached = ReachedFields::new();
    let mut next = first;
    for selection in &set.selections {
        next = gather(walk, selection, next, rows, &mut reached)?;
    }
    Ok(GatheredSet { reached, next })
}

// Adds the rows of the fields in a selection and its members, and returns the number after its fields.
#[cycle(gathering)]
fn gather(
    walk: &FragmentMembers,
    selection: &Selection,
    number: usize,
    rows: &mut Vec<FieldSet>,
    reached: &mut ReachedFields,
) -> Result<usize, AllocError>
    requires inside { number + count_from (selection_of selection.now)
        ≤ length walk.now.numbers.now }
    ensures next { IfOk result (λ next. next ≡ number
        + count_from (selection_of selection.now)) }
    ensures reached { OnOk result (Gains walk.now (λ spread.
        members_from spread number (selection_of selection.now)) reached.old reached.new) }
    ensures rows { OnOk result (AddsRows walk.now number
        (belows (written_from (selection_of selection.now))) rows.old.items rows.new.items) }
{
    match selection {
        Selection::Field(field) => {
            add_field(walk, number, reached);
            gather_field(walk, &field.selection_set, number, rows)
        }
        Selection::Spread(spread) => {
            add_fragment(walk, spread.name.as_str(), reached);
            Ok(number)
        }
        Selection::Inline(inline) => {
            let inside = gather_set(walk, &inline.selection_set, number, rows)?;
            reached.add_all(&inside.reached);
            Ok(inside.next)
        }
    }
}

// Adds the row of a field, and those of the fields below it, and answers the number after them.
#[cycle(gathering)]
fn gather_field(
    walk: &FragmentMembers,
    below: &Option<Arc<SelectionSet>>,
    number: usize,
    rows: &mut Vec<FieldSet>,
) -> Result<usize, AllocError>
    requires inside { number + 1 + count_below
        (below_of below.now) ≤ length walk.now.numbers.now }
    ensures next { IfOk result (λ next. next
        ≡ number + 1 + count_below (below_of below.now)) }
    ensures rows { OnOk result (AddsRows walk.now number (below_of below.now ∷ belows
        (written_below (below_of below.now))) rows.old.items rows.new.items) }
{
    let place = rows.len();
    rows.push(FieldSet::new())?;
    let first = number + 1;
    match below {
        Some(set) => {
            let GatheredSet { reached, next } = gather_set(walk, set, first, rows)?;
            let ReachedFields { members, .. } = reached;
            match rows.get_mut(place) {
                Some(row) => *row = members,
                None => {}
            }
            Ok(next)
        }
        None => Ok(first),
    }
}

// Adds the rows of the fields in operations; the first field has the number 0. Answers the number after all fields.
fn gather_operations(
    walk: &FragmentMembers,
    operations: &[Operation],
    rows: &mut Vec<FieldSet>,
) -> Result<usize, AllocError>
    requires inside { count_operations (map operation_of operations.now)
        ≤ length walk.now.numbers.now }
    ensures next { IfOk result (λ next. next ≡ count_operations (map operation_of operations.now)) }
    ensures rows { OnOk result (AddsRows walk.now 0 (belows
        (written_operations (map operation_of operations.now))) rows.old.items rows.new.items) }
{
    let mut next = 0;
    for operation in operations {
        next = gather_set(walk, &operation.selection_set, next, rows)?.next;
    }
    Ok(next)
}

// Adds the rows of the fields in fragments; the first field has the number `first`.
fn gather_fragments(
    walk: &FragmentMembers,
    fragments: &[Fragment],
    first: usize,
    rows: &mut Vec<FieldSet>,
) -> Result<(), AllocError>
    requires inside { first + count_fragments (map fragment_of fragments.now)
        ≤ length walk.now.numbers.now }
    ensures { OnOk result (AddsRows walk.now first (belows
        (written_fragments (map fragment_of fragments.now))) rows.old.items rows.new.items) }
{
    let mut next = first;
    for fragment in fragments {
        next = gather_set(walk, &fragment.selection_set, next, rows)?.next;
    }
    Ok(())
}

/// For each field of a document, by its number, the members of its own selection set. Each selection is visited once.
pub fn members_of_fields(
    alloc: Global,
    walk: &FragmentMembers,
    document: &Document,
) -> Result<Vec<FieldSet>, AllocError>
    requires inside { count_fields (document_of document.now) ≤ length walk.now.numbers.now }
    ensures { IfOk result (λ rows.
        HasRows walk.now (belows (written_fields (document_of document.now))) rows.items) }
{
    let mut rows = Vec::new(alloc);
    let first = gather_operations(walk, &document.operations, &mut rows)?;
    gather_fragments(walk, &document.fragments, first, &mut rows)?;
    Ok(rows)
}
