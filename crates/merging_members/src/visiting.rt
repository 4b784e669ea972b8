//! The selection sets of a document, each after those inside it.

ghost use Rattle.std.specs.Prelude.{◌≡◌, ◌≤◌, ◌+◌, ℕ, length, IfOk, OnOk};
ghost use Rattle.gq_parser.specs.Tree.{set_of, selection_of, below_of};
ghost use Rattle.merging_members.specs.Knowledge.{ReachesAll, Gains, AddsClashing};
ghost use Rattle.merging_members.specs.Members.{count_in, count_from, count_below, members_in, members_from, sets_in, sets_from, sets_below};
ghost use Rattle.merging_members.specs.SetMembers.{AreInside, AddsIfClashing};

use crate::known::FragmentMembers;
use crate::set_members::{add_field, add_fragment};
use gq_parser::{Selection, SelectionSet};
use merging_pairs::ReachedFields;
use std::alloc::AllocError;
use std::sync::Arc;

/// A selection set with two fields that fail.
#[derive(Clone, Copy)]
pub struct ClashingSet<'d> {
    pub set: &'d SelectionSet,
    /// The number of the first field in it.
    pub first: usize,
}

// Holds what is found of a set as it is visited.
#[derive(Drop)]
struct VisitedSet {
    // holds what it has
    reached: ReachedFields,
    // the number after its fields
    next: usize,
}

/// Adds those of this set and the sets inside it in which two fields conflict, and returns the number after its fields. The first
/// field of this set has the number `first`. Each selection is visited once.
pub fn add_clashing<'d>(
    walk: &FragmentMembers,
    set: &'d SelectionSet,
    first: usize,
    clashing: &mut Vec<ClashingSet<'d>>,
) -> Result<usize, AllocError>
    requires inside { first + count_in (set_of set.now)
        ≤ length walk.now.numbers.now }
    ensures next { IfOk result
        (λ next. next ≡ first + count_in (set_of set.now)) }
    ensures sets { OnOk result (AddsClashing walk.now (λ spread.
        sets_in spread first (set_of set.now)) clashing.old.items clashing.new.items) }
    ensures inside { AreInside (length walk.now.numbers.now) clashing.old.items
        → OnOk result (AreInside (length walk.now.numbers.now) clashing.new.items) }
{
    let visited = visit_set(walk, set, first, clashing)?;
    Ok(visited.next)
}

// Adds a set if two of its fields conflict.
fn note<'d>(
    reached: &ReachedFields,
    set: &'d SelectionSet,
    first: usize,
    clashing: &mut Vec<ClashingSet<'d>>,
) -> Result<(), AllocError>
    ensures sets { OnOk result
        (AddsIfClashing reached.now first (set_of set.now) clashing.old.items clashing.new.items) }
    ensures inside { (many : ℕ) → first + count_in (set_of set.now) ≤ many
        → AreInside many clashing.old.items → OnOk result (AreInside many clashing.new.items) }
{
    if reached.has_clash() {
        clashing.push(ClashingSet { set, first })?;
    }
    Ok(())
}

// Visits a set: adds the sets in it in which two fields conflict, and returns its members.
#[cycle(visiting)]
fn visit_set<'d>(
    walk: &FragmentMembers,
    set: &'d SelectionSet,
    first: usize,
    clashing: &mut Vec<ClashingSet<'d>>,
) -> Result<VisitedSet, AllocError>
    requires inside { first + count_in (set_of set.now)
        ≤ length walk.now.numbers.now }
    ensures next { IfOk result (λ visited.
        visited.next ≡ first + count_in (set_of set.now)) }
    ensures reached { IfOk result (λ visited.
        ReachesAll walk.now (λ spread. members_in spread first (set_of set.now)) visited.reached) }
    ensures clashing { OnOk result (AddsClashing walk.now (λ spread.
        sets_in spread first (set_of set.now)) clashing.old.items clashing.new.items) }
    ensures inside { AreInside (length walk.now.numbers.now) clashing.old.items
        → OnOk result (AreInside (length walk.now.numbers.now) clashing.new.items) }
{
    let mut reached = ReachedFields::new();
    let mut next = first;
    for selection in &set.selections {
        next = visit(walk, selection, next, clashing, &mut reached)?;
    }
    note(&reached, set, first, clashing)?;
    Ok(VisitedSet { reached, next })
}

// Visits a selection: adds the sets inside it in which two fields fail and what it has, and answers the number after its fields.
#[cycle(visiting)]
fn visit<'d>(
    walk: &FragmentMembers,
    selection: &'d Selection,
    number: usize,
    clashing: &mut Vec<ClashingSet<'d>>,
    reached: &mut ReachedFields,
) -> Result<usize, AllocError>
    requires inside { number + count_from (selection_of selection.now)
        ≤ length walk.now.numbers.now }
    ensures next { IfOk result (λ next. next ≡ number
        + count_from (selection_of selection.now)) }
    ensures reached { OnOk result (Gains walk.now (λ spread.
        members_from spread number (selection_of selection.now)) reached.old reached.new) }
    ensures clashing { OnOk result (AddsClashing walk.now (λ spread. sets_from spread number
        (selection_of selection.now)) clashing.old.items clashing.new.items) }
    ensures inside { AreInside (length walk.now.numbers.now) clashing.old.items
        → OnOk result (AreInside (length walk.now.numbers.now) clashing.new.items) }
{
    match selection {
        Selection::Field(field) => {
            add_field(walk, number, reached);
            visit_below(walk, &field.selection_set, number + 1, clashing)
        }
        Selection::Spread(spread) => {
            add_fragment(walk, spread.name.as_str(), reached);
            Ok(number)
        }
        Selection::Inline(inline) => {
            let inside = visit_set(walk, &inline.selection_set, number, clashing)?;
            reached.add_all(&inside.reached);
            Ok(inside.next)
        }
    }
}

// Visits the set of a field, if it has one; its first field has the number `first`.
#[cycle(visiting)]
fn visit_below<'d>(
    walk: &FragmentMembers,
    below: &'d Option<Arc<SelectionSet>>,
    first: usize,
    clashing: &mut Vec<ClashingSet<'d>>,
) -> Result<usize, AllocError>
    requires inside { first + count_below
        (below_of below.now) ≤ length walk.now.numbers.now }
    ensures next { IfOk result (λ next.
        next ≡ first + count_below (below_of below.now)) }
    ensures clashing { OnOk result (AddsClashing walk.now (λ spread.
        sets_below spread first (below_of below.now)) clashing.old.items clashing.new.items) }
    ensures inside { AreInside (length walk.now.numbers.now) clashing.old.items
        → OnOk result (AreInside (length walk.now.numbers.now) clashing.new.items) }
{
    match below {
        Some(set) => {
            let visited = visit_set(walk, set, first, clashing)?;
            Ok(visited.next)
        }
        None => Ok(first),
    }
}
