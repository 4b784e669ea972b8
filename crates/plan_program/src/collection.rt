//! Collection of fields (section 6.3.2, CollectFields).

ghost use Rattle.std.specs.Prelude.{◌≡◌, ◌<◌, ◌≤◌, IfOk, OnOk, map};
ghost use Rattle.gq_parser.specs.Tree.{map_selections, selection_of, below_of};
ghost use Rattle.gq_check.specs.Plans.{plan_of};
ghost use Rattle.plan_program.specs.Groups as groups;
ghost use Rattle.plan_program.specs.Groups.{collect_one, collect_from, entering, collect, collect_subfields, nothing_collected, selections_below};
ghost use Rattle.plan_program.specs.Seen.{groups_of};
ghost use Rattle.plan_program.specs.Collecting.{collected_of, collect_rest_if, Collects, CollectsFirst};
ghost use Rattle.plan_program.specs.Steps.{steps_inside, steps_one, steps_if, TakesStep};

use crate::chosen::{applies, applies_inline, is_left_out};
use crate::collected::CollectedFields;
use crate::group::Group;
use gq_check::Plan;
use gq_parser::{Selection, SelectionSet};
use std::alloc::{AllocError, Global};
use std::sync::Arc;

// Selections that are left to collect, where `enterable` fragments may still be entered one inside another.
#[derive(Clone, Copy)]
struct Rest<'p> {
    selections: &'p [Selection],
    enterable: usize,
}

// Returns what a fragment leaves to collect, where it applies.
fn rest_of_fragment<'p>(plan: &'p Plan, ty: &str, enterable: usize, name: &str) -> Option<Rest<'p>>
    ensures entered { (so_far : _) → collect_rest_if (plan_of plan.now) ty.now so_far result
        ≡ entering (plan_of plan.now) ty.now enterable so_far name.now }
    ensures steps { steps_if (plan_of plan.now).fragments result
        ≤ steps_inside (plan_of plan.now).fragments enterable }
{
    if enterable == 0 {
        return None;
    }
    let Some(fragment) = plan.fragment(name) else {
        return None;
    };
    if !applies(plan, &fragment.condition, ty) {
        return None;
    }
    Some(Rest {
        selections: &fragment.selection_set.selections,
        enterable: enterable - 1,
    })
}

// Collects a selection, but for the selections inside it, which are left to collect.
#[tactic(auto, using(crate::proofs::Rests::some_steps))]
fn collect_one<'p>(
    alloc: Global,
    plan: &'p Plan,
    ty: &str,
    enterable: usize,
    selection: &'p Selection,
    so_far: &mut CollectedFields<'p>,
) -> Result<Option<Rest<'p>>, AllocError>
    ensures collected { IfOk result (Collects (plan_of plan.now) ty.now
        enterable (selection_of selection.now) so_far.old so_far.new) }
    ensures steps { let fs = (plan_of plan.now).fragments in IfOk result
        (λ i. steps_if fs i < steps_one (steps_inside fs enterable) (selection_of selection.now)) }
{
    match selection {
        Selection::Field(field) => {
            if is_left_out(plan, &field.directives) {
                return Ok(None);
            }
            so_far.add_field(alloc, field)?;
            Ok(None)
        }
        Selection::Spread(spread) => {
            if is_left_out(plan, &spread.directives) {
                return Ok(None);
            }
            if so_far.enter(spread.name.as_str())? {
                return Ok(rest_of_fragment(plan, ty, enterable, spread.name.as_str()));
            }
            Ok(None)
        }
        Selection::Inline(inline) => {
            if is_left_out(plan, &inline.directives)
                || !applies_inline(plan, &inline.condition, ty)
            {
                return Ok(None);
            }
            Ok(Some(Rest {
                selections: &inline.selection_set.selections,
                enterable,
            }))
        }
    }
}

// Collects the first of these selections. Gives those that come next: what is inside it, else the others, else the last that
// are left.
fn collect_first<'p>(
    alloc: Global,
    plan: &'p Plan,
    ty: &str,
    rest: Rest<'p>,
    left: &mut Vec<Rest<'p>>,
    so_far: &mut CollectedFields<'p>,
) -> Result<Option<Rest<'p>>, AllocError>
    ensures collected { IfOk result (CollectsFirst
        (plan_of plan.now) ty.now rest.entry so_far.old so_far.new left.old.items left.new.items) }
    ensures steps { IfOk result
        (TakesStep (plan_of plan.now).fragments left.old.items rest.entry left.new.items) }
{
    let Some((selection, selections)) = rest.selections.split_first() else {
        return Ok(left.pop());
    };
    let others = Rest {
        selections,
        enterable: rest.enterable,
    };
    match collect_one(alloc, plan, ty, rest.enterable, selection, so_far)? {
        Some(inner) => {
            left.push(others)?;
            Ok(Some(inner))
        }
        None => Ok(Some(others)),
    }
}

// Collects what selections choose. However long the chains of fragments and inline fragments are, what is left to collect is
// kept in a list. Where nothing is inside a selection, the list stays empty.
fn collect_from<'p>(
    alloc: Global,
    plan: &'p Plan,
    ty: &str,
    selections: &'p [Selection],
    so_far: &mut CollectedFields<'p>,
) -> Result<(), AllocError>
    ensures { OnOk result (collected_of so_far.new ≡ collect_from (plan_of plan.now)
        ty.now (collected_of so_far.old) (map_selections selections.now)) }
{
    let mut left = Vec::new(alloc);
    let mut rest = Rest {
        selections,
        enterable: plan.fragments().len(),
    };
    while let Some(next) = collect_first(alloc, plan, ty, rest, &mut left, so_far)? {
        rest = next;
    }
    Ok(())
}

// Collects what a field selects.
fn collect_below<'p>(
    alloc: Global,
    plan: &'p Plan,
    ty: &str,
    below: &'p Option<Arc<SelectionSet>>,
    so_far: &mut CollectedFields<'p>,
) -> Result<(), AllocError>
    ensures { OnOk result (collected_of so_far.new ≡ collect_from (plan_of plan.now)
        ty.now (collected_of so_far.old) (selections_below (below_of below.now))) }
{
    match below {
        Some(set) => collect_from(alloc, plan, ty, &set.selections, so_far),
        None => Ok(()),
    }
}

/// Collects the fields of an object type from selections, grouped by response key in the order in which the keys first come
/// (section 6.3.2). Each named fragment is entered once.
///
/// # Errors
///
/// Only when out of memory.
pub fn collect<'p>(
    alloc: Global,
    plan: &'p Plan,
    ty: &str,
    selections: &'p [Selection],
) -> Result<Vec<Group<'p>>, AllocError>
    ensures { IfOk result (λ groups. groups_of groups.items
        ≡ collect (plan_of plan.now) ty.now (map_selections selections.now)) }
{
    let mut collected = CollectedFields::new(alloc);
    collect_from(alloc, plan, ty, selections, &mut collected)?;
    Ok(collected.into_groups())
}

/// Does the same for what several fields select, joined in order (section 6.3.2, MergeSelectionSets).
///
/// # Errors
///
/// Only when out of memory.
pub fn collect_subfields<'p>(
    alloc: Global,
    plan: &'p Plan,
    ty: &str,
    below: &'p [Option<Arc<SelectionSet>>],
) -> Result<Vec<Group<'p>>, AllocError>
    ensures { IfOk result (λ groups. groups_of groups.items ≡ (collect_subfields
        (plan_of plan.now) ty.now nothing_collected (map below_of below.now)).groups) }
{
    let mut collected = CollectedFields::new(alloc);
    for set in below {
        collect_below(alloc, plan, ty, set, &mut collected)?;
    }
    Ok(collected.into_groups())
}
