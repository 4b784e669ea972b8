//! The first member of a set that passes a test, where its fields and those of the fragments that it enters are met in order.

ghost use Rattle.std.specs.Prelude.{◌<◌, ◌≤◌, ◌+◌, ◌∷◌, [], ℕ, Bool, List, length};
ghost use Rattle.gq_parser.specs.Tree.{set_of, selection_of};
ghost use Rattle.merging_members.specs.Fragments.{target_at};
ghost use Rattle.merging_members.specs.Members.{count_in, count_from, members_in, members_from};
ghost use Rattle.merging_members.specs.Ranked.{spreads_in, spreads_from};
ghost use Rattle.merging_members.specs.Knowledge.{IsFirstMet, MeetsFirst, MeetsSpread};
ghost use Rattle.merging_members.specs.Meeting.{IsPast, IsSpread, met_of};

use crate::counting::fields_from;
use crate::known::FragmentMembers;
use crate::set_members::known_at;
use gq_parser::{Selection, SelectionSet};
use merging_pairs::FieldSet;

/// Place where the first member that passes is met.
#[derive(Clone, Copy)]
pub enum Met {
    /// It is this field, by its number in the document.
    Field(usize),
    /// It is the first of this fragment.
    Fragment(usize),
}

// Tells whether a field passes.
fn field_met(walk: &FragmentMembers, keys: &FieldSet, number: usize) -> Option<Met>
    requires inside { number < length walk.now.numbers.now }
    ensures met { (spread : List ℕ → List ℕ)
        → IsFirstMet walk.now keys.now spread (number ∷ []) result }
    ensures spread { (test : List ℕ → Bool)
        → IsSpread (target_at walk.now.targets.now) test result }
{
    if keys.has(walk.numbers[number]) {
        Some(Met::Field(number))
    } else {
        None
    }
}

// Tells whether a member of the fragment of a name passes.
fn fragment_met(walk: &FragmentMembers, keys: &FieldSet, name: &str) -> Option<Met>
    ensures met { MeetsFirst walk.now keys.now
        (λ spread. spread name.now) result }
    ensures spread { MeetsSpread walk.now
        (λ test. test name.now) result }
{
    match walk.targets.get(name) {
        Some(target) => {
            if known_at(walk, *target).members.meets(keys) {
                Some(Met::Fragment(*target))
            } else {
                None
            }
        }
        None => None,
    }
}

// End of a walk through selections.
#[derive(Clone, Copy)]
enum Came {
    // to the first that passes
    Met(Met),
    // past them all, to the field of this number
    Past(usize),
}

/// Returns where the first member of a set that passes is met; the set's first field has the number `first`.
pub fn first_met(
    walk: &FragmentMembers,
    keys: &FieldSet,
    set: &SelectionSet,
    first: usize,
) -> Option<Met>
    requires inside { first + count_in (set_of set.now)
        ≤ length walk.now.numbers.now }
    ensures met { MeetsFirst walk.now keys.now (λ spread.
        members_in spread first (set_of set.now)) result }
    ensures spread { MeetsSpread walk.now
        (λ test. spreads_in test (set_of set.now)) result }
{
    match come_through(walk, keys, set, first) {
        Came::Met(met) => Some(met),
        Came::Past(_) => None,
    }
}

// Walks through a set up to the first member that passes.
#[cycle(meeting)]
fn come_through(walk: &FragmentMembers, keys: &FieldSet, set: &SelectionSet, first: usize) -> Came
    requires inside { first + count_in (set_of set.now)
        ≤ length walk.now.numbers.now }
    ensures past { IsPast (first
        + count_in (set_of set.now)) result }
    ensures met { MeetsFirst walk.now keys.now (λ spread.
        members_in spread first (set_of set.now)) (met_of result) }
    ensures spread { MeetsSpread walk.now (λ test.
        spreads_in test (set_of set.now)) (met_of result) }
{
    let mut next = first;
    for selection in &set.selections {
        match come_past(walk, keys, selection, next) {
            Came::Met(met) => return Came::Met(met),
            Came::Past(number) => next = number,
        }
    }
    Came::Past(next)
}

// Does the same of a selection.
#[cycle(meeting)]
fn come_past(walk: &FragmentMembers, keys: &FieldSet, selection: &Selection, number: usize) -> Came
    requires inside { number + count_from (selection_of selection.now)
        ≤ length walk.now.numbers.now }
    ensures past { IsPast (number
        + count_from (selection_of selection.now)) result }
    ensures met { MeetsFirst walk.now keys.now (λ spread.
        members_from spread number (selection_of selection.now)) (met_of result) }
    ensures spread { MeetsSpread walk.now (λ test.
        spreads_from test (selection_of selection.now)) (met_of result) }
{
    match selection {
        Selection::Field(_) => match field_met(walk, keys, number) {
            Some(met) => Came::Met(met),
            None => Came::Past(number + fields_from(selection)),
        },
        Selection::Spread(spread) => match fragment_met(walk, keys, spread.name.as_str()) {
            Some(met) => Came::Met(met),
            None => Came::Past(number),
        },
        Selection::Inline(inline) => come_through(walk, keys, &inline.selection_set, number),
    }
}
