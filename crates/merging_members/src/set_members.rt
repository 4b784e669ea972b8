//! Members that selection sets have in all.

ghost use Rattle.std.specs.Prelude.{◌≡◌, ◌<◌, ◌≤◌, ◌+◌, ◌++◌, ◌∷◌, [], ℕ, List, Some, length, slice_get};
ghost use Rattle.gq_parser.specs.Tree.{set_of, selection_of};
ghost use Rattle.merging_members.specs.Knowledge.{Reaches, ReachesWhere, GainsAt, GainsIn, GainsFrom};
ghost use Rattle.merging_members.specs.Members.{count_in, count_from, members_in};
ghost use Rattle.merging_members.specs.Ranked.{spreads_in};

use crate::counting::fields_from;
use crate::known::FragmentMembers;
use gq_parser::{Selection, SelectionSet};
use merging_pairs::ReachedFields;

/// Adds a field.
pub(crate) fn add_field(walk: &FragmentMembers, number: usize, reached: &mut ReachedFields)
    requires inside { number < length walk.now.numbers.now }
    ensures { (ms : List ℕ) → Reaches walk.now ms reached.old
        → Reaches walk.now (ms ++ number ∷ []) reached.new }
{
    reached.add_field(walk.rows, walk.numbers[number]);
}

/// Returns what the fragment of a number has.
pub(crate) fn known_at<'a>(walk: &FragmentMembers<'a, '_>, number: usize) -> &'a ReachedFields
    requires there { number < length
        walk.now.fragments.now }
    ensures { slice_get walk.now.fragments.now number
        ≡ Some result.now }
{
    &walk.fragments[number]
}

/// Adds what the fragment of a name has.
pub(crate) fn add_fragment(walk: &FragmentMembers, name: &str, reached: &mut ReachedFields)
    ensures { GainsAt walk.now name.now
        reached.old reached.new }
{
    match walk.targets.get(name) {
        Some(target) => reached.add_all(known_at(walk, *target)),
        None => {}
    }
}

/// Returns what a set has whose first field has the number `first`, where what the fragments that it spreads have
/// is known.
pub fn reached_in(walk: &FragmentMembers, set: &SelectionSet, first: usize) -> ReachedFields
    requires inside { first + count_in (set_of set.now)
        ≤ length walk.now.numbers.now }
    ensures { ReachesWhere walk.now (λ test. spreads_in test (set_of set.now))
        (λ spread. members_in spread first (set_of set.now)) result }
{
    let mut reached = ReachedFields::new();
    let _next = enter_set(walk, set, first, &mut reached);
    reached
}

// Adds what a set has, and answers the number after its fields.
#[cycle(entering)]
fn enter_set(
    walk: &FragmentMembers,
    set: &SelectionSet,
    first: usize,
    reached: &mut ReachedFields,
) -> usize
    requires inside { first + count_in (set_of set.now)
        ≤ length walk.now.numbers.now }
    ensures next { result ≡ first
        + count_in (set_of set.now) }
    ensures reached { GainsIn walk.now first
        (set_of set.now) reached.old reached.new }
{
    let mut next = first;
    for selection in &set.selections {
        next = enter(walk, selection, next, reached);
    }
    next
}

// Adds what a selection has, and answers the number after its fields.
#[cycle(entering)]
fn enter(
    walk: &FragmentMembers,
    selection: &Selection,
    number: usize,
    reached: &mut ReachedFields,
) -> usize
    requires inside { number + count_from (selection_of selection.now)
        ≤ length walk.now.numbers.now }
    ensures next { result ≡ number
        + count_from (selection_of selection.now) }
    ensures reached { GainsFrom walk.now number
        (selection_of selection.now) reached.old reached.new }
{
    match selection {
        Selection::Field(_) => {
            add_field(walk, number, reached);
            number + fields_from(selection)
        }
        Selection::Spread(spread) => {
            add_fragment(walk, spread.name.as_str(), reached);
            number
        }
        Selection::Inline(inline) => enter_set(walk, &inline.selection_set, number, reached),
    }
}
