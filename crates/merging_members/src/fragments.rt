//! Members of each fragment.

ghost use Rattle.std.specs.Prelude.{◌≡◌, ◌<◌, ◌≤◌, ◌+◌, ℕ, Some, slice_get, length, IfOk, IfSome};
ghost use Rattle.gq_parser.specs.Tree.{Fragment, set_of};
ghost use Rattle.merging_pairs.specs.Entered.{IsReached};
ghost use Rattle.merging_members.specs.Fragments.{place_in};
ghost use Rattle.merging_members.specs.Knowledge.{document_in, HasMembersAt, IsTableKnown, LearnsOf};
ghost use Rattle.merging_members.specs.Members.{count_in, members_of_fragment};
ghost use Rattle.merging_members.specs.Ranked.{IsOrder};
ghost use Rattle.merging_members.specs.SetMembers.{IsFixed};

use crate::known::{FragmentMembers, NumberedDocument};
use crate::set_members::reached_in;
use crate::visiting::ClashingSet;
use merging_pairs::ReachedFields;
use std::alloc::{AllocError, Global};

/// The number of the first field of a fragment.
pub(crate) fn start_of(starts: &[usize], number: usize) -> usize
    requires there { number < length starts.now }
    ensures { slice_get starts.now number ≡ Some result }
{
    starts[number]
}

/// The set of a fragment, with the number of its first field.
pub(crate) fn fragment_set<'d>(source: &NumberedDocument<'_, 'd>, target: usize) -> ClashingSet<'d>
    requires there { target < length
        (document_in source.now).fragments }
    ensures set { (f : Fragment) → slice_get (document_in source.now).fragments target ≡ Some f
        → set_of result.set.now ≡ f.selection_set }
    ensures members { HasMembersAt
        source.now target result }
    ensures inside { result.first + count_in (set_of result.set.now)
        ≤ length source.now.numbers.now }
{
    ClashingSet {
        set: &source.document.fragments[target].selection_set,
        first: start_of(source.starts, target),
    }
}

// Returns what a fragment has, where what the fragments that it spreads have is known.
fn learn_fragment(
    source: &NumberedDocument,
    table: &[ReachedFields],
    number: usize,
) -> ReachedFields
    requires there { number < length
        (document_in source.now).fragments }
    requires len { length table.now
        ≡ length (document_in source.now).fragments }
    ensures { LearnsOf source.now table.now number
        (λ ms. IsReached source.now.rows.now ms result) }
{
    let walk = FragmentMembers {
        targets: source.targets,
        numbers: source.numbers,
        rows: source.rows,
        fragments: table,
    };
    let own = fragment_set(source, number);
    reached_in(&walk, own.set, own.first)
}

// Computes the members of a fragment, where those of the fragments that it spreads are known.
fn learn(source: &NumberedDocument, table: &mut Vec<ReachedFields>, number: usize)
    requires there { number < length
        (document_in source.now).fragments }
    requires len { length table.old.items
        ≡ length (document_in source.now).fragments }
    ensures len { length table.new.items
        ≡ length table.old.items }
    ensures others { (j : ℕ) → (j ≡ number → ⊥)
        → slice_get table.new.items j ≡ slice_get table.old.items j }
    ensures own { LearnsOf source.now table.old.items number (λ ms.
        IfSome (slice_get table.new.items number) (IsReached source.now.rows.now ms)) }
{
    let reached = learn_fragment(source, table, number);
    table[number] = reached;
}

/// Returns what each fragment has, where `order` has each of them after those that it spreads.
pub fn known_fragments(
    alloc: Global,
    source: &NumberedDocument,
    order: &[usize],
) -> Result<Vec<ReachedFields>, AllocError>
    requires order { IsOrder order.now (place_in (document_in source.now).fragments)
        (document_in source.now).fragments }
    requires fixed { IsFixed (members_of_fragment (document_in source.now))
        (document_in source.now) }
    ensures len { IfOk result (λ table.
        length table.items ≡ length (document_in source.now).fragments) }
    ensures known { IfOk result (λ table.
        IsTableKnown source.now table.items (members_of_fragment (document_in source.now))) }
{
    let count = source.document.fragments.len();
    let mut table = Vec::with_capacity(alloc, count)?;
    for _ in 0..count {
        table.push(ReachedFields::new())?;
    }
    for number in order {
        learn(source, &mut table, *number);
    }
    Ok(table)
}
