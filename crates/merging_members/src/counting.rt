//! Counts of the fields in a part of a document, each counted where it is written.

ghost use Rattle.std.specs.Prelude.{◌≡◌, ◌+◌, ◌<◌, ◌^◌, IfOk, map};
ghost use Rattle.gq_parser.specs.Tree.{set_of, selection_of, operation_of, fragment_of};
ghost use Rattle.merging_members.specs.Members.{capped, count_in, count_from, count_operations, count_fragments, starts_from};

use gq_parser::{Fragment, Operation, Selection, SelectionSet};
use std::alloc::{AllocError, Global};

// The sum, up to the greatest count.
fn sum(count: usize, more: usize) -> usize
    ensures { result ≡ capped (count + more) }
{
    match count.checked_add(more) {
        Some(sum) => sum,
        None => usize::MAX,
    }
}

/// The fields in a set, with those below its fields, up to as many as can be counted.
#[cycle(counting)]
pub(crate) fn fields_in(set: &SelectionSet) -> usize
    ensures { result ≡ capped (count_in (set_of set.now)) }
{
    let mut count = 0;
    for selection in &set.selections {
        count = sum(count, fields_from(selection));
    }
    count
}

/// The fields that stand in a selection, up to as many as can be counted: a field itself, with those below it.
#[cycle(counting)]
pub(crate) fn fields_from(selection: &Selection) -> usize
    ensures { result ≡ capped
        (count_from (selection_of selection.now)) }
{
    match selection {
        Selection::Field(field) => match &field.selection_set {
            Some(set) => sum(fields_in(set), 1),
            None => 1,
        },
        Selection::Spread(_) => 0,
        Selection::Inline(inline) => fields_in(&inline.selection_set),
    }
}

/// The fields in operations, up to as many as can be counted.
pub fn operation_fields(operations: &[Operation]) -> usize
    ensures { result ≡ capped (count_operations (map operation_of operations.now)) }
{
    let mut count = 0;
    for operation in operations {
        count = sum(count, fields_in(&operation.selection_set));
    }
    count
}

/// The number of the first field of each fragment, of which the first begins with the number `first`.
pub fn fragment_starts(
    alloc: Global,
    first: usize,
    fragments: &[Fragment],
) -> Result<Vec<usize>, AllocError>
    requires { first + count_fragments
        (map fragment_of fragments.now) < 2 ^ 64 }
    ensures { IfOk result (λ starts.
        starts.items ≡ starts_from first (map fragment_of fragments.now)) }
{
    let mut starts = Vec::with_capacity(alloc, fragments.len())?;
    let mut next = first;
    for fragment in fragments {
        starts.push(next)?;
        next += fields_in(&fragment.selection_set);
    }
    Ok(starts)
}
