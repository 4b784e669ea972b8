//! Places that an operation of a span reaches, where the place's set lacks that operation.

ghost use Rattle.std.specs.Prelude.{◌≡◌, ◌&&◌, not, OnOk};
ghost use Rattle.rules_spreads.specs.Reach.{is_among};
ghost use Rattle.rules_spreads.specs.Rows.{rows_in};
ghost use Rattle.rules_spreads.specs.OperationSpans.{set_at, set_for, is_within, is_missing_in_fragments, Notes};
ghost use Rattle.rules_spreads.specs.Operations.{is_missing_in_span};

use crate::operation_set::OperationSet;
use crate::operation_span::OperationSpan;
use crate::owner_lists::{list_at, put};
use std::alloc::AllocError;

/// The set of a number, empty where there is none.
pub fn set_of(sets: &[OperationSet], number: usize) -> OperationSet
    ensures { result ≡ set_at sets.now number }
{
    match sets.get(number) {
        Some(set) => *set,
        None => OperationSet::new(),
    }
}

// Notes those places of a row whose sets lack one of these operations.
fn note_row(
    row: &[usize],
    reached_by: OperationSet,
    numbers: &[usize],
    sets: &[OperationSet],
    noted: &mut Vec<bool>,
) -> Result<(), AllocError>
    ensures { OnOk result (Notes (λ s. is_among s row.now && not
        (is_within reached_by (set_for numbers.now sets.now s))) noted.old.items noted.new.items) }
{
    for place in row {
        let number = numbers.get(*place).copied().unwrap_or(0);
        if !reached_by.is_within(set_of(sets, number)) {
            put(noted, false, *place, true)?;
        }
    }
    Ok(())
}

/// Notes those places in fragments whose sets lack an operation that reaches the fragment.
pub fn note_missing_in_fragments(
    rows: &[Vec<usize>],
    reached: &[OperationSet],
    numbers: &[usize],
    sets: &[OperationSet],
    noted: &mut Vec<bool>,
) -> Result<(), AllocError>
    ensures { OnOk result (Notes (λ s. is_missing_in_fragments (rows_in rows.now) reached.now
        (set_for numbers.now sets.now s) s) noted.old.items noted.new.items) }
{
    for (fragment, reached_by) in reached.iter().enumerate() {
        let row = list_at(rows, fragment);
        note_row(row, *reached_by, numbers, sets, noted)?;
    }
    Ok(())
}

/// Notes those places in operations of a span whose sets lack the operation.
pub fn note_missing_in_operations(
    rows: &[Vec<usize>],
    span: &OperationSpan,
    numbers: &[usize],
    sets: &[OperationSet],
    noted: &mut Vec<bool>,
) -> Result<(), AllocError>
    ensures { OnOk result (Notes (λ s. is_missing_in_span (rows_in rows.now) span.now
        (set_for numbers.now sets.now s) s) noted.old.items noted.new.items) }
{
    for number in 0..span.count {
        let own = list_at(rows, span.first + number);
        note_row(own, OperationSet::alone(number), numbers, sets, noted)?;
    }
    Ok(())
}
