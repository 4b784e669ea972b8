//! Lists and rows that grow to the places that are written.

ghost use Rattle.std.specs.Prelude.{◌≡◌, ◌==◌, ℕ, OnOk, slice_index_or, if◌then◌else◌};
ghost use Rattle.rules_spreads.specs.Graphs.{row_at, row};
ghost use Rattle.rules_spreads.specs.Rows.{rows_in, with_number_if};
ghost use Rattle.rules_spreads.specs.OwnerLists.{owner_rows, is_same_owner};

use rules_parts::Owner;
use std::alloc::{AllocError, Global};

/// Puts a value at a place, with `rest` at the places before it that weren't there.
pub fn put<T: Copy>(items: &mut Vec<T>, rest: T, at: usize, value: T) -> Result<(), AllocError>
    ensures { (n : ℕ) → OnOk result (slice_index_or items.new.items n rest
        ≡ (if n == at then value else slice_index_or items.old.items n rest)) }
{
    while items.len() <= at {
        items.push(rest)?;
    }
    items[at] = value;
    Ok(())
}

/// A row, empty where there is none of this number.
pub fn list_at(rows: &[Vec<usize>], i: usize) -> &[usize]
    ensures { result.now ≡ row_at (rows_in rows.now) i }
{
    match rows.get(i) {
        Some(row) => row.as_slice(),
        None => &[],
    }
}

// Puts a number at the end of a row; rows that weren't there are empty.
fn add_to_row(
    alloc: Global,
    rows: &mut Vec<Vec<usize>>,
    row: usize,
    number: usize,
) -> Result<(), AllocError>
    ensures { (i : ℕ) → OnOk result (row_at (rows_in rows.new.items) i
        ≡ with_number_if (i == row) (row_at (rows_in rows.old.items) i) number) }
{
    while rows.len() <= row {
        rows.push(Vec::new(alloc))?;
    }
    rows[row].push(number)?;
    Ok(())
}

/// Rows of numbers, one for each operation and one for each fragment.
#[derive(Drop)]
pub struct OwnerLists {
    pub operations: Vec<Vec<usize>>,
    pub fragments: Vec<Vec<usize>>,
}

impl OwnerLists {
    /// Puts a number at the end of the row of an operation or fragment.
    pub fn add(&mut self, alloc: Global, owner: Owner, number: usize) -> Result<(), AllocError>
        ensures { (o : _) → OnOk result (row (owner_rows self.new) o
            ≡ with_number_if (is_same_owner o owner) (row (owner_rows self.old) o) number) }
    {
        match owner {
            Owner::Operation(i) => add_to_row(alloc, &mut self.operations, i, number)?,
            Owner::Fragment(j) => add_to_row(alloc, &mut self.fragments, j, number)?,
        }
        Ok(())
    }
}
