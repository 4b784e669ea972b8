//! Rows that are written one after another.
ghost use Rattle.std.specs.Prelude.{◌≡◌, ◌<◌, ◌≤◌, ◌++◌, ◌∷◌, [], All, IfOk, IfErr, OnOk};
ghost use Rattle.flat_outcomes.specs.Said.{same_mark};
ghost use Rattle.flat_outcomes.specs.Written.{IsNarrow, fields_of, have_same_names, last_row, names_after, names_of, row_before, texts_after, texts_of, width_after, widths_of};

use flat_orders::TextBuffer;
use load_memory::Row;
use std::alloc::AllocError;

/// Stands for a number of columns where they are those of the row before.
pub const SAME_COLUMNS: u32 = u32::MAX;

// A number below a mark. `NoMemory` where it isn't.
pub(crate) fn count_below(count: usize, mark: u32) -> Result<u32, AllocError>
    ensures ok { IfOk result (λ n. n ≡ count) }
    ensures below { IfOk result (λ n. n < mark) }
    ensures err { IfErr result (λ _. mark ≤ count) }
{
    if count < mark as usize {
        Ok(count as u32)
    } else {
        Err(AllocError)
    }
}

// Tells whether two rows have the same columns.
fn share_columns(one: &Row, other: &Row) -> bool
    ensures { result ≡ have_same_names one.now other.now }
{
    if one.width() != other.width() {
        return false;
    }
    for column in 0..one.width() {
        if one.name(column) != other.name(column) {
            return false;
        }
    }
    true
}

// Tells whether a row has the columns of the one before, which has none where there is none.
fn follows(before: Option<&Row>, row: &Row) -> bool
    ensures { result ≡ have_same_names
        (row_before before.entry) row.now }
{
    match before {
        Some(before) => share_columns(before, row),
        None => row.width() == 0,
    }
}

// Writes the names of a row's columns at the end. When out of memory, nothing is known of what was written.
fn write_names(texts: &mut TextBuffer, row: &Row) -> Result<(), AllocError>
    ensures { OnOk result
        (texts.new ≡ texts.old ++ names_of row.now) }
{
    for column in 0..row.width() {
        texts.push(row.name(column))?;
    }
    Ok(())
}

// Writes a row's fields at the end. When out of memory, nothing is known of what was written.
fn write_fields(texts: &mut TextBuffer, row: &Row) -> Result<(), AllocError>
    ensures { OnOk result
        (texts.new ≡ texts.old ++ fields_of row.now) }
{
    for column in 0..row.width() {
        texts.push(row.field(column))?;
    }
    Ok(())
}

// Writes how many columns a row has, and their names unless they are those of the row before. When out of memory, nothing is known of what
// was written.
fn write_columns(
    widths: &mut Vec<u32>,
    texts: &mut TextBuffer,
    before: Option<&Row>,
    row: &Row,
) -> Result<(), AllocError>
    ensures width { let width = width_after (row_before before.entry) row.now in
        OnOk result (widths.new.items ≡ widths.old.items ++ width ∷ []) }
    ensures names { OnOk result
        (texts.new ≡ texts.old ++ names_after (row_before before.entry) row.now) }
    ensures narrow { OnOk result (IsNarrow row.now) }
{
    let width = count_below(row.width(), SAME_COLUMNS)?;
    if follows(before, row) {
        widths.push(SAME_COLUMNS)?;
        return Ok(());
    }
    widths.push(width)?;
    write_names(texts, row)
}

// Writes a row after one before it. When out of memory, nothing is known of what was written.
fn write_row(
    widths: &mut Vec<u32>,
    texts: &mut TextBuffer,
    before: Option<&Row>,
    row: &Row,
) -> Result<(), AllocError>
    ensures width { let width = width_after (row_before before.entry) row.now in
        OnOk result (widths.new.items ≡ widths.old.items ++ width ∷ []) }
    ensures texts { OnOk result
        (texts.new ≡ texts.old ++ texts_after (row_before before.entry) row.now) }
    ensures narrow { OnOk result (IsNarrow row.now) }
{
    write_columns(widths, texts, before, row)?;
    write_fields(texts, row)
}

// Writes rows after one before them, and tells the last row. When out of memory, nothing is known of what was written.
pub(crate) fn write_rows<'a>(
    widths: &mut Vec<u32>,
    texts: &mut TextBuffer,
    before: Option<&'a Row>,
    rows: &'a [Row],
) -> Result<Option<&'a Row>, AllocError>
    ensures widths { let numbers = widths_of (row_before before.entry) rows.now in
        OnOk result (widths.new.items ≡ widths.old.items ++ numbers) }
    ensures texts { OnOk result
        (texts.new ≡ texts.old ++ texts_of (row_before before.entry) rows.now) }
    ensures narrow { OnOk result (All IsNarrow rows.now) }
    ensures last { IfOk result (λ last.
        row_before last ≡ last_row (row_before before.entry) rows.now) }
{
    let mut last = before;
    for row in rows {
        write_row(widths, texts, last, row)?;
        last = Some(row);
    }
    Ok(last)
}
