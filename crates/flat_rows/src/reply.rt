//! The reply to one order.
ghost use Rattle.std.specs.Prelude.{◌≡◌, ◌<◌, ◌≤◌, ◌+◌, ◌*◌, ◌^◌, ◌↔◌, IsTrue, IfOk, IfErr, IfSome, IfNone, OnOk, map, take, drop, length, []};
ghost use Rattle.std.specs.Arc.{arc_value};
ghost use Rattle.load_memory.specs.Outcomes.{item_of};
ghost use Rattle.load_memory.specs.Rows.{draft_with_names, draft_with_row, paired};
ghost use Rattle.flat_rows.specs.Faults.{CountFault, ReplyFault};
ghost use Rattle.flat_rows.specs.Replies.{LacksColumn, faults_in, item_said, items_of, reply_items, rows_in, sheet_said, texts_wanted, total_faults, total_rows};

use crate::fault::FlatFault;
use crate::texts::FlatTexts;
use load_memory::{Item, Row, Rows, Sheet};
use std::alloc::{AllocError, Global};
use std::sync::Arc;

/// Stands for a number of rows where a key has a fault.
pub const KEY_FAULT: u32 = u32::MAX;

/// The reply to one order, as a host lays it out.
#[derive(Clone, Copy)]
pub struct FlatReply<'h> {
    /// Number of columns.
    pub columns: usize,
    /// For each key, in order, how many rows it has, or [`KEY_FAULT`].
    pub rows: &'h [u32],
    /// For each text where it ends in `bytes`: the names of the columns, the fields of all rows, key after key and row after row, and then
    /// of each key with a fault why it has no rows.
    pub ends: &'h [u32],
    /// The texts, in UTF-8, each from where the one before it ends.
    pub bytes: &'h [u8],
}

// Numbers of rows of all keys, and of keys with a fault.
#[derive(Clone, Copy)]
pub(crate) struct Totals {
    pub(crate) rows: u32,
    pub(crate) faults: usize,
}

// `None` where there are more rows than 32 bits count.
fn totals_of(counts: &[u32]) -> Option<Totals>
    ensures some { IfSome result (λ t.
        (t.rows ≡ total_rows counts.now) × (t.faults ≡ total_faults counts.now)) }
    ensures few { IfSome result
        (λ _. total_rows counts.now < 2 ^ 32) }
    ensures none { IfNone result
        (2 ^ 32 ≤ total_rows counts.now) }
{
    let mut rows = 0u32;
    let mut faults = 0usize;
    for count in counts {
        if *count == KEY_FAULT {
            faults += 1;
        } else {
            rows = rows.checked_add(*count)?;
        }
    }
    Some(Totals { rows, faults })
}

// The sheet, to be shared by its rows.
pub(crate) fn share_sheet(alloc: Global, sheet: Sheet) -> Result<Arc<Sheet>, AllocError>
    ensures { IfOk result
        (λ shared. arc_value shared ≡ sheet) }
{
    Ok(Arc::new(alloc, sheet)?)
}

// Returns `count` rows of a sheet, from the row `at` on.
fn rows_at(alloc: Global, sheet: &Arc<Sheet>, at: u32, count: u32) -> Result<Rows, AllocError>
    requires { at + count
        ≤ length (arc_value sheet.now).rows }
    ensures { let s = arc_value sheet.now in
        IfOk result (λ r. r ≡ map (paired s.names) (take count (drop at s.rows))) }
{
    let _rows = sheet.len();
    if count == 1 {
        return Ok(Rows::from(Row::of_sheet(sheet, at)?));
    }
    let mut rows = Vec::with_capacity(alloc, count as usize)?;
    for i in 0..count {
        rows.push(Row::of_sheet(sheet, at + i)?)?;
    }
    Ok(Rows::from(rows))
}

// Returns how many rows a key takes, and how many faults.
fn rows_and_faults(count: u32) -> (u32, usize)
    ensures { (result.0 ≡ rows_in count)
        × (result.1 ≡ faults_in count) }
{
    if count == KEY_FAULT {
        (0, 1)
    } else {
        (count, 0)
    }
}

// The rows of a key from one on, or its fault, which is a text.
fn item(
    alloc: Global,
    count: u32,
    sheet: &Arc<Sheet>,
    at: u32,
    texts: &FlatTexts<'_>,
    fault: usize,
) -> Result<Item, AllocError>
    requires rows { at + rows_in count
        ≤ length (arc_value sheet.now).rows }
    requires faults { fault + faults_in count
        ≤ length texts.now }
    ensures { let s = arc_value sheet.now in IfOk result
        (λ i. item_of i ≡ item_said s.names (drop at s.rows) (drop fault texts.now) count) }
{
    if count == KEY_FAULT {
        Ok(Item::KeyFault(String::from_str(alloc, texts.get(fault))?))
    } else {
        Ok(Item::Rows(rows_at(alloc, sheet, at, count)?))
    }
}

// The items of the keys, whose faults are the texts from one on.
fn items(
    alloc: Global,
    counts: &[u32],
    sheet: &Arc<Sheet>,
    texts: &FlatTexts<'_>,
    faults: usize,
) -> Result<Vec<Item>, AllocError>
    requires rows { total_rows counts.now
        ≡ length (arc_value sheet.now).rows }
    requires faults { faults + total_faults counts.now
        ≤ length texts.now }
    ensures { let s = arc_value sheet.now in IfOk result
        (λ r. map item_of r.items ≡ items_of s.names s.rows (drop faults texts.now) counts.now) }
{
    let (_rows, _texts) = (sheet.len(), texts.len());
    let mut items = Vec::with_capacity(alloc, counts.len())?;
    let mut at = 0u32;
    let mut fault = faults;
    for count in counts {
        let (rows, faults) = rows_and_faults(*count);
        items.push(item(alloc, *count, sheet, at, texts, fault)?)?;
        at += rows;
        fault += faults;
    }
    Ok(items)
}

// Tells whether there are rows, and no column.
pub(crate) fn lacks_column(columns: usize, rows: u32) -> bool
    ensures { IsTrue result ↔ (columns ≡ 0) × (0 < rows) }
{
    columns == 0 && rows > 0
}

// The number of texts that the columns, rows and faults take. `None` where `usize` doesn't count them.
pub(crate) fn wanted(columns: usize, totals: &Totals) -> Option<usize>
    ensures some { IfSome result (λ n.
        n ≡ columns + totals.now.rows * columns + totals.now.faults) }
    ensures none { IfNone result
        (2 ^ 64 ≤ columns + totals.now.rows * columns + totals.now.faults) }
{
    let cells = (totals.rows as usize).checked_mul(columns)?;
    columns.checked_add(cells)?.checked_add(totals.faults)
}

// Returns how many rows and faults there are, where `texts` texts have as many.
fn check_counts(columns: usize, counts: &[u32], texts: usize) -> Result<Totals, FlatFault>
    ensures rows { IfOk result (λ t.
        (t.rows ≡ total_rows counts.now) × (t.faults ≡ total_faults counts.now)) }
    ensures texts { IfOk result
        (λ _. texts ≡ texts_wanted columns counts.now) }
    ensures fault { IfErr result
        (CountFault columns counts.now texts) }
{
    let Some(totals) = totals_of(counts) else {
        return Err(FlatFault::TooManyRows);
    };
    if lacks_column(columns, totals.rows) {
        return Err(FlatFault::NoColumn);
    }
    let Some(wanted) = wanted(columns, &totals) else {
        return Err(FlatFault::TooFewTexts);
    };
    if texts < wanted {
        return Err(FlatFault::TooFewTexts);
    }
    if texts > wanted {
        return Err(FlatFault::TextsLeft);
    }
    Ok(totals)
}

impl FlatReply<'_> {
    /// An item for each key, in order. All rows share one sheet.
    ///
    /// # Errors
    ///
    /// The first of these that is true: `NotUtf8`, `BadEnds`, `TooManyRows`, `NoColumn`, `TooFewTexts` and `TextsLeft`. `NoMemory` comes
    /// when out of memory, before any fault that would have been found later.
    pub fn items(&self, alloc: Global) -> Result<Vec<Item>, FlatFault>
        ensures ok { let r = self.now in IfOk result (λ items. map item_of items.items
            ≡ reply_items r.columns r.rows.now r.ends.now r.bytes.now) }
        ensures fault { let r = self.now in
            IfErr result (ReplyFault r.columns r.rows.now r.ends.now r.bytes.now) }
    {
        let texts = FlatTexts::new(self.bytes, self.ends)?;
        let totals = check_counts(self.columns, self.rows, texts.len())?;
        let sheet = texts.sheet(alloc, self.columns, totals.rows)?;
        let sheet = share_sheet(alloc, sheet)?;
        let faults = texts.len() - totals.faults;
        Ok(items(alloc, self.rows, &sheet, &texts, faults)?)
    }
}
