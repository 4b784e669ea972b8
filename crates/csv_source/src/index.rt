//! The index of a column, by which the rows of a text are found.
ghost use Rattle.std.specs.Prelude.{◌≡◌, ◌<◌, ◌≤◌, ◌+◌, ◌++◌, ◌∷◌, [], IfOk, IfErr, OnOk, Some, bytes_eq, length, Contains, filter};
ghost use Rattle.std.specs.Arc.{arc_value};
ghost use Rattle.load_memory.specs.Keys.{fold_text};
ghost use Rattle.load_memory.specs.Rows.{IsRectangular};
ghost use Rattle.csv_source.specs.Chains.{IsColumn, IsLinkable, IsLinkedIn, IsIndex, IsBeside, IsNextOfText};
ghost use Rattle.csv_source.specs.Faults.{ColumnFault};
ghost use Rattle.csv_source.specs.Tables.{rows_of, has_text};

use crate::fault::TableFault;
use crate::hash::bucket;
use crate::table::Table;
use load_memory::texts::is_same_text;
use load_memory::{KeyMode, Row, Rows, Sheet};
use std::alloc::{AllocError, Global};
use std::marker::Model;
use std::sync::Arc;

/// For each bucket its first row, and for each row the next one of its bucket. A place past the
/// last row ends a bucket.
#[derive(Drop)]
pub(crate) struct Links {
    pub(crate) first: Vec<u32>,
    pub(crate) next: Vec<u32>,
}

// Number of rows of a bucket up to which they get their room at once.
const MOST_ROOM: usize = 64;

impl Links {
    /// Room for the rows from a place of a bucket on: their number, up to `MOST_ROOM`. So a bucket of
    /// many texts takes little memory for the rows of one.
    pub(crate) fn room(&self, place: u32) -> usize
        ensures { result ≤ 64 }
    {
        let mut place = place;
        for count in 0..MOST_ROOM {
            let Some(after) = self.next.get(place as usize) else {
                return count;
            };
            place = *after;
        }
        MOST_ROOM
    }
}

/// The rows of a table by the text that they have in a column.
///
/// The texts are spread over as many buckets as there are rows. The rows of a bucket are linked, so
/// that a text's rows are found in file order and the index takes eight bytes a row.
///
/// A contract sees it as the rows, the column's name, and the mode by which texts are compared.
///
/// It is built from the last row up, in linear time whatever the texts are; texts that were made to collide
/// slow look-ups alone.
pub struct ColumnIndex {
    sheet: Arc<Sheet>,
    column: usize,
    mode: KeyMode,
    links: Links,
}

impl Model for ColumnIndex {
    ghost use Rattle.std.specs.Arc.{arc_value};
    ghost use Rattle.csv_source.specs.Tables.{IndexOf, index_of};
    ghost use Rattle.csv_source.specs.Chains.{IsIndex};

    ghost Value = { IndexOf };

    ghost view = { λ x. index_of (arc_value x.sheet) x.column x.mode };

    ghost invariant = { λ x. IsIndex (arc_value x.sheet) x.column x.mode x.links.first.items x.links.next.items };
}

impl Drop for ColumnIndex {
    fn drop(self) {
        let ColumnIndex {
            sheet: _sheet,
            column: _,
            mode: _,
            links: _links,
        } = self;
    }
}

// Puts a row before the rows that come after it.
fn link(sheet: &Sheet, column: usize, mode: KeyMode, row: u32, links: &mut Links)
    requires row { row < length sheet.now.rows }
    requires column { IsLinkable sheet.now column }
    requires buckets { 0 < length links.old.first.items }
    requires linked { IsLinkedIn sheet.now column mode
        links.old.first.items links.old.next.items (row + 1) }
    ensures linked { IsLinkedIn sheet.now column mode
        links.new.first.items links.new.next.items row }
    ensures buckets { length links.new.first.items
        ≡ length links.old.first.items }
{
    let text = sheet.field(row, column);
    if !text.is_empty() {
        let bucket = bucket(mode, links.first.len(), text);
        links.next[row as usize] = links.first[bucket];
        links.first[bucket] = row;
    }
}

// The links of all rows.
fn link_rows(
    alloc: Global,
    sheet: &Sheet,
    column: usize,
    mode: KeyMode,
) -> Result<Links, AllocError>
    requires { IsColumn sheet.now column }
    ensures rectangular { IsRectangular sheet.now }
    ensures buckets { IfOk result
        (λ l. 0 < length l.first.items) }
    ensures linked { IfOk result (λ l.
        IsLinkedIn sheet.now column mode l.first.items l.next.items 0) }
{
    let rows = sheet.len();
    let mut links = Links {
        first: vec![in alloc; rows; (rows as usize).max(1)]?,
        next: vec![in alloc; rows; rows as usize]?,
    };
    for row in (0..rows).rev() {
        link(sheet, column, mode, row, &mut links);
    }
    Ok(links)
}

/// Tells whether a field equals a text under the mode.
pub(crate) fn is_same(mode: KeyMode, field: &str, text: &str) -> bool
    ensures { result ≡ bytes_eq (fold_text mode text.now)
        (fold_text mode field.now) }
{
    match mode {
        KeyMode::Exact => is_same_text(text, field),
        // Most equal texts are equal byte for byte, which is seen sooner.
        KeyMode::FoldAscii => text == field || text.eq_ignore_ascii_case(field),
    }
}

// The first place of a row that has the text, from a place of the text's bucket on.
fn find(sheet: &Sheet, column: usize, mode: KeyMode, links: &Links, text: &str, place: u32) -> u32
    requires index { IsIndex sheet.now column mode links.now.first.items links.now.next.items }
    requires reached { IsBeside sheet.now column mode
        (length links.now.first.items) text.now place }
    ensures { IsNextOfText sheet.now column mode text.now place result }
{
    let mut place = place;
    while let Some(after) = links.next.get(place as usize) {
        if is_same(mode, sheet.field(place, column), text) {
            return place;
        }
        place = *after;
    }
    place
}

impl ColumnIndex {
    /// The index of the first column of that name.
    ///
    /// # Errors
    ///
    /// `NoSuchColumn` where the table has no column of that name, and `NoMemory`.
    pub fn new(
        alloc: Global,
        table: &Table,
        column: &str,
        mode: KeyMode,
    ) -> Result<ColumnIndex, TableFault>
        ensures ok { IfOk result (λ x.
            x ≡ record { rows = rows_of table.now; column = column.now; mode = mode }) }
        ensures there { OnOk result
            (Contains table.now.names column.now) }
        ensures err { IfErr result
            (ColumnFault table.now.names column.now) }
    {
        let Some(column) = table.sheet.column(column) else {
            return Err(TableFault::NoSuchColumn);
        };
        let sheet = Arc::try_clone(&table.sheet)?;
        let links = link_rows(alloc, &sheet, column, mode)?;
        Ok(ColumnIndex {
            sheet,
            column,
            mode,
            links,
        })
    }

    /// The mode by which texts are compared.
    pub fn mode(&self) -> KeyMode
        ensures { result ≡ self.now.mode }
    {
        self.mode
    }

    /// The rows whose column equals the text, in file order. An empty field equals no text.
    pub fn rows(&self, alloc: Global, text: &str) -> Result<Rows, AllocError>
        ensures { IfOk result (λ rows. rows ≡ filter (has_text self.now.mode self.now.column
            (fold_text self.now.mode text.now)) self.now.rows) }
    {
        let (sheet, links) = (&self.sheet, &self.links);
        let Links { first, next } = links;
        let head = first[bucket(self.mode, first.len(), text)];
        let place = find(sheet, self.column, self.mode, links, text, head);
        let Some(after) = next.get(place as usize) else {
            return Ok(Rows::none());
        };
        let row = Row::of_sheet(sheet, place)?;
        let mut place = find(sheet, self.column, self.mode, links, text, *after);
        if place as usize >= next.len() {
            return Ok(Rows::from(row));
        }
        let mut found = Vec::with_capacity(alloc, 1 + links.room(place))?;
        found.push(row)?;
        while let Some(after) = next.get(place as usize) {
            found.push(Row::of_sheet(sheet, place)?)?;
            place = find(sheet, self.column, self.mode, links, text, *after);
        }
        Ok(Rows::from(found))
    }
}
