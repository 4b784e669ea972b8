//! The index of two columns, by which the rows of a pair of texts are found.
ghost use Rattle.std.specs.Prelude.{◌≡◌, ◌<◌, ◌+◌, ◌&&◌, [], IfOk, IfErr, OnOk, get_or, length, Contains};
ghost use Rattle.std.specs.Arc.{arc_value};
ghost use Rattle.load_memory.specs.Keys.{pair};
ghost use Rattle.load_memory.specs.Rows.{IsRectangular};
ghost use Rattle.csv_source.specs.Chains.{AreColumns, IsPairLinkable, IsPairLinkedIn, IsPairIndex, IsBesidePair, IsNextOfPair};
ghost use Rattle.csv_source.specs.Faults.{PairFault};
ghost use Rattle.csv_source.specs.Tables.{rows_of, rows_by, index_by_two, two_columns, equals_at};

use crate::fault::TableFault;
use crate::hash::pair_bucket;
use crate::index::{Links, is_same};
use crate::table::Table;
use load_memory::{KeyMode, Row, Rows, Sheet};
use std::alloc::{AllocError, Global};
use std::marker::Model;
use std::sync::Arc;

// Two columns, and how the texts in them are compared.
#[derive(Clone, Copy)]
pub(crate) struct Pairing {
    column: usize,
    second: usize,
    mode: KeyMode,
}

/// The rows of a table by the two texts that they have in two columns, which may be one column.
///
/// It is built like a [`ColumnIndex`](crate::ColumnIndex), by one hash of both texts, and takes eight bytes a row too.
///
/// A contract sees it as the rows, the columns' names, and the mode by which texts are compared.
#[derive(Drop)]
pub struct PairIndex {
    sheet: Arc<Sheet>,
    by: Pairing,
    links: Links,
}

impl Model for PairIndex {
    ghost use Rattle.std.specs.Arc.{arc_value};
    ghost use Rattle.csv_source.specs.Tables.{PairIndexOf, pair_index_of};
    ghost use Rattle.csv_source.specs.Chains.{IsPairIndex};

    ghost Value = { PairIndexOf };

    ghost view = { λ x. pair_index_of (arc_value x.sheet) x.by.column x.by.second x.by.mode };

    ghost invariant = { λ x. IsPairIndex (arc_value x.sheet) x.by.column x.by.second x.by.mode x.links.first.items x.links.next.items };
}

// Puts a row before the rows that come after it.
fn link(sheet: &Sheet, by: Pairing, row: u32, links: &mut Links)
    requires row { row < length sheet.now.rows }
    requires columns { IsPairLinkable
        sheet.now by.column by.second }
    requires buckets { 0 < length links.old.first.items }
    requires linked { IsPairLinkedIn sheet.now by.column by.second
        by.mode links.old.first.items links.old.next.items (row + 1) }
    ensures linked { IsPairLinkedIn sheet.now by.column by.second
        by.mode links.new.first.items links.new.next.items row }
    ensures buckets { length links.new.first.items
        ≡ length links.old.first.items }
{
    let one = sheet.field(row, by.column);
    if one.is_empty() {
        return;
    }
    let two = sheet.field(row, by.second);
    if two.is_empty() {
        return;
    }
    let bucket = pair_bucket(by.mode, links.first.len(), one, two);
    links.next[row as usize] = links.first[bucket];
    links.first[bucket] = row;
}

// The links of all rows.
fn link_rows(alloc: Global, sheet: &Sheet, by: Pairing) -> Result<Links, AllocError>
    requires { AreColumns sheet.now by.column by.second }
    ensures rectangular { IsRectangular sheet.now }
    ensures buckets { IfOk result
        (λ l. 0 < length l.first.items) }
    ensures linked { IfOk result (λ l.
        IsPairLinkedIn sheet.now by.column by.second by.mode l.first.items l.next.items 0) }
{
    let rows = sheet.len();
    let mut links = Links {
        first: vec![in alloc; rows; (rows as usize).max(1)]?,
        next: vec![in alloc; rows; rows as usize]?,
    };
    for row in (0..rows).rev() {
        link(sheet, by, row, &mut links);
    }
    Ok(links)
}

// The first place of a row that has the two texts, from a place of their bucket on.
fn find(sheet: &Sheet, by: Pairing, links: &Links, one: &str, two: &str, place: u32) -> u32
    requires index { IsPairIndex sheet.now by.column by.second by.mode
        links.now.first.items links.now.next.items }
    requires reached { IsBesidePair sheet.now by
        (length links.now.first.items) one.now two.now place }
    ensures { IsNextOfPair sheet.now by one.now two.now place result }
{
    let mut place = place;
    while let Some(after) = links.next.get(place as usize) {
        if is_same_pair(sheet, by, place, one, two) {
            return place;
        }
        place = *after;
    }
    place
}

impl PairIndex {
    /// The index of the first columns of these two names.
    ///
    /// # Errors
    ///
    /// `NoSuchColumn` where the table lacks a column of one of the names, and `NoMemory`.
    pub fn new(
        alloc: Global,
        table: &Table,
        column: &str,
        second: &str,
        mode: KeyMode,
    ) -> Result<PairIndex, TableFault>
        ensures ok { IfOk result (λ x.
            x ≡ index_by_two (rows_of table.now) column.now second.now mode) }
        ensures there { OnOk result
            (Contains table.now.names column.now × Contains table.now.names second.now) }
        ensures err { IfErr result (PairFault table.now.names column.now second.now) }
    {
        let Some(column) = table.sheet.column(column) else {
            return Err(TableFault::NoSuchColumn);
        };
        let Some(second) = table.sheet.column(second) else {
            return Err(TableFault::NoSuchColumn);
        };
        let sheet = Arc::try_clone(&table.sheet)?;
        let by = Pairing {
            column,
            second,
            mode,
        };
        let links = link_rows(alloc, &sheet, by)?;
        Ok(PairIndex { sheet, by, links })
    }

    /// The mode by which texts are compared.
    pub fn mode(&self) -> KeyMode
        ensures { result ≡ self.now.mode }
    {
        self.by.mode
    }

    /// The rows whose first column equals the first text and whose second column equals the second, in file order. An
    /// empty field equals no text.
    pub fn rows(&self, alloc: Global, one: &str, two: &str) -> Result<Rows, AllocError>
        ensures { IfOk result (λ rows. rows ≡ rows_by self.now.mode self.now.rows
            (two_columns self.now.column self.now.second) (pair one.now two.now)) }
    {
        let Links { first, next } = &self.links;
        let head = first[pair_bucket(self.by.mode, first.len(), one, two)];
        let place = find(&self.sheet, self.by, &self.links, one, two, head);
        let Some(after) = next.get(place as usize) else {
            return Ok(Rows::none());
        };
        let row = Row::of_sheet(&self.sheet, place)?;
        let mut place = find(&self.sheet, self.by, &self.links, one, two, *after);
        if place as usize >= next.len() {
            return Ok(Rows::from(row));
        }
        let mut found = Vec::with_capacity(alloc, 1 + self.links.room(place))?;
        found.push(row)?;
        while let Some(after) = next.get(place as usize) {
            found.push(Row::of_sheet(&self.sheet, place)?)?;
            place = find(&self.sheet, self.by, &self.links, one, two, *after);
        }
        Ok(Rows::from(found))
    }
}

// Tells whether a row's two fields equal two texts.
fn is_same_pair(sheet: &Sheet, by: Pairing, row: u32, one: &str, two: &str) -> bool
    requires row { row < length sheet.now.rows }
    requires column { by.column < length sheet.now.names }
    requires second { by.second < length sheet.now.names }
    ensures { let fields = get_or sheet.now.rows row [] in result ≡ (equals_at by.mode
        fields by.column one.now && equals_at by.mode fields by.second two.now) }
{
    is_same(by.mode, sheet.field(row, by.column), one)
        && is_same(by.mode, sheet.field(row, by.second), two)
}
