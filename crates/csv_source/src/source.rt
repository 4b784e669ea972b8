//! A source that answers each key with the rows of that key.
ghost use Rattle.std.specs.Prelude.{◌≡◌, IfOk, IfErr, OnOk, map, Contains};
ghost use Rattle.load_memory.specs.Keys.{key_of};
ghost use Rattle.load_memory.specs.Outcomes.{item_of};
ghost use Rattle.csv_source.specs.Faults.{ColumnFault, PairFault};
ghost use Rattle.load_queue.specs.Answers.{given};
ghost use Rattle.csv_source.specs.Tables.{rows_of, rows_of_key, item_of_key, source_of_all, source_by, source_by_two};
ghost use Rattle.csv_source.specs.KeyLaws.{item_of_key-folded};

use crate::fault::TableFault;
use crate::index::ColumnIndex;
use crate::pair_index::PairIndex;
use crate::table::Table;
use load_memory::{Item, Key, KeyMode, Row, Rows};
use load_queue::{FetchFault, PerKey, Source};
use std::alloc::{AllocError, Global};
use std::marker::Model;

// Way in which a source finds its rows.
#[derive(Drop)]
enum Finder<'t> {
    All(&'t Table),
    Owned(ColumnIndex),
    Shared(&'t ColumnIndex),
    OwnedPair(PairIndex),
    SharedPair(&'t PairIndex),
}

/// A source over a table. By a column, a text key has the rows whose column equals the text; by two columns, a pair has
/// the rows whose columns equal both parts; without a column, the key `All` has all rows. For a key of another form it
/// has none. It fails only when out of memory.
///
/// A contract sees it as its rows, its columns, if it has any, and its mode.
#[derive(Drop)]
pub struct CsvSource<'t> {
    finder: Finder<'t>,
}

impl<'t> Model for CsvSource<'t> {
    ghost use Rattle.csv_source.specs.Tables.{SourceOf};

    ghost Value = { SourceOf };

    ghost use Rattle.csv_source.specs.Sources.{source_of};

    ghost view = { λ s. source_of s.finder };
}

// All rows of a table, in file order.
fn all_rows(alloc: Global, table: &Table) -> Result<Rows, AllocError>
    ensures { IfOk result
        (λ rows. rows ≡ rows_of table.now) }
{
    let sheet = table.sheet();
    let mut rows = Vec::with_capacity(alloc, sheet.len() as usize)?;
    for place in 0..sheet.len() {
        rows.push(Row::of_sheet(sheet, place)?)?;
    }
    Ok(Rows::from(rows))
}

// The rows that a table has for a key without a column: none but for `All`.
fn rows_without(alloc: Global, table: &Table, key: &Key) -> Result<Rows, AllocError>
    ensures { IfOk result (λ rows.
        rows ≡ rows_of_key (source_of_all (rows_of table.now)) (key_of key.now)) }
{
    match key {
        Key::All => all_rows(alloc, table),
        Key::Text(_) | Key::Pair(..) => Ok(Rows::none()),
    }
}

// The rows that an index has for a key: none but for a text.
fn rows_by(alloc: Global, index: &ColumnIndex, key: &Key) -> Result<Rows, AllocError>
    ensures { let x = index.now in IfOk result (λ rows. rows
        ≡ rows_of_key (source_by x.rows x.column x.mode) (key_of key.now)) }
{
    match key {
        Key::Text(text) => index.rows(alloc, text.as_str()),
        Key::All | Key::Pair(..) => Ok(Rows::none()),
    }
}

// The rows that an index of two columns has for a key: none but for a pair.
fn rows_by_two(alloc: Global, index: &PairIndex, key: &Key) -> Result<Rows, AllocError>
    ensures { let x = index.now in IfOk result (λ rows. rows
        ≡ rows_of_key (source_by_two x.rows x.column x.second x.mode) (key_of key.now)) }
{
    match key {
        Key::Pair(pair) => index.rows(alloc, pair.one.as_str(), pair.two.as_str()),
        Key::All | Key::Text(_) => Ok(Rows::none()),
    }
}

impl<'t> CsvSource<'t> {
    /// The source of all rows of a table.
    pub fn all(table: &'t Table) -> CsvSource<'t>
        ensures { result ≡ source_of_all
            (rows_of table.now) }
    {
        CsvSource {
            finder: Finder::All(table),
        }
    }

    /// The source by a column, with an index of its own.
    ///
    /// # Errors
    ///
    /// `NoSuchColumn` where the table has no column of that name, and `NoMemory`.
    pub fn by(
        alloc: Global,
        table: &Table,
        column: &str,
        mode: KeyMode,
    ) -> Result<CsvSource<'t>, TableFault>
        ensures ok { IfOk result (λ s. s ≡ source_by
            (rows_of table.now) column.now mode) }
        ensures there { OnOk result
            (Contains table.now.names column.now) }
        ensures err { IfErr result
            (ColumnFault table.now.names column.now) }
    {
        let index = ColumnIndex::new(alloc, table, column, mode)?;
        Ok(CsvSource {
            finder: Finder::Owned(index),
        })
    }

    /// The source by two columns, which may be the same, with an index of its own.
    ///
    /// # Errors
    ///
    /// `NoSuchColumn` where the table lacks a column of one of the names, and `NoMemory`.
    pub fn by_two(
        alloc: Global,
        table: &Table,
        column: &str,
        second: &str,
        mode: KeyMode,
    ) -> Result<CsvSource<'t>, TableFault>
        ensures ok { IfOk result (λ s.
            s ≡ source_by_two (rows_of table.now) column.now second.now mode) }
        ensures there { OnOk result
            (Contains table.now.names column.now × Contains table.now.names second.now) }
        ensures err { IfErr result (PairFault table.now.names column.now second.now) }
    {
        let index = PairIndex::new(alloc, table, column, second, mode)?;
        Ok(CsvSource {
            finder: Finder::OwnedPair(index),
        })
    }

    /// The source by an existing index.
    pub fn of_index(index: &'t ColumnIndex) -> CsvSource<'t>
        ensures { result ≡ source_by index.now.rows
            index.now.column index.now.mode }
    {
        CsvSource {
            finder: Finder::Shared(index),
        }
    }

    /// The source by an existing index of two columns.
    pub fn of_pair_index(index: &'t PairIndex) -> CsvSource<'t>
        ensures { result
            ≡ source_by_two index.now.rows index.now.column index.now.second index.now.mode }
    {
        CsvSource {
            finder: Finder::SharedPair(index),
        }
    }

    /// The rows of a key, in file order.
    pub fn rows(&self, alloc: Global, key: &Key) -> Result<Rows, AllocError>
        ensures { IfOk result (λ rows. rows
            ≡ rows_of_key self.now (key_of key.now)) }
    {
        match &self.finder {
            Finder::All(table) => rows_without(alloc, table, key),
            Finder::Owned(index) => rows_by(alloc, index, key),
            Finder::Shared(index) => rows_by(alloc, index, key),
            Finder::OwnedPair(index) => rows_by_two(alloc, index, key),
            Finder::SharedPair(index) => rows_by_two(alloc, index, key),
        }
    }

    // An item for each key, in order: its rows.
    fn items(&self, alloc: Global, keys: &[Key]) -> Result<Vec<Item>, AllocError>
        ensures { IfOk result (λ v.
            map item_of v.items ≡ map (item_of_key self.now) (map key_of keys.now)) }
    {
        let mut items = Vec::with_capacity(alloc, keys.len())?;
        for key in keys {
            items.push(Item::Rows(self.rows(alloc, key)?))?;
        }
        Ok(items)
    }
}

impl<'t> Source for CsvSource<'t> {
    ghost may_answer = { λ s keys answer. answer ≡ given (map (item_of_key s) keys) };

    fn fetch(&self, alloc: Global, keys: &[Key]) -> Result<Vec<Item>, FetchFault> {
        match self.items(alloc, keys) {
            Ok(items) => Ok(items),
            Err(AllocError) => Err(FetchFault::NoMemory),
        }
    }
}

impl<'t> PerKey for CsvSource<'t> {
    ghost mode_of = { λ s. s.mode };

    ghost item_at = { item_of_key };

    ghost key_by_key = { λ s keys answer is. is };

    ghost respects = { item_of_key-folded };

    /// The mode by which keys are compared: `Exact` for the source of all rows.
    fn mode(&self) -> KeyMode {
        match &self.finder {
            Finder::All(_) => KeyMode::Exact,
            Finder::Owned(index) => index.mode(),
            Finder::Shared(index) => index.mode(),
            Finder::OwnedPair(index) => index.mode(),
            Finder::SharedPair(index) => index.mode(),
        }
    }
}
