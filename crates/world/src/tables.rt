//! The tables by their names, and the indices of their columns.

ghost use Rattle.std.specs.Prelude.{◌≡◌, ℕ, List, Ok, Some, None, IfOk, IfErr, IfSome, OnOk, map, position, bytes_eq};
ghost use Rattle.std.specs.Arc.{arc_value};
ghost use Rattle.std.specs.HashMap.{get_by_text};
ghost use Rattle.std.specs.Option.{option_map};
ghost use Rattle.gq_bindings.specs.Seen.{by_of};
ghost use Rattle.csv_source.specs.Reading.{Repeats};
ghost use Rattle.csv_source.specs.Tables.{index_of};
ghost use Rattle.world.specs.Sources.{table_of, names_of, sheet_named, mode_of, source_by_columns, source_over, IsRefused, IsRefusedTables};
ghost use Rattle.world.specs.IndexedColumns.{source_of, source_by_index, source_by_pair_index};

use crate::fault::WorldFault;
use crate::sources::SourceBasis;
use csv_source::{ColumnIndex, PairIndex, Table, TableFault};
use gq_bindings::By;
use load_memory::KeyMode;
use std::alloc::{AllocError, Global};
use std::collections::HashMap;
use std::marker::Model;
use std::sync::Arc;

/// An index of the column at a place, counted from 0.
pub struct IndexedColumn {
    column: usize,
    index: Arc<ColumnIndex>,
}

impl Drop for IndexedColumn {
    fn drop(self) {
        let IndexedColumn {
            column: _,
            index: _index,
        } = self;
    }
}

/// A table, and the indices that were made of its columns.
///
/// A contract sees it as its sheet.
pub struct IndexedTable {
    table: Arc<Table>,
    indices: Vec<IndexedColumn>,
}

impl Model for IndexedTable {
    ghost use Rattle.std.specs.Prelude.{All};
    ghost use Rattle.std.specs.Arc.{arc_value};
    ghost use Rattle.load_memory.specs.Rows.{SheetOf};
    ghost use Rattle.world.specs.IndexedColumns.{IsKept};

    ghost Value = { SheetOf };

    ghost view = { λ t. arc_value t.table };

    ghost invariant = { λ t. All (IsKept (arc_value t.table)) t.indices.items };
}

impl Drop for IndexedTable {
    fn drop(self) {
        let IndexedTable {
            table: _table,
            indices: _indices,
        } = self;
    }
}

fn mode_of(by: &By) -> KeyMode
    ensures { result ≡ mode_of by.now.fold }
{
    if by.fold {
        KeyMode::FoldAscii
    } else {
        KeyMode::Exact
    }
}

impl IndexedTable {
    /// A table without an index.
    pub fn new(alloc: Global, table: Table) -> Result<IndexedTable, AllocError>
        ensures { IfOk result (λ t. t ≡ table) }
    {
        let indices = Vec::new(alloc);
        let table = Arc::new(alloc, table)?;
        Ok(IndexedTable { table, indices })
    }

    // The index of the column at a place that was made for this mode.
    fn find(&self, column: usize, mode: KeyMode) -> Option<&Arc<ColumnIndex>>
        ensures { IfSome result (λ x. arc_value x.now
            ≡ index_of self.now column mode) }
    {
        for kept in &self.indices {
            if kept.column == column && kept.index.mode() == mode {
                return Some(&kept.index);
            }
        }
        None
    }

    // Makes the index of a column that is there, and keeps it.
    fn add(
        &mut self,
        alloc: Global,
        place: usize,
        column: &str,
        mode: KeyMode,
    ) -> Result<Arc<ColumnIndex>, WorldFault>
        requires { Some place ≡ position
            (λ n. bytes_eq n column.now) self.old.names }
        ensures same { self.new ≡ self.old }
        ensures ok { IfOk result (λ x.
            arc_value x ≡ index_of self.old place mode) }
        ensures err { IfErr result
            (λ e. e ≡ WorldFault.NoMemory) }
    {
        let Ok(index) = ColumnIndex::new(alloc, &self.table, column, mode) else {
            return Err(WorldFault::NoMemory);
        };
        let index = Arc::new(alloc, index)?;
        let kept = Arc::try_clone(&index)?;
        self.indices.push(IndexedColumn {
            column: place,
            index: kept,
        })?;
        Ok(index)
    }

    // The index of a column, of which one is made for each mode at most.
    fn index(
        &mut self,
        alloc: Global,
        column: &str,
        mode: KeyMode,
    ) -> Result<Arc<ColumnIndex>, WorldFault>
        ensures same { self.new ≡ self.old }
        ensures ok { IfOk result (λ x.
            source_by_columns self.old column.now None mode ≡ Ok (source_by_index (arc_value x))) }
        ensures err { IfErr result (IsRefused (source_by_columns self.old column.now None mode)) }
    {
        let Some(place) = self.table.sheet().column(column) else {
            return Err(WorldFault::NoSuchColumn);
        };
        match self.find(place, mode) {
            Some(index) => Ok(Arc::try_clone(index)?),
            None => self.add(alloc, place, column, mode),
        }
    }

    // An index of two columns.
    fn pair_index(
        &self,
        alloc: Global,
        column: &str,
        second: &str,
        mode: KeyMode,
    ) -> Result<PairIndex, WorldFault>
        ensures ok { IfOk result (λ x. source_by_columns self.now column.now (Some second.now) mode
            ≡ Ok (source_by_pair_index x)) }
        ensures err { IfErr result
            (IsRefused (source_by_columns self.now column.now (Some second.now) mode)) }
    {
        match PairIndex::new(alloc, &self.table, column, second, mode) {
            Ok(index) => Ok(index),
            Err(TableFault::NoSuchColumn) => Err(WorldFault::NoSuchColumn),
            Err(_) => Err(WorldFault::NoMemory),
        }
    }

    // Returns what the source by the columns of a loader is made from.
    fn source_by(&mut self, alloc: Global, by: &By) -> Result<SourceBasis, WorldFault>
        ensures same { self.new ≡ self.old }
        ensures ok { IfOk result (λ s.
            source_over self.old (Some (by_of by.now)) ≡ Ok (source_of s)) }
        ensures err { IfErr result (IsRefused (source_over self.old (Some (by_of by.now)))) }
    {
        let mode = mode_of(by);
        match &by.second {
            None => {
                let index = self.index(alloc, &by.column, mode)?;
                Ok(SourceBasis::By(index))
            }
            Some(second) => {
                let index = self.pair_index(alloc, &by.column, second, mode)?;
                Ok(SourceBasis::ByTwo(index))
            }
        }
    }

    /// Returns what the source of a loader of this table is made from.
    ///
    /// # Errors
    ///
    /// `NoSuchColumn` where the loader goes by columns that the table doesn't have, and `NoMemory`.
    pub fn source(&mut self, alloc: Global, by: &Option<By>) -> Result<SourceBasis, WorldFault>
        ensures same { self.new ≡ self.old }
        ensures ok { IfOk result (λ s.
            source_over self.old (option_map by_of by.now) ≡ Ok (source_of s)) }
        ensures err { IfErr result (IsRefused (source_over self.old (option_map by_of by.now))) }
    {
        match by {
            None => Ok(SourceBasis::All(Arc::try_clone(&self.table)?)),
            Some(by) => self.source_by(alloc, by),
        }
    }
}

/// The tables by their names.
///
/// # Errors
///
/// `DuplicateTable` where two have the same name, and `NoMemory`.
pub fn by_name(
    alloc: Global,
    tables: Vec<(String, Table)>,
) -> Result<HashMap<String, IndexedTable>, WorldFault>
    ensures found { IfOk result (λ named.
        (q : List ℕ) → get_by_text named q ≡ sheet_named (map table_of tables.items) q) }
    ensures once { OnOk result (¬ (Repeats (names_of (map table_of tables.items)))) }
    ensures err { IfErr result
        (IsRefusedTables (map table_of tables.items)) }
{
    let mut named = HashMap::new(alloc);
    for (name, table) in tables {
        let table = IndexedTable::new(alloc, table)?;
        if named.insert(name, table)?.is_some() {
            return Err(WorldFault::DuplicateTable);
        }
    }
    Ok(named)
}
