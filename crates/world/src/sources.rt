//! Tables and indices that the sources of the loaders are made from.

ghost use Rattle.std.specs.Prelude.{◌≡◌, ℕ, List, Ok, IfOk, IfErr, map};
ghost use Rattle.std.specs.HashMap.{get_by_text};
ghost use Rattle.gq_bindings.specs.Seen.{loader_of};
ghost use Rattle.world.specs.Sources.{source_for, sources_for, IsRefused};
ghost use Rattle.world.specs.IndexedColumns.{source_of};

use crate::fault::WorldFault;
use crate::tables::IndexedTable;
use csv_source::{ColumnIndex, CsvSource, PairIndex, Table};
use gq_bindings::LoaderLine;
use std::alloc::Global;
use std::collections::HashMap;
use std::sync::Arc;

/// Origin of a source: a table, for one of all rows, or the index of a column or of
/// two.
#[derive(Drop)]
pub enum SourceBasis {
    All(Arc<Table>),
    By(Arc<ColumnIndex>),
    ByTwo(PairIndex),
}

impl SourceBasis {
    /// The source.
    pub fn source(&self) -> CsvSource<'_>
        ensures { result ≡ source_of self.now }
    {
        match self {
            SourceBasis::All(table) => CsvSource::all(table),
            SourceBasis::By(index) => CsvSource::of_index(index),
            SourceBasis::ByTwo(index) => CsvSource::of_pair_index(index),
        }
    }
}

// Returns what the source of a loader is made from.
fn source_parts(
    alloc: Global,
    tables: &mut HashMap<String, IndexedTable>,
    line: &LoaderLine,
) -> Result<SourceBasis, WorldFault>
    ensures same { (q : List ℕ) → get_by_text tables.new q
        ≡ get_by_text tables.old q }
    ensures ok { IfOk result (λ s.
        source_for (get_by_text tables.old) (loader_of line.now) ≡ Ok (source_of s)) }
    ensures err { IfErr result
        (IsRefused (source_for (get_by_text tables.old) (loader_of line.now))) }
{
    let Some(table) = tables.get_mut(line.table.as_str()) else {
        return Err(WorldFault::NoSuchTable);
    };
    table.source(alloc, &line.by)
}

/// Returns what the sources of loaders are made from, in order.
///
/// # Errors
///
/// For the first loader without a source: `NoSuchTable` where its table isn't there, or else
/// `NoSuchColumn` where the table doesn't have its columns. `NoMemory` when it comes.
pub fn all_source_parts(
    alloc: Global,
    mut tables: HashMap<String, IndexedTable>,
    loaders: &[LoaderLine],
) -> Result<Vec<SourceBasis>, WorldFault>
    ensures ok { IfOk result (λ v.
        sources_for (get_by_text tables) (map loader_of loaders.now) ≡ Ok (map source_of v.items)) }
    ensures err { IfErr result
        (IsRefused (sources_for (get_by_text tables) (map loader_of loaders.now))) }
{
    let mut all = Vec::with_capacity(alloc, loaders.len())?;
    for line in loaders {
        all.push(source_parts(alloc, &mut tables, line)?)?;
    }
    Ok(all)
}
