//! Keys of loads over a row.
//!
//! A key of two parts is put together over the row even where one argument is null for all rows, since a column
//! that the row lacks is a fault whatever the other part is.

ghost use Rattle.std.specs.Prelude.{◌≡◌, ℕ, List};
ghost use Rattle.load_memory.specs.Rows.{RowOf, cell_of};
ghost use Rattle.execution.specs.Program.{Program};
ghost use Rattle.plan_program.specs.Prepared.{part_from_seen, key_from_seen};
ghost use Rattle.plan_program.specs.PlanPrograms.{part_over, read_pair, read_cell, read_from};
ghost use Rattle.plan_walk.specs.Keys.{part_seen, read_over};

use load_memory::{Cell, KeyRef, Row};
use plan_program::{KeyFrom, KeyPartFrom};

/// Says what a key is over a row.
#[derive(Clone, Copy)]
pub enum KeyOver<'k, 'c> {
    Known(KeyRef<'k>),
    /// There is no key, and so there is no load.
    Null,
    /// The row has no such column.
    Lacking(&'c str),
}

/// Says what a part of a key of two parts is over a row.
#[derive(Clone, Copy)]
pub enum KeyPartOver<'k> {
    /// Its text; none where it is null.
    Known(Option<&'k str>),
    /// The row has no such column.
    Lacking(&'k str),
}

/// Returns what the key in a column is.
pub fn column_over<'k, 'c>(column: &'c str, row: &'k Row) -> KeyOver<'k, 'c>
    ensures { (loader : ℕ) (next : List RowOf → Program) → read_cell loader
        column.now (cell_of row.now column.now) next ≡ read_over loader result next }
{
    match row.get(column) {
        Cell::NoColumn => KeyOver::Lacking(column),
        Cell::Null => KeyOver::Null,
        Cell::Text(text) => KeyOver::Known(KeyRef::Text(text)),
    }
}

fn part_over<'k>(part: &'k KeyPartFrom, row: &'k Row) -> KeyPartOver<'k>
    ensures { part_seen result
        ≡ part_over (part_from_seen part.now) row.now }
{
    match part {
        KeyPartFrom::Fixed(Some(text)) => KeyPartOver::Known(Some(text.as_str())),
        KeyPartFrom::Fixed(None) => KeyPartOver::Known(None),
        KeyPartFrom::Column(column) => match row.get(column.as_str()) {
            Cell::NoColumn => KeyPartOver::Lacking(column.as_str()),
            Cell::Null => KeyPartOver::Known(None),
            Cell::Text(text) => KeyPartOver::Known(Some(text)),
        },
    }
}

// The key of two parts. A column that the row lacks comes before a part that is null.
fn pair_over<'k>(one: KeyPartOver<'k>, two: KeyPartOver<'k>) -> KeyOver<'k, 'k>
    ensures { (loader : ℕ) (next : List RowOf → Program) → read_pair loader
        (part_seen one.entry) (part_seen two.entry) next ≡ read_over loader result next }
{
    let one = match one {
        KeyPartOver::Known(text) => text,
        KeyPartOver::Lacking(column) => return KeyOver::Lacking(column),
    };
    let two = match two {
        KeyPartOver::Known(text) => text,
        KeyPartOver::Lacking(column) => return KeyOver::Lacking(column),
    };
    match (one, two) {
        (Some(one), Some(two)) => KeyOver::Known(KeyRef::Pair(one, two)),
        (Some(_), None) => KeyOver::Null,
        (None, _) => KeyOver::Null,
    }
}

/// Returns what a key is over a row.
pub fn key_over<'k>(key: &'k KeyFrom, row: &'k Row) -> KeyOver<'k, 'k>
    ensures { (loader : ℕ) (next : List RowOf → Program)
        → read_from loader (key_from_seen key.now) row.now next ≡ read_over loader result next }
{
    match key {
        KeyFrom::Fixed(key) => KeyOver::Known(key.as_key_ref()),
        KeyFrom::Column(column) => column_over(column.as_str(), row),
        KeyFrom::Pair(pair) => pair_over(part_over(&pair.first, row), part_over(&pair.second, row)),
    }
}
