//! The rows of a key.
ghost use Rattle.std.specs.Prelude.{◌≡◌, ◌==◌, ◌<◌, ◌^◌, ◌++◌, ◌∷◌, [], IfOk, OnOk, OnErr, length};
ghost use Rattle.std.specs.Iterator.Runs.{EveryRun, ItemsMapTo};
ghost use Rattle.std.specs.Slice.Iter.{iter_rest, iter_steps};

use crate::row::Row;
use std::alloc::{AllocError, Global};
use std::marker::Model;
use std::ops::DerefSlice;
use std::slice;

/// Number of rows that the first list of several has room for.
const FIRST_ROOM: usize = 4;

// Place of the rows of a key.
#[derive(Drop)]
enum Held {
    None,
    One(Row),
    Many(Vec<Row>),
}

/// The rows of a key, in the source's order. None and a single one take no memory of their own.
///
/// They are read as a `&[Row]`, and made from a `Row` or a `Vec<Row>`. A contract sees their list.
pub struct Rows {
    held: Held,
}

impl Model for Rows {
    ghost use Rattle.std.specs.Prelude.{List};
    ghost use Rattle.load_memory.specs.Rows.{RowOf};
    ghost use Rattle.load_memory.specs.Held.{rows_held};

    ghost Value = { List RowOf };

    ghost view = { λ r. rows_held r.held };
}

impl Drop for Rows {
    fn drop(self) {
        let Rows { held: _held } = self;
    }
}

impl Rows {
    /// No rows.
    pub fn none() -> Rows
        ensures { result ≡ [] }
    {
        Rows { held: Held::None }
    }

    /// The rows, in order.
    pub fn as_slice(&self) -> &[Row]
        ensures { result.now ≡ self.now }
    {
        match &self.held {
            Held::None => &[],
            Held::One(row) => slice::from_ref(row),
            Held::Many(rows) => rows.as_slice(),
        }
    }

    /// Returns how many rows there are.
    pub fn len(&self) -> usize
        ensures { result ≡ length self.now }
    {
        self.as_slice().len()
    }

    /// Tells whether there is no row.
    pub fn is_empty(&self) -> bool
        ensures { result ≡ (length self.now == 0) }
    {
        self.as_slice().is_empty()
    }

    /// Adds a row at the end. A first row takes no memory.
    ///
    /// # Errors
    ///
    /// When out of memory, the rows are those that they were (`kept`).
    pub fn push(&mut self, alloc: Global, row: Row) -> Result<(), AllocError>
        ensures ok { OnOk result
            (self.new ≡ self.old ++ row ∷ []) }
        ensures kept { OnErr result (self.new ≡ self.old) }
    {
        match &mut self.held {
            Held::None => self.held = Held::One(row),
            Held::One(first) => {
                let rows = two_rows(alloc, first, row)?;
                self.held = Held::Many(rows);
            }
            Held::Many(rows) => rows.push(row)?,
        }
        Ok(())
    }
}

// A list of two rows, with room for more.
fn two_rows(alloc: Global, first: &Row, second: Row) -> Result<Vec<Row>, AllocError>
    ensures { IfOk result
        (λ rows. rows.items ≡ first.now ∷ second ∷ []) }
{
    let mut rows = Vec::with_capacity(alloc, FIRST_ROOM)?;
    rows.push(first.clone()?)?;
    rows.push(second)?;
    Ok(rows)
}

impl Default for Rows {
    ghost is_default = { λ rows. rows ≡ [] };

    fn default() -> Rows {
        Rows::none()
    }
}

/// It takes no memory.
impl From<Row> for Rows {
    ghost from_gives = { λ row rows. rows ≡ row ∷ [] };

    fn from(row: Row) -> Rows {
        Rows {
            held: Held::One(row),
        }
    }
}

/// It takes no memory. A list of one row or none gives its own back.
impl From<Vec<Row>> for Rows {
    ghost from_gives = { λ list rows. rows ≡ list.items };

    fn from(list: Vec<Row>) -> Rows {
        if list.len() > 1 {
            return Rows {
                held: Held::Many(list),
            };
        }
        let mut list = list;
        match list.pop() {
            Some(row) => Rows::from(row),
            None => Rows::none(),
        }
    }
}

impl Clone for Rows {
    ghost is_clone = { λ x y. y ≡ x };

    fn clone(&self) -> Result<Rows, AllocError> {
        let held = match &self.held {
            Held::None => Held::None,
            Held::One(row) => Held::One(row.clone()?),
            Held::Many(rows) => Held::Many(rows.clone()?),
        };
        Ok(Rows { held })
    }
}

impl DerefSlice for Rows {
    type Elem = Row;

    ghost deref_gives = { λ rows list. list ≡ rows };

    fn deref(&self) -> &[Row]
        ensures value { result.now ≡ self.now }
    {
        self.as_slice()
    }
}

impl<'r> IntoIterator for &'r Rows {
    type Item = &'r Row;

    type IntoIter = slice::Iter<'r, Row>;

    ghost use Rattle.load_memory.specs.declared.row.Row.{Row};

    ghost into_iter_gives = { λ rows it. (iter_rest it ≡ rows.now) × (length (iter_rest it) < 2 ^ 64) × EveryRun (iter_steps {A = Row}) (λ p. ItemsMapTo p (λ y. y.now) (iter_rest p.from)) };

    fn into_iter(self) -> slice::Iter<'r, Row> {
        self.as_slice().iter()
    }
}
