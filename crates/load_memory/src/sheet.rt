//! The cells of a table in little memory: one text for all of them, and the place where each ends.
//!
//! A [`SheetBuilder`] takes the names of the columns and then the cells row by row. The [`Sheet`]
//! that it becomes is shared by the rows that are taken from it.
ghost use Rattle.std.specs.Prelude.{◌≡◌, ◌<◌, ◌-◌, ◌+◌, ◌*◌, ◌++◌, ◌∷◌, ◌^◌, ◌≤◌, [], take, IfOk, OnOk, OnErr, get_or, ◌==◌, length, position, bytes_eq, ℕ};
ghost use Rattle.load_memory.specs.Cells.{cut, sheet_of, start_at, IsCut};
ghost use Rattle.load_memory.specs.Rows.{IsRectangular, draft_with_names, draft_with_row};

use crate::ends::Ends;
use crate::texts::is_same_text;
use std::alloc::{AllocError, Global};
use std::marker::Model;

// Returns where the text that ends at the place of this index starts.
fn start_of(ends: &Ends, i: usize) -> usize
    requires { i < length ends.now }
    ensures { result ≡ start_at 0 ends.now i }
{
    if i == 0 { 0 } else { ends.get(i - 1) }
}

/// Texts in order, kept as one text and the places where they end.
#[derive(Drop)]
struct Cells {
    text: String,
    ends: Ends,
}

impl Model for Cells {
    ghost use Rattle.std.specs.Prelude.{List, ℕ, string_bytes};
    ghost use Rattle.load_memory.specs.Cells.{cut, IsCut};

    ghost Value = { List (List ℕ) };

    ghost view = { λ c. cut (string_bytes c.text) 0 c.ends };

    ghost invariant = { λ c. IsCut (string_bytes c.text) 0 c.ends };
}

impl Cells {
    fn new(alloc: Global) -> Cells
        ensures { result ≡ [] }
    {
        Cells {
            text: String::new(alloc),
            ends: Ends::new(alloc),
        }
    }

    // The texts that end in a text at these places.
    fn of(alloc: Global, text: &str, ends: &[u32]) -> Result<Cells, AllocError>
        requires { IsCut text.now 0 ends.now }
        ensures { IfOk result (λ cells. cells ≡ cut text.now 0 ends.now) }
    {
        Ok(Cells {
            text: String::from_str(alloc, text)?,
            ends: Ends::of(alloc, ends)?,
        })
    }

    fn len(&self) -> usize
        ensures { result ≡ length self.now }
    {
        self.ends.len()
    }

    // There are fewer texts than `usize` counts, as the places show.
    fn count_fits(&self)
        ensures { length self.now < 2 ^ 64 }
    {
        let _count = self.ends.len();
    }

    fn get(&self, i: usize) -> &str
        requires { i < length self.now }
        ensures { result.now ≡ get_or self.now i [] }
    {
        let start = start_of(&self.ends, i);
        let end = self.ends.get(i);
        &self.text.as_str()[start..end]
    }

    // The first of so many texts that is equal to this one, counted from 0. Most others are told by their lengths.
    fn position(&self, count: usize, text: &str) -> Option<usize>
        requires { count ≤ length self.now }
        ensures { result ≡ position
            (λ t. bytes_eq t text.now) (take count self.now) }
    {
        let mut start = 0;
        for i in 0..count {
            let end = self.ends.get(i);
            if end - start == text.len() && is_same_text(&self.text.as_str()[start..end], text) {
                return Some(i);
            }
            start = end;
        }
        None
    }

    fn push(&mut self, text: &str) -> Result<(), AllocError>
        ensures ok { OnOk result
            (self.new ≡ self.old ++ text.now ∷ []) }
        ensures err { OnErr result (self.new ≡ self.old) }
    {
        self.text.reserve(text.len())?;
        let end = self.text.len() + text.len();
        self.ends.push(end)?;
        self.text.push_str(text)?;
        Ok(())
    }
}

/// A sheet that is being filled.
///
/// A contract sees it as its columns, its whole rows, and the fields of the row that was begun.
/// When out of memory, it is as it was.
pub struct SheetBuilder {
    cells: Cells,
    width: usize,
    rows: u32,
}

impl Model for SheetBuilder {
    ghost use Rattle.load_memory.specs.Rows.{DraftOf};
    ghost use Rattle.load_memory.specs.Cells.{draft_of, HasSheet};

    ghost Value = { DraftOf };

    ghost view = { λ b. draft_of b.width b.rows b.cells };

    ghost invariant = { λ b. HasSheet b.width b.rows b.cells };
}

impl Drop for SheetBuilder {
    fn drop(self) {
        let SheetBuilder {
            cells: _cells,
            width: _,
            rows: _,
        } = self;
    }
}

impl SheetBuilder {
    /// A sheet with no column and no row.
    pub fn new(alloc: Global) -> SheetBuilder
        ensures { result ≡ draft_with_names [] }
    {
        SheetBuilder {
            cells: Cells::new(alloc),
            width: 0,
            rows: 0,
        }
    }

    /// Returns how many columns there are.
    pub fn width(&self) -> usize
        ensures { result ≡ length self.now.names }
    {
        self.width
    }

    /// Adds a column at the right. All columns come before the first field.
    ///
    /// # Errors
    ///
    /// When out of memory, what is built is equal to what it was (`err`).
    pub fn add_column(&mut self, name: &str) -> Result<(), AllocError>
        requires no_row { self.old.rows ≡ [] }
        requires no_field { self.old.begun ≡ [] }
        ensures ok { OnOk result
            (self.new ≡ record self.old { names = self.old.names ++ name.now ∷ [] }) }
        ensures err { OnErr result (self.new ≡ self.old) }
    {
        self.cells.push(name)?;
        self.width = self.cells.len();
        Ok(())
    }

    /// Adds a field to the row that was begun, or begins one.
    ///
    /// # Errors
    ///
    /// When out of memory, what is built is equal to what it was (`err`).
    pub fn add_field(&mut self, text: &str) -> Result<(), AllocError>
        ensures ok { OnOk result
            (self.new ≡ record self.old { begun = self.old.begun ++ text.now ∷ [] }) }
        ensures err { OnErr result (self.new ≡ self.old) }
    {
        self.cells.push(text)?;
        Ok(())
    }

    /// Ends the row that was begun, which has a field for each column.
    pub fn end_row(&mut self)
        requires filled { length self.old.begun
            ≡ length self.old.names }
        requires room { length self.old.rows + 1 < 2 ^ 32 }
        ensures { self.new
            ≡ draft_with_row self.old self.old.begun }
    {
        self.rows += 1;
    }

    /// The sheet, once each row that was begun has ended.
    pub fn finish(self) -> Sheet
        requires { self.begun ≡ [] }
        ensures { result ≡ record { names = self.names; rows = self.rows } }
    {
        let SheetBuilder { cells, width, rows } = self;
        Sheet { cells, width, rows }
    }
}

/// A header and rows of fields, each row as wide as the header.
///
/// A contract sees it as the list of its column names and the list of its rows.
///
/// All cells are one text and one list of ends, of four bytes each while the text is below 4 GiB and of eight
/// beyond. A clone of a row is one more count on the sheet, and a count that would reach 2^63 is out of memory.
pub struct Sheet {
    cells: Cells,
    width: usize,
    rows: u32,
}

impl Model for Sheet {
    ghost use Rattle.load_memory.specs.Rows.{SheetOf};
    ghost use Rattle.load_memory.specs.Cells.{sheet_of, HasSheet};

    ghost Value = { SheetOf };

    ghost view = { λ s. sheet_of s.width s.rows s.cells };

    ghost invariant = { λ s. HasSheet s.width s.rows s.cells };
}

impl Drop for Sheet {
    fn drop(self) {
        let Sheet {
            cells: _cells,
            width: _,
            rows: _,
        } = self;
    }
}

impl Sheet {
    /// The sheet of texts that end in one text at these places: first the names of the columns, and then the fields, row by
    /// row. It takes two blocks of memory.
    pub fn of_texts(
        alloc: Global,
        width: usize,
        rows: u32,
        text: &str,
        ends: &[u32],
    ) -> Result<Sheet, AllocError>
        requires cut { IsCut text.now 0 ends.now }
        requires whole { length ends.now ≡ width + rows * width }
        ensures { IfOk result
            (λ s. s ≡ sheet_of width rows (cut text.now 0 ends.now)) }
    {
        let cells = Cells::of(alloc, text, ends)?;
        Ok(Sheet { cells, width, rows })
    }

    /// Returns how many columns there are.
    pub fn width(&self) -> usize
        ensures { result ≡ length self.now.names }
    {
        self.width
    }

    /// The number of rows.
    pub fn len(&self) -> u32
        ensures count { result ≡ length self.now.rows }
        ensures rectangular { IsRectangular self.now }
    {
        self.rows
    }

    /// Tells whether there is no row.
    pub fn is_empty(&self) -> bool
        ensures { result ≡ (length self.now.rows == 0) }
    {
        self.rows == 0
    }

    /// The name of a column, counted from 0.
    pub fn name(&self, column: usize) -> &str
        requires { column < length self.now.names }
        ensures { result.now
            ≡ get_or self.now.names column [] }
    {
        self.cells.get(column)
    }

    /// The first column of that name, counted from 0.
    pub fn column(&self, name: &str) -> Option<usize>
        ensures { result ≡ position
            (λ n. bytes_eq n name.now) self.now.names }
    {
        self.cells.position(self.width, name)
    }

    /// A field, by its row and its column, each counted from 0.
    pub fn field(&self, row: u32, column: usize) -> &str
        requires row { row < length self.now.rows }
        requires column { column < length self.now.names }
        ensures { result.now ≡ get_or
            (get_or self.now.rows row []) column [] }
    {
        self.cells.count_fits();
        self.cells.get((row as usize + 1) * self.width + column)
    }
}
