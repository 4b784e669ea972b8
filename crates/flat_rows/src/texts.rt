//! Texts in one buffer.
ghost use Rattle.std.specs.Prelude.{◌≡◌, ◌<◌, ◌≤◌, ◌+◌, ◌*◌, ◌↔◌, IfOk, IfErr, IsTrue, IsUtf8, get_or, length, []};
ghost use Rattle.load_memory.specs.Cells.{IsCut, cut, start_at};
ghost use Rattle.flat_rows.specs.Faults.{TextFault};
ghost use Rattle.flat_rows.specs.Replies.{sheet_said};

use crate::fault::FlatFault;
use load_memory::Sheet;
use std::alloc::{AllocError, Global};
use std::marker::Model;
use std::str;

// Tells whether the ends rise to the end of the text, and each is one of a character.
fn rises(text: &str, ends: &[u32]) -> bool
    ensures { IsTrue result ↔ IsCut text.now 0 ends.now }
{
    let mut start = 0;
    for end in ends {
        let end = *end as usize;
        if end < start || !text.is_char_boundary(end) {
            return false;
        }
        start = end;
    }
    start == text.len()
}

// Returns where the text with this index starts.
fn start_of(ends: &[u32], i: usize) -> usize
    requires { i ≤ length ends.now }
    ensures { result ≡ start_at 0 ends.now i }
{
    if i == 0 { 0 } else { ends[i - 1] as usize }
}

// Returns where the text with this index ends.
fn end_of(ends: &[u32], i: usize) -> usize
    requires { i < length ends.now }
    ensures { result ≡ get_or ends.now i 0 }
{
    ends[i] as usize
}

// The sheet of the first texts that end in a text at these places.
fn sheet_of(
    alloc: Global,
    columns: usize,
    rows: u32,
    text: &str,
    ends: &[u32],
) -> Result<Sheet, AllocError>
    requires cut { IsCut text.now 0 ends.now }
    requires enough { columns + rows * columns ≤ length ends.now }
    ensures { IfOk result
        (λ s. s ≡ sheet_said columns rows (cut text.now 0 ends.now)) }
{
    let _texts = ends.len();
    let count = columns + rows as usize * columns;
    let end = start_of(ends, count);
    Sheet::of_texts(alloc, columns, rows, &text[..end], &ends[..count])
}

/// Texts in one buffer, each from where the one before it ends.
///
/// A contract sees them as a list.
#[derive(Drop)]
pub struct FlatTexts<'h> {
    text: &'h str,
    ends: &'h [u32],
}

impl<'h> Model for FlatTexts<'h> {
    ghost use Rattle.std.specs.Prelude.{List, ℕ};
    ghost use Rattle.load_memory.specs.Cells.{IsCut, cut};

    ghost Value = { List (List ℕ) };

    ghost view = { λ t. cut t.text.now 0 t.ends.now };

    ghost invariant = { λ t. IsCut t.text.now 0 t.ends.now };
}

impl<'h> FlatTexts<'h> {
    /// The texts that end at these places of the bytes, counted from 0.
    ///
    /// # Errors
    ///
    /// `NotUtf8` or `BadEnds`.
    pub fn new(bytes: &'h [u8], ends: &'h [u32]) -> Result<FlatTexts<'h>, FlatFault>
        ensures ok { IfOk result
            (λ t. t ≡ cut bytes.now 0 ends.now) }
        ensures whole { IfOk result (λ _.
            IsUtf8 bytes.now × IsCut bytes.now 0 ends.now) }
        ensures fault { IfErr result
            (TextFault bytes.now ends.now) }
    {
        match str::from_utf8(bytes) {
            Err(_) => Err(FlatFault::NotUtf8),
            Ok(text) => {
                if rises(text, ends) {
                    Ok(FlatTexts { text, ends })
                } else {
                    Err(FlatFault::BadEnds)
                }
            }
        }
    }

    /// Returns how many texts there are.
    pub fn len(&self) -> usize
        ensures { result ≡ length self.now }
    {
        self.ends.len()
    }

    /// The text with this index.
    pub fn get(&self, i: usize) -> &'h str
        requires { i < length self.now }
        ensures { result.now ≡ get_or self.now i [] }
    {
        let start = start_of(self.ends, i);
        let end = end_of(self.ends, i);
        &self.text[start..end]
    }

    /// The sheet of the first texts: the names of `columns` columns, then the fields of `rows` rows, row by row.
    pub fn sheet(&self, alloc: Global, columns: usize, rows: u32) -> Result<Sheet, AllocError>
        requires { columns + rows * columns ≤ length self.now }
        ensures { IfOk result (λ s. s ≡ sheet_said columns rows self.now) }
    {
        sheet_of(alloc, columns, rows, self.text, self.ends)
    }
}
