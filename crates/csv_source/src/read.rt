//! The reading of a table.
ghost use Rattle.std.specs.Prelude.{◌≡◌, ◌<◌, ◌+◌, ◌^◌, [], IfOk, IfErr, List, IsTrue, ◌↔◌, OnOk, Some, length, ℕ, true, false};
ghost use Rattle.std.specs.Arc.{arc_value};
ghost use Rattle.csv.specs.Reading.{strip_bom, error_kind, has_failed};
ghost use Rattle.csv.specs.Records.{AllText, fields_of};
ghost use Rattle.load_memory.specs.Rows.{draft_with_names, draft_with_row};
ghost use Rattle.csv_source.specs.Reading.{IsPlain, StandsBehind, ReadsMore, HasEnded, IsDevice, IsStopped, reported_fault};
ghost use Rattle.csv_source.specs.Reading.{IsHeader, HeaderFault, RowFault, ReadIs, Repeats};

use crate::fault::TableFault;
use crate::table::Table;
use csv::{ByteRecord, Error, ErrorKind, Reader, ReaderBuilder, StringRecord};
use load_memory::{Sheet, SheetBuilder};
use std::alloc::{AllocError, Global};
use std::collections::HashSet;
use std::io::Read;
use std::sync::Arc;

/// The most rows that a table may have.
const MAX_ROWS: u32 = 1_000_000;

// Returns what a failed read means.
fn device(error: Error) -> TableFault
    ensures device { IsDevice result }
    ensures reported { result ≡ reported_fault
        (error_kind error) }
{
    match error.into_kind() {
        ErrorKind::OutOfMemory => TableFault::NoMemory,
        _ => TableFault::ReadFault,
    }
}

// The next record, if there is one.
fn next<R: Read>(reader: &mut Reader<R>, raw: &mut ByteRecord) -> Result<bool, TableFault>
    requires { IsPlain reader.old }
    ensures fault { IfErr result IsDevice }
    ensures stopped { IfErr result (IsStopped reader.new) }
    ensures plain { IfOk result (λ _. IsPlain reader.new) }
    ensures more { IfOk result (λ found. found ≡ true
        → ReadsMore R.remaining reader.old reader.new (fields_of raw.new)) }
    ensures ended { IfOk result (λ found.
        found ≡ false → HasEnded R.remaining reader.old) }
{
    match reader.read_byte_record(raw) {
        Ok(found) => Ok(found),
        Err(error) => Err(device(error)),
    }
}

// The record as text, in the same memory.
fn text_of(raw: ByteRecord) -> Result<StringRecord, TableFault>
    ensures ok { IfOk result (λ t. (fields_of t ≡ fields_of raw) × AllText (fields_of raw)) }
    ensures err { IfErr result (λ e. (e ≡ TableFault.NotText) × ¬ (AllText (fields_of raw))) }
{
    match StringRecord::from_byte_record(raw) {
        Ok(text) => Ok(text),
        Err(_) => Err(TableFault::NotText),
    }
}

// Tells whether a name stands twice.
fn repeats(alloc: Global, names: &StringRecord) -> Result<bool, AllocError>
    ensures { IfOk result
        (λ b. IsTrue b ↔ Repeats (fields_of names.now)) }
{
    let mut seen = HashSet::new(alloc);
    for name in names {
        if !seen.insert(name)? {
            return Ok(true);
        }
    }
    Ok(false)
}

// A sheet with these columns and no row.
fn columns(alloc: Global, names: &StringRecord) -> Result<SheetBuilder, AllocError>
    ensures { IfOk result
        (λ b. b ≡ draft_with_names (fields_of names.now)) }
{
    let mut sheet = SheetBuilder::new(alloc);
    for name in names {
        sheet.add_column(name)?;
    }
    Ok(sheet)
}

// A sheet with this header and no row.
fn header(alloc: Global, names: &StringRecord) -> Result<SheetBuilder, TableFault>
    requires { AllText (fields_of names.now) }
    ensures ok { let head = fields_of names.now in
        IfOk result (λ b. (b ≡ draft_with_names head) × IsHeader head) }
    ensures err { IfErr result
        (HeaderFault (fields_of names.now)) }
{
    if repeats(alloc, names)? {
        return Err(TableFault::DuplicateColumn);
    }
    Ok(columns(alloc, names)?)
}

// Adds a row of these fields.
fn add_fields(sheet: &mut SheetBuilder, fields: &StringRecord) -> Result<(), AllocError>
    requires none { sheet.old.begun ≡ [] }
    requires same { length (fields_of fields.now)
        ≡ length sheet.old.names }
    requires room { length sheet.old.rows + 1 < 2 ^ 32 }
    ensures { OnOk result (sheet.new
        ≡ draft_with_row sheet.old (fields_of fields.now)) }
{
    for field in fields {
        sheet.add_field(field)?;
    }
    sheet.end_row();
    Ok(())
}

// Adds a record as a row, and gives the record's memory back.
fn add_row(sheet: &mut SheetBuilder, raw: ByteRecord) -> Result<ByteRecord, TableFault>
    requires none { sheet.old.begun ≡ [] }
    requires room { length sheet.old.rows + 1 < 2 ^ 32 }
    ensures ok { let row = fields_of raw in OnOk result ((sheet.new ≡ draft_with_row sheet.old row)
        × (length row ≡ length sheet.old.names) × AllText row) }
    ensures err { IfErr result
        (RowFault sheet.old.names (fields_of raw)) }
{
    if raw.len() != sheet.width() {
        return Err(TableFault::BadRecord);
    }
    let fields = text_of(raw)?;
    add_fields(sheet, &fields)?;
    Ok(fields.into_byte_record())
}

// The sheet, shared.
fn share_sheet(alloc: Global, sheet: Sheet) -> Result<Arc<Sheet>, AllocError>
    ensures { IfOk result (λ a. arc_value a ≡ sheet) }
{
    Ok(Arc::new(alloc, sheet)?)
}

// The table of what is left for the reader.
fn read_all<R: Read>(alloc: Global, reader: &mut Reader<R>) -> Result<Table, TableFault>
    requires { IsPlain reader.old }
    ensures reads { (text : List ℕ)
        → StandsBehind R.remaining reader.old text [] → ReadIs text result }
    ensures stopped { IfErr result (λ e. e ≡ TableFault.ReadFault → has_failed reader.new ≡ true) }
{
    let mut record = ByteRecord::new(alloc);
    if !next(reader, &mut record)? {
        return Err(TableFault::NoHeader);
    }
    let names = text_of(record)?;
    let mut builder = header(alloc, &names)?;
    let mut record = names.into_byte_record();
    for rows in 0..MAX_ROWS + 1 {
        if !next(reader, &mut record)? {
            let sheet = share_sheet(alloc, builder.finish())?;
            return Ok(Table { sheet });
        }
        record = add_row(&mut builder, record)?;
        if rows == MAX_ROWS {
            return Err(TableFault::TooManyRows);
        }
    }
    unreachable!()
}

impl Table {
    /// Reads a table to the reader's end, as the crate `csv` reads with its default settings: RFC
    /// 4180, nothing trimmed. The first record is the header.
    ///
    /// The 1,000,001st record after the header is read before the table is refused as too long.
    ///
    /// # Errors
    ///
    /// The faults of the header come first, in the order `NoHeader`, `NotText`, `DuplicateColumn`, then those
    /// of each record in turn, in the order `BadRecord`, `NotText`, `TooManyRows`. A reader that fails is
    /// `ReadFault`, and being out of memory is `NoMemory`, each when it comes. No clause says that `ReadFault`
    /// comes only where the reader failed, nor how far the reader was read.
    /// If the reader's contract knows its bytes, the result is that of these bytes.
    pub fn read<R: Read + Drop>(alloc: Global, reader: R) -> Result<Table, TableFault>
        ensures { (bytes : List ℕ) → R.remaining reader ≡ Some bytes
            → ReadIs (strip_bom bytes) result }
    {
        let mut reader = ReaderBuilder::new()
            .has_headers(false)
            .flexible(true)
            .from_reader(alloc, reader);
        read_all(alloc, &mut reader)
    }
}
