//! Reading texts and tables.

ghost use Rattle.std.specs.Prelude.{◌≡◌, ◌⊎◌, ◌<◌, ◌≤◌, length, IfOk, IfErr, IfSome, string_bytes, string_len};
ghost use Rattle.std.specs.String.{from_utf8_error_vec};
ghost use Rattle.world_files.specs.Opening.{IsTextOf, IsSheetOf, IsUnread, IsUnopened, IsWholeOrLong, reason_of};

use crate::bounded::{BoundedReader, too_long};
use crate::fault::{FileFault, InputFile};
use csv_source::{Table, TableFault};
use gq_lexer::MAX_BYTES;
use std::alloc::Global;
use std::io::{self, ErrorKind, Read};
use std::string::FromUtf8Error;

// Bytes that are read of a schema: as many as it may have, and the longest character.
const SCHEMA_FRONT: u64 = 1_048_580;

/// The most bytes that a table's file may have.
const MAX_TABLE: u32 = 4_294_967_295;

/// Returns what a failed call on a file is. Want of memory is in no file.
pub fn unread(file: InputFile, reason: io::Error) -> FileFault
    ensures unread { IsUnread file result }
    ensures reason { (result ≡ FileFault.NoMemory)
        ⊎ (result ≡ FileFault.Unread file reason) }
{
    if reason.kind() == ErrorKind::OutOfMemory {
        return FileFault::NoMemory;
    }
    FileFault::Unread { file, reason }
}

// Returns what is said of a file that is no text, as the library says it.
fn no_text() -> io::Error {
    io::Error::new(ErrorKind::InvalidData, "stream did not contain valid UTF-8")
}

/// Reads a text of at most this many bytes. It doesn't read further, however long the reader goes on.
///
/// # Errors
///
/// Returns why the reader fails; and where it gives no UTF-8, or gives more.
pub fn read_text<R: Read + Drop>(alloc: Global, reader: R, most: u32) -> io::Result<String>
    ensures ok { IfOk result (λ text.
        IsTextOf (R.remaining reader) (string_bytes text)) }
    ensures within { IfOk result
        (λ text. string_len text ≤ most) }
{
    let text = match io::read_to_string(alloc, reader.take(most as u64 + 1)) {
        Ok(text) => text,
        Err(error) => return Err(error),
    };
    if text.len() > most as usize {
        return Err(too_long());
    }
    Ok(text)
}

// The text before the first fault, where it is longer than a schema may be.
fn long_text(error: FromUtf8Error<Global>) -> io::Result<String>
    ensures ok { IfOk result (λ text. (MAX_BYTES < string_len text)
        × (string_len text ≤ length (from_utf8_error_vec error).items)) }
{
    let front = error.utf8_error().valid_up_to();
    let mut bytes = error.into_bytes();
    bytes.truncate(front);
    match String::from_utf8(bytes) {
        Ok(text) => {
            if text.len() > MAX_BYTES {
                return Ok(text);
            }
            Err(no_text())
        }
        Err(_) => Err(no_text()),
    }
}

/// Reads the text of a schema. Of one that is longer than a schema may be, it returns a front that is too long as well, and
/// doesn't read further, however long the reader goes on.
///
/// # Errors
///
/// Returns why the reader fails; and where what is read is no UTF-8 but for a character that the end cuts.
pub fn read_schema<R: Read + Drop>(alloc: Global, reader: R) -> io::Result<String>
    ensures { IfOk result (λ text.
        IfSome (R.remaining reader) (λ bytes. IsWholeOrLong MAX_BYTES bytes (string_bytes text))) }
{
    let mut bytes = Vec::new(alloc);
    match reader.take(SCHEMA_FRONT).read_to_end(&mut bytes) {
        Ok(_) => {}
        Err(error) => return Err(error),
    }
    match String::from_utf8(bytes) {
        Ok(text) => Ok(text),
        Err(error) => long_text(error),
    }
}

// Returns what a refused table is. Of a file that couldn't be read its reader has kept the reason.
fn open_fault_of(place: usize, fault: TableFault, kept: Option<io::Error>) -> FileFault
    ensures { result ≡ FileFault.Table place fault
        (reason_of fault kept) }
{
    let reason = match fault {
        TableFault::ReadFault => kept,
        _ => None,
    };
    FileFault::Table {
        place,
        fault,
        reason,
    }
}

/// Reads the table of a place. It doesn't read further than a table may be long, however long the reader goes on.
///
/// # Errors
///
/// `Table` where what is read is no table, or the reader fails, with its reason; `Unread` where it gives more; and want of memory.
pub fn read_table<R: Read + Drop>(
    alloc: Global,
    reader: R,
    place: usize,
) -> Result<Table, FileFault>
    ensures ok { IfOk result
        (IsSheetOf (R.remaining reader)) }
    ensures err { IfErr result
        (IsUnopened (R.remaining reader) place) }
{
    let mut front = BoundedReader::new(reader, MAX_TABLE);
    let table = Table::read(alloc, &mut front);
    if front.is_exceeded() {
        return Err(unread(InputFile::Table(place), too_long()));
    }
    match table {
        Ok(table) => Ok(table),
        Err(fault) => Err(open_fault_of(place, fault, front.fault())),
    }
}
