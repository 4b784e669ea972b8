//! Worlds and request lines out of files.

ghost use Rattle.std.specs.Prelude.{◌≡◌, ◌⊎◌, map, IfOk, IfErr, IfSome, OnOk, string_bytes};
ghost use Rattle.std.specs.List.{AllZip};
ghost use Rattle.gq_lexer.specs.declared.lexer.TheConstants.{MAX_BYTES};
ghost use Rattle.world.specs.Sources.{table_of};
ghost use Rattle.world_files.specs.declared.fault.InputFile.TheVariants.{Schema, Bindings, Requests};
ghost use Rattle.world_files.specs.Folders.{IsAllOf, WritesNoOther};
ghost use Rattle.world_files.specs.Opening.{IsTextOf, IsSheetOf, IsUnread, IsUncreated, IsUnopened, IsLocated, IsWholeOrLong};
ghost use Rattle.world_files.specs.Files.{IsTableFrom, IsWorldFrom, IsUnopenedFrom, IsUnmadeFrom};

use crate::fault::{FileFault, InputFile};
use crate::folder::Folder;
use crate::reading::{read_schema, read_table, read_text, unread};
use csv_source::Table;
use std::alloc::Global;
use std::io::ErrorKind;
use world::World;

/// The most bytes that a bindings file may have.
const MAX_BINDINGS: u32 = 16_777_216;

/// A table by its name, and the file that it is in.
#[derive(Debug, Drop)]
pub struct TableFile {
    pub name: String,
    pub file: String,
}

/// The files that a world is made of, and its batch limit.
#[derive(Debug, Drop)]
pub struct WorldFiles {
    /// The file of the schema.
    pub schema: String,
    /// The file of the bindings.
    pub bindings: String,
    /// The tables in their order.
    pub tables: Vec<TableFile>,
    /// The batch limit, from 1 to 65,535; `None`: no limit.
    pub max_batch: Option<u32>,
}

// The text of the schema's file.
fn schema_file<D: Folder>(alloc: Global, folder: &D, path: &str) -> Result<String, FileFault>
    ensures ok { IfOk result (λ text. IfSome (D.holds folder.now path.now)
        (λ bytes. IsWholeOrLong MAX_BYTES bytes (string_bytes text))) }
    ensures err { IfErr result (IsUnread Schema) }
{
    let file = match folder.open(path) {
        Ok(file) => file,
        Err(error) => return Err(unread(InputFile::Schema, error)),
    };
    match read_schema(alloc, file) {
        Ok(text) => Ok(text),
        Err(error) => Err(unread(InputFile::Schema, error)),
    }
}

// The text of the bindings' file.
fn bindings_file<D: Folder>(alloc: Global, folder: &D, path: &str) -> Result<String, FileFault>
    ensures ok { IfOk result (λ text. IsTextOf
        (D.holds folder.now path.now) (string_bytes text)) }
    ensures err { IfErr result (IsUnread Bindings) }
{
    let file = match folder.open(path) {
        Ok(file) => file,
        Err(error) => return Err(unread(InputFile::Bindings, error)),
    };
    match read_text(alloc, file, MAX_BINDINGS) {
        Ok(text) => Ok(text),
        Err(error) => Err(unread(InputFile::Bindings, error)),
    }
}

// The table of a file.
fn table_file<D: Folder>(
    alloc: Global,
    folder: &D,
    path: &str,
    place: usize,
) -> Result<Table, FileFault>
    ensures ok { IfOk result
        (IsSheetOf (D.holds folder.now path.now)) }
    ensures err { IfErr result
        (IsUnopened (D.holds folder.now path.now) place) }
{
    match folder.open(path) {
        Ok(file) => read_table(alloc, file, place),
        Err(error) => Err(unread(InputFile::Table(place), error)),
    }
}

// A table with its name.
fn named_table<D: Folder>(
    alloc: Global,
    folder: &D,
    given: &TableFile,
    place: usize,
) -> Result<(String, Table), FileFault>
    ensures ok { IfOk result (λ table.
        IsTableFrom (D.holds folder.now) given.now (table_of table)) }
    ensures err { IfErr result
        (IsUnopened (D.holds folder.now (string_bytes given.now.file)) place) }
{
    let table = match table_file(alloc, folder, given.file.as_str(), place) {
        Ok(table) => table,
        Err(fault) => return Err(fault),
    };
    match String::from_str(alloc, given.name.as_str()) {
        Ok(name) => Ok((name, table)),
        Err(_) => Err(FileFault::NoMemory),
    }
}

// The tables of the files, in their order.
fn table_files<D: Folder>(
    alloc: Global,
    folder: &D,
    given: &[TableFile],
) -> Result<Vec<(String, Table)>, FileFault>
    ensures ok { IfOk result (λ tables.
        AllZip (IsTableFrom (D.holds folder.now)) given.now (map table_of tables.items)) }
    ensures err { IfErr result (λ fault.
        (fault ≡ FileFault.NoMemory) ⊎ IsUnopenedFrom (D.holds folder.now) given.now fault) }
{
    let mut tables = Vec::new(alloc);
    for (place, file) in given.iter().enumerate() {
        let table = match named_table(alloc, folder, file, place) {
            Ok(table) => table,
            Err(fault) => return Err(fault),
        };
        tables.push(table)?;
    }
    Ok(tables)
}

/// The world of files. They are read in the order schema, bindings, tables.
///
/// # Errors
///
/// `Unread` where the schema, the bindings or a table can't be opened, the first two can't be read or are no
/// UTF-8, or the bindings have more than 16,777,216 bytes or a table more than 4,294,967,295; `Table` where a
/// table is refused or its file can't be read; `World` where there is no world of what was read; and want of
/// memory. Which file is read first, or when one can't be read, no clause says.
pub fn open_world<D: Folder>(
    alloc: Global,
    folder: &D,
    files: &WorldFiles,
) -> Result<World, FileFault>
    ensures ok { IfOk result
        (IsWorldFrom (D.holds folder.now) files.now) }
    ensures err { IfErr result
        (IsUnmadeFrom (D.holds folder.now) files.now) }
    ensures located { IfErr result (IsLocated files.now) }
{
    let schema = match schema_file(alloc, folder, files.schema.as_str()) {
        Ok(text) => text,
        Err(fault) => return Err(fault),
    };
    let bindings = match bindings_file(alloc, folder, files.bindings.as_str()) {
        Ok(text) => text,
        Err(fault) => return Err(fault),
    };
    let tables = match table_files(alloc, folder, files.tables.as_slice()) {
        Ok(tables) => tables,
        Err(fault) => return Err(fault),
    };
    match World::new(
        alloc,
        schema.as_str(),
        bindings.as_str(),
        tables,
        files.max_batch,
    ) {
        Ok(world) => Ok(world),
        Err(fault) => Err(FileFault::World(fault)),
    }
}

/// The file of the request lines.
///
/// # Errors
///
/// `Unread` where it can't be opened, with the reason, and want of memory.
pub fn open_requests<D: Folder>(folder: &D, path: &str) -> Result<D::File, FileFault>
    ensures ok { IfOk result (λ file.
        IsAllOf (D.holds folder.now path.now) (D.File.remaining file)) }
    ensures err { IfErr result (IsUnread Requests) }
{
    match folder.open(path) {
        Ok(file) => Ok(file),
        Err(error) => Err(unread(InputFile::Requests, error)),
    }
}

/// An empty file for the trace, in place of one that may be there.
///
/// # Errors
///
/// `Uncreated` with the reason, and want of memory.
pub fn create_trace<D: Folder>(folder: &mut D, path: &str) -> Result<D::Created, FileFault>
    ensures empty { IfOk result
        (λ file. D.Created.contents file ≡ D.fresh) }
    ensures created { OnOk result
        (D.is_created folder.new path.now) }
    ensures others { WritesNoOther path.now
        (D.written folder.old) (D.written folder.new) }
    ensures err { IfErr result IsUncreated }
{
    match folder.create(path) {
        Ok(created) => Ok(created),
        Err(error) if error.kind() == ErrorKind::OutOfMemory => Err(FileFault::NoMemory),
        Err(error) => Err(FileFault::Uncreated(error)),
    }
}
