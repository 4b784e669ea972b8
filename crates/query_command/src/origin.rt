//! Origins: where the fault is that ends a run.

ghost use Rattle.std.specs.Prelude.{◌≡◌, IfOk, IfSome, None, string_bytes};
ghost use Rattle.query_command.specs.RunEnds.{stop_of};
ghost use Rattle.query_command.specs.Origins.{in_file, origin_of_schema, origin_of_world, origin_of_serve, origin_of, origin_of_opening, path_of, trace_of, file_of, IsWritten, Explains};

use crate::command_words::CommandWords;
use crate::run_end::RunEnd;
use gq_lexer::Place;
use gq_schema::SchemaFault;
use server_lines::ServeFault;
use std::alloc::{AllocError, Global};
use std::io;
use world::WorldFault;
use world_files::{FileFault, InputFile};

/// Subject of a fault.
#[derive(Clone, Copy, Debug)]
pub enum Subject {
    /// One of the files of a command line. A table's place is that among the words.
    Input(InputFile),
    /// No file of the words, but standard output.
    Output,
    /// The file of the trace.
    Trace,
}

/// Place of a fault in a file, or the reason why the file can't be read.
#[derive(Clone, Copy, Debug)]
pub enum FaultLocation {
    /// Nowhere but in the whole file.
    Whole,
    /// In a line, from 1.
    Line(u64),
    /// At a line and a column.
    At(Place),
    /// Fault of the system, in its words.
    Reason(io::Error),
}

/// The file that a fault is about, and where in it.
#[derive(Clone, Copy, Debug)]
pub struct Origin {
    pub subject: Subject,
    pub location: FaultLocation,
}

/// End of a run, and where the fault is, as far as that is known.
///
/// It is written on a second line, since scripts read the first line and the status. Of a table's fault the
/// file is known and no line, and so of a line that is too long and of a read that failed while lines are
/// served.
#[derive(Debug, Drop)]
pub struct LocatedRunEnd {
    pub stop: RunEnd,
    pub origin: Option<Origin>,
}

/// End of a run, and what is said of it behind the line of its [`RunEnd`], where `--explain` asks for that.
#[derive(Debug, Drop)]
pub struct End {
    pub stop: RunEnd,
    pub explanation: Option<String>,
}

// An origin that is known.
fn in_file(file: InputFile, location: FaultLocation) -> Option<Origin>
    ensures { result ≡ in_file file location }
{
    Some(Origin {
        subject: Subject::Input(file),
        location,
    })
}

// The place of a schema's fault, and the line of a bindings' one. Want of memory is nowhere.
fn origin_of_schema(fault: &SchemaFault) -> Option<Origin>
    ensures { result ≡ origin_of_schema fault.now }
{
    match fault {
        SchemaFault::Syntax(place) => in_file(InputFile::Schema, FaultLocation::At(*place)),
        SchemaFault::Duplicate(place) => in_file(InputFile::Schema, FaultLocation::At(*place)),
        SchemaFault::UnknownType(place) => in_file(InputFile::Schema, FaultLocation::At(*place)),
        SchemaFault::BadImplements(place) => in_file(InputFile::Schema, FaultLocation::At(*place)),
        SchemaFault::NoQueryRoot => in_file(InputFile::Schema, FaultLocation::Whole),
        SchemaFault::ReservedName(place) => in_file(InputFile::Schema, FaultLocation::At(*place)),
        SchemaFault::NotServed(place) => in_file(InputFile::Schema, FaultLocation::At(*place)),
        SchemaFault::BadBinding(line) => in_file(InputFile::Bindings, FaultLocation::Line(*line)),
        SchemaFault::NoMemory => None,
        SchemaFault::BadKind(place) => in_file(InputFile::Schema, FaultLocation::At(*place)),
        SchemaFault::BadDefault(place) => in_file(InputFile::Schema, FaultLocation::At(*place)),
    }
}

// A table that is missing, or lacks a column, is named by the bindings.
fn origin_of_world(fault: &WorldFault) -> Option<Origin>
    ensures { result ≡ origin_of_world fault.now }
{
    match fault {
        WorldFault::Schema(fault) => origin_of_schema(fault),
        WorldFault::NoSuchTable | WorldFault::NoSuchColumn => {
            in_file(InputFile::Bindings, FaultLocation::Whole)
        }
        WorldFault::BadLimit | WorldFault::DuplicateTable | WorldFault::NoMemory => None,
    }
}

fn origin_of_serve(fault: ServeFault) -> Option<Origin>
    ensures { result ≡ origin_of_serve fault }
{
    match fault {
        ServeFault::LineTooLong | ServeFault::ReadFault => in_file(
            InputFile::Requests,
            FaultLocation::Whole,
        ),
        ServeFault::WriteFault => Some(Origin {
            subject: Subject::Output,
            location: FaultLocation::Whole,
        }),
        ServeFault::TraceFault => Some(Origin {
            subject: Subject::Trace,
            location: FaultLocation::Whole,
        }),
        ServeFault::BadCount | ServeFault::NoMemory => None,
    }
}

impl RunEnd {
    /// The origin of the fault, as far as the end itself says that: the place of a schema's fault,
    /// the line of a bindings' one, and the file of one in serving.
    pub fn origin(&self) -> Option<Origin>
        ensures { result ≡ origin_of self.now }
    {
        match self {
            RunEnd::World(fault) => origin_of_world(fault),
            RunEnd::Serve(fault) => origin_of_serve(*fault),
            RunEnd::Served
            | RunEnd::Help(_)
            | RunEnd::Command(_)
            | RunEnd::Table(_)
            | RunEnd::File => None,
        }
    }
}

// The file that couldn't be opened or created, or the place of a fault in what was read.
fn origin_of_opening(fault: &FileFault) -> Option<Origin>
    ensures { result ≡ origin_of_opening fault.now }
{
    match fault {
        FileFault::Unread { file, reason } => in_file(*file, FaultLocation::Reason(*reason)),
        FileFault::Table {
            place,
            reason: Some(reason),
            ..
        } => in_file(InputFile::Table(*place), FaultLocation::Reason(*reason)),
        FileFault::Table {
            place,
            reason: None,
            ..
        } => in_file(InputFile::Table(*place), FaultLocation::Whole),
        FileFault::World(fault) => origin_of_world(fault),
        FileFault::Uncreated(reason) => Some(Origin {
            subject: Subject::Trace,
            location: FaultLocation::Reason(*reason),
        }),
        FileFault::NoMemory => None,
    }
}

impl From<FileFault> for LocatedRunEnd {
    ghost from_gives = { λ fault end. (end.stop ≡ stop_of fault) × (end.origin ≡ origin_of_opening fault) };

    fn from(fault: FileFault) -> LocatedRunEnd {
        let origin = origin_of_opening(&fault);
        LocatedRunEnd {
            stop: RunEnd::from(fault),
            origin,
        }
    }
}

impl From<RunEnd> for LocatedRunEnd {
    ghost from_gives = { λ stop end. (end.stop ≡ stop) × (end.origin ≡ origin_of stop) };

    fn from(stop: RunEnd) -> LocatedRunEnd {
        let origin = stop.origin();
        LocatedRunEnd { stop, origin }
    }
}

impl CommandWords {
    // The path of a file.
    fn path(&self, file: InputFile) -> &str
        ensures { result.now ≡ path_of self.now file }
    {
        match file {
            InputFile::Schema => self.files.schema.as_str(),
            InputFile::Bindings => self.files.bindings.as_str(),
            InputFile::Table(place) => match self.files.tables.get(place) {
                Some(table) => table.file.as_str(),
                None => "",
            },
            InputFile::Requests => self.requests.as_str(),
        }
    }

    // The path of the trace's file, empty where nothing is traced.
    fn trace_path(&self) -> &str
        ensures { result.now ≡ trace_of self.now }
    {
        match &self.trace {
            Some(path) => path.as_str(),
            None => "",
        }
    }

    // The name of what a fault is about.
    fn file(&self, subject: Subject) -> &str
        ensures { result.now ≡ file_of self.now subject }
    {
        match subject {
            Subject::Input(file) => self.path(file),
            Subject::Output => "standard output",
            Subject::Trace => self.trace_path(),
        }
    }
}

// A line of a file, or the file alone for line 0.
fn written_line(alloc: Global, file: &str, line: u64) -> Result<String, AllocError>
    ensures { IfOk result (λ text.
        IsWritten file.now (FaultLocation.Line line) (string_bytes text)) }
{
    if line == 0 {
        return String::from_str(alloc, file);
    }
    Ok(format!(in alloc; "{file}:{line}")?)
}

// A line and a column of a file.
fn written_place(alloc: Global, file: &str, place: Place) -> Result<String, AllocError>
    ensures { IfOk result (λ text.
        IsWritten file.now (FaultLocation.At place) (string_bytes text)) }
{
    let Place { line, column } = place;
    Ok(format!(in alloc; "{file}:{line}:{column}")?)
}

// A file, and what the system says of it.
fn written_reason(alloc: Global, file: &str, reason: io::Error) -> Result<String, AllocError>
    ensures { IfOk result (λ text.
        IsWritten file.now (FaultLocation.Reason reason) (string_bytes text)) }
{
    let mut text = format!(in alloc; "{file}: ")?;
    let reason = reason.to_string(alloc)?;
    text.push_str(reason.as_str())?;
    Ok(text)
}

// The file, and where in it.
fn location_text(alloc: Global, file: &str, location: FaultLocation) -> Result<String, AllocError>
    ensures { IfOk result (λ text.
        IsWritten file.now location (string_bytes text)) }
{
    match location {
        FaultLocation::Whole => String::from_str(alloc, file),
        FaultLocation::Line(line) => written_line(alloc, file, line),
        FaultLocation::At(place) => written_place(alloc, file, place),
        FaultLocation::Reason(reason) => written_reason(alloc, file, reason),
    }
}

// Returns what is said of a fault, where it is asked for and memory allows.
fn explanation(alloc: Global, words: &CommandWords, origin: Option<Origin>) -> Option<String>
    ensures { IfSome result (λ text.
        Explains words.now origin (string_bytes text)) }
{
    if !words.explain {
        return None;
    }
    let origin = origin?;
    match location_text(alloc, words.file(origin.subject), origin.location) {
        Ok(text) => Some(text),
        Err(_) => None,
    }
}

impl From<RunEnd> for End {
    ghost from_gives = { λ stop end. (end.stop ≡ stop) × (end.explanation ≡ None) };

    fn from(stop: RunEnd) -> End {
        End {
            stop,
            explanation: None,
        }
    }
}

impl End {
    /// The end of a run of these words.
    pub fn of(alloc: Global, words: &CommandWords, end: LocatedRunEnd) -> End
        ensures stop { result.stop ≡ end.stop }
        ensures explanation { IfSome result.explanation (λ text.
            Explains words.now end.origin (string_bytes text)) }
    {
        End {
            stop: end.stop,
            explanation: explanation(alloc, words, end.origin),
        }
    }
}
