//! The words of a command line.

ghost use Rattle.std.specs.Prelude.{◌≡◌, IfOk, IfErr, MatchOption, map, option_map, string_bytes};
ghost use Rattle.clap.specs.Words.{found_of, kind_of, rows_of, first_of, one_of};
ghost use Rattle.query_command.specs.Words.{HasNoEquals, joined, text_at, table_words, NamesTables, IsNumber, IsFlag, IsWords, IsRead, IsRefused, IsUnread, Refuses};

use crate::command::command;
use crate::run_end::RunEnd;
use clap::error::ErrorKind;
use clap::{ArgMatches, Error};
use server_lines::ServeFault;
use std::alloc::{AllocError, Global};
use world_files::{TableFile, WorldFiles};

/// The parts of a command line: `--schema F --bindings F [--workers N] [--max-batch N]
/// [--max-answer BYTES] [--max-work N] [--explain] [--trace F] REQUESTS [NAME=F]..`.
#[derive(Debug, Drop)]
pub struct CommandWords {
    /// The files of the world, with the tables in the order of their words, and the batch limit.
    pub files: WorldFiles,
    /// Number of workers that run the batches of a round at the same time, from 1 to 16; `None`: they run one after another.
    pub workers: Option<u32>,
    /// Greatest number of bytes of one answer, from 1 to 4,294,967,295; `None`: no limit.
    pub max_answer: Option<u32>,
    /// Greatest work of what one line asks, from 1 to 4,294,967,295; `None`: no limit.
    pub max_work: Option<u32>,
    /// Tells whether a run that ends by a fault says where it is.
    pub explain: bool,
    /// The file of the trace, which is created; `None`: nothing is traced.
    pub trace: Option<String>,
    /// The file of the request lines.
    pub requests: String,
}

// Returns how an error of `clap` ends a run.
fn refusal(alloc: Global, error: &Error) -> RunEnd
    ensures { Refuses (kind_of error.now) result }
{
    if error.kind() == ErrorKind::OutOfMemory {
        return RunEnd::Serve(ServeFault::NoMemory);
    }
    let Ok(text) = error.to_string(alloc) else {
        return RunEnd::Serve(ServeFault::NoMemory);
    };
    let Ok(text) = String::from_str(alloc, text.as_str().trim_end()) else {
        return RunEnd::Serve(ServeFault::NoMemory);
    };
    if error.use_stderr() {
        RunEnd::Command(text)
    } else {
        RunEnd::Help(text)
    }
}

// The text of an argument, empty where it has none.
fn text_of(alloc: Global, matches: &ArgMatches<'_>, id: &str) -> Result<String, AllocError>
    ensures { IfOk result (λ text.
        string_bytes text ≡ text_at (rows_of (found_of matches.now)) id.now) }
{
    String::from_str(alloc, matches.get_str(id).unwrap_or(""))
}

// The text of an option, where it is given.
fn given_text(
    alloc: Global,
    matches: &ArgMatches<'_>,
    id: &str,
) -> Result<Option<String>, AllocError>
    ensures { IfOk result (λ given.
        option_map string_bytes given ≡ first_of id.now (rows_of (found_of matches.now))) }
{
    match matches.get_str(id) {
        Some(text) => Ok(Some(String::from_str(alloc, text)?)),
        None => Ok(None),
    }
}

// The number of an argument, where it is given.
fn number_of(matches: &ArgMatches<'_>, id: &str) -> Option<u32>
    ensures { IsNumber (one_of id.now (rows_of (found_of matches.now))) result }
{
    matches.get_one::<u32>(id)
}

// Tells whether a flag is given.
fn is_given(matches: &ArgMatches<'_>, id: &str) -> bool
    ensures { IsFlag (one_of id.now (rows_of (found_of matches.now))) result }
{
    matches.get_flag(id)
}

// The table that a word names, where it has a `=`.
fn table_file(alloc: Global, word: &str) -> Result<Option<TableFile>, AllocError>
    ensures { IfOk result (λ r. MatchOption r (HasNoEquals word.now)
        (λ t. (joined t ≡ word.now) × HasNoEquals (string_bytes t.name))) }
{
    match word.split_once('=') {
        Some((name, file)) => Ok(Some(TableFile {
            name: String::from_str(alloc, name)?,
            file: String::from_str(alloc, file)?,
        })),
        None => Ok(None),
    }
}

// The tables that words name, where each has a `=`.
fn table_files(alloc: Global, words: &[&str]) -> Result<Option<Vec<TableFile>>, AllocError>
    ensures { IfOk result
        (NamesTables (map (λ w. w.now) words.now)) }
{
    let mut tables = Vec::new(alloc);
    for word in words {
        match table_file(alloc, word)? {
            Some(table) => tables.push(table)?,
            None => return Ok(None),
        }
    }
    Ok(Some(tables))
}

// The tables, where the word of each has a `=`.
fn tables_of(alloc: Global, matches: &ArgMatches<'_>) -> Result<Option<Vec<TableFile>>, AllocError>
    ensures { IfOk result (NamesTables (table_words (rows_of (found_of matches.now)))) }
{
    match matches.get_strs("NAME=F") {
        Some(words) => table_files(alloc, words),
        None => Ok(Some(Vec::new(alloc))),
    }
}

// The parts of what `clap` reads.
fn words_of(alloc: Global, matches: &ArgMatches<'_>) -> Result<CommandWords, RunEnd>
    ensures ok { IfOk result
        (IsWords (rows_of (found_of matches.now))) }
    ensures err { IfErr result
        (IsUnread (rows_of (found_of matches.now))) }
{
    let Some(tables) = tables_of(alloc, matches)? else {
        return Err(RunEnd::Command(String::from_str(alloc, "bad table")?));
    };
    Ok(CommandWords {
        files: WorldFiles {
            schema: text_of(alloc, matches, "schema")?,
            bindings: text_of(alloc, matches, "bindings")?,
            tables,
            max_batch: number_of(matches, "max-batch"),
        },
        workers: number_of(matches, "workers"),
        max_answer: number_of(matches, "max-answer"),
        max_work: number_of(matches, "max-work"),
        explain: is_given(matches, "explain"),
        trace: given_text(alloc, matches, "trace")?,
        requests: text_of(alloc, matches, "REQUESTS")?,
    })
}

impl CommandWords {
    /// Reads the words after the command's name.
    ///
    /// A text of help or of a refusal is kept without its last line end.
    ///
    /// # Errors
    ///
    /// `Help` with the text of `clap` where help or the version is asked for; `Command` with the text of `clap` where it refuses the words,
    /// or with `bad table` where it takes them and the word of a table has no `=`; and `Serve` for want of memory.
    pub fn read(alloc: Global, words: &[String]) -> Result<CommandWords, RunEnd>
        ensures ok { IfOk result
            (IsRead (map string_bytes words.now)) }
        ensures err { IfErr result
            (IsRefused (map string_bytes words.now)) }
    {
        let command = command(alloc)?;
        match command.try_get_matches_from(words) {
            Ok(matches) => match words_of(alloc, &matches) {
                Ok(words) => Ok(words),
                Err(stop) => Err(stop),
            },
            Err(error) => Err(refusal(alloc, &error)),
        }
    }
}
