//! A run of the command.
//!
//! Help is written like an answer: where it can't be, the run ends with `WriteFault`.

ghost use Rattle.std.specs.Prelude.{◌≡◌, [], ◌∷◌, ◌++◌, map, IfSome, IfErr, OnOk, OnErr, string_bytes};
ghost use Rattle.std.specs.Io.KnownBytes.{Appends};
ghost use Rattle.server_lines.specs.Devices.{device_of, devices};
ghost use Rattle.server_lines.specs.Lines.{line_feed};
ghost use Rattle.server_lines.specs.Output.{IsCut};
ghost use Rattle.query_run.specs.Serving.{IsServed, IsServedBy};
ghost use Rattle.query_run.specs.Runs.{IsShown, EndsAsRefused, IsSampleRun, IsPlaced, IsPlacedTrace, RunsFiles, RunsIn, SaysWhere, ServesFor, IsWordless, WritesTrace, WritesOnlyTrace};
ghost use Rattle.query_run.specs.Tracing.{TracesTo};
ghost use Rattle.world_answers.specs.Services.{service_of};
ghost use Rattle.world_files.specs.Folders.{WritesNoOther};

use crate::context::RunContext;
use crate::tracing::{TracedRun, trace_service};
use query_command::{CommandWords, End, LocatedRunEnd, RunEnd};
use server::{Workers, serve, serve_with};
use server_lines::{CountedDevice, DeviceFault, ServeFault};
use std::alloc::Global;
use std::env;
use std::io::{ErrorKind, Read, Write};
use std::rt::Env;
use std::sync::Wait;
use std::thread::Threads;
use world_answers::{Service, lines_are_direct};
use world_files::{Folder, create_trace, open_requests, open_world, sample_world};

/// Words of `clap` on words that are no text.
const NOT_TEXT: &str = "error: invalid UTF-8 was detected in one or more arguments";

/// The words after the command's name.
///
/// A word that isn't UTF-8 is refused by the first line of `clap`'s message, since the kit's `clap` takes
/// texts.
///
/// # Errors
///
/// `Command` if one of them isn't UTF-8; `Serve` when out of memory.
pub fn program_words<R: Env + AllocGlobal>(rt: &R) -> Result<Vec<String>, RunEnd>
    ensures { IfErr result IsWordless }
{
    let words = match env::args(rt) {
        Ok(words) => words,
        Err(error) if error.kind() == ErrorKind::OutOfMemory => {
            return Err(RunEnd::Serve(ServeFault::NoMemory));
        }
        Err(_) => return Err(RunEnd::Command(String::from_str(rt.alloc(), NOT_TEXT)?)),
    };
    Ok(words.skip(1).collect(rt.alloc())?)
}

/// Serves the lines of a reader for a new client of a service, on this thread.
fn serve_in_turn<I: Read, W: Write>(
    alloc: Global,
    service: &Service<'_>,
    reader: &mut CountedDevice<I>,
    writer: &mut CountedDevice<W>,
) -> RunEnd
    ensures { IsServed (service_of service.now)
        (devices I.remaining W.contents reader.old reader.new writer.old writer.new) result }
{
    let mut client = match service.client(alloc) {
        Ok(client) => client,
        Err(_) => return RunEnd::Serve(ServeFault::NoMemory),
    };
    // A contract sees here that each line has the text of direct execution.
    lines_are_direct();
    match serve(alloc, &mut client, reader, writer) {
        Ok(_) => RunEnd::Served,
        Err(fault) => RunEnd::Serve(fault),
    }
}

/// Serves the lines of a reader for a new client of a service, by workers.
fn serve_by_workers<R: Threads + Wait + AllocGlobal + Sync, I: Read, W: Write>(
    rt: &R,
    workers: &Workers<'_, R>,
    service: &Service<'_>,
    reader: &mut CountedDevice<I>,
    writer: &mut CountedDevice<W>,
) -> RunEnd
    ensures { IsServed (service_of service.now)
        (devices I.remaining W.contents reader.old reader.new writer.old writer.new) result }
{
    let mut client = match service.client(rt.alloc()) {
        Ok(client) => client,
        Err(_) => return RunEnd::Serve(ServeFault::NoMemory),
    };
    // A contract sees here that each line has the text of direct execution.
    lines_are_direct();
    match serve_with(rt.alloc(), &mut client, workers, reader, writer) {
        Ok(_) => RunEnd::Served,
        Err(fault) => RunEnd::Serve(fault),
    }
}

/// Serves the lines of a reader, with workers where their number is given.
fn serve_words<R: Threads + Wait + AllocGlobal + Sync, I: Read, W: Write>(
    rt: &R,
    workers: Option<u32>,
    service: &Service<'_>,
    reader: &mut CountedDevice<I>,
    writer: &mut CountedDevice<W>,
) -> RunEnd
    ensures { IsServedBy workers (service_of service.now)
        (devices I.remaining W.contents reader.old reader.new writer.old writer.new) result }
{
    let Some(count) = workers else {
        return serve_in_turn(rt.alloc(), service, reader, writer);
    };
    match Workers::new(rt, count as usize) {
        Ok(workers) => serve_by_workers(rt, &workers, service, reader, writer),
        Err(_) => RunEnd::Serve(ServeFault::BadCount),
    }
}

/// Serves the lines of a reader over the sample world.
fn run_sample<I: Read, W: Write>(
    alloc: Global,
    reader: &mut CountedDevice<I>,
    writer: &mut CountedDevice<W>,
) -> RunEnd
    ensures { IsSampleRun
        (devices I.remaining W.contents reader.old reader.new writer.old writer.new) result }
{
    match sample_world(alloc) {
        Ok(world) => {
            let service = Service {
                world: &world,
                max_answer: None,
                max_work: None,
            };
            serve_in_turn(alloc, &service, reader, writer)
        }
        Err(fault) => RunEnd::from(fault),
    }
}

/// Returns a limit that the words give, as a service takes it.
fn limit_of(limit: Option<u32>) -> Option<usize>
    ensures { result ≡ limit }
{
    match limit {
        Some(most) => Some(most as usize),
        None => None,
    }
}

/// Serves the lines of a reader, and traces them to the file of a path, which is created first.
fn trace_requests<R: Threads + Wait + AllocGlobal + Sync, D: Folder, I: Read, W: Write>(
    run: &RunContext<'_, R>,
    folder: &mut D,
    path: &str,
    service: &Service<'_>,
    reader: &mut CountedDevice<I>,
    writer: &mut CountedDevice<W>,
) -> LocatedRunEnd
    ensures run { TracesTo (D.written folder.new path.now) run.now service.now
        (devices I.remaining W.contents reader.old reader.new writer.old writer.new) result }
    ensures placed { IsPlacedTrace result }
    ensures others { WritesNoOther path.now
        (D.written folder.old) (D.written folder.new) }
{
    let file = match create_trace(folder, path) {
        Ok(file) => file,
        Err(fault) => return LocatedRunEnd::from(fault),
    };
    let TracedRun { stop, trace } = trace_service(
        run,
        service,
        CountedDevice::new(file),
        reader,
        writer,
    );
    folder.close(path, trace.into_inner());
    LocatedRunEnd::from(stop)
}

/// Serves the lines of a reader, with a trace where the words name a file for it.
fn serve_requests<R: Threads + Wait + AllocGlobal + Sync, D: Folder, I: Read, W: Write>(
    run: &RunContext<'_, R>,
    folder: &mut D,
    service: &Service<'_>,
    reader: &mut CountedDevice<I>,
    writer: &mut CountedDevice<W>,
) -> LocatedRunEnd
    ensures run { ServesFor (D.written folder.new) run.now service.now
        (devices I.remaining W.contents reader.old reader.new writer.old writer.new) result }
    ensures placed { IsPlacedTrace result }
    ensures written { WritesTrace run.now.words.now
        (D.written folder.old) (D.written folder.new) }
{
    match &run.words.trace {
        Some(path) => trace_requests(run, folder, path.as_str(), service, reader, writer),
        None => LocatedRunEnd::from(serve_words(
            run.rt,
            run.words.workers,
            service,
            reader,
            writer,
        )),
    }
}

/// Serves the request lines of a file over the world of the other files, with the limits, the workers and the trace that the words give.
fn run_files<R: Threads + Wait + AllocGlobal + Sync, D: Folder, W: Write>(
    run: &RunContext<'_, R>,
    folder: &mut D,
    writer: &mut CountedDevice<W>,
) -> LocatedRunEnd
    ensures run { RunsFiles (D.holds folder.old) (D.written folder.new)
        run.now W.contents writer.old writer.new result }
    ensures placed { IsPlaced run.now.words.now result }
    ensures written { WritesTrace run.now.words.now
        (D.written folder.old) (D.written folder.new) }
{
    let world = match open_world(run.rt.alloc(), folder, &run.words.files) {
        Ok(world) => world,
        Err(fault) => return LocatedRunEnd::from(fault),
    };
    let max_answer = limit_of(run.words.max_answer);
    let max_work = limit_of(run.words.max_work);
    let service = Service {
        world: &world,
        max_answer,
        max_work,
    };
    match open_requests(folder, run.words.requests.as_str()) {
        Ok(file) => serve_requests(run, folder, &service, &mut CountedDevice::new(file), writer),
        Err(fault) => LocatedRunEnd::from(fault),
    }
}

// Writes a text and a line feed, and flushes.
#[tactic(auto, using(crate::proofs::Written::using_written))]
fn write_line<W: Write>(writer: &mut CountedDevice<W>, text: &str) -> Result<(), DeviceFault>
    ensures ok { OnOk result (Appends (W.contents (device_of writer.old))
        (W.contents (device_of writer.new)) (text.now ++ line_feed ∷ [])) }
    ensures err { OnErr result (IsCut (W.contents (device_of writer.old))
        (W.contents (device_of writer.new)) (text.now ++ line_feed ∷ [])) }
{
    match writer.write_whole(text.as_bytes()) {
        Ok(()) => match writer.write_whole(b"\n") {
            Ok(()) => match writer.flush() {
                Ok(()) => Ok(()),
                Err(fault) => Err(fault),
            },
            Err(fault) => Err(fault),
        },
        Err(fault) => Err(fault),
    }
}

/// Writes help.
fn show<W: Write>(writer: &mut CountedDevice<W>, text: String) -> RunEnd
    ensures { IsShown (string_bytes text) (W.contents (device_of writer.old))
        (W.contents (device_of writer.new)) result }
{
    match write_line(writer, text.as_str()) {
        Ok(()) => RunEnd::Help(text),
        Err(_) => RunEnd::Serve(ServeFault::WriteFault),
    }
}

/// Ends a run whose words are refused. Help is written to the writer; any other refusal is in the end itself.
fn tell<W: Write>(stop: RunEnd, writer: &mut CountedDevice<W>) -> RunEnd
    ensures { EndsAsRefused stop (W.contents (device_of writer.old))
        (W.contents (device_of writer.new)) result }
{
    match stop {
        RunEnd::Help(text) => show(writer, text),
        RunEnd::Served => RunEnd::Served,
        RunEnd::Command(text) => RunEnd::Command(text),
        RunEnd::World(fault) => RunEnd::World(fault),
        RunEnd::Table(fault) => RunEnd::Table(fault),
        RunEnd::File => RunEnd::File,
        RunEnd::Serve(fault) => RunEnd::Serve(fault),
    }
}

/// A run of the words after the command's name, over the files of a folder. Without any words it serves the sample world from the
/// reader; else it serves the files that the words name, and reads nothing of the reader. Help is written to the writer. Where the
/// words ask for it, the end also says in which file a fault is. The file of a trace is created once all other files are opened; when
/// the run ends, it is closed. No other file is written.
///
/// # Headline
///
/// the clause `run`, by `IsProgramRun`: the lines were served for one client of a service (`ServesClient`), each as
/// `AnswersLine` says: with `ServesLine` in that client's session, and with the text of direct execution
/// (`IsAnswer`)
pub fn run<R: Threads + Wait + AllocGlobal + Sync, D: Folder, I: Read, W: Write>(
    rt: &R,
    folder: &mut D,
    words: &[String],
    reader: &mut CountedDevice<I>,
    writer: &mut CountedDevice<W>,
) -> End
    ensures run { RunsIn (D.holds folder.old) (D.written folder.new) words.now
        (devices I.remaining W.contents reader.old reader.new writer.old writer.new) result }
    ensures explained { IfSome result.explanation (λ text.
        SaysWhere (map string_bytes words.now) result.stop (string_bytes text)) }
    ensures written { WritesOnlyTrace (map string_bytes words.now)
        (D.written folder.old) (D.written folder.new) }
{
    if words.is_empty() {
        return End::from(run_sample(rt.alloc(), reader, writer));
    }
    match CommandWords::read(rt.alloc(), words) {
        Ok(words) => {
            let run = RunContext { rt, words: &words };
            let stop = run_files(&run, folder, writer);
            End::of(rt.alloc(), &words, stop)
        }
        Err(stop) => End::from(tell(stop, writer)),
    }
}
