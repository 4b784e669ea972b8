//! Serving the lines of a run with a trace.

ghost use Rattle.std.specs.Prelude.{None, IfOk, IfErr};
ghost use denote.Param.Send.{IsSync};
ghost use Rattle.server.specs.Lines.{reporting};
ghost use Rattle.server_lines.specs.Devices.{devices};
ghost use Rattle.server_traces.specs.Tracing.{StopsBy, TracesBy};
ghost use Rattle.world_answers.specs.Answers.{may_tell};
ghost use Rattle.query_run.specs.Tracing.{TracesFor, TracesService};

use crate::context::RunContext;
use csv_source::CsvSource;
use query_command::RunEnd;
use server::Workers;
use server_lines::{CountedDevice, LineFault, ServeFault, serve};
use server_traces::TracedClient;
use std::alloc::Global;
use std::io::{Read, Write};
use std::sync::Wait;
use std::thread::Threads;
use world_answers::Service;

// Serves and traces the lines of a reader for a client, on this thread.
fn trace_in_turn<I: Read, W: Write, T: Write>(
    alloc: Global,
    traced: &mut TracedClient<CsvSource<'_>, T>,
    reader: &mut CountedDevice<I>,
    writer: &mut CountedDevice<W>,
) -> RunEnd
    ensures { TracesFor None T.contents traced.old traced.new
        (devices I.remaining W.contents reader.old reader.new writer.old writer.new) result }
{
    let mut answer = |line: &[u8]| -> Result<String, LineFault>
        ensures served { IfOk result
            (TracesBy T.contents (reporting may_tell) traced.entry.now line.now traced.exit.now) }
        ensures stopped { IfErr result
            (StopsBy T.contents (reporting may_tell) traced.entry.now line.now traced.exit.now) }
    {
        let answer = traced.client.answer_line(line)?;
        traced.trace_answer(answer)
    };
    match serve(alloc, reader, writer, &mut answer) {
        Ok(_) => RunEnd::Served,
        Err(fault) => RunEnd::Serve(fault),
    }
}

// Serves and traces the lines of a reader for a client, by workers.
fn trace_by_workers<R: Threads + Wait + AllocGlobal + Sync, I: Read, W: Write, T: Write>(
    rt: &R,
    workers: &Workers<'_, R>,
    traced: &mut TracedClient<CsvSource<'_>, T>,
    reader: &mut CountedDevice<I>,
    writer: &mut CountedDevice<W>,
) -> RunEnd
    ensures { TracesFor None T.contents traced.old traced.new
        (devices I.remaining W.contents reader.old reader.new writer.old writer.new) result }
{
    let mut answer = |line: &[u8]| -> Result<String, LineFault>
        requires { IsSync R.row }
        ensures served { IfOk result
            (TracesBy T.contents (reporting may_tell) traced.entry.now line.now traced.exit.now) }
        ensures stopped { IfErr result
            (StopsBy T.contents (reporting may_tell) traced.entry.now line.now traced.exit.now) }
    {
        let answer = traced.client.answer_line_with(workers, line)?;
        traced.trace_answer(answer)
    };
    match serve(rt.alloc(), reader, writer, &mut answer) {
        Ok(_) => RunEnd::Served,
        Err(fault) => RunEnd::Serve(fault),
    }
}

// Serves and traces the lines of a reader for a client, with workers where their number is given.
fn trace_lines<R: Threads + Wait + AllocGlobal + Sync, I: Read, W: Write, T: Write>(
    rt: &R,
    workers: Option<u32>,
    traced: &mut TracedClient<CsvSource<'_>, T>,
    reader: &mut CountedDevice<I>,
    writer: &mut CountedDevice<W>,
) -> RunEnd
    ensures { TracesFor workers T.contents traced.old traced.new
        (devices I.remaining W.contents reader.old reader.new writer.old writer.new) result }
{
    let Some(count) = workers else {
        return trace_in_turn(rt.alloc(), traced, reader, writer);
    };
    match Workers::new(rt, count as usize) {
        Ok(workers) => trace_by_workers(rt, &workers, traced, reader, writer),
        Err(_) => RunEnd::Serve(ServeFault::BadCount),
    }
}

/// End of serving with a trace, and the device of the trace.
#[derive(Drop)]
pub struct TracedRun<T> {
    pub stop: RunEnd,
    pub trace: CountedDevice<T>,
}

/// Serves the lines of a reader for a new client of a service, and traces them to a device.
pub fn trace_service<R: Threads + Wait + AllocGlobal + Sync, I: Read, W: Write, T: Write>(
    run: &RunContext<'_, R>,
    service: &Service<'_>,
    trace: CountedDevice<T>,
    reader: &mut CountedDevice<I>,
    writer: &mut CountedDevice<W>,
) -> TracedRun<T>
    ensures { TracesService T.contents run.now service.now trace
        (devices I.remaining W.contents reader.old reader.new writer.old writer.new) result }
{
    let client = match service.client(run.rt.alloc()) {
        Ok(client) => client,
        Err(_) => {
            return TracedRun {
                stop: RunEnd::Serve(ServeFault::NoMemory),
                trace,
            };
        }
    };
    let mut traced = TracedClient::new(run.rt.alloc(), client, trace);
    let stop = trace_lines(run.rt, run.words.workers, &mut traced, reader, writer);
    let (client, trace) = traced.into_parts();
    drop(client);
    TracedRun { stop, trace }
}
