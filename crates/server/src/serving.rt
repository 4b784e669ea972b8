//! Request lines, answered one after another.

ghost use Rattle.std.specs.Prelude.{IfOk, IfErr, string_bytes};
ghost use denote.Param.Send.{IsSync};
ghost use Rattle.server_lines.specs.Devices.{devices};
ghost use Rattle.server_lines.specs.Serving.{Serves};
ghost use Rattle.server.specs.Lines.{serving};

use crate::client::ClientSession;
use crate::workers::Workers;
use load_queue::{LocalSource, Source};
use server_lines::{CountedDevice, LineFault, ServeFault, serve as serve_lines};
use std::alloc::Global;
use std::io::{Read, Write};
use std::sync::Wait;
use std::thread::Threads;

/// Answers each request line of the reader with a line to the writer, and returns how many there were. A line is JSON text as
/// [`ClientSession::answer_text`] takes it; it ends at a line feed or at the end of the input, and a last line feed begins no further line.
/// The session starts again before each line: no line sees what another loaded. The writer is flushed once, at the end; also after a
/// fault of the reader, after a line that is too long, and when out of memory.
///
/// # Errors
///
/// Those of [`server_lines::serve`], of which it returns neither `BadCount` (X5), for which `AtFault` allows
/// nothing, nor `TraceFault` (X8), at which `at_memory` has no stop. The client then has the session that the
/// last answered line left (`ServesLine`), or its own where none was answered; or, where memory ran out at the
/// next line, that session as it was, or started again and then as after
/// [`answer_text`](ClientSession::answer_text) (`StopsLine`).
///
/// # Headline
///
/// the one clause, by `Serves` of `serving`: each line of what was read was answered as `ServesLine` says, from one
/// state of the client to the next. The client's session starts again, and then the line is answered in it as a
/// text is (`AnswersText`). So the log of the session that a line leaves has exactly what was asked for that line
pub fn serve<S: LocalSource, I: Read, W: Write>(
    alloc: Global,
    client: &mut ClientSession<S>,
    reader: &mut CountedDevice<I>,
    writer: &mut CountedDevice<W>,
) -> Result<u64, ServeFault>
    ensures { Serves (serving S.may_tell) client.old client.new
        (devices I.remaining W.contents reader.old reader.new writer.old writer.new) result }
{
    let mut answer = |line: &[u8]| -> Result<String, LineFault>
        ensures served { IfOk result (λ text.
            (serving S.may_tell).gives client.entry.now line.now (string_bytes text) client.exit.now) }
        ensures stopped { IfErr result (λ fault.
            (serving S.may_tell).stops fault client.entry.now line.now client.exit.now) }
    { Ok(client.answer_line(line)?.text) };
    match serve_lines(alloc, reader, writer, &mut answer) {
        Ok(count) => Ok(count),
        Err(fault) => Err(fault),
    }
}

/// Answers each request line as [`serve`] does; workers run the batches of each round.
///
/// # Errors
///
/// Those of [`serve`].
///
/// # Headline
///
/// As `serve` says
pub fn serve_with<S: Source, R: Threads + Wait + Sync, I: Read, W: Write>(
    alloc: Global,
    client: &mut ClientSession<S>,
    workers: &Workers<'_, R>,
    reader: &mut CountedDevice<I>,
    writer: &mut CountedDevice<W>,
) -> Result<u64, ServeFault>
    ensures { Serves (serving S.may_answer) client.old client.new
        (devices I.remaining W.contents reader.old reader.new writer.old writer.new) result }
{
    let mut answer = |line: &[u8]| -> Result<String, LineFault>
        requires { IsSync R.row × IsSync S.row }
        ensures served { IfOk result (λ text.
            (serving S.may_answer).gives client.entry.now line.now (string_bytes text) client.exit.now) }
        ensures stopped { IfErr result (λ fault.
            (serving S.may_answer).stops fault client.entry.now line.now client.exit.now) }
    { Ok(client.answer_line_with(workers, line)?.text) };
    match serve_lines(alloc, reader, writer, &mut answer) {
        Ok(count) => Ok(count),
        Err(fault) => Err(fault),
    }
}
