//! Serving: each line is answered by a line.

ghost use Rattle.std.specs.Prelude.{◌≡◌, [], ◌≤◌, length, OnErr, IfOk, vec_len};
ghost use Rattle.std.specs.Io.KnownBytes.{ReadConsumes};
ghost use Rattle.server_lines.specs.Answering.{by_calls};
ghost use Rattle.server_lines.specs.Devices.{counts_of, device_of, devices, CountsFaults, CountsNone, CountsRead, IsReadOut};
ghost use Rattle.server_lines.specs.Serving.{EndsServing, Serves};

use crate::device::{CountedDevice, DeviceFault};
use crate::fault::{LineFault, ServeFault};
use crate::feed::{feed, finish};
use crate::output::{close, send};
use std::alloc::{AllocError, Global};
use std::io::{Read, Write};

/// The number of bytes that are read at a time.
const BLOCK: usize = 65_536;

// A block to read into.
fn new_block(alloc: Global) -> Result<Vec<u8>, AllocError>
    ensures { IfOk result (λ block. vec_len block ≡ 65536) }
{
    vec![in alloc; 0u8; BLOCK]
}

// Reads a block once nothing is pending, so that a client at a pipe sees its answers before it is asked for more.
fn read_block<R: Read>(
    reader: &mut CountedDevice<R>,
    pending: &Vec<u8>,
    block: &mut [u8],
) -> Result<usize, DeviceFault>
    requires { pending.now.items ≡ [] }
    ensures bytes { ReadConsumes (R.remaining (device_of reader.old))
        (R.remaining (device_of reader.new)) result block.new }
    ensures within { IfOk result
        (λ n. n ≤ length block.new) }
    ensures faults { CountsFaults IsReadOut (counts_of reader.old) (counts_of reader.new) result }
    ensures ok { IfOk result
        (CountsRead reader.old reader.new) }
    ensures err { OnErr result
        (CountsNone reader.old reader.new) }
{
    reader.read(block)
}

// Ends serving: writes what is pending, and flushes, unless the writer has failed.
fn end<W: Write>(
    writer: &mut CountedDevice<W>,
    pending: &mut Vec<u8>,
    served: Result<u64, ServeFault>,
) -> Result<u64, ServeFault>
    ensures { EndsServing W.contents writer.old pending.old
        writer.new served result }
{
    match served {
        Err(ServeFault::WriteFault) => Err(ServeFault::WriteFault),
        _ => match close(writer, pending) {
            Ok(()) => served,
            Err(_) => Err(ServeFault::WriteFault),
        },
    }
}

/// Answers each line of the reader by a line to the writer, and says how many there were. `answer` is called once for each
/// line, in order, and gives its answer, both without a line feed; it fails when out of memory, or where it can't write what it
/// traces of the line. A line ends at a line feed or at the end of the input; a last line feed begins no further line. The writer
/// is flushed once, at the end, after a fault of the reader or of a call of `answer`, and after a line that is too long.
///
/// # Errors
///
/// `LineTooLong` for a line of more than 4,194,304 bytes: the answers of all lines before it were written
/// whole, and nothing else; these alone were answered. `ReadFault` exactly where the reader counted a fault,
/// unless the writer failed after it: the same, of each line that was read to its end. `WriteFault` exactly
/// where the writer counted a fault, also after another fault where the answers before it can't be written: a
/// front of the output was written. `NoMemory`: the answers of the lines from the first on were written whole,
/// and nothing else; lines that ended in the block of at most 65,536 bytes in which it came may lack their
/// answers, and no earlier line does; at most one call for the next line was made and failed (`IsUnanswered`,
/// `IsStopped`). `TraceFault` where a call of `answer` gave it: as after `NoMemory`, and one call was made and
/// failed. How far the reader was read then isn't said.
pub fn serve<F: FnMut(&[u8]) -> Result<String, LineFault>, R: Read, W: Write>(
    alloc: Global,
    reader: &mut CountedDevice<R>,
    writer: &mut CountedDevice<W>,
    answer: &mut F,
) -> Result<u64, ServeFault>
    requires { F.IsAlwaysCallable answer.old }
    ensures { Serves (by_calls F.FnMut) answer.old answer.new
        (devices R.remaining W.contents reader.old reader.new writer.old writer.new) result }
{
    let mut pending = Vec::new(alloc);
    let mut room = match new_block(alloc) {
        Ok(room) => room,
        Err(_) => return end(writer, &mut pending, Err(ServeFault::NoMemory)),
    };
    let block = room.as_mut_slice();
    let mut held = Vec::new(alloc);
    let mut count = 0u64;
    loop {
        let n = match read_block(reader, &pending, block) {
            Ok(n) => n,
            Err(_) => return end(writer, &mut pending, Err(ServeFault::ReadFault)),
        };
        if n == 0 {
            let served = finish(answer, writer, &mut pending, &held, count);
            return end(writer, &mut pending, served);
        }
        match feed(answer, writer, &mut pending, &mut held, &block[..n]) {
            Ok(more) => count += more as u64,
            Err(fault) => return end(writer, &mut pending, Err(fault)),
        }
        match send(writer, &mut pending) {
            Ok(()) => {}
            Err(_) => return Err(ServeFault::WriteFault),
        }
    }
}
