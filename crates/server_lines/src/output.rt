//! Output: now, or together with what comes next.
//!
//! The line feed of an answer is written apart from it, so that nothing is allocated once a line is answered:
//! out of memory means that the line wasn't answered.

ghost use Rattle.std.specs.Prelude.{◌≡◌, ℕ, List, [], ◌∷◌, ◌++◌, ◌<◌, ◌+◌, OnOk, OnErr, IfOk, IfErr, string_bytes, true, false, if◌then◌else◌};
ghost use Rattle.std.specs.Io.KnownBytes.{Appends};
ghost use Rattle.server_lines.specs.Devices.{device_of, counts_of, CountsFaults, IsFlushed, IsStuck};
ghost use Rattle.server_lines.specs.Lines.{ended};
ghost use Rattle.server_lines.specs.Output.{SendsBy, CutsBy, IsCut};
ghost use Rattle.server_lines.specs.Serving.{FailsAnswer, IsGiven, WriterCounts};

use crate::device::{CountedDevice, DeviceFault};
use crate::fault::{LineFault, ServeFault};
use std::io::Write;

/// Once this many bytes are pending, they are written before more are added. A text of this length is written directly.
const PENDING: usize = 65_536;

/// Writes what is pending.
pub fn send<W: Write>(
    writer: &mut CountedDevice<W>,
    pending: &mut Vec<u8>,
) -> Result<(), DeviceFault>
    ensures ok { OnOk result ((pending.new.items ≡ []) × Appends
        (W.contents (device_of writer.old)) (W.contents (device_of writer.new)) pending.old.items) }
    ensures err { OnErr result (IsCut (W.contents (device_of writer.old))
        (W.contents (device_of writer.new)) pending.old.items) }
    ensures faults { CountsFaults IsStuck (counts_of writer.old) (counts_of writer.new) result }
{
    match writer.write_whole(pending) {
        Ok(()) => {
            pending.clear();
            Ok(())
        }
        Err(fault) => Err(fault),
    }
}

// Adds a short text to what is pending, where there is room.
fn keep(pending: &mut Vec<u8>, text: &[u8]) -> bool
    ensures { pending.new.items
        ≡ (if result then pending.old.items ++ text.now else pending.old.items) }
{
    pending.len() < PENDING && text.len() < PENDING && pending.extend_from_slice(text).is_ok()
}

// Writes a text after what is pending, now or later.
#[tactic(auto, using(crate::proofs::Known::using_known))]
fn put<W: Write>(
    writer: &mut CountedDevice<W>,
    pending: &mut Vec<u8>,
    text: &[u8],
) -> Result<(), DeviceFault>
    ensures ok { OnOk result
        (SendsBy W.contents writer.old pending.old writer.new pending.new text.now) }
    ensures err { OnErr result (CutsBy W.contents writer.old pending.old writer.new text.now) }
    ensures faults { CountsFaults IsStuck (counts_of writer.old) (counts_of writer.new) result }
{
    if keep(pending, text) {
        return Ok(());
    }
    match send(writer, pending) {
        Ok(()) => match writer.write_whole(text) {
            Ok(()) => Ok(()),
            Err(fault) => Err(fault),
        },
        Err(fault) => Err(fault),
    }
}

// Writes a text and a line feed after what is pending. Out of memory they go out at once, so that no answer is lost.
fn put_line<W: Write>(
    writer: &mut CountedDevice<W>,
    pending: &mut Vec<u8>,
    text: &[u8],
) -> Result<(), DeviceFault>
    ensures ok { OnOk result
        (SendsBy W.contents writer.old pending.old writer.new pending.new (ended text.now)) }
    ensures err { OnErr result
        (CutsBy W.contents writer.old pending.old writer.new (ended text.now)) }
    ensures faults { CountsFaults IsStuck (counts_of writer.old) (counts_of writer.new) result }
{
    match put(writer, pending, text) {
        Ok(()) => match put(writer, pending, b"\n") {
            Ok(()) => Ok(()),
            Err(fault) => Err(fault),
        },
        Err(fault) => Err(fault),
    }
}

/// Writes the answer that a call gave of a line.
///
/// # Errors
///
/// `WriteFault`; and `NoMemory` and `TraceFault` where the call gave them. After these two nothing of an answer was written.
pub fn put_answer<W: Write>(
    writer: &mut CountedDevice<W>,
    pending: &mut Vec<u8>,
    given: Result<String, LineFault>,
) -> Result<(), ServeFault>
    ensures ok { OnOk result
        (IsGiven given (SendsBy W.contents writer.old pending.old writer.new pending.new)) }
    ensures err { IfErr result
        (FailsAnswer given W.contents writer.old pending.old writer.new pending.new) }
    ensures faults { WriterCounts (counts_of writer.old)
        (counts_of writer.new) result }
{
    match given {
        Ok(text) => match put_line(writer, pending, text.as_bytes()) {
            Ok(()) => Ok(()),
            Err(_) => Err(ServeFault::WriteFault),
        },
        Err(LineFault::NoMemory) => Err(ServeFault::NoMemory),
        Err(LineFault::TraceFault) => Err(ServeFault::TraceFault),
    }
}

/// Writes what is pending, and flushes.
pub fn close<W: Write>(
    writer: &mut CountedDevice<W>,
    pending: &mut Vec<u8>,
) -> Result<(), DeviceFault>
    ensures ok { OnOk result (Appends (W.contents (device_of writer.old))
        (W.contents (device_of writer.new)) pending.old.items) }
    ensures err { OnErr result (IsCut (W.contents (device_of writer.old))
        (W.contents (device_of writer.new)) pending.old.items) }
    ensures flushed { OnOk result
        (IsFlushed (counts_of writer.new)) }
    ensures faults { CountsFaults IsStuck (counts_of writer.old) (counts_of writer.new) result }
{
    match send(writer, pending) {
        Ok(()) => match writer.flush() {
            Ok(()) => Ok(()),
            Err(fault) => Err(fault),
        },
        Err(fault) => Err(fault),
    }
}
