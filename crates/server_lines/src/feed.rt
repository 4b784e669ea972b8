//! Lines out of the blocks that are read.

ghost use Rattle.std.specs.Prelude.{◌≡◌, ◌++◌, ◌<◌, ◌≤◌, ◌+◌, ◌-◌, ◌^◌, length, IfOk, IfErr};
ghost use Rattle.server_lines.specs.Answering.{by_calls};
ghost use Rattle.server_lines.specs.Devices.{counts_of};
ghost use Rattle.server_lines.specs.Lines.{limit};
ghost use Rattle.server_lines.specs.Serving.{EndsAll, FailsLast, FailsWhole, FeedsBlock, IsNextBlock, StopsFeeding, WriterCounts};

use crate::device::CountedDevice;
use crate::fault::{LineFault, ServeFault};
use crate::lines::cut_line;
use crate::output::put_answer;
use std::io::Write;

/// The most bytes of a line, without its line feed.
const LIMIT: usize = 4_194_304;

// The line that `held` and `line` are together. A line of which nothing was held isn't copied.
fn whole_line<'a>(held: &'a mut Vec<u8>, line: &'a [u8]) -> Result<&'a [u8], ServeFault>
    requires { length held.old.items ≤ limit }
    ensures ok { IfOk result (λ whole. (whole.now ≡ held.old.items ++ line.now)
        × (length (held.old.items ++ line.now) ≤ limit)) }
    ensures err { IfErr result (FailsWhole (held.old.items ++ line.now)) }
{
    if line.len() > LIMIT - held.len() {
        return Err(ServeFault::LineTooLong);
    }
    if held.is_empty() {
        return Ok(line);
    }
    match held.extend_from_slice(line) {
        Ok(()) => Ok(held.as_slice()),
        Err(_) => Err(ServeFault::NoMemory),
    }
}

/// Answers each line that ends in the block, keeps the rest in `held`, and returns how many lines there were.
pub fn feed<F: FnMut(&[u8]) -> Result<String, LineFault>, W: Write>(
    answer: &mut F,
    writer: &mut CountedDevice<W>,
    pending: &mut Vec<u8>,
    held: &mut Vec<u8>,
    block: &[u8],
) -> Result<usize, ServeFault>
    requires callable { F.IsAlwaysCallable answer.old }
    requires block { IsNextBlock held.old.items block.now }
    ensures ok { IfOk result (FeedsBlock (by_calls F.FnMut) answer.old answer.new held.old
        block.now held.new W.contents writer.old pending.old writer.new pending.new) }
    ensures err { IfErr result (StopsFeeding (by_calls F.FnMut) answer.old answer.new held.old
        block.now W.contents writer.old pending.old writer.new pending.new) }
    ensures faults { WriterCounts (counts_of writer.old)
        (counts_of writer.new) result }
    ensures callable { F.IsAlwaysCallable answer.new }
{
    let mut rest = block;
    let mut count = 0;
    while let Some((line, after)) = cut_line(rest) {
        let whole = whole_line(held, line)?;
        put_answer(writer, pending, answer(whole))?;
        held.clear();
        rest = after;
        count += 1;
    }
    if rest.len() > LIMIT - held.len() {
        return Err(ServeFault::LineTooLong);
    }
    match held.extend_from_slice(rest) {
        Ok(()) => Ok(count),
        Err(_) => Err(ServeFault::NoMemory),
    }
}

/// Answers the last line, where the input ends without a line feed, and says how many lines there were with the `count`
/// before.
pub fn finish<F: FnMut(&[u8]) -> Result<String, LineFault>, W: Write>(
    answer: &mut F,
    writer: &mut CountedDevice<W>,
    pending: &mut Vec<u8>,
    held: &Vec<u8>,
    count: u64,
) -> Result<u64, ServeFault>
    requires callable { F.IsAlwaysCallable answer.old }
    requires count { count < 2 ^ 63 }
    ensures ok { IfOk result (EndsAll (by_calls F.FnMut) answer.old answer.new held.now count
        W.contents writer.old pending.old writer.new pending.new) }
    ensures err { IfErr result (FailsLast (by_calls F.FnMut) answer.old answer.new held.now
        W.contents writer.old pending.old writer.new pending.new) }
    ensures faults { WriterCounts (counts_of writer.old)
        (counts_of writer.new) result }
{
    if held.is_empty() {
        return Ok(count);
    }
    match put_answer(writer, pending, answer(held)) {
        Ok(()) => Ok(count + 1),
        Err(fault) => Err(fault),
    }
}
