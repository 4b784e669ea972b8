//! Devices that count the calls of them.

ghost use Rattle.std.specs.Prelude.{◌≡◌, ℕ, ◌<◌, ◌≤◌, length, IfOk, true, false, is_ok};
ghost use Rattle.std.specs.Io.KnownBytes.{Keeps, ReadConsumes, WriteAppends};
ghost use Rattle.server_lines.specs.Devices.{CountsCall, failed_after, flushed, interrupted_after};

use std::io::{ErrorKind, Read, Write};

/// Failure of a call that gave and took nothing.
#[derive(Clone, Copy, Debug, PartialEq, Eq)]
pub enum CallFault {
    /// It was interrupted, and may be made again.
    Interrupted,
    /// It failed, or it was a write that took no byte.
    Failed,
}

/// A device, and what came of the calls of it. Each method makes one call.
///
/// It counts flushes too (`flushed` of its view), since what a writer holds is the same before and after one.
/// The code alone says when a call has failed.
#[derive(Drop)]
pub struct DeviceCalls<D> {
    device: D,
    calls: u64,
    given: u64,
    failed: u64,
    interrupted: u64,
    flushed: bool,
}

impl<D> DeviceCalls<D> {
    /// A device that wasn't called yet.
    pub fn new(device: D) -> DeviceCalls<D>
        ensures device { result.device ≡ device }
        ensures calls { (result.calls ≡ 0)
            × (result.given ≡ 0) }
        ensures faults { (result.failed ≡ 0)
            × (result.interrupted ≡ 0) }
        ensures flushed { result.flushed ≡ true }
    {
        DeviceCalls {
            device,
            calls: 0,
            given: 0,
            failed: 0,
            interrupted: 0,
            flushed: true,
        }
    }

    /// The device.
    pub fn into_inner(self) -> D
        ensures { result ≡ self.device }
    {
        let DeviceCalls { device, .. } = self;
        device
    }

    /// Returns how many calls there were.
    pub fn calls(&self) -> u64
        ensures { result ≡ self.now.calls }
    {
        self.calls
    }

    /// Returns how many bytes these calls gave or took.
    pub fn bytes_given(&self) -> u64
        ensures { result ≡ self.now.given }
    {
        self.given
    }

    /// Returns how many calls were interrupted since one that wasn't.
    pub fn interruptions(&self) -> u64
        ensures { result ≡ self.now.interrupted }
    {
        self.interrupted
    }

    // Counts what kept a call from giving or taking anything.
    fn count_fault(&mut self, fault: CallFault)
        ensures same { (self.new.device ≡ self.old.device)
            × (self.new.calls ≡ self.old.calls) × (self.new.given ≡ self.old.given) }
        ensures flushed { self.new.flushed
            ≡ self.old.flushed }
        ensures failed { self.new.failed
            ≡ failed_after (Err fault) self.old.failed }
        ensures interrupted { self.new.interrupted
            ≡ interrupted_after (Err fault) self.old.interrupted }
    {
        match fault {
            CallFault::Interrupted => {
                let interrupted = &mut self.interrupted;
                *interrupted = interrupted.saturating_add(1);
            }
            CallFault::Failed => {
                let failed = &mut self.failed;
                *failed = failed.saturating_add(1);
                self.interrupted = 0;
            }
        }
    }

    // Counts a call.
    fn count(&mut self, outcome: Result<usize, CallFault>)
        ensures device { self.new.device ≡ self.old.device }
        ensures flushed { self.new.flushed
            ≡ self.old.flushed }
        ensures counts { CountsCall
            self.old self.new outcome }
    {
        let calls = &mut self.calls;
        *calls = calls.saturating_add(1);
        match outcome {
            Ok(n) => {
                let given = &mut self.given;
                *given = given.saturating_add(n as u64);
                self.interrupted = 0;
            }
            Err(fault) => self.count_fault(fault),
        }
    }
}

impl<R: Read> DeviceCalls<R> {
    /// Reads some bytes, none only at the end.
    pub fn read(&mut self, block: &mut [u8]) -> Result<usize, CallFault>
        ensures bytes { ReadConsumes (R.remaining self.old.device)
            (R.remaining self.new.device) result block.new }
        ensures within { IfOk result
            (λ n. n ≤ length block.new) }
        ensures counts { CountsCall
            self.old self.new result }
    {
        let outcome = match self.device.read(block) {
            Ok(n) => Ok(n),
            Err(error) if error.kind() == ErrorKind::Interrupted => Err(CallFault::Interrupted),
            Err(_) => Err(CallFault::Failed),
        };
        self.count(outcome);
        outcome
    }
}

impl<W: Write> DeviceCalls<W> {
    /// Writes some bytes of a text that has some.
    pub fn write(&mut self, bytes: &[u8]) -> Result<usize, CallFault>
        requires { 0 < length bytes.now }
        ensures bytes { WriteAppends (W.contents self.old.device)
            (W.contents self.new.device) result bytes.now }
        ensures some { IfOk result
            (λ n. (0 < n) × (n ≤ length bytes.now)) }
        ensures counts { CountsCall
            self.old self.new result }
        ensures flushed { self.new.flushed ≡ false }
    {
        let outcome = match self.device.write(bytes) {
            Ok(0) => Err(CallFault::Failed),
            Ok(n) => Ok(n),
            Err(error) if error.kind() == ErrorKind::Interrupted => Err(CallFault::Interrupted),
            Err(_) => Err(CallFault::Failed),
        };
        self.count(outcome);
        self.flushed = false;
        outcome
    }

    /// Flushes the writer. A flush that is interrupted has failed.
    pub fn flush(&mut self) -> Result<(), CallFault>
        ensures bytes { Keeps (W.contents self.old.device)
            (W.contents self.new.device) }
        ensures counts { CountsCall self.old self.new
            (flushed result) }
        ensures flushed { self.new.flushed ≡ is_ok result }
    {
        match self.device.flush() {
            Ok(()) => {
                self.count(Ok(0));
                self.flushed = true;
                Ok(())
            }
            Err(_) => {
                self.count(Err(CallFault::Failed));
                self.flushed = false;
                Err(CallFault::Failed)
            }
        }
    }
}
