//! Readers and writers whose faults are counted.

ghost use Rattle.std.specs.Prelude.{◌≡◌, ℕ, List, ◌++◌, ◌<◌, ◌≤◌, ◌+◌, ◌-◌, ◌^◌, length, take, drop, OnOk, OnErr, IfOk, true};
ghost use Rattle.std.specs.Io.KnownBytes.{Appends, Keeps, ReadConsumes, WriteAppends};
ghost use Rattle.server_lines.specs.Devices.{device_of, faults_of, counts_of, counted, nothing_counted, CountsFaults, IsFlushed, IsReadOut, IsStuck, CountsRead, CountsNone};
ghost use Rattle.server_lines.specs.Output.{IsCut};

use crate::calls::{CallFault, DeviceCalls};
use std::io::{Read, Write};

/// The most calls of a reader and the most bytes that it gives, and the most interruptions of a device in a row.
const BOUND: u64 = 1 << 40;

/// A device failed or met a bound, and has counted it.
#[derive(Clone, Copy, Debug, PartialEq, Eq)]
pub struct DeviceFault;

/// A reader or a writer with the count of its faults.
///
/// A fault is a call that failed otherwise than by an interruption, a write that took no byte, an interrupted flush, or a
/// bound that was met: a reader gives at most 2^40 bytes and is called at most 2^40 times, over its whole life, and at most
/// 2^40 interruptions of a device follow one another. Nothing else is a fault.
#[derive(Drop)]
pub struct CountedDevice<D> {
    called: DeviceCalls<D>,
    faults: u64,
}

impl<D> CountedDevice<D> {
    /// A device without a fault.
    pub fn new(device: D) -> CountedDevice<D>
        ensures device { device_of result ≡ device }
        ensures counts { counts_of result
            ≡ nothing_counted }
    {
        CountedDevice {
            called: DeviceCalls::new(device),
            faults: 0,
        }
    }

    /// The device, which isn't counted any more.
    pub fn into_inner(self) -> D
        ensures { result ≡ device_of self }
    {
        let CountedDevice { called, .. } = self;
        called.into_inner()
    }

    /// The faults so far. At `u64::MAX` the count stays.
    pub fn faults(&self) -> u64
        ensures { result ≡ faults_of self.now }
    {
        self.faults
    }

    // Counts a fault.
    fn fault(&mut self) -> DeviceFault
        ensures called { self.new.called ≡ self.old.called }
        ensures one { faults_of self.new
            ≡ counted (faults_of self.old) }
    {
        let faults = &mut self.faults;
        *faults = faults.saturating_add(1);
        DeviceFault
    }
}

impl<R: Read> CountedDevice<R> {
    /// Reads some bytes, none only at the end. An interrupted call is tried again.
    pub fn read(&mut self, block: &mut [u8]) -> Result<usize, DeviceFault>
        ensures bytes { ReadConsumes (R.remaining (device_of self.old))
            (R.remaining (device_of self.new)) result block.new }
        ensures within { IfOk result
            (λ n. n ≤ length block.new) }

        // A fault is that of a call which failed, or a bound was met.
        ensures faults { CountsFaults IsReadOut (counts_of self.old) (counts_of self.new) result }

        // Past a bound nothing is read any more.
        ensures ok { IfOk result
            (CountsRead self.old self.new) }
        ensures err { OnErr result
            (CountsNone self.old self.new) }
    {
        while self.called.calls() < BOUND && self.called.bytes_given() < BOUND {
            match self.called.read(block) {
                Ok(n) => return Ok(n),
                Err(CallFault::Interrupted) => {}
                Err(CallFault::Failed) => return Err(self.fault()),
            }
        }
        Err(self.fault())
    }
}

impl<W: Write> CountedDevice<W> {
    // Writes some bytes of a text that has some. An interrupted call is tried again.
    fn write_some(&mut self, bytes: &[u8]) -> Result<usize, DeviceFault>
        requires { 0 < length bytes.now }
        ensures bytes { WriteAppends (W.contents (device_of self.old))
            (W.contents (device_of self.new)) result bytes.now }
        ensures some { IfOk result
            (λ n. (0 < n) × (n ≤ length bytes.now)) }
        ensures faults { CountsFaults IsStuck (counts_of self.old) (counts_of self.new) result }
    {
        while self.called.interruptions() < BOUND {
            match self.called.write(bytes) {
                Ok(n) => return Ok(n),
                Err(CallFault::Interrupted) => {}
                Err(CallFault::Failed) => return Err(self.fault()),
            }
        }
        Err(self.fault())
    }

    /// Writes all of the bytes. An interrupted call is tried again.
    ///
    /// # Errors
    ///
    /// [`DeviceFault`]; a front of the bytes went out then.
    pub fn write_whole(&mut self, bytes: &[u8]) -> Result<(), DeviceFault>
        ensures ok { OnOk result (Appends (W.contents (device_of self.old))
            (W.contents (device_of self.new)) bytes.now) }
        ensures err { OnErr result
            (IsCut (W.contents (device_of self.old)) (W.contents (device_of self.new)) bytes.now) }
        ensures faults { CountsFaults IsStuck (counts_of self.old) (counts_of self.new) result }
    {
        let mut rest = bytes;
        while !rest.is_empty() {
            let n = self.write_some(rest)?;
            rest = &rest[n..];
        }
        Ok(())
    }

    /// Flushes the writer, once.
    ///
    /// # Errors
    ///
    /// [`DeviceFault`], for an interruption too.
    pub fn flush(&mut self) -> Result<(), DeviceFault>
        ensures bytes { Keeps (W.contents (device_of self.old)) (W.contents (device_of self.new)) }
        ensures faults { CountsFaults IsStuck (counts_of self.old) (counts_of self.new) result }
        ensures flushed { OnOk result
            (IsFlushed (counts_of self.new)) }
    {
        match self.called.flush() {
            Ok(()) => Ok(()),
            Err(_) => Err(self.fault()),
        }
    }
}
