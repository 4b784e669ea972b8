//! Logs of loaders, as a host reads them.
ghost use Rattle.std.specs.Prelude.{◌≡◌, ◌↔◌, IsTrue, IfOk, OnOk, OnErr, map, length};
ghost use Rattle.load_memory.specs.Cells.{cut};
ghost use Rattle.load_queue.specs.Logs.{asked_of};
ghost use Rattle.flat_orders.specs.Written.{all_texts, keys_in, lists_said, size_of};
ghost use Rattle.host_clients.specs.Logs.{AreBatches};

use crate::fault::Fault;
use flat_orders::{KeyLists, KeySizes};
use load_queue::LogEntry;
use std::alloc::{AllocError, Global};

/// The batches that a loader was asked for, in order.
pub struct BatchLog {
    rounds: Vec<u32>,
    // 1 where the replies were stored
    stored: Vec<u32>,
    keys: KeyLists,
}

impl Drop for BatchLog {
    fn drop(self) {
        let BatchLog {
            rounds: _rounds,
            stored: _stored,
            keys: _keys,
        } = self;
    }
}

impl BatchLog {
    /// These entries of a log.
    pub fn of(alloc: Global, entries: &[LogEntry]) -> Result<BatchLog, AllocError>
        ensures { IfOk result (λ l.
            AreBatches (map asked_of entries.now) l.rounds.items l.stored.items l.keys) }
    {
        let mut rounds = Vec::with_capacity(alloc, entries.len())?;
        let mut stored = Vec::with_capacity(alloc, entries.len())?;
        let mut keys = KeyLists::new(alloc);
        for entry in entries {
            rounds.push(entry.round)?;
            stored.push(u32::from(entry.stored))?;
            keys.push(entry.keys.as_slice())?;
        }
        Ok(BatchLog {
            rounds,
            stored,
            keys,
        })
    }

    /// Returns how many elements the buffers have to hold that [`copy_to`](BatchLog::copy_to) fills. There is a list of keys for
    /// each batch.
    pub fn sizes(&self) -> KeySizes
        ensures lists { result.lists
            ≡ length self.now.keys }
        ensures keys { result.keys
            ≡ length (keys_in self.now.keys) }
        ensures texts { result.texts
            ≡ length (all_texts self.now.keys) }
        ensures bytes { result.bytes
            ≡ size_of (all_texts self.now.keys) }
    {
        self.keys.sizes()
    }

    /// Tells whether buffers of these sizes may take the rounds, and whether replies were stored.
    pub fn has_rounds(&self, rounds: usize, stored: usize) -> bool
        ensures { IsTrue result
            ↔ (rounds ≡ length self.now.rounds.items) × (stored ≡ length self.now.stored.items) }
    {
        rounds == self.rounds.len() && stored == self.stored.len()
    }

    /// Copies the round of each batch, and whether its replies were stored.
    pub fn copy_rounds(&self, rounds: &mut [u32], stored: &mut [u32]) -> Result<(), Fault>
        ensures rounds { OnOk result
            (rounds.new ≡ self.now.rounds.items) }
        ensures stored { OnOk result
            (stored.new ≡ self.now.stored.items) }
        ensures kept { OnErr result ((rounds.new ≡ rounds.old) × (stored.new ≡ stored.old)) }
    {
        if !self.has_rounds(rounds.len(), stored.len()) {
            return Err(Fault::BadSize);
        }
        rounds.copy_from_slice(&self.rounds);
        stored.copy_from_slice(&self.stored);
        Ok(())
    }

    /// Copies the keys of each batch, as [`KeyLists::copy_to`] does.
    pub fn copy_keys(
        &self,
        counts: &mut [u32],
        shapes: &mut [u32],
        ends: &mut [u32],
        bytes: &mut [u8],
    ) -> Result<(), Fault>
        ensures { OnOk result
            (lists_said counts.new shapes.new (cut bytes.new 0 ends.new) ≡ self.now.keys) }
    {
        Ok(self.keys.copy_to(counts, shapes, ends, bytes)?)
    }
}
