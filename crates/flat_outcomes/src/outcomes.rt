//! The outcomes of keys that are written one after another.
ghost use Rattle.std.specs.Prelude.{◌≡◌, ◌++◌, ◌∷◌, [], ◌↔◌, IsOk, IfOk, OnOk, OnErr, length, map};
ghost use Rattle.load_memory.specs.Cells.{cut};
ghost use Rattle.load_memory.specs.Outcomes.{outcome_of};
ghost use Rattle.flat_orders.specs.Written.{size_of};
ghost use Rattle.flat_outcomes.specs.Said.{outcomes_said};
ghost use Rattle.flat_outcomes.specs.Written.{AreOfSize, IsFew, all_faults, all_rows, count_of, faults_in, last_row, row_before, row_texts, rows_in, texts_of, widths_of};

use crate::rows::{count_below, write_rows};
use flat_orders::{TextBuffer, WrongSize};
use load_memory::{Outcome, Row};
use std::alloc::{AllocError, Global};
use std::marker::Model;

/// Stands for a number of rows where a key has a fault.
pub const KEY_FAULT: u32 = u32::MAX;

/// Stands for a number of rows where the batch in which the key was asked failed as a whole.
pub const BATCH_FAULT: u32 = u32::MAX - 1;

/// Numbers of elements that the buffers have to hold which [`FlatOutcomes::copy_rows_to`] and [`FlatOutcomes::copy_faults_to`] fill.
#[derive(Clone, Copy, Debug, PartialEq, Eq)]
pub struct OutcomeSizes {
    /// Number of keys; there is a number of rows for each.
    pub keys: usize,
    /// Number of rows of all keys; there is a number of columns for each.
    pub rows: usize,
    /// Number of texts of the rows, with the names of columns that are written; there is an end for each.
    pub texts: usize,
    /// Number of bytes of these texts.
    pub bytes: usize,
    /// Number of keys with a fault, of their own or of their batch; there is an end for each.
    pub faults: usize,
    /// Number of bytes of the texts of the faults.
    pub fault_bytes: usize,
}

// The buffers that are written.
#[derive(Drop)]
struct Buffers {
    // for each key how many rows it has, or a mark
    counts: Vec<u32>,
    // for each row how many columns it has, or that they are those of the row before
    widths: Vec<u32>,
    texts: TextBuffer,
    faults: TextBuffer,
}

// Writes an outcome at the end, after the row before it, and tells the last row. When out of memory, nothing is known of what was written.
fn write_outcome<'a>(
    buffers: &mut Buffers,
    before: Option<&'a Row>,
    outcome: &'a Outcome,
) -> Result<Option<&'a Row>, AllocError>
    ensures few { OnOk result
        (IsFew (rows_in (outcome_of outcome.now))) }
    ensures count { let count = count_of (outcome_of outcome.now) in
        OnOk result (buffers.new.counts.items ≡ buffers.old.counts.items ++ count ∷ []) }
    ensures widths { OnOk result (buffers.new.widths.items ≡ buffers.old.widths.items
        ++ widths_of (row_before before.entry) (rows_in (outcome_of outcome.now))) }
    ensures texts { OnOk result (buffers.new.texts ≡ buffers.old.texts
        ++ texts_of (row_before before.entry) (rows_in (outcome_of outcome.now))) }
    ensures faults { let faults = faults_in (outcome_of outcome.now) in
        OnOk result (buffers.new.faults ≡ buffers.old.faults ++ faults) }
    ensures last { let rows = rows_in (outcome_of outcome.now) in
        IfOk result (λ last. row_before last ≡ last_row (row_before before.entry) rows) }
{
    match outcome {
        Outcome::Rows(rows) => {
            buffers.counts.push(count_below(rows.len(), BATCH_FAULT)?)?;
            write_rows(&mut buffers.widths, &mut buffers.texts, before, rows)
        }
        Outcome::KeyFault(fault) => {
            buffers.counts.push(KEY_FAULT)?;
            buffers.faults.push(fault.as_str())?;
            Ok(before)
        }
        Outcome::BatchFault(fault) => {
            buffers.counts.push(BATCH_FAULT)?;
            buffers.faults.push(fault.as_str())?;
            Ok(before)
        }
    }
}

/// The outcomes of keys in flat buffers.
///
/// A contract sees them as outcomes, one for each key, in order.
pub struct FlatOutcomes {
    buffers: Buffers,
}

impl Model for FlatOutcomes {
    ghost use Rattle.std.specs.Prelude.{List};
    ghost use Rattle.load_memory.specs.Outcomes.{OutcomeOf};
    ghost use Rattle.flat_outcomes.specs.Buffers.{AreWhole, said_by};

    ghost Value = { List OutcomeOf };

    ghost view = { λ o. said_by o.buffers };

    ghost invariant = { λ o. AreWhole o.buffers };
}

impl Drop for FlatOutcomes {
    fn drop(self) {
        let FlatOutcomes { buffers: _buffers } = self;
    }
}

impl FlatOutcomes {
    /// These outcomes.
    ///
    /// # Errors
    ///
    /// When out of memory, or where a key has 4,294,967,294 rows or more, a row 4,294,967,295 columns or more, or the texts of the rows or
    /// those of the faults 4 GiB together.
    pub fn of(alloc: Global, outcomes: &[Outcome]) -> Result<FlatOutcomes, AllocError>
        ensures { IfOk result
            (λ flat. flat ≡ map outcome_of outcomes.now) }
    {
        let mut buffers = Buffers {
            counts: Vec::with_capacity(alloc, outcomes.len())?,
            widths: Vec::new(alloc),
            texts: TextBuffer::new(alloc),
            faults: TextBuffer::new(alloc),
        };
        let mut last = None;
        for outcome in outcomes {
            last = write_outcome(&mut buffers, last, outcome)?;
        }
        Ok(FlatOutcomes { buffers })
    }

    /// Returns how many elements the buffers have to hold that [`copy_rows_to`](FlatOutcomes::copy_rows_to) and
    /// [`copy_faults_to`](FlatOutcomes::copy_faults_to) fill.
    pub fn sizes(&self) -> OutcomeSizes
        ensures keys { result.keys ≡ length self.now }
        ensures rows { result.rows
            ≡ length (all_rows self.now) }
        ensures texts { result.texts
            ≡ length (row_texts self.now) }
        ensures bytes { result.bytes
            ≡ size_of (row_texts self.now) }
        ensures faults { result.faults
            ≡ length (all_faults self.now) }
        ensures fault_bytes { result.fault_bytes
            ≡ size_of (all_faults self.now) }
    {
        OutcomeSizes {
            keys: self.buffers.counts.len(),
            rows: self.buffers.widths.len(),
            texts: self.buffers.texts.len(),
            bytes: self.buffers.texts.byte_len(),
            faults: self.buffers.faults.len(),
            fault_bytes: self.buffers.faults.byte_len(),
        }
    }

    /// Copies for each key how many rows it has, or [`KEY_FAULT`] or [`BATCH_FAULT`]; for each row of all keys, in order, how many columns
    /// it has, or [`SAME_COLUMNS`](crate::SAME_COLUMNS); where each text of the rows ends, counted in bytes from the start of the first;
    /// and these texts: of each row the names of its columns, unless they are those of the row before, and then its fields. With the texts
    /// that [`copy_faults_to`](FlatOutcomes::copy_faults_to) copies, the buffers say the outcomes.
    ///
    /// # Errors
    ///
    /// [`WrongSize`] where a buffer hasn't just the size that [`sizes`](FlatOutcomes::sizes) tells.
    pub fn copy_rows_to(
        &self,
        counts: &mut [u32],
        widths: &mut [u32],
        ends: &mut [u32],
        bytes: &mut [u8],
    ) -> Result<(), WrongSize>
        ensures sizes { IsOk result ↔ AreOfSize self.now
            counts.old widths.old ends.old bytes.old }
        ensures copied { let texts = cut bytes.new 0 ends.new in OnOk result
            (outcomes_said counts.new widths.new texts (all_faults self.now) ≡ self.now) }
        ensures kept { OnErr result ((counts.new ≡ counts.old) × (widths.new ≡ widths.old)
            × (ends.new ≡ ends.old) × (bytes.new ≡ bytes.old)) }
    {
        let own = &self.buffers;
        if counts.len() != own.counts.len() || widths.len() != own.widths.len() {
            return Err(WrongSize);
        }
        own.texts.copy_to(ends, bytes)?;
        counts.copy_from_slice(&own.counts);
        widths.copy_from_slice(&own.widths);
        Ok(())
    }

    /// Copies where each fault ends, counted in bytes from the start of the first, and the faults, in the order of the keys that have one.
    ///
    /// # Errors
    ///
    /// [`WrongSize`] where `ends` hasn't an element for each fault, or `bytes` for each of their bytes.
    pub fn copy_faults_to(&self, ends: &mut [u32], bytes: &mut [u8]) -> Result<(), WrongSize>
        ensures sizes { let faults = all_faults self.now in
            IsOk result ↔ (length ends.old ≡ length faults) × (length bytes.old ≡ size_of faults) }
        ensures copied { OnOk result (cut bytes.new 0 ends.new ≡ all_faults self.now) }
        ensures kept { OnErr result ((ends.new ≡ ends.old)
            × (bytes.new ≡ bytes.old)) }
    {
        self.buffers.faults.copy_to(ends, bytes)
    }
}
