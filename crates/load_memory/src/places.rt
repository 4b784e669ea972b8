//! Places where keys are likely to stand in a list, by marks of them.
//!
//! What is found here takes neither a copy of its key nor a hash. Whoever asks compares what stands at the
//! place, so no contract speaks of marks.

use crate::key::KeyRef;
use std::alloc::{AllocError, Global};

/// Says how many slots there are at least for each place.
const SLOTS_EACH: usize = 4;

/// Says how many slots there are at most.
const MOST_SLOTS: usize = 1 << 32;

/// Says how many bytes at the end of a text count for a mark.
const MARK_BYTES: usize = 8;

/// For each mark the place that was kept last under it, or under another mark of the same slot. So whoever asks has to look
/// what stands there.
#[derive(Drop)]
pub struct Places {
    // a power of two of them, or none
    slots: Vec<u32>,
}

// The mark with a text more. Numbers that are close to each other have different marks.
fn marked(mark: usize, text: &str) -> usize {
    let bytes = text.as_bytes();
    let mut mark = mark;
    for byte in &bytes[bytes.len().saturating_sub(MARK_BYTES)..] {
        mark = mark.wrapping_mul(10).wrapping_add(usize::from(*byte));
    }
    mark
}

/// The mark of a key, among others that begin with the same number.
pub fn mark_of(first: usize, key: KeyRef<'_>) -> usize {
    match key {
        KeyRef::All => first,
        KeyRef::Text(text) => marked(first, text),
        KeyRef::Pair(one, two) => marked(marked(first, one), two),
    }
}

impl Places {
    /// No slots, which take no memory.
    pub fn new(alloc: Global) -> Places {
        Places {
            slots: Vec::new(alloc),
        }
    }

    /// Tells whether there are no slots.
    pub fn is_empty(&self) -> bool {
        self.slots.is_empty()
    }

    /// Tells whether there are slots enough for this number of places.
    pub fn serves(&self, places: usize) -> bool {
        places <= self.slots.len() / SLOTS_EACH
    }

    /// Makes slots enough for this number of places, and forgets all places.
    pub fn widen(&mut self, places: usize) -> Result<(), AllocError> {
        let alloc = *self.slots.allocator();
        let least = places.saturating_mul(SLOTS_EACH).min(MOST_SLOTS);
        let count = least.next_power_of_two();
        self.slots = vec![in alloc; u32::MAX; count]?;
        Ok(())
    }

    fn slot(&self, mark: usize) -> usize {
        mark & self.slots.len().wrapping_sub(1)
    }

    /// Returns where a key of this mark is likely to stand. Without slots, nowhere.
    pub fn likely(&self, mark: usize) -> usize {
        match self.slots.get(self.slot(mark)) {
            Some(place) => *place as usize,
            None => usize::MAX,
        }
    }

    /// Keeps a place under its mark, where there are slots.
    pub fn keep(&mut self, mark: usize, place: usize) {
        let slot = self.slot(mark);
        if let (Some(kept), Ok(place)) = (self.slots.get_mut(slot), u32::try_from(place)) {
            *kept = place;
        }
    }
}
