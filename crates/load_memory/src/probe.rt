//! Looking up one key after another.
ghost use Rattle.std.specs.Prelude.{◌≡◌, IfSome, Some};
ghost use Rattle.load_memory.specs.Keys.{borrowed_of, folded};
ghost use Rattle.load_memory.specs.Outcomes.{outcome_of};
ghost use Rattle.load_memory.specs.LoaderMemories.{look_in};

use crate::key::{CacheKey, KeyMode, KeyRef};
use crate::loader_memory::{LoaderMemory, at_place};
use crate::outcome::Outcome;
use crate::places::{Places, mark_of};
use std::alloc::{AllocError, Global};

/// Number of loaders that have places of their own.
const PLACES: usize = 8;

/// Says how many keys a loader has at least, if they get marks.
const LEAST_KEYS: usize = 64;

/// Says how many keys get marks at most for each that was found by its hash.
const MARKS_EACH: usize = 8;

/// Says where the next key of a loader is looked for.
#[derive(Clone, Copy)]
struct NextPlaces {
    // the place behind the furthest at which a key was found, and `LAST` until one was
    furthest: usize,
    // the place behind the last that was found before the furthest, and 0 until one was
    earlier: usize,
}

/// Stands for the last place of a part, where a key stands that was stored alone.
const LAST: usize = usize::MAX;

/// Holds what a [`Memory`](crate::Memory) is asked by, for one key after another. It has the cache key that is set to that of
/// each, and for a loader two places where its next key is looked for first: keys that are asked in the order in which they
/// were stored are found without their hashes, also where others come again in between, and so is the key that was stored last.
///
/// There are eight such pairs of places, which loaders share by their number, so that they take no memory.
/// Where many keys of a loader were found by their hashes, each of its keys gets a mark of 16 to 32 bytes, by
/// which it is found; keys whose case is folded are always found by their hashes. While the memory has no
/// pair, no key is hashed. No contract speaks of places or marks.
#[derive(Drop)]
pub struct Probe {
    pub(crate) key: CacheKey,
    next: [NextPlaces; PLACES],
    // of each loader the places of its keys, where they are marked
    marked: Option<Vec<Places>>,
    // the number of keys that were found by their hashes since some were marked
    hashed: usize,
}

impl NextPlaces {
    // Returns what is known of a key that stands at one of the two places.
    fn find<'m>(
        &mut self,
        part: &'m LoaderMemory,
        mode: KeyMode,
        key: KeyRef<'_>,
    ) -> Option<&'m Outcome>
        ensures { IfSome result (λ o. look_in part.now.entries
            (folded mode (borrowed_of key.entry)) ≡ Some (outcome_of o.now)) }
    {
        let likely = match self.furthest {
            LAST => part.len().saturating_sub(1),
            furthest => furthest,
        };
        if let Some(outcome) = at_place(part, likely, mode, key) {
            self.furthest = likely.saturating_add(1);
            return Some(outcome);
        }
        let place = self.earlier;
        if place == 0 && self.furthest != LAST {
            return None;
        }
        let outcome = at_place(part, place, mode, key)?;
        self.note(place);
        Some(outcome)
    }

    // A key was found at a place.
    fn note(&mut self, place: usize) {
        let next = place.saturating_add(1);
        if self.furthest == LAST || self.furthest <= next {
            self.furthest = next;
        } else {
            self.earlier = next;
        }
    }
}

// The places of all keys of a part, by their marks.
fn places_of(alloc: Global, part: &LoaderMemory) -> Result<Places, AllocError> {
    let mut places = Places::new(alloc);
    places.widen(part.len())?;
    for (place, key) in part.keys().enumerate() {
        places.keep(mark_of(0, key.as_key_ref()), place);
    }
    Ok(places)
}

impl Probe {
    /// A probe that has asked for nothing yet. It takes no memory.
    pub fn new() -> Probe {
        let start = NextPlaces {
            furthest: LAST,
            earlier: 0,
        };
        Probe {
            key: CacheKey::new(),
            next: [start; PLACES],
            marked: None,
            hashed: 0,
        }
    }

    // The places of a loader's keys, where they are marked.
    fn places(&self, loader: usize) -> Option<&Places> {
        let places = self.marked.as_ref()?.get(loader)?;
        if places.is_empty() {
            None
        } else {
            Some(places)
        }
    }

    // Returns what is known of a loader's key, where the key stands at a place that is likely.
    pub(crate) fn find<'m>(
        &mut self,
        loader: usize,
        part: &'m LoaderMemory,
        mode: KeyMode,
        key: KeyRef<'_>,
    ) -> Option<&'m Outcome>
        ensures { IfSome result (λ o. look_in part.now.entries
            (folded mode (borrowed_of key.entry)) ≡ Some (outcome_of o.now)) }
    {
        match self.places(loader) {
            Some(places) => at_place(part, places.likely(mark_of(0, key)), mode, key),
            None => self.next[loader % PLACES].find(part, mode, key),
        }
    }

    // Tells whether marks of all keys of a loader's part cost no more than the hashes that they can save.
    fn should_mark(&self, loader: usize, keys: usize) -> bool {
        if keys < LEAST_KEYS || self.hashed < keys / MARKS_EACH {
            return false;
        }
        match self.places(loader) {
            Some(places) => !places.serves(keys),
            None => true,
        }
    }

    // Marks all keys of a loader's part.
    fn mark(
        &mut self,
        alloc: Global,
        loader: usize,
        part: &LoaderMemory,
    ) -> Result<(), AllocError> {
        self.hashed = 0;
        let mut marked = self.marked.take().unwrap_or(Vec::new(alloc));
        for _ in marked.len()..=loader {
            marked.push(Places::new(alloc))?;
        }
        if let Some(places) = marked.get_mut(loader) {
            *places = places_of(alloc, part)?;
        }
        self.marked = Some(marked);
        Ok(())
    }

    // Keeps the place of a loader's key, where the keys are marked.
    fn keep(&mut self, loader: usize, part: &LoaderMemory, place: usize) {
        let Some(marked) = &mut self.marked else {
            return;
        };
        if let (Some(places), Some((key, _))) = (marked.get_mut(loader), part.get_index(place)) {
            places.keep(mark_of(0, key.as_key_ref()), place);
        }
    }

    // A key of a loader was found by its hash, at a place of the loader's part.
    pub(crate) fn note_hashed(
        &mut self,
        alloc: Global,
        loader: usize,
        part: &LoaderMemory,
        mode: KeyMode,
        place: usize,
    ) -> Result<(), AllocError> {
        if mode == KeyMode::FoldAscii {
            return Ok(());
        }
        self.hashed = self.hashed.saturating_add(1);
        self.next[loader % PLACES].note(place);
        if self.should_mark(loader, part.len()) {
            return self.mark(alloc, loader, part);
        }
        self.keep(loader, part, place);
        Ok(())
    }
}
