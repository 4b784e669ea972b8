//! Places in a text in little memory: four bytes each while all of them are below 2^32.
ghost use Rattle.std.specs.Prelude.{◌≡◌, ◌<◌, ◌++◌, ◌∷◌, ◌^◌, [], OnOk, OnErr, IfOk, get_or, length};
ghost use Rattle.load_memory.specs.Ends.{places_of};

use std::alloc::{AllocError, Global};
use std::marker::Model;

/// Form in which the places are kept.
#[derive(Drop)]
enum EndOffsets {
    Narrow(Vec<u32>),
    Wide(Vec<usize>),
}

/// Places in a text, in order. A contract sees them as a list of numbers.
#[derive(Drop)]
pub(crate) struct Ends {
    places: EndOffsets,
}

impl Model for Ends {
    ghost use Rattle.std.specs.Prelude.{List, ℕ};
    ghost use Rattle.load_memory.specs.Ends.{places_of};

    ghost Value = { List ℕ };

    ghost view = { λ e. places_of e.places };
}

impl Ends {
    /// No place.
    pub(crate) fn new(alloc: Global) -> Ends
        ensures { result ≡ [] }
    {
        Ends {
            places: EndOffsets::Narrow(Vec::new(alloc)),
        }
    }

    /// These places.
    pub(crate) fn of(alloc: Global, places: &[u32]) -> Result<Ends, AllocError>
        ensures { IfOk result (λ ends. ends ≡ places.now) }
    {
        Ok(Ends {
            places: EndOffsets::Narrow(places.to_vec(alloc)?),
        })
    }

    /// Returns how many places there are.
    pub(crate) fn len(&self) -> usize
        ensures { result ≡ length self.now }
    {
        match &self.places {
            EndOffsets::Narrow(places) => places.len(),
            EndOffsets::Wide(places) => places.len(),
        }
    }

    /// The place of this index.
    pub(crate) fn get(&self, i: usize) -> usize
        requires { i < length self.now }
        ensures { result ≡ get_or self.now i 0 }
    {
        match &self.places {
            EndOffsets::Narrow(places) => places[i] as usize,
            EndOffsets::Wide(places) => places[i],
        }
    }

    /// Adds a place at the end.
    pub(crate) fn push(&mut self, place: usize) -> Result<(), AllocError>
        ensures ok { OnOk result
            (self.new ≡ self.old ++ place ∷ []) }
        ensures err { OnErr result (self.new ≡ self.old) }
    {
        add(&mut self.places, place)
    }
}

fn add(places: &mut EndOffsets, place: usize) -> Result<(), AllocError>
    ensures ok { OnOk result (places_of places.new
        ≡ places_of places.old ++ place ∷ []) }
    ensures err { OnErr result
        (places_of places.new ≡ places_of places.old) }
{
    match places {
        EndOffsets::Narrow(narrow) => match u32::try_from(place) {
            Ok(place) => narrow.push(place)?,
            Err(_) => *places = EndOffsets::Wide(widen_ends(*narrow.allocator(), narrow, place)?),
        },
        EndOffsets::Wide(wide) => wide.push(place)?,
    }
    Ok(())
}

// Returns the same places in more memory, and one more.
fn widen_ends(alloc: Global, narrow: &[u32], place: usize) -> Result<Vec<usize>, AllocError>
    ensures { IfOk result
        (λ wide. wide.items ≡ narrow.now ++ place ∷ []) }
{
    let mut wide = Vec::with_capacity(alloc, narrow.len())?;
    for known in narrow.iter() {
        wide.push(*known as usize)?;
    }
    wide.push(place)?;
    Ok(wide)
}
