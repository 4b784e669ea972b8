//! Positions that wait for loads, each of them once.

ghost use Rattle.std.specs.Prelude.{◌≡◌, ◌≢◌, ◌↔◌, ◌∷◌, ◌++◌, [], IsTrue, IfOk, IfSome, OnOk, length};
ghost use Rattle.std.specs.List.{IsDistinct};
ghost use Rattle.std.specs.Option.{option_to_list};
ghost use Rattle.load_memory.specs.Keys.{key_of, borrowed_of};
ghost use Rattle.plan_walk.specs.Noted.{positions_in, is_position, with_position};

use crate::positions::Onward;
use indexmap::{IndexSet, set};
use load_memory::places::{Places, mark_of};
use load_memory::{Key, KeyRef};
use std::alloc::{AllocError, Global};
use std::iter::Chain;
use std::marker::Model;
use std::{mem, option, slice};

/// The positions, by value.
pub type IntoIter = Chain<option::IntoIter<BlockedPosition>, set::IntoIter<BlockedPosition>>;

/// A position that waits for a load: how it goes on, and the load.
#[derive(PartialEq, Eq, Hash, Drop)]
pub struct BlockedPosition {
    pub onward: Onward,
    pub loader: usize,
    pub key: Key,
}

// Several positions, each of them once, and the places where most of them stand.
#[derive(Drop)]
struct PositionSet {
    positions: IndexSet<BlockedPosition>,
    places: Places,
}

#[derive(Drop)]
enum HeldPositions {
    Nothing,
    One(BlockedPosition),
    Several(Box<PositionSet>),
}

/// Positions that wait, in the order in which they were met: each of them once, however often it is met. The first takes no
/// memory but that of its key.
///
/// A position is the number of its group and its load, so positions of one group and load are one. It keeps no
/// text with gaps: the pieces and the joined text would stand side by side, which can be twice the answer.
pub struct Waiting {
    alloc: Global,
    held: HeldPositions,
}

impl Model for Waiting {
    ghost use Rattle.std.specs.Prelude.{List};
    ghost use Rattle.plan_walk.specs.declared.waiting.BlockedPosition.{BlockedPosition};
    ghost use Rattle.plan_walk.specs.Noted.{positions_in, IsHeld};

    ghost Value = { List BlockedPosition };

    ghost view = { λ w. positions_in w.held };

    ghost invariant = { λ w. IsHeld w.held };
}

impl Drop for Waiting {
    fn drop(self) {
        let Waiting {
            alloc: _,
            held: _held,
        } = self;
    }
}

// Tells whether two keys are exactly equal.
fn is_key(one: &Key, other: KeyRef<'_>) -> bool
    ensures { IsTrue result
        → key_of one.now ≡ borrowed_of other.entry }
{
    match (one, other) {
        (Key::All, KeyRef::All) => true,
        (Key::Text(one), KeyRef::Text(other)) => one.as_str() == other,
        (Key::Pair(pair), KeyRef::Pair(one, two)) => {
            pair.one.as_str() == one && pair.two.as_str() == two
        }
        _ => false,
    }
}

impl PositionSet {
    fn new(alloc: Global, first: BlockedPosition) -> Result<PositionSet, AllocError>
        ensures { IfOk result
            (λ table. table.positions.keys ≡ first ∷ []) }
    {
        let mut positions = IndexSet::new(alloc);
        positions.insert(first)?;
        Ok(PositionSet {
            positions,
            places: Places::new(alloc),
        })
    }

    // The position that stands where one that goes on so after the load of such a key is likely to stand.
    fn likely(&self, onward: Onward, key: KeyRef<'_>) -> Option<&BlockedPosition>
        ensures { IfSome result (λ there.
            with_position self.now.positions.keys there.now ≡ self.now.positions.keys) }
    {
        if self.places.is_empty() {
            return None;
        }
        let place = self.places.likely(mark_of(onward.group, key));
        self.positions.get_index(place)
    }

    // Keeps the place of a position, if places are kept.
    fn keep_place(&mut self, place: usize)
        ensures { self.new.positions ≡ self.old.positions }
    {
        if self.places.is_empty() {
            return;
        }
        if let Some(there) = self.positions.get_index(place) {
            let mark = mark_of(there.onward.group, there.key.as_key_ref());
            self.places.keep(mark, place);
        }
    }

    // Keeps the places of all positions.
    fn keep_places(&mut self) -> Result<(), AllocError>
        ensures { self.new.positions ≡ self.old.positions }
    {
        self.places.widen(self.positions.len())?;
        for (place, there) in self.positions.iter().enumerate() {
            let mark = mark_of(there.onward.group, there.key.as_key_ref());
            self.places.keep(mark, place);
        }
        Ok(())
    }

    // Adds a position, unless it is there. Once one was there and wasn't found by its place, places are kept.
    #[tactic(auto, using(crate::proofs::Noting::inserted))]
    fn add(&mut self, position: BlockedPosition) -> Result<(), AllocError>
        ensures added { OnOk result
            (self.new.positions.keys ≡ with_position self.old.positions.keys position) }
        ensures some { self.old.positions.keys ≢ []
            → self.new.positions.keys ≢ [] }
    {
        let (place, is_new) = self.positions.insert_full(position)?;
        if is_new || self.places.serves(self.positions.len()) {
            self.keep_place(place);
            return Ok(());
        }
        self.keep_places()
    }
}

// The positions by value: the first where it stands alone, and those of the table.
fn parts_of(
    alloc: Global,
    held: HeldPositions,
) -> (Option<BlockedPosition>, IndexSet<BlockedPosition>)
    ensures { option_to_list result.0 ++ result.1.keys
        ≡ positions_in held }
{
    match held {
        HeldPositions::Nothing => (None, IndexSet::new(alloc)),
        HeldPositions::One(position) => (Some(position), IndexSet::new(alloc)),
        HeldPositions::Several(table) => {
            let mut table = table;
            let positions = mem::replace(&mut table.positions, IndexSet::new(alloc));
            (None, positions)
        }
    }
}

impl Waiting {
    ghost use Rattle.plan_walk.specs.Noted.{IsNoted, with_position};

    /// No positions, which take no memory.
    pub fn new(alloc: Global) -> Waiting
        ensures { result ≡ [] }
    {
        Waiting {
            alloc,
            held: HeldPositions::Nothing,
        }
    }

    /// The positions in order.
    pub fn as_slice(&self) -> &[BlockedPosition]
        ensures all { result.now ≡ self.now }
        ensures apart { IsDistinct is_position self.now }
    {
        match &self.held {
            HeldPositions::Nothing => &[],
            HeldPositions::One(position) => slice::from_ref(position),
            HeldPositions::Several(table) => table.positions.as_slice(),
        }
    }

    pub fn len(&self) -> usize
        ensures { result ≡ length self.now }
    {
        self.as_slice().len()
    }

    pub fn is_empty(&self) -> bool
        ensures { IsTrue result ↔ (self.now ≡ []) }
    {
        matches!(&self.held, HeldPositions::Nothing)
    }

    // A position that may be one that goes on so after the load of such a key.
    fn likely(&self, onward: Onward, key: KeyRef<'_>) -> Option<&BlockedPosition>
        ensures { IfSome result (λ there.
            with_position self.now there.now ≡ self.now) }
    {
        match &self.held {
            HeldPositions::Nothing => None,
            HeldPositions::One(position) => Some(position),
            HeldPositions::Several(table) => table.likely(onward, key),
        }
    }

    // Tells whether it is seen at once that such a position was noted.
    fn is_seen(&self, onward: Onward, loader: usize, key: KeyRef<'_>) -> bool
        ensures { IsTrue result → IsNoted onward loader
            (borrowed_of key.entry) self.now self.now }
    {
        match self.likely(onward, key) {
            Some(there) => {
                there.onward == onward && there.loader == loader && is_key(&there.key, key)
            }
            None => false,
        }
    }

    // Adds a position, unless it is there.
    fn add(&mut self, position: BlockedPosition) -> Result<(), AllocError>
        ensures { OnOk result
            (self.new ≡ with_position self.old position) }
    {
        match &mut self.held {
            HeldPositions::Nothing => {
                self.held = HeldPositions::One(position);
                return Ok(());
            }
            HeldPositions::One(_) => {}
            HeldPositions::Several(table) => return table.add(position),
        }
        if let HeldPositions::One(first) = mem::replace(&mut self.held, HeldPositions::Nothing) {
            let mut table = PositionSet::new(self.alloc, first)?;
            table.add(position)?;
            self.held = HeldPositions::Several(Box::new(self.alloc, table)?);
        }
        Ok(())
    }

    /// Notes a position, unless it was noted before: how it goes on, and its load. After an error it is only dropped.
    pub fn note(&mut self, onward: Onward, loader: usize, key: KeyRef<'_>) -> Result<(), AllocError>
        ensures { OnOk result (IsNoted onward loader (borrowed_of key.entry) self.old self.new) }
    {
        if self.is_seen(onward, loader, key) {
            return Ok(());
        }
        let key = key.to_key(self.alloc)?;
        self.add(BlockedPosition {
            onward,
            loader,
            key,
        })
    }
}

impl IntoIterator for Waiting {
    ghost use Rattle.plan_walk.specs.Noted.{IsOver, left_of_own};

    type Item = BlockedPosition;

    type IntoIter = IntoIter;

    ghost into_iter_gives = { IsOver left_of_own };

    fn into_iter(self) -> IntoIter {
        let Waiting { alloc, held } = self;
        let (first, positions) = parts_of(alloc, held);
        first.into_iter().chain(positions)
    }
}
