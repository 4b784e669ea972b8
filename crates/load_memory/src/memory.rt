//! The memory: a finite map from a loader's number and a cache key to an outcome.
ghost use Rattle.std.specs.Prelude.{IsTrue, ◌↔◌, ◌≡◌, ◌==◌, ◌<◌, [], ◌∷◌, All, map, length, Some, IfOk, OnOk, OnErr, is_some, is_none, option_map, option_copied, slice_get};
ghost use Rattle.load_memory.specs.Keys.{borrowed_of, cache_of, folded, mode_at};
ghost use Rattle.load_memory.specs.Outcomes.{known, outcome_of, item_of};
ghost use Rattle.load_memory.specs.Pairs.{pair_of, look, primed, IsSameMap, AreApart, IsWithout, is_key, IsUnfailed, IsUnfailedAt, IsWith};
ghost use Rattle.load_memory.specs.LoaderMemories.{staged_of};
ghost use Rattle.load_memory.specs.Replies.{reply_of, pairs_of};
ghost use Rattle.load_memory.specs.Shelves.{IsOn, shown};

use crate::key::{CacheKey, KeyMode, KeyRef};
use crate::loader_memory::{LoaderMemory, StagedPair, drop_failed_of, find, put_absent, take_out};
use crate::outcome::{Item, Outcome};
use crate::probe::Probe;
use crate::reply::Reply;
use crate::shelf::{Receipt, Shelf};
use crate::store::{
    clear_loaders, counts_of, has_failed, make_room, only_pair, put_all, put_one, stage,
    stage_owned,
};
use indexmap::IndexMap;
use std::alloc::{AllocError, Global};
use std::marker::Model;

/// Holds what is known of the keys of each loader. A contract sees the loaders' modes and the pairs.
///
/// Look-ups go by a hash whose seed is fixed.
///
/// Keys that were made to collide can slow look-ups. Nothing defends against that, since keys come from the
/// operator's tables and bindings, or from a request of bounded length.
pub struct Memory {
    modes: Vec<KeyMode>,
    parts: Vec<LoaderMemory>,
    count: usize,
    // tells whether some pair may be that of a batch that failed as a whole
    failed: bool,
}

impl Model for Memory {
    ghost use Rattle.load_memory.specs.Pairs.{MemoryOf};
    ghost use Rattle.load_memory.specs.LoaderMemories.{pairs_from, AreParts};

    ghost Value = { MemoryOf };

    ghost view = { λ m. record { modes = m.modes.items; pairs = pairs_from 0 m.parts.items } };

    ghost invariant = { λ m. AreParts m.modes.items m.parts.items m.count m.failed };
}

impl Drop for Memory {
    fn drop(self) {
        let Memory {
            modes: _modes,
            parts: _parts,
            count: _,
            failed: _,
        } = self;
    }
}

impl Memory {
    /// An empty memory. Its loaders are numbered from 0 in the order of their modes.
    pub fn new(alloc: Global, modes: Vec<KeyMode>) -> Result<Memory, AllocError>
        ensures { IfOk result (λ m. m
            ≡ record { modes = modes.items; pairs = [] }) }
    {
        let mut parts = Vec::with_capacity(alloc, modes.len())?;
        for _ in 0..modes.len() {
            parts.push(IndexMap::new(alloc))?;
        }
        Ok(Memory {
            modes,
            parts,
            count: 0,
            failed: false,
        })
    }

    /// Returns how each loader compares its keys, in order of number.
    pub fn modes(&self) -> &[KeyMode]
        ensures { result.now ≡ self.now.modes }
    {
        self.modes.as_slice()
    }

    /// Returns how a loader compares its keys.
    pub fn mode(&self, loader: usize) -> KeyMode
        requires { loader < length self.now.modes }
        ensures { slice_get self.now.modes loader
            ≡ Some result }
    {
        self.modes[loader]
    }

    /// Returns what is known of a loader's key.
    pub fn get(&self, loader: usize, key: &CacheKey) -> Option<&Outcome>
        requires { loader < length self.now.modes }
        ensures { option_map outcome_of (option_copied result)
            ≡ look self.now.pairs loader (cache_of key.now) }
    {
        self.parts[loader].get(key)
    }

    /// Returns what is known of a loader's key, as [`get`](Memory::get) tells it of the key's cache key. A key that stands where the
    /// probe looks first is found without its hash.
    ///
    /// # Errors
    ///
    /// When out of memory, the memory is as it was, and the probe may be used again.
    pub fn look_up(
        &self,
        alloc: Global,
        probe: &mut Probe,
        loader: usize,
        key: KeyRef<'_>,
    ) -> Result<Option<&Outcome>, AllocError>
        requires { loader < length self.now.modes }
        ensures { IfOk result (λ it. option_map outcome_of (option_copied it) ≡ look self.now.pairs
            loader (folded (mode_at self.now.modes loader) (borrowed_of key.entry))) }
    {
        let mode = self.mode(loader);
        let part = &self.parts[loader];
        if part.is_empty() {
            return Ok(None);
        }
        if let Some(outcome) = probe.find(loader, part, mode, key) {
            return Ok(Some(outcome));
        }
        probe.key.set(alloc, key, mode)?;
        match find(part, &probe.key) {
            Some((place, outcome)) => {
                probe.note_hashed(alloc, loader, part, mode, place)?;
                Ok(Some(outcome))
            }
            None => Ok(None),
        }
    }

    /// The number of keys that are known, of all loaders together.
    pub fn len(&self) -> usize
        ensures pairs { result ≡ length self.now.pairs }
        ensures apart { AreApart self.now.pairs }
    {
        self.count
    }

    /// Tells whether nothing is known of any key.
    pub fn is_empty(&self) -> bool
        ensures { IsTrue result ↔ (self.now.pairs ≡ []) }
    {
        self.len() == 0
    }

    /// Adds an item for a loader's key. Returns true if the key was absent. If it was there, its outcome stays
    /// and nothing changes.
    ///
    /// At 2^64 - 1 pairs it is out of memory, since one more couldn't be counted.
    ///
    /// # Errors
    ///
    /// When out of memory, the memory is equal to what it was (`kept`).
    pub fn prime(&mut self, loader: usize, key: CacheKey, item: Item) -> Result<bool, AllocError>
        requires { loader < length self.old.modes }
        ensures found { IfOk result (λ added.
            added ≡ is_none (look self.old.pairs loader (cache_of key))) }
        ensures pairs { OnOk result (IsSameMap self.new.pairs
            (primed self.old.pairs (pair_of loader (cache_of key) (known (item_of item))))) }
        ensures modes { self.new.modes ≡ self.old.modes }
        ensures kept { OnErr result (self.new ≡ self.old) }
    {
        if self.parts[loader].contains_key(&key) {
            return Ok(false);
        }
        let count = self.count.checked_add(1).ok_or(AllocError)?;
        put_absent(&mut self.parts[loader], key, Outcome::from(item))?;
        self.count = count;
        Ok(true)
    }

    /// Forgets a loader's key. Returns true if it was known.
    pub fn clear(&mut self, loader: usize, key: &CacheKey) -> bool
        requires { loader < length self.old.modes }
        ensures found { result ≡ is_some (look self.old.pairs loader (cache_of key.now)) }
        ensures pairs { IsWithout (is_key loader (cache_of key.now)) self.old.pairs self.new.pairs }
        ensures modes { self.new.modes ≡ self.old.modes }
    {
        let removed = take_out(&mut self.parts[loader], key);
        if removed {
            self.count -= 1;
        }
        removed
    }

    /// Forgets what is known of the keys of one loader.
    pub fn clear_all(&mut self, loader: usize)
        requires { loader < length self.old.modes }
        ensures pairs { IsWithout (λ l _.
            loader == l) self.old.pairs self.new.pairs }
        ensures modes { self.new.modes ≡ self.old.modes }
    {
        self.count -= self.parts[loader].len();
        self.parts[loader].clear();
    }

    /// Forgets all keys of all loaders. It takes no memory, and the tables keep their room for what comes.
    pub fn forget_all(&mut self)
        ensures { self.new ≡ record { modes = self.old.modes; pairs = [] } }
    {
        clear_loaders(&mut self.parts);
        self.count = 0;
        self.failed = false;
    }

    /// Forgets the keys whose batch failed as a whole. If no batch failed since the last call, it looks at no
    /// pair.
    pub fn drop_failed(&mut self)
        ensures pairs { IsUnfailed
            self.old.pairs self.new.pairs }
        ensures modes { self.new.modes ≡ self.old.modes }
    {
        if !self.failed {
            return;
        }
        for loader in 0..self.parts.len() {
            self.drop_failed_at(loader);
        }
        self.failed = false;
    }

    fn drop_failed_at(&mut self, loader: usize)
        requires { loader < length self.old.modes }
        ensures pairs { IsUnfailedAt loader
            self.old.pairs self.new.pairs }
        ensures modes { self.new.modes ≡ self.old.modes }
    {
        self.count -= drop_failed_of(&mut self.parts[loader]);
    }

    /// Adds those pairs of replies whose keys are absent, one reply after another; of equal keys the first
    /// counts.
    ///
    /// # Errors
    ///
    /// When out of memory, every key is known or not as before, with the same outcome (`kept`, `modes`).
    pub fn keep(&mut self, replies: &[Reply]) -> Result<(), AllocError>
        requires { All (λ (r : Reply).
            r.loader < length self.old.modes) replies.now }
        ensures pairs { OnOk result (IsWith self.old.pairs
            (pairs_of self.old.modes (map reply_of replies.now)) self.new.pairs) }
        ensures modes { self.new.modes ≡ self.old.modes }
        ensures kept { OnErr result
            (IsSameMap self.new.pairs self.old.pairs) }
    {
        let mut pairs = Vec::new(*self.modes.allocator());
        for reply in replies {
            stage(&mut pairs, self.mode(reply.loader), reply)?;
        }
        self.store(pairs)
    }

    /// As [`keep`](Memory::keep), but takes the replies by value. It copies no outcome. The replies are gone even when out of memory.
    ///
    /// # Errors
    ///
    /// Those of [`keep`](Memory::keep). The replies are gone even then.
    pub fn keep_owned(&mut self, replies: Vec<Reply>) -> Result<(), AllocError>
        requires { All (λ (r : Reply). r.loader
            < length self.old.modes) replies.items }
        ensures pairs { OnOk result (IsWith self.old.pairs
            (pairs_of self.old.modes (map reply_of replies.items)) self.new.pairs) }
        ensures modes { self.new.modes ≡ self.old.modes }
        ensures kept { OnErr result
            (IsSameMap self.new.pairs self.old.pairs) }
    {
        let mut pairs = Vec::new(*self.modes.allocator());
        for owned in replies {
            stage_owned(&mut pairs, self.mode(owned.loader), owned)?;
        }
        self.store(pairs)
    }

    /// As [`keep_owned`](Memory::keep_owned) of one reply. A reply of one key takes no memory beside its pair's.
    ///
    /// # Errors
    ///
    /// Those of [`keep`](Memory::keep). The reply is gone even then.
    pub fn keep_reply(&mut self, reply: Reply) -> Result<(), AllocError>
        requires { reply.loader < length self.old.modes }
        ensures pairs { OnOk result (IsWith self.old.pairs
            (pairs_of self.old.modes (reply_of reply ∷ [])) self.new.pairs) }
        ensures modes { self.new.modes ≡ self.old.modes }
        ensures kept { OnErr result
            (IsSameMap self.new.pairs self.old.pairs) }
    {
        let alloc = *self.modes.allocator();
        let mode = self.mode(reply.loader);
        if reply.keys.len() == 1 && reply.outcomes.len() == 1 {
            let pair = only_pair(alloc, mode, reply)?;
            return self.store_one(pair);
        }
        let mut pairs = Vec::new(alloc);
        stage_owned(&mut pairs, mode, reply)?;
        self.store(pairs)
    }

    /// Adds the pairs of the replies that receipts of this shelf show, as [`keep`](Memory::keep) does.
    ///
    /// # Errors
    ///
    /// Those of [`keep`](Memory::keep).
    pub fn index(&mut self, shelf: &Shelf, receipts: &[Receipt]) -> Result<(), AllocError>
        requires shelf { All (IsOn shelf.now) receipts.now }
        requires loaders { All (λ r. (shown r).loader
            < length self.old.modes) receipts.now }
        ensures pairs { OnOk result (IsWith self.old.pairs
            (pairs_of self.old.modes (map shown receipts.now)) self.new.pairs) }
        ensures modes { self.new.modes ≡ self.old.modes }
        ensures kept { OnErr result
            (IsSameMap self.new.pairs self.old.pairs) }
    {
        let mut pairs = Vec::new(*self.modes.allocator());
        for receipt in receipts {
            let reply = shelf.at(receipt);
            stage(&mut pairs, self.mode(reply.loader), reply)?;
        }
        self.store(pairs)
    }

    fn store_one(&mut self, pair: StagedPair) -> Result<(), AllocError>
        requires { pair.loader < length self.old.modes }
        ensures pairs { OnOk result
            (IsWith self.old.pairs (staged_of pair ∷ []) self.new.pairs) }
        ensures modes { self.new.modes ≡ self.old.modes }
        ensures kept { OnErr result
            (IsSameMap self.new.pairs self.old.pairs) }
    {
        if self.count.checked_add(1).is_none() {
            return Err(AllocError);
        }
        let failed = pair.outcome.has_failed();
        let added = put_one(&mut self.parts, pair)?;
        self.failed |= failed;
        self.count += added;
        Ok(())
    }

    fn store(&mut self, pairs: Vec<StagedPair>) -> Result<(), AllocError>
        requires { All (λ (s : StagedPair).
            s.loader < length self.old.modes) pairs.items }
        ensures pairs { OnOk result
            (IsWith self.old.pairs (map staged_of pairs.items) self.new.pairs) }
        ensures modes { self.new.modes ≡ self.old.modes }
        ensures kept { OnErr result
            (IsSameMap self.new.pairs self.old.pairs) }
    {
        if self.count.checked_add(pairs.len()).is_none() {
            return Err(AllocError);
        }
        let counts = counts_of(*pairs.allocator(), &pairs, self.parts.len())?;
        make_room(&mut self.parts, &counts)?;
        self.failed |= has_failed(&pairs);
        self.count += put_all(&mut self.parts, pairs);
        Ok(())
    }
}
