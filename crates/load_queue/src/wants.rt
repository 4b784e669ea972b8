//! The keys that are wanted of each loader, in order, of equal cache keys only the first.
ghost use Rattle.std.specs.Prelude.{◌≡◌, ◌<◌, List, [], IfOk, OnOk, OnErr, length, map, not, false};
ghost use Rattle.load_memory.specs.Keys.{KeyOf, key_of};
ghost use Rattle.load_queue.specs.Wanted.{nothing_wanted, wanted_in, HaveSeen, is_wanted, with_key, mode_wanted, keys_wanted, is_key_wanted, with_wanted, taken_from};

use indexmap::IndexSet;
use load_memory::{CacheKey, Key, KeyMode, Memory, cache_key};
use std::alloc::{AllocError, Global};
use std::marker::Model;
use std::mem;

/// Holds the cache keys of the first keys that are wanted of a loader, and how many keys these are.
#[derive(Drop)]
struct SeenKeys {
    cache_keys: IndexSet<CacheKey>,
    count: usize,
}

/// Holds what is wanted of one loader.
#[derive(Drop)]
struct WantedKeys {
    mode: KeyMode,
    keys: Vec<Key>,
    // Keys that were known to be new aren't seen before it has to be told whether another one is.
    seen: SeenKeys,
}

impl Model for WantedKeys {
    ghost use Rattle.std.specs.Prelude.{map};
    ghost use Rattle.load_memory.specs.Keys.{key_of};
    ghost use Rattle.load_queue.specs.Wanted.{WantedOf, HaveSeen};

    ghost Value = { WantedOf };

    ghost view = { λ w. record { mode = w.mode; keys = map key_of w.keys.items } };

    ghost invariant = { λ w. HaveSeen w.mode w.seen (map key_of w.keys.items) };
}

// Sees the keys that weren't seen.
fn see_rest(
    alloc: Global,
    mode: KeyMode,
    keys: &[Key],
    seen: &mut SeenKeys,
) -> Result<(), AllocError>
    requires { HaveSeen mode seen.old (map key_of keys.now) }
    ensures all { OnOk result (seen.new.count ≡ length keys.now) }
    ensures seen { HaveSeen mode seen.new (map key_of keys.now) }
{
    for number in seen.count..keys.len() {
        let cached = cache_key(alloc, &keys[number], mode)?;
        seen.cache_keys.insert(cached)?;
        seen.count = number + 1;
    }
    Ok(())
}

// Forgets all that was seen. Where nothing was, nothing is done.
fn forget_seen(alloc: Global, seen: &mut SeenKeys)
    ensures { (was mode : KeyMode) (keys : List KeyOf)
        → HaveSeen was seen.old keys → HaveSeen mode seen.new [] }
{
    if seen.count > 0 {
        *seen = SeenKeys::new(alloc);
    }
}

impl SeenKeys {
    fn new(alloc: Global) -> SeenKeys
        ensures { (mode : KeyMode) (keys : List KeyOf) → HaveSeen mode result keys }
    {
        SeenKeys {
            cache_keys: IndexSet::new(alloc),
            count: 0,
        }
    }
}

impl WantedKeys {
    fn new(alloc: Global, mode: KeyMode) -> WantedKeys
        ensures { result ≡ nothing_wanted mode }
    {
        WantedKeys {
            mode,
            keys: Vec::new(alloc),
            seen: SeenKeys::new(alloc),
        }
    }

    fn mode(&self) -> KeyMode
        ensures { result ≡ self.now.mode }
    {
        self.mode
    }

    fn keys(&self) -> &[Key]
        ensures { map key_of result.now ≡ self.now.keys }
    {
        self.keys.as_slice()
    }

    // The keys, of which then none is wanted.
    fn take_keys(&mut self) -> Vec<Key>
        ensures keys { map key_of result.items
            ≡ self.old.keys }
        ensures after { self.new
            ≡ nothing_wanted self.old.mode }
    {
        let alloc = *self.keys.allocator();
        forget_seen(alloc, &mut self.seen);
        mem::replace(&mut self.keys, Vec::new(alloc))
    }

    // Nothing is wanted of the loader, which compares its keys so. The list keeps its room.
    fn begin(&mut self, mode: KeyMode)
        ensures { self.new ≡ nothing_wanted mode }
    {
        let alloc = *self.keys.allocator();
        forget_seen(alloc, &mut self.seen);
        self.keys.clear();
        self.mode = mode;
    }

    fn add(&mut self, key: Key) -> Result<bool, AllocError>
        ensures added { IfOk result (λ added.
            added ≡ not (is_wanted self.old (key_of key))) }
        ensures after { OnOk result
            (self.new ≡ with_key self.old (key_of key)) }
        ensures kept { OnErr result (self.new ≡ self.old) }
    {
        if self.keys.is_empty() {
            self.keys.push(key)?;
            return Ok(true);
        }
        let alloc = *self.keys.allocator();
        see_rest(alloc, self.mode, &self.keys, &mut self.seen)?;
        let cached = cache_key(alloc, &key, self.mode)?;
        self.keys.reserve(1)?;
        let added = self.seen.cache_keys.insert(cached)?;
        if !added {
            return Ok(false);
        }
        self.keys.push(key)?;
        self.seen.count = self.keys.len();
        Ok(true)
    }

    // Adds a key of which no equal cache key is wanted.
    fn add_new(&mut self, key: Key) -> Result<(), AllocError>
        requires { is_wanted self.old (key_of key)
            ≡ false }
        ensures after { OnOk result
            (self.new ≡ with_key self.old (key_of key)) }
        ensures kept { OnErr result (self.new ≡ self.old) }
    {
        self.keys.push(key)?;
        Ok(())
    }
}

/// The keys that are wanted of each loader. A contract sees for each loader its mode and its keys.
///
/// The keys stand in a list, since callers read them as a slice, and the cache keys of the first ones in a set
/// beside it. Room is made before a key is looked up, so to add a key that is there may be out of memory too. Only the
/// loaders up to the last one that something asks have a list.
pub struct Wants {
    // the loaders' modes
    modes: Vec<KeyMode>,
    // of the first loaders; nothing is wanted of the others
    lists: Vec<WantedKeys>,
}

impl Model for Wants {
    ghost use Rattle.std.specs.Prelude.{List};
    ghost use Rattle.load_queue.specs.Wanted.{WantedOf, wanted_in};

    ghost Value = { List WantedOf };

    ghost view = { λ w. wanted_in w.lists.items w.modes.items };
}

impl Drop for Wants {
    fn drop(self) {
        let Wants {
            modes: _modes,
            lists: _lists,
        } = self;
    }
}

// Makes lists for the loaders up to this one. In them nothing is wanted.
fn reach(modes: &[KeyMode], lists: &mut Vec<WantedKeys>, loader: usize) -> Result<(), AllocError>
    requires { loader < length modes.now }
    ensures same { wanted_in lists.new.items modes.now
        ≡ wanted_in lists.old.items modes.now }
    ensures there { OnOk result (loader < length lists.new.items) }
{
    let alloc = *lists.allocator();
    for number in lists.len()..loader + 1 {
        lists.push(WantedKeys::new(alloc, modes[number]))?;
    }
    Ok(())
}

impl Wants {
    /// No loaders. It takes no memory.
    pub fn none(alloc: Global) -> Wants
        ensures { result ≡ [] }
    {
        Wants {
            modes: Vec::new(alloc),
            lists: Vec::new(alloc),
        }
    }

    /// No wanted keys yet, for the memory's loaders, whose modes say when two keys are the same.
    pub fn new(alloc: Global, memory: &Memory) -> Result<Wants, AllocError>
        ensures { IfOk result
            (λ w. w ≡ map nothing_wanted memory.now.modes) }
    {
        Ok(Wants {
            modes: memory.modes().to_vec(alloc)?,
            lists: Vec::new(alloc),
        })
    }

    /// Forgets what was wanted, and is as [new](Wants::new) for the memory's loaders. What room it has is used again.
    ///
    /// # Errors
    ///
    /// Only when out of memory.
    pub fn begin(&mut self, memory: &Memory) -> Result<(), AllocError>
        ensures { OnOk result
            (self.new ≡ map nothing_wanted memory.now.modes) }
    {
        let modes = memory.modes();
        self.lists.truncate(modes.len());
        for loader in 0..self.lists.len() {
            self.lists[loader].begin(modes[loader]);
        }
        self.modes.clear();
        self.modes.extend_from_slice(modes)
    }

    /// Returns how a loader compares its keys.
    pub fn mode(&self, loader: usize) -> KeyMode
        requires { loader < length self.now }
        ensures { result ≡ mode_wanted self.now loader }
    {
        if loader < self.lists.len() {
            return self.lists[loader].mode();
        }
        self.modes[loader]
    }

    /// The keys that are wanted of a loader, in the order in which they were added.
    pub fn keys(&self, loader: usize) -> &[Key]
        requires { loader < length self.now }
        ensures { map key_of result.now
            ≡ keys_wanted self.now loader }
    {
        if loader < self.lists.len() {
            return self.lists[loader].keys();
        }
        &[]
    }

    /// Takes the wanted keys of a loader out, in the order in which they were added.
    pub fn take_keys(&mut self, loader: usize) -> Vec<Key>
        requires { loader < length self.old }
        ensures keys { map key_of result.items
            ≡ keys_wanted self.old loader }
        ensures after { self.new
            ≡ taken_from self.old loader }
    {
        if loader < self.lists.len() {
            return self.lists[loader].take_keys();
        }
        Vec::new(*self.lists.allocator())
    }

    /// Adds a key to those that are wanted of a loader. Returns true if no equal cache key was there. If one
    /// was, the first key stays and nothing changes.
    ///
    /// # Errors
    ///
    /// When out of memory, the wants are equal to what they were (`kept`).
    pub fn add(&mut self, loader: usize, key: Key) -> Result<bool, AllocError>
        requires { loader < length self.old }
        ensures added { IfOk result (λ added.
            added ≡ not (is_key_wanted self.old loader (key_of key))) }
        ensures after { OnOk result (self.new
            ≡ with_wanted self.old loader (key_of key)) }
        ensures loaders { length self.new
            ≡ length self.old }
        ensures kept { OnErr result (self.new ≡ self.old) }
    {
        reach(&self.modes, &mut self.lists, loader)?;
        self.lists[loader].add(key)
    }

    /// Adds a key as [add](Wants::add) does, where no equal cache key is wanted of the loader. It isn't hashed before another
    /// one is added by `add`.
    ///
    /// # Errors
    ///
    /// When out of memory, the wants are equal to what they were (`kept`).
    pub fn add_new(&mut self, loader: usize, key: Key) -> Result<(), AllocError>
        requires inside { loader < length self.old }
        requires new { is_key_wanted self.old loader
            (key_of key) ≡ false }
        ensures after { OnOk result (self.new
            ≡ with_wanted self.old loader (key_of key)) }
        ensures loaders { length self.new
            ≡ length self.old }
        ensures kept { OnErr result (self.new ≡ self.old) }
    {
        reach(&self.modes, &mut self.lists, loader)?;
        self.lists[loader].add_new(key)
    }
}
