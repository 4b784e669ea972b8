//! One loader's part of the memory, and the pairs that are to be stored in it.
ghost use Rattle.std.specs.Prelude.{◌≡◌, ◌<◌, ◌≤◌, ◌+◌, length, ℕ, None, IfOk, OnOk, OnErr, IsOk, IfSome, Some, is_some, is_none, option_map, if◌then◌else◌};
ghost use Rattle.std.specs.HashMap.{IsUnchanged, spare};
ghost use Rattle.load_memory.specs.Keys.{KeyOf, borrowed_of, cache_of, folded, same_key};
ghost use Rattle.load_memory.specs.Outcomes.{outcome_of};
ghost use Rattle.load_memory.specs.Pairs.{unless_failed};
ghost use Rattle.load_memory.specs.LoaderMemories.{look_in, HasOwnKeys, Puts, PutsIfAbsent};

use crate::key::{CacheKey, KeyMode, KeyRef};
use crate::outcome::Outcome;
use indexmap::IndexMap;
use indexmap::map::Entry;
use std::alloc::AllocError;

/// One loader's part of the memory. Its keys have places, which stay until one is taken out.
pub(crate) type LoaderMemory = IndexMap<CacheKey, Outcome>;

/// A pair that is to be stored.
#[derive(Drop)]
pub(crate) struct StagedPair {
    pub(crate) loader: usize,
    pub(crate) key: CacheKey,
    pub(crate) outcome: Outcome,
}

/// Puts a pair whose key is absent.
pub(crate) fn put_absent(
    part: &mut LoaderMemory,
    key: CacheKey,
    outcome: Outcome,
) -> Result<(), AllocError>
    requires { look_in part.old.entries (cache_of key)
        ≡ None }
    ensures put { OnOk result
        (Puts (cache_of key) (outcome_of outcome) part.old part.new) }
    ensures own_keys { OnOk result (HasOwnKeys part.new) }
    ensures kept { OnErr result
        (IsUnchanged part.old part.new) }
    ensures succeeds { 0 < spare part.old → IsOk result }
    ensures room { spare part.old ≤ spare part.new + 1 }
{
    part.insert(key, outcome)?;
    Ok(())
}

/// Puts a pair where its key is absent and the part has room to spare. Gives true where it was absent.
pub(crate) fn put(part: &mut LoaderMemory, key: CacheKey, outcome: Outcome) -> bool
    requires room { 0 < spare part.old }
    requires own_keys { HasOwnKeys part.old }
    ensures found { result ≡ is_none
        (look_in part.old.entries (cache_of key)) }
    ensures put { PutsIfAbsent (cache_of key)
        (outcome_of outcome) result part.old part.new }
    ensures own_keys { HasOwnKeys part.new }
    ensures room { spare part.old ≤ spare part.new + 1 }
{
    let Ok(entry) = part.entry(key) else {
        unreachable!();
    };
    match entry {
        Entry::Occupied(_) => false,
        Entry::Vacant(entry) => {
            entry.insert(outcome);
            true
        }
    }
}

/// The outcome at a place, if the key there is seen to be this one. It takes no hash.
pub(crate) fn at_place<'m>(
    part: &'m LoaderMemory,
    place: usize,
    mode: KeyMode,
    key: KeyRef<'_>,
) -> Option<&'m Outcome>
    ensures { IfSome result (λ o.
        look_in part.now.entries (folded mode (borrowed_of key.entry)) ≡ Some (outcome_of o.now)) }
{
    let Some((known, outcome)) = part.get_index(place) else {
        return None;
    };
    if known.is_of(key, mode) {
        Some(outcome)
    } else {
        None
    }
}

/// The outcome of a key, and the place of that key.
pub(crate) fn find<'m>(part: &'m LoaderMemory, key: &CacheKey) -> Option<(usize, &'m Outcome)>
    ensures { option_map (λ f. outcome_of f.1.now) result
        ≡ look_in part.now.entries (cache_of key.now) }
{
    match part.get_full(key) {
        Some((place, _, outcome)) => Some((place, outcome)),
        None => None,
    }
}

/// Takes a pair out, where its key is there.
pub(crate) fn take_out(part: &mut LoaderMemory, key: &CacheKey) -> bool
    ensures found { result ≡ is_some
        (look_in part.old.entries (cache_of key.now)) }
    ensures pairs { (q : KeyOf) → look_in part.new.entries q
        ≡ (if same_key (cache_of key.now) q then None else look_in part.old.entries q) }
    ensures count { length part.new.entries + (if result then 1 else 0) ≡ length part.old.entries }
    ensures own_keys { HasOwnKeys part.new }
{
    part.swap_remove(key).is_some()
}

/// Takes out the pairs whose batch failed as a whole, and gives their number.
pub(crate) fn drop_failed_of(part: &mut LoaderMemory) -> usize
    ensures pairs { (q : KeyOf)
        → look_in part.new.entries q ≡ unless_failed (look_in part.old.entries q) }
    ensures count { length part.new.entries + result
        ≡ length part.old.entries }
    ensures own_keys { HasOwnKeys part.new }
{
    let before = part.len();
    part.retain(|_, outcome| !outcome.has_failed());
    before - part.len()
}
