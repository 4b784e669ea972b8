//! Storing many pairs, all or none.
//!
//! The pairs of a round are gathered and room is made in each loader's part, so that storing can't fail. When
//! memory ran out, pairs may lie in another order, and the map is as it was.
ghost use Rattle.std.specs.Prelude.{◌≡◌, ◌<◌, ◌≤◌, ◌+◌, false, ℕ, [], ◌∷◌, All, map, length, IfOk, OnOk, OnErr, slice_index};
ghost use Rattle.load_memory.specs.Keys.{key_of};
ghost use Rattle.load_memory.specs.Outcomes.{outcome_of};
ghost use Rattle.load_memory.specs.Pairs.{IsSameMap, IsWith};
ghost use Rattle.load_memory.specs.Replies.{reply_pairs};
ghost use Rattle.load_memory.specs.LoaderMemories.{HaveOwnKeys, HaveRoom, HoldSame, StorePairs, room_at, count_at, pairs_from, staged_of, AreUnfailed, AddsReply};

use crate::key::{KeyMode, cache_key};
use crate::loader_memory::{LoaderMemory, StagedPair, put};
use crate::reply::Reply;
use std::alloc::{AllocError, Global};

/// Number of pairs that are stored before their list gives back memory.
const GIVEN_BACK: usize = 4096;

/// Adds the pairs of a reply, place by place, to those that are to be stored.
pub(crate) fn stage(
    pairs: &mut Vec<StagedPair>,
    mode: KeyMode,
    reply: &Reply,
) -> Result<(), AllocError>
    ensures { OnOk result (AddsReply mode reply.now pairs.old.items pairs.new.items) }
{
    let alloc = *pairs.allocator();
    let mut outcomes = reply.outcomes.iter();
    let asked = reply.keys.as_slice();
    for key in asked {
        let Some(outcome) = outcomes.next() else {
            return Ok(());
        };
        pairs.push(StagedPair {
            loader: reply.loader,
            key: cache_key(alloc, key, mode)?,
            outcome: outcome.clone()?,
        })?;
    }
    Ok(())
}

/// Adds the pairs of a reply that is handed over, as [`stage`] does. It copies no outcome.
pub(crate) fn stage_owned(
    pairs: &mut Vec<StagedPair>,
    mode: KeyMode,
    reply: Reply,
) -> Result<(), AllocError>
    ensures { OnOk result (AddsReply mode reply pairs.old.items pairs.new.items) }
{
    let Reply {
        loader,
        keys,
        outcomes,
    } = reply;
    let alloc = *pairs.allocator();
    let mut outcomes = outcomes.into_iter();
    let asked = keys.as_slice();
    pairs.reserve(asked.len())?;
    for key in asked {
        let Some(outcome) = outcomes.next() else {
            return Ok(());
        };
        pairs.push(StagedPair {
            loader,
            key: cache_key(alloc, key, mode)?,
            outcome,
        })?;
    }
    Ok(())
}

/// The pair of a reply of one key, which is handed over. It copies no outcome.
pub(crate) fn only_pair(
    alloc: Global,
    mode: KeyMode,
    reply: Reply,
) -> Result<StagedPair, AllocError>
    requires key { length reply.keys ≡ 1 }
    requires outcome { length reply.outcomes.items ≡ 1 }
    ensures { IfOk result (λ pair. staged_of pair ∷ [] ≡ reply_pairs mode reply.loader
        (map key_of reply.keys) (map outcome_of reply.outcomes.items)) }
{
    let Reply {
        loader,
        keys,
        outcomes,
    } = reply;
    let mut outcomes = outcomes;
    let Some(outcome) = outcomes.pop() else {
        unreachable!();
    };
    let key = cache_key(alloc, &keys.as_slice()[0], mode)?;
    Ok(StagedPair {
        loader,
        key,
        outcome,
    })
}

/// Tells whether some of the pairs are of a batch that failed as a whole.
pub(crate) fn has_failed(pairs: &[StagedPair]) -> bool
    ensures { result ≡ false
        → AreUnfailed (map staged_of pairs.now) }
{
    for pair in pairs {
        if pair.outcome.has_failed() {
            return true;
        }
    }
    false
}

/// The number of the pairs of each of the loaders below `loaders`.
pub(crate) fn counts_of(
    alloc: Global,
    pairs: &[StagedPair],
    loaders: usize,
) -> Result<Vec<usize>, AllocError>
    requires { All (λ (s : StagedPair).
        s.loader < loaders) pairs.now }
    ensures lined_up { IfOk result
        (λ v. length v.items ≡ loaders) }
    ensures counts { IfOk result (λ v. (loader : ℕ) → loader < loaders
        → slice_index v.items loader ≡ count_at loader pairs.now) }
{
    let mut counts = vec![in alloc; 0usize; loaders]?;
    for pair in pairs {
        counts[pair.loader] += 1;
    }
    Ok(counts)
}

/// Makes room for this many more pairs in each part. The parts keep the same pairs, even when out of
/// memory.
pub(crate) fn make_room(parts: &mut Vec<LoaderMemory>, counts: &[usize]) -> Result<(), AllocError>
    requires lined_up { length counts.now
        ≡ length parts.old.items }
    requires own_keys { HaveOwnKeys parts.old.items }
    ensures lined_up { length parts.new.items
        ≡ length parts.old.items }
    ensures own_keys { HaveOwnKeys parts.new.items }
    ensures same { HoldSame parts.old.items parts.new.items }
    ensures room { OnOk result ((loader : ℕ) → loader < length parts.old.items
        → slice_index counts.now loader ≤ room_at parts.new.items loader) }
{
    for loader in 0..parts.len() {
        parts[loader].reserve(counts[loader])?;
    }
    Ok(())
}

/// Takes the pairs out of each part.
pub(crate) fn clear_loaders(parts: &mut Vec<LoaderMemory>)
    ensures lined_up { length parts.new.items
        ≡ length parts.old.items }
    ensures own_keys { HaveOwnKeys parts.new.items }
    ensures pairs { pairs_from 0 parts.new.items ≡ [] }
{
    for index in 0..parts.len() {
        parts[index].clear();
    }
}

// Gives back the memory that pairs had which were taken, once there are many of them.
fn give_back(rest: &mut Vec<StagedPair>)
    ensures { rest.new.items ≡ rest.old.items }
{
    if rest.len() % GIVEN_BACK == 0 {
        rest.shrink_to_fit();
    }
}

/// Stores the pairs whose keys are absent, of equal keys the first, where there is room for all. Gives
/// how many it stored. The list gets shorter as the parts fill, so that large ones don't stand side by side.
pub(crate) fn put_all(parts: &mut Vec<LoaderMemory>, pairs: Vec<StagedPair>) -> usize
    requires room { HaveRoom parts.old.items pairs.items }
    requires loaders { All (λ (s : StagedPair).
        s.loader < length parts.old.items) pairs.items }
    requires own_keys { HaveOwnKeys parts.old.items }
    ensures lined_up { length parts.new.items
        ≡ length parts.old.items }
    ensures own_keys { HaveOwnKeys parts.new.items }
    ensures stored { StorePairs pairs.items result
        parts.old.items parts.new.items }
{
    let mut added = 0;
    let mut rest = pairs;
    rest.reverse();
    while let Some(pair) = rest.pop() {
        give_back(&mut rest);
        let StagedPair {
            loader,
            key,
            outcome,
        } = pair;
        if put(&mut parts[loader], key, outcome) {
            added += 1;
        }
    }
    added
}

/// Stores a pair if its key is absent, and gives how many it stored. When out of memory, the parts keep
/// the same pairs.
pub(crate) fn put_one(parts: &mut Vec<LoaderMemory>, pair: StagedPair) -> Result<usize, AllocError>
    requires loader { pair.loader < length parts.old.items }
    requires own_keys { HaveOwnKeys parts.old.items }
    ensures lined_up { length parts.new.items
        ≡ length parts.old.items }
    ensures own_keys { HaveOwnKeys parts.new.items }
    ensures stored { IfOk result (λ added. StorePairs (pair ∷ []) added
        parts.old.items parts.new.items) }
    ensures kept { OnErr result
        (HoldSame parts.old.items parts.new.items) }
{
    let StagedPair {
        loader,
        key,
        outcome,
    } = pair;
    let part = &mut parts[loader];
    part.reserve(1)?;
    if put(part, key, outcome) {
        Ok(1)
    } else {
        Ok(0)
    }
}
