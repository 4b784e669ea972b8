//! Wants that positions add which wait.
//!
//! Wants are filled at the end, depth first, so that they are unchanged where memory runs out before. An
//! execution that ran out of memory begins anew at its next poll.

ghost use Rattle.std.specs.Prelude.{◌≡◌, ◌<◌, ◌⊎◌, [], IsTrue, IfOk, OnOk, OnErr, length, false};
ghost use Rattle.load_memory.specs.Keys.{key_of};
ghost use Rattle.load_queue.specs.Wanted.{with_wanted, is_key_wanted};
ghost use Rattle.execution.specs.Front.{wanting};
ghost use Rattle.gq_resolve.specs.Evaluated.{AddsPart};
ghost use Rattle.gq_resolve.specs.NewKeys.{IsUntouched, AreNew, Notes};
ghost use Rattle.gq_resolve.specs.Suspended.{loads_of};

use load_memory::{Key, KeyMode};
use load_queue::Wants;
use plan_walk::loading_fields::{LoadingField, may_load};
use plan_walk::positions::Onward;
use plan_walk::waiting::Waiting;
use std::alloc::{AllocError, Global};

// Tells whether nothing is wanted of a loader, which compares its keys exactly.
fn is_untouched(loader: usize, wants: &Wants) -> bool
    requires { loader < length wants.now }
    ensures { IsTrue result → IsUntouched wants.now loader }
{
    wants.keys(loader).is_empty() && matches!(wants.mode(loader), KeyMode::Exact)
}

// Notes how a position goes on that waits for an untouched loader. Tells whether those before it go on so too.
fn note(onward: Onward, loader: usize, onwards: &mut [Option<Onward>], wants: &Wants) -> bool
    requires { length onwards.old ≡ length wants.now }
    ensures noted { IsTrue result → Notes onward loader wants.now onwards.old onwards.new }
    ensures same { length onwards.new ≡ length onwards.old }
{
    if loader >= onwards.len() {
        return false;
    }
    if let Some(there) = onwards[loader] {
        return there == onward;
    }
    onwards[loader] = Some(onward);
    is_untouched(loader, wants)
}

// Tells whether it is seen without a hash that each key is new among the wants: of each loader, the positions go on alike,
// and each of them waits once. A single key is added without a hash anyway.
fn are_new(
    alloc: Global,
    waiting: &Waiting,
    loaders: usize,
    wants: &Wants,
) -> Result<bool, AllocError>
    requires { loaders ≡ length wants.now }
    ensures { IfOk result
        (λ new. IsTrue new → AreNew wants.now waiting.now) }
{
    if waiting.len() < 2 {
        return Ok(false);
    }
    let mut onwards = vec![in alloc; None; loaders]?;
    for position in waiting.as_slice() {
        if !note(position.onward, position.loader, &mut onwards, wants) {
            return Ok(false);
        }
    }
    Ok(true)
}

// Adds a load, if there is such a loader.
fn want(
    loader: usize,
    key: Key,
    is_new: bool,
    loaders: usize,
    wants: &mut Wants,
) -> Result<(), AllocError>
    requires loaders { loaders ≡ length wants.old }
    requires new { IsTrue is_new → is_key_wanted wants.old loader (key_of key) ≡ false }
    ensures ok { OnOk result (wants.new
        ≡ with_wanted wants.old loader (key_of key)) }
    ensures loaders { length wants.new ≡ length wants.old }
    ensures kept { OnErr result (wants.new ≡ wants.old) }
{
    if loader >= loaders {
        return Ok(());
    }
    if is_new {
        return wants.add_new(loader, key);
    }
    wants.add(loader, key)?;
    Ok(())
}

// Adds their loads, and keeps them.
fn want_each(
    waiting: &Waiting,
    are_new: bool,
    loaders: usize,
    wants: &mut Wants,
) -> Result<(), AllocError>
    requires loaders { loaders ≡ length wants.old }
    requires new { IsTrue are_new → AreNew wants.old waiting.now }
    ensures ok { OnOk result (wants.new
        ≡ wanting wants.old (loads_of waiting.now)) }
    ensures part { OnErr result (AddsPart wants.old wants.new (loads_of waiting.now)) }
{
    for position in waiting.as_slice() {
        let key = position.key.clone()?;
        want(position.loader, key, are_new, loaders, wants)?;
    }
    Ok(())
}

// Adds their loads.
fn want_all(
    waiting: Waiting,
    are_new: bool,
    loaders: usize,
    wants: &mut Wants,
) -> Result<(), AllocError>
    requires loaders { loaders ≡ length wants.old }
    requires new { IsTrue are_new → AreNew wants.old waiting }
    ensures ok { OnOk result
        (wants.new ≡ wanting wants.old (loads_of waiting)) }
    ensures part { OnErr result
        (AddsPart wants.old wants.new (loads_of waiting)) }
{
    for position in waiting {
        want(position.loader, position.key, are_new, loaders, wants)?;
    }
    Ok(())
}

// Tells whether something below one of them may load.
fn any_may_load(groups: &[LoadingField], waiting: &Waiting) -> bool {
    waiting
        .as_slice()
        .iter()
        .any(|position| may_load(groups, position.onward))
}

/// Adds the loads of positions that wait. They are kept if it saves a walk over the whole plan to go on at them; if nothing
/// below them can load, that walk is the last one anyway.
pub fn add_wants(
    alloc: Global,
    groups: &[LoadingField],
    waiting: Waiting,
    loaders: usize,
    wants: &mut Wants,
) -> Result<Waiting, AllocError>
    requires { loaders ≡ length wants.old }
    ensures ok { OnOk result
        (wants.new ≡ wanting wants.old (loads_of waiting)) }
    ensures kept { IfOk result (λ kept. (kept ≡ []) ⊎ (kept ≡ waiting)) }
    ensures part { OnErr result
        (AddsPart wants.old wants.new (loads_of waiting)) }
{
    let are_new = are_new(alloc, &waiting, loaders, wants)?;
    if any_may_load(groups, &waiting) {
        want_each(&waiting, are_new, loaders, wants)?;
        return Ok(waiting);
    }
    want_all(waiting, are_new, loaders, wants)?;
    Ok(Waiting::new(alloc))
}
