//! One round in turn: the batches of what is wanted are entered in the logs, each is asked, and all are stored.
//!
//! A round counts as soon as it has an order. A lost round keeps its number, and the batches that it entered
//! are those of the first loaders.
ghost use Rattle.std.specs.Prelude.{◌≡◌, ◌+◌, ◌++◌, ℕ, map, length, IfOk, OnOk, OnErr};
ghost use Rattle.load_memory.specs.Pairs.{IsSameMap};
ghost use Rattle.load_memory.specs.Replies.{reply_of};
ghost use Rattle.load_queue.specs.Loaders.{stored_in};
ghost use Rattle.load_queue.specs.Wanted.{keys_wanted};
ghost use Rattle.load_queue.specs.Orders.{asks, AreCutBy};
ghost use Rattle.execution.specs.Rounds.{rule_of, may_at, AreReplies};
ghost use Rattle.load_rounds.specs.Rounds.{orders_by, first_keys, Enters, KeepsReplies};

use load_memory::{Memory, Reply};
use load_queue::{Loader, LocalSource, Order, Wants};
use std::alloc::{AllocError, Global};

/// Cuts the wanted keys into batches, enters these in the logs of their loaders as asked in this round, and returns
/// their orders. The keys move from the wants to the orders. A loader of which nothing is wanted isn't touched. The round
/// is counted as soon as it has an order. When out of memory, the logs have the batches of the first loaders, perhaps of
/// none.
pub(crate) fn cut_all<S>(
    loaders: &mut Vec<Loader<S>>,
    rounds: &mut u32,
    round: u32,
    wants: &mut Wants,
) -> Result<Vec<Order>, AllocError>
    requires lined_up { length wants.old
        ≡ length loaders.old.items }
    requires next { round ≡ rounds.old + 1 }
    ensures orders { IfOk result (λ orders. map asks orders.items
        ≡ orders_by 0 (map rule_of loaders.old.items) (keys_wanted wants.old)) }
    ensures cut { IfOk result (λ orders. AreCutBy
        loaders.new.items orders.items) }
    ensures entered { OnOk result (Enters round (keys_wanted wants.old)
        loaders.old.items loaders.new.items rounds.old rounds.new) }
    ensures lost { OnErr result ((n : ℕ) × Enters round (first_keys n (keys_wanted wants.old))
        loaders.old.items loaders.new.items rounds.old rounds.new) }
{
    let mut orders = Vec::new(*loaders.allocator());
    for loader in 0..loaders.len() {
        if wants.keys(loader).is_empty() {
            continue;
        }
        let keys = wants.take_keys(loader);
        let more = loaders[loader].cut_owned(loader, round, keys)?;
        if !more.is_empty() {
            *rounds = round;
        }
        orders = appended(orders, more)?;
    }
    Ok(orders)
}

// Orders with more after them. The first list needs no room but its own.
fn appended(orders: Vec<Order>, more: Vec<Order>) -> Result<Vec<Order>, AllocError>
    ensures { IfOk result (λ all. all.items
        ≡ orders.items ++ more.items) }
{
    if orders.is_empty() {
        return Ok(more);
    }
    let mut all = orders;
    let mut more = more;
    all.append(&mut more)?;
    Ok(all)
}

/// Runs orders one after another.
pub(crate) fn run_all<S: LocalSource>(
    alloc: Global,
    orders: Vec<Order>,
    loaders: &[Loader<S>],
) -> Result<Vec<Reply>, AllocError>
    requires { AreCutBy loaders.now orders.items }
    ensures { IfOk result (λ replies. AreReplies (may_at S.may_tell loaders.now)
        (map asks orders.items) (map reply_of replies.items)) }
{
    let mut replies = Vec::with_capacity(alloc, orders.len())?;
    for order in orders {
        replies.push(order.run(alloc, loaders)?)?;
    }
    Ok(replies)
}

/// Runs orders one after another, and adds what came of them to a memory. What comes of one order alone takes no list. When
/// out of memory, nothing is added.
pub(crate) fn run_and_keep<S: LocalSource>(
    alloc: Global,
    loaders: &[Loader<S>],
    orders: Vec<Order>,
    memory: &mut Memory,
) -> Result<(), AllocError>
    requires loaders { AreCutBy loaders.now orders.items }
    requires modes { length loaders.now
        ≡ length memory.old.modes }
    ensures kept { OnOk result (KeepsReplies (may_at S.may_tell loaders.now)
        (map asks orders.items) memory.old memory.new) }
    ensures modes { memory.new.modes ≡ memory.old.modes }
    ensures lost { OnErr result
        (IsSameMap memory.new.pairs memory.old.pairs) }
{
    if orders.len() == 1 {
        let mut orders = orders;
        let Some(order) = orders.pop() else {
            unreachable!();
        };
        let reply = order.run(alloc, loaders)?;
        return memory.keep_reply(reply);
    }
    let replies = run_all(alloc, orders, loaders)?;
    memory.keep_owned(replies)
}

/// Marks the entries of a round as stored.
pub(crate) fn mark_all<S>(loaders: &mut Vec<Loader<S>>, round: u32)
    ensures { loaders.new.items
        ≡ map (λ l. stored_in l round) loaders.old.items }
{
    for loader in 0..loaders.len() {
        loaders[loader].mark_stored(round);
    }
}
