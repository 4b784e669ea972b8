//! The orders of a round that is out.
ghost use Rattle.std.specs.Prelude.{◌≡◌, ◌≤◌, ◌<◌, ◌↔◌, All, IfOk, OnOk, IsErrOf, length, map, slice_get, true};
ghost use Rattle.std.specs.List.{list_all};
ghost use Rattle.load_memory.specs.Replies.{reply_of};
ghost use Rattle.execution.specs.Rounds.{any_answer, may_at, IsReply};
ghost use Rattle.load_rounds.specs.Histories.{any_tell};
ghost use Rattle.rounds_by_hand.specs.Pending.{order_in, still_out, CanAsk, is_in, is_in_at, IsReplied, IsReplyFor, AreRepliesFor, AreRepliesTo, AreRepliesIfReplied, TakesReply};

use crate::fault::TakeFault;
use load_memory::{Item, Keys, Reply};
use load_queue::{FetchFault, Loader, LocalSource, Order};
use std::alloc::{AllocError, Global};
use std::mem;

/// An order of a round that is out, or the reply to it. Its number is its place among the orders of the round.
#[derive(Drop)]
pub enum Pending {
    /// It waits for its reply.
    Out(Order),
    /// It has this one.
    In(Reply),
}

/// The orders of a round, none of which has a reply yet.
pub(crate) fn all_out(orders: Vec<Order>) -> Result<Vec<Pending>, AllocError>
    ensures { IfOk result (λ pending.
        pending.items ≡ map still_out orders.items) }
{
    let mut pending = Vec::with_capacity(*orders.allocator(), orders.len())?;
    for order in orders {
        pending.push(Pending::Out(order))?;
    }
    Ok(pending)
}

/// Tells whether each order has a reply.
pub fn are_in(pending: &[Pending]) -> bool
    ensures { result ≡ list_all is_in pending.now }
{
    for one in pending {
        if let Pending::Out(_) = one {
            return false;
        }
    }
    true
}

// The reply to an order, for which its source is asked if nobody has replied.
fn reply_to<S: LocalSource>(
    alloc: Global,
    one: Pending,
    loaders: &[Loader<S>],
) -> Result<Reply, AllocError>
    requires loader { (order_in one).loader
        < length loaders.now }
    requires own { CanAsk loaders.now one }
    ensures any { IsReplied any_answer one
        → IfOk result (λ r. IsReply (may_at any_tell loaders.now) (order_in one) (reply_of r)) }
    ensures told { IsReplied (may_at S.may_tell loaders.now) one
        → IfOk result (λ r. IsReply (may_at S.may_tell loaders.now) (order_in one) (reply_of r)) }
    ensures as_given { IfOk result (λ r.
        IsReplyFor (may_at S.may_tell loaders.now) one (reply_of r)) }
{
    match one {
        Pending::Out(order) => order.run(alloc, loaders),
        Pending::In(reply) => Ok(reply),
    }
}

/// The replies to the orders of a round, in order. The source is asked for those without one.
pub(crate) fn replies_to<S: LocalSource>(
    pending: Vec<Pending>,
    loaders: &[Loader<S>],
) -> Result<Vec<Reply>, AllocError>
    requires loaders { All (λ one. (order_in one).loader
        < length loaders.now) pending.items }
    requires own { All (CanAsk loaders.now) pending.items }
    ensures any { All (IsReplied any_answer) pending.items
        → IfOk result (λ rs. AreRepliesTo (may_at any_tell loaders.now) pending.items rs.items) }
    ensures told { IfOk result (λ rs.
        AreRepliesIfReplied (may_at S.may_tell loaders.now) pending.items rs.items) }
    ensures as_given { IfOk result (λ rs. AreRepliesFor
        (may_at S.may_tell loaders.now) pending.items (map reply_of rs.items)) }
{
    let alloc = *pending.allocator();
    let mut replies = Vec::with_capacity(alloc, pending.len())?;
    for one in pending {
        replies.push(reply_to(alloc, one, loaders)?)?;
    }
    Ok(replies)
}

/// Takes the reply to the order of this number, which is spent.
pub(crate) fn take_reply(
    pending: &mut Vec<Pending>,
    number: usize,
    reply: Result<Vec<Item>, FetchFault>,
) -> Result<(), TakeFault>
    ensures no_order { IsErrOf result TakeFault.NoSuchOrder
        ↔ (length pending.old.items ≤ number) }
    ensures replied { IsErrOf result TakeFault.Replied
        ↔ (is_in_at (slice_get pending.old.items number) ≡ true) }
    ensures none { IsErrOf result TakeFault.NoSuchOrder
        → pending.new.items ≡ pending.old.items }
    ensures kept { IsErrOf result TakeFault.Replied
        → pending.new.items ≡ pending.old.items }
    ensures taken { OnOk result (TakesReply pending.old.items number reply pending.new.items) }
{
    if number >= pending.len() {
        return Err(TakeFault::NoSuchOrder);
    }
    let alloc = *pending.allocator();
    let blank = Pending::In(Reply {
        loader: 0,
        keys: Keys::new(),
        outcomes: Vec::new(alloc),
    });
    match mem::replace(&mut pending[number], blank) {
        Pending::Out(order) => {
            pending[number] = Pending::In(order.reply_with(alloc, reply)?);
            Ok(())
        }
        Pending::In(earlier) => {
            pending[number] = Pending::In(earlier);
            Err(TakeFault::Replied)
        }
    }
}
