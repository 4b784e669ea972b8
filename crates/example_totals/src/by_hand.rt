//! Rounds that the caller runs: each order asks its source, or is answered with items that came from elsewhere.

ghost use Rattle.std.specs.Prelude.{◌≡◌, ◌≤◌, map, length, IfOk};
ghost use Rattle.load_memory.specs.Replies.{reply_of};
ghost use Rattle.load_queue.specs.Orders.{asks, IsCutBy, AreCutBy};
ghost use Rattle.execution.specs.Rounds.{may_at, IsReply, AreReplies};
ghost use Rattle.load_rounds.specs.Histories.{any_tell};
ghost use Rattle.load_rounds.specs.Headline.{HasHeadline};
ghost use Rattle.load_rounds.specs.ByHand.{AreReceived};
ghost use Rattle.load_rounds.specs.Sessions.{state_of};

use crate::report::push_keys;
use crate::shop::{CountedTable, ORDERS_OF};
use anyhow::Result;
use load_memory::{Item, Key, Reply, Row};
use load_queue::{FetchFault, Loader, Order};
use load_rounds::{Answer, Execute, Session};
use std::alloc::{AllocError, Global};

/// Knowledge of Dee's orders from elsewhere.
#[derive(Clone, Copy)]
pub enum Elsewhere {
    /// One order of this amount.
    OneOrder(u32),
    /// They are out of reach.
    OutOfReach,
}

// The answer to an order for Dee's orders alone.
fn answer_of(alloc: Global, elsewhere: Elsewhere) -> Result<Vec<Item>, FetchFault> {
    match elsewhere {
        Elsewhere::OneOrder(amount) => {
            let amount = format!(in alloc; "{amount}")?;
            let row = Row::new(alloc, &[("customer", "dee"), ("amount", amount.as_str())])?;
            let item = Item::Rows(row.into());
            Ok(vec![in alloc; item]?)
        }
        Elsewhere::OutOfReach => {
            Err(FetchFault::Failed(String::from_str(alloc, "the orders are out of reach")?))
        }
    }
}

// Tells whether an order is for Dee's orders alone.
fn is_known_elsewhere(order: &Order) -> bool {
    match order.keys() {
        [Key::Text(id)] => order.loader() == ORDERS_OF && id.as_str() == "dee",
        _ => false,
    }
}

// The reply to an order, by its source or from elsewhere.
fn reply_to(
    alloc: Global,
    order: Order,
    loaders: &[Loader<CountedTable<'_>>],
    elsewhere: Elsewhere,
) -> Result<Reply, AllocError>
    requires { IsCutBy loaders.now order }
    ensures { IfOk result (λ reply.
        IsReply (may_at any_tell loaders.now) (asks order) (reply_of reply)) }
{
    if is_known_elsewhere(&order) {
        order.reply_with(alloc, answer_of(alloc, elsewhere))
    } else {
        order.run(alloc, loaders)
    }
}

// The replies to the orders of a round, in their order.
fn replies_to(
    alloc: Global,
    orders: Vec<Order>,
    loaders: &[Loader<CountedTable<'_>>],
    elsewhere: Elsewhere,
) -> Result<Vec<Reply>, AllocError>
    requires { AreCutBy loaders.now orders.items }
    ensures { IfOk result (λ replies. AreReplies (may_at any_tell loaders.now)
        (map asks orders.items) (map reply_of replies.items)) }
{
    let mut replies = Vec::with_capacity(alloc, orders.len())?;
    for order in orders {
        replies.push(reply_to(alloc, order, loaders, elsewhere)?)?;
    }
    Ok(replies)
}

// The replies to the orders of a round, the last order's first: a run takes them in any order.
fn last_first(
    alloc: Global,
    orders: Vec<Order>,
    loaders: &[Loader<CountedTable<'_>>],
    elsewhere: Elsewhere,
) -> Result<Vec<Reply>, AllocError>
    requires { AreCutBy loaders.now orders.items }
    ensures { IfOk result (λ replies. AreReceived (may_at any_tell loaders.now)
        (map asks orders.items) (map reply_of replies.items)) }
{
    let mut replies = replies_to(alloc, orders, loaders, elsewhere)?;
    replies.reverse();
    Ok(replies)
}

// Adds a line of a round that is out, as `round 2 asks ordersOf [bob cy] ordersOf [dee]`.
fn note(
    text: &mut String,
    round: u32,
    orders: &[Order],
    loaders: &[Loader<CountedTable<'_>>],
) -> Result<()> {
    write!(text, "  round {round} asks")?;
    for order in orders {
        let name = match loaders.get(order.loader()) {
            Some(loader) => loader.name(),
            None => "?",
        };
        write!(text, " {name} ")?;
        push_keys(text, order.keys())?;
    }
    text.push('\n')?;
    Ok(())
}

/// Answers what can be executed in rounds by hand, and notes what each asks.
pub fn answer_by_hand<E: Drop, P: Execute<E>>(
    alloc: Global,
    plan: &P,
    session: &mut Session<CountedTable<'_>>,
    elsewhere: Elsewhere,
    notes: &mut String,
) -> Result<Answer>
    requires { P.loaders plan.now
        ≤ length session.old.loaders }
    ensures { IfOk result (HasHeadline any_tell (state_of session.old)
        (state_of session.new) (P.program plan.now) (P.text_of plan.now)) }
{
    let mut rounds = session.begin(plan);
    while let Some(orders) = rounds.advance(session)? {
        note(notes, rounds.rounds(), orders.as_slice(), session.loaders())?;
        let replies = last_first(alloc, orders, session.loaders(), elsewhere)?;
        rounds.take_owned(session, replies)?;
    }
    match rounds.into_answer() {
        Some(answer) => Ok(answer),
        None => unreachable!(),
    }
}
