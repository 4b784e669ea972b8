//! Requests on their way to the answer.
ghost use Rattle.std.specs.Prelude.{◌≡◌, ◌≤◌, ◌++◌, ◌∷◌, [], Ok, IfOk, OnOk, OnErr, length, map};
ghost use Rattle.rounds_by_hand.specs.Pending.{order_in};
ghost use Rattle.host_clients.specs.Asked.{PlansHost};
ghost use Rattle.load_rounds.specs.Histories.{any_tell};
ghost use Rattle.server.specs.Hands.{GoesOn};
ghost use Rattle.host_clients.specs.Clients.{IsAnswered, IsBegunWith, IsGivenUp, StepsOn, Takes, answered_by, orders_after, orders_then};
ghost use Rattle.host_clients.specs.UnderWay.{orders_out};

use crate::answered::AnsweredClient;
use crate::client::HostClient;
use crate::idle::IdleClient;
use crate::note::AskedNote;
use flat_orders::FlatOrders;
use load_memory::Item;
use load_queue::FetchFault;
use rounds_by_hand::{HandedIn, Pending, Progress, TakeFault};
use server::{Answer, ByHand, PlannedRequest, Queries};
use std::alloc::AllocError;
use std::marker::Model;
use std::snapshot::Snapshot;

/// Holds what a client was asked, on its way to the answer, with the orders of the round that is out.
///
/// A contract sees what is answered by hand, the server that it was planned by, and what was asked. What holds between calls is
/// `HoldsUnderWay`.
pub struct UnderWay {
    pub(crate) hand: ByHand<HandedIn>,
    orders: FlatOrders,
    note: AskedNote,
    // what planned it, for contracts alone: it takes no memory
    queries: Snapshot<Queries>,
}

impl Model for UnderWay {
    ghost use Rattle.std.specs.Coded.{codes};
    ghost use Rattle.gq_parser.specs.contracts.tree.TypeRef as type_ref;
    ghost use Rattle.gq_parser.specs.contracts.tree.Literal as literal;
    ghost use Rattle.gq_parser.specs.contracts.tree.Argument as argument;
    ghost use Rattle.gq_parser.specs.contracts.tree.Field as field;
    ghost use Rattle.gq_parser.specs.contracts.tree.Inline as inline;
    ghost use Rattle.gq_parser.specs.contracts.tree.SelectionSet as set;
    ghost use Rattle.gq_schema.specs.contracts.input.Input as input;
    ghost use Rattle.rounds_by_hand.specs.contracts.handed_in.HandedIn as handed;
    ghost use Rattle.host_clients.specs.UnderWay.{UnderWayOf, HoldsUnderWay};

    ghost Value = { UnderWayOf };

    ghost coded = { Prim.hlevel (codes, type_ref.the_row.coded, literal.the_row.coded, argument.the_row.coded, field.the_row.coded, inline.the_row.coded, set.the_row.coded, input.the_row.coded, handed.the_row.coded) };

    ghost view = { λ u. record { hand = u.hand; server = u.queries.value; asked = u.note.asked } };

    ghost invariant = { λ u. HoldsUnderWay u.queries.value u.hand u.note.asked u.orders };
}

impl Drop for UnderWay {
    fn drop(self) {
        let UnderWay {
            hand: _hand,
            orders: _orders,
            note: _note,
            queries: _queries,
        } = self;
    }
}

// Adds an order, which may have its reply, at the end of orders.
fn write_order(orders: &mut FlatOrders, one: &Pending) -> Result<(), AllocError>
    ensures written { OnOk result
        (orders.new ≡ orders.old ++ order_in one.now ∷ []) }
    ensures cleared { OnErr result (orders.new ≡ []) }
{
    match one {
        Pending::Out(order) => orders.push(order.loader(), order.keys()),
        Pending::In(reply) => orders.push(reply.loader, reply.keys.as_slice()),
    }
}

/// Writes the orders of a round, to be copied out, in place of those of the round before.
pub(crate) fn write_orders(orders: &mut FlatOrders, pending: &[Pending]) -> Result<(), AllocError>
    ensures written { OnOk result
        (orders.new ≡ map order_in pending.now) }
    ensures cleared { OnErr result (orders.new ≡ []) }
{
    orders.clear();
    for one in pending {
        write_order(orders, one)?;
    }
    Ok(())
}

/// Says what came of a step. The orders of a round that is out since then are written, to be copied out. Where steps are left, those of the
/// round before are gone.
pub(crate) fn stepped<T>(
    did: Result<Progress<T>, AllocError>,
    orders: &mut FlatOrders,
    pending: &[Pending],
) -> Result<Progress<T>, AllocError>
    ensures did { IfOk result (λ step. did ≡ Ok step) }
    ensures orders { IfOk result (λ step.
        orders.new ≡ orders_then step (map order_in pending.now) orders.old) }
{
    match did? {
        Progress::Round => {
            write_orders(orders, pending)?;
            Ok(Progress::Round)
        }
        Progress::Working => {
            orders.clear();
            Ok(Progress::Working)
        }
        did => Ok(did),
    }
}

/// Says what came of a reply. Where memory ran out no orders are out any more.
pub(crate) fn taken(orders: &mut FlatOrders, reply: Result<(), TakeFault>) -> Result<(), TakeFault>
    ensures same { result ≡ reply }
    ensures orders { orders.new ≡ orders_after reply orders.old }
{
    if let Err(TakeFault::NoMemory) = reply {
        orders.clear();
    }
    reply
}

// Gives up what is answered by hand, if a round is out: then no orders are.
fn give_up(hand: &mut ByHand<HandedIn>, orders: &mut FlatOrders)
    ensures none { orders.new ≡ orders_out hand.new }
    ensures underway { GoesOn any_tell hand.old hand.new }
    ensures client { hand.new.client ≡ hand.old.client }
    ensures planned { hand.new.planned ≡ hand.old.planned }
{
    hand.give_up();
    orders.clear();
}

impl UnderWay {
    /// A request of a client, as it is planned. Nothing is done of it yet.
    pub(crate) fn begin(
        idle: IdleClient,
        planned: PlannedRequest,
        note: AskedNote,
        queries: Snapshot<Queries>,
    ) -> UnderWay
        requires fits { planned.loaders ≤ length idle.session.loaders }
        requires plans { PlansHost queries.value idle.most note.asked planned }
        ensures client { result.hand.client ≡ idle }
        ensures begun { IsBegunWith queries.value note.asked result }
    {
        let (client, orders) = idle.into_parts();
        UnderWay {
            hand: client.by_hand(planned),
            orders,
            note,
            queries,
        }
    }

    /// Goes on: stores the round that is out, if each of its orders has a reply, and answers or makes the next round, unless steps are left.
    ///
    /// # Errors
    ///
    /// When out of memory: it is given up, as it is where memory ran out before.
    pub(crate) fn advance(&mut self) -> Result<Progress<Answer>, AllocError>
        ensures { StepsOn self.old self.new result }
    {
        match stepped(self.hand.advance(), &mut self.orders, self.hand.orders()) {
            Ok(Progress::Round) => Ok(Progress::Round),
            Ok(Progress::Working) => Ok(Progress::Working),
            Ok(Progress::Waiting) => Ok(Progress::Waiting),
            Ok(Progress::Done(answer)) => {
                give_up(&mut self.hand, &mut self.orders);
                Ok(Progress::Done(answer))
            }
            Ok(Progress::Over) => {
                give_up(&mut self.hand, &mut self.orders);
                Ok(Progress::Over)
            }
            Err(fault) => {
                give_up(&mut self.hand, &mut self.orders);
                Err(fault)
            }
        }
    }

    /// The client, with the answer to its request.
    pub(crate) fn answered(self, answer: Answer) -> AnsweredClient
        requires { IsAnswered self answer }
        ensures { result ≡ answered_by self answer }
    {
        let UnderWay {
            hand,
            orders,
            note,
            queries,
        } = self;
        let Answer { text, rounds, .. } = answer;
        let client = hand.into_client();
        AnsweredClient {
            idle: IdleClient { client, orders },
            text,
            rounds,
            note,
            queries,
        }
    }

    /// The orders of the round that is out. There are none where no round is out.
    pub fn orders(&self) -> &FlatOrders
        ensures { result.now ≡ orders_out self.now.hand }
    {
        &self.orders
    }

    /// Takes the reply to the order of this number. When out of memory, it is over, and nothing is stored.
    pub(crate) fn take(
        &mut self,
        number: usize,
        reply: Result<Vec<Item>, FetchFault>,
    ) -> Result<(), TakeFault>
        ensures { Takes number reply (HostClient.Asked self.old) (HostClient.Asked self.new) result }
    {
        taken(&mut self.orders, self.hand.reply(number, reply))
    }

    /// Gives it up.
    pub(crate) fn into_idle(self) -> IdleClient
        ensures client { result ≡ self.hand.client }
        ensures stopped { IsGivenUp (HostClient.Asked self) (HostClient.Idle result) }
    {
        let UnderWay {
            hand,
            orders,
            note: _note,
            queries: _queries,
        } = self;
        let client = hand.into_client();
        IdleClient { client, orders }
    }
}
