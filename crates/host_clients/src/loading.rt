//! Keys that a client loads, on their way to the outcomes.
//!
//! A load goes on in the turns of a request, so that a host has one loop for both.
ghost use Rattle.std.specs.Prelude.{◌≡◌, ◌<◌, length};
ghost use Rattle.load_rounds.specs.Histories.{any_tell};
ghost use Rattle.rounds_by_hand.specs.Hands.{handed};
ghost use Rattle.server.specs.LoadsByHand.{ClientStopsLoad, load_by_hand_of};
ghost use Rattle.host_clients.specs.Clients.{Advances, IsGivenUp, Takes};
ghost use Rattle.host_clients.specs.Loads.{load_orders};

use crate::client::HostClient;
use crate::fault::Fault;
use crate::idle::IdleClient;
use crate::loaded::LoadedClient;
use crate::under_way::{stepped, taken};
use flat_orders::FlatOrders;
use flat_outcomes::FlatOutcomes;
use load_memory::Item;
use load_queue::FetchFault;
use rounds_by_hand::{HandedIn, Progress, TakeFault};
use server::{LoadByHand, PlannedLoad};
use std::alloc::Global;
use std::marker::Model;
use std::snapshot::Snapshot;

/// Keys that a client loads, on their way to the outcomes, with the orders of the round that is out.
///
/// A contract sees what is loaded by hand. What holds between calls is `HoldsLoading`.
pub struct LoadUnderWay {
    pub(crate) hand: LoadByHand<HandedIn>,
    orders: FlatOrders,
}

impl Model for LoadUnderWay {
    ghost use Rattle.std.specs.Coded.{codes};
    ghost use Rattle.gq_parser.specs.contracts.tree.TypeRef as type_ref;
    ghost use Rattle.gq_parser.specs.contracts.tree.Literal as literal;
    ghost use Rattle.rounds_by_hand.specs.contracts.handed_in.HandedIn as handed;
    ghost use Rattle.rounds_by_hand.specs.declared.handed_in.HandedIn.{HandedIn as Handed};
    ghost use Rattle.server.specs.LoadsByHand.{LoadByHandOf};
    ghost use Rattle.host_clients.specs.Loads.{HoldsLoading};

    ghost Value = { LoadByHandOf Handed };

    ghost coded = { Prim.hlevel (codes, type_ref.the_row.coded, literal.the_row.coded, handed.the_row.coded) };

    ghost view = { λ l. l.hand };

    ghost invariant = { λ l. HoldsLoading l.hand l.orders };
}

impl Drop for LoadUnderWay {
    fn drop(self) {
        let LoadUnderWay {
            hand: _hand,
            orders: _orders,
        } = self;
    }
}

// The client that loaded by hand, with the room of its orders.
fn idle_of(hand: LoadByHand<HandedIn>, orders: FlatOrders) -> IdleClient
    ensures client { result ≡ hand.client }
    ensures stopped { ClientStopsLoad any_tell hand result }
{
    let client = hand.into_client();
    IdleClient { client, orders }
}

impl LoadUnderWay {
    /// A load of these keys in the session of a client. Nothing is done of it yet.
    pub(crate) fn begin(idle: IdleClient, planned: PlannedLoad) -> LoadUnderWay
        requires { planned.loader < length idle.session.loaders }
        ensures { result ≡ load_by_hand_of idle planned handed }
    {
        let (client, orders) = idle.into_parts();
        LoadUnderWay {
            hand: client.load_by_hand(planned),
            orders,
        }
    }

    /// Goes on: stores the round that is out, if each of its orders has a reply, and gives the outcomes, or makes the round of the keys that
    /// aren't known.
    ///
    /// # Errors
    ///
    /// [`NoMemory`](Fault::NoMemory): it is given up, as it is where memory ran out before.
    pub(crate) fn advance(self, alloc: Global) -> (HostClient, Result<Progress<()>, Fault>)
        ensures { Advances (HostClient.Loading self) result.0 result.1 }
    {
        let LoadUnderWay {
            mut hand,
            mut orders,
        } = self;
        match stepped(hand.advance(), &mut orders, hand.orders()) {
            Ok(Progress::Done(outcomes)) => match FlatOutcomes::of(alloc, &outcomes) {
                Ok(outcomes) => {
                    let snapshot = Snapshot::of(&hand);
                    let loaded = LoadedClient {
                        idle: idle_of(hand, orders),
                        outcomes,
                        loaded: snapshot,
                    };
                    (HostClient::Loaded(loaded), Ok(Progress::Done(())))
                }
                Err(_) => (
                    HostClient::Idle(idle_of(hand, orders)),
                    Err(Fault::NoMemory),
                ),
            },
            Ok(Progress::Round) => {
                let loading = LoadUnderWay { hand, orders };
                (HostClient::Loading(loading), Ok(Progress::Round))
            }
            Ok(Progress::Waiting) => {
                let loading = LoadUnderWay { hand, orders };
                (HostClient::Loading(loading), Ok(Progress::Waiting))
            }
            Ok(Progress::Working) => unreachable!(),
            Ok(Progress::Over) => (HostClient::Idle(idle_of(hand, orders)), Ok(Progress::Over)),
            Err(_) => (
                HostClient::Idle(idle_of(hand, orders)),
                Err(Fault::NoMemory),
            ),
        }
    }

    /// The orders of the round that is out. There are none where no round is out.
    pub fn orders(&self) -> &FlatOrders
        ensures { result.now ≡ load_orders self.now }
    {
        &self.orders
    }

    /// Takes the reply to the order of this number. When out of memory, it is over, and nothing is stored.
    pub(crate) fn take(
        &mut self,
        number: usize,
        reply: Result<Vec<Item>, FetchFault>,
    ) -> Result<(), TakeFault>
        ensures { Takes number reply (HostClient.Loading self.old) (HostClient.Loading self.new) result }
    {
        taken(&mut self.orders, self.hand.reply(number, reply))
    }

    /// Gives it up.
    pub(crate) fn into_idle(self) -> IdleClient
        ensures client { result ≡ self.client }
        ensures stopped { IsGivenUp (HostClient.Loading self) (HostClient.Idle result) }
    {
        let LoadUnderWay { hand, orders } = self;
        idle_of(hand, orders)
    }
}
