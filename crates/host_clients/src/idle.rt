//! A client of which nothing is asked.
ghost use Rattle.std.specs.Prelude.{◌≡◌, []};

use flat_orders::FlatOrders;
use rounds_by_hand::HandedIn;
use server::ClientSession;
use std::alloc::Global;
use std::marker::Model;

/// A client of which nothing is asked, with the room that the orders of its rounds took, for those that come.
///
/// A contract sees the client.
pub struct IdleClient {
    pub(crate) client: ClientSession<HandedIn>,
    pub(crate) orders: FlatOrders,
}

impl Model for IdleClient {
    ghost use Rattle.std.specs.Coded.{codes};
    ghost use Rattle.gq_parser.specs.contracts.tree.TypeRef as type_ref;
    ghost use Rattle.gq_parser.specs.contracts.tree.Literal as literal;
    ghost use Rattle.rounds_by_hand.specs.contracts.handed_in.HandedIn as handed;
    ghost use Rattle.rounds_by_hand.specs.declared.handed_in.HandedIn.{HandedIn as Handed};
    ghost use Rattle.server.specs.Clients.{ClientOf};

    ghost Value = { ClientOf Handed };

    ghost coded = { Prim.hlevel (codes, type_ref.the_row.coded, literal.the_row.coded, handed.the_row.coded) };

    ghost view = { λ i. i.client };
}

impl Drop for IdleClient {
    fn drop(self) {
        let IdleClient {
            client: _client,
            orders: _orders,
        } = self;
    }
}

impl IdleClient {
    /// A client that has made no round yet.
    pub(crate) fn new(alloc: Global, client: ClientSession<HandedIn>) -> IdleClient
        ensures { result ≡ client }
    {
        IdleClient {
            client,
            orders: FlatOrders::new(alloc),
        }
    }

    /// The client, and room for the orders of its rounds.
    pub(crate) fn into_parts(self) -> (ClientSession<HandedIn>, FlatOrders)
        ensures client { result.0 ≡ self }
        ensures none { result.1 ≡ [] }
    {
        let IdleClient { client, orders } = self;
        let mut orders = orders;
        orders.clear();
        (client, orders)
    }
}
