//! A client that has loaded the keys that it was asked for.
//!
//! Outcomes are laid out flat as soon as they are there: then no copy can be out of memory, and the rows that
//! they share with the memory aren't held longer.
ghost use Rattle.std.specs.Prelude.{◌≡◌};
ghost use Rattle.host_clients.specs.Loads.{AreOutcomesOf};

use crate::idle::IdleClient;
use flat_outcomes::FlatOutcomes;
use rounds_by_hand::HandedIn;
use server::LoadByHand;
use std::marker::Model;
use std::snapshot::Snapshot;

/// A client with the outcomes of the keys that it loaded last.
///
/// A contract sees the client, what was asked, and the outcomes. They are those of the keys (`AreOutcomesOf`).
pub struct LoadedClient {
    pub(crate) idle: IdleClient,
    pub(crate) outcomes: FlatOutcomes,
    // what loaded them, for contracts alone: it takes no memory
    pub(crate) loaded: Snapshot<LoadByHand<HandedIn>>,
}

impl Model for LoadedClient {
    ghost use Rattle.std.specs.Coded.{codes};
    ghost use Rattle.gq_parser.specs.contracts.tree.TypeRef as type_ref;
    ghost use Rattle.gq_parser.specs.contracts.tree.Literal as literal;
    ghost use Rattle.rounds_by_hand.specs.contracts.handed_in.HandedIn as handed;
    ghost use Rattle.host_clients.specs.Loads.{AreOutcomesOf, LoadedOf};

    ghost Value = { LoadedOf };

    ghost coded = { Prim.hlevel (codes, type_ref.the_row.coded, literal.the_row.coded, handed.the_row.coded) };

    ghost view = { λ d. record { client = d.idle; asked = d.loaded.value.keys; outcomes = d.outcomes } };

    ghost invariant = { λ d. AreOutcomesOf d.idle.server d.loaded.value.keys d.outcomes };
}

impl Drop for LoadedClient {
    fn drop(self) {
        let LoadedClient {
            idle: _idle,
            outcomes: _outcomes,
            loaded: _loaded,
        } = self;
    }
}

impl LoadedClient {
    /// The outcomes, one for each key, in order.
    pub fn outcomes(&self) -> &FlatOutcomes
        ensures outcomes { result.now ≡ self.now.outcomes }
        ensures loaded { AreOutcomesOf self.now.client.server self.now.asked self.now.outcomes }
    {
        &self.outcomes
    }

    /// The client, without the outcomes.
    pub(crate) fn into_idle(self) -> IdleClient
        ensures { result ≡ self.client }
    {
        let LoadedClient {
            idle,
            outcomes: _outcomes,
            loaded: _loaded,
        } = self;
        idle
    }
}
