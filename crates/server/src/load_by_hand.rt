//! A client that loads keys by hand: the caller asks their source itself.

ghost use Rattle.std.specs.Prelude.{◌≡◌, ◌<◌, [], length, map, slice_get, IfOk, IfSome, OnOk, OnErr};
ghost use Rattle.load_memory.specs.Keys.{key_of};
ghost use Rattle.load_rounds.specs.Calls.{front_at};
ghost use Rattle.load_rounds.specs.Reading.{keys_of};
ghost use Rattle.load_rounds.specs.Sessions.{state_of};
ghost use Rattle.rounds_by_hand.specs.Hands.{handed, IsOver, pending_in};
ghost use Rattle.rounds_by_hand.specs.Pending.{RefusesReply, TakesReply};
ghost use Rattle.rounds_by_hand.specs.Progress.{OnStep};
ghost use Rattle.server.specs.Clients.{IsSameClient};
ghost use Rattle.server.specs.LoadsByHand.{TellsOutcomes};

use crate::client::ClientSession;
use crate::queries::Queries;
use load_memory::{Item, Key, Outcome};
use load_queue::{FetchFault, LocalSource};
use load_rounds::{Answer, KeysToLoad, Limits};
use plan_requests::Server;
use rounds_by_hand::{Hand, HandFault, Pending, Progress, TakeFault, are_in};
use std::alloc::{AllocError, Global};
use std::marker::Model;

/// Keys of a loader that are to be loaded by hand, with the memory that this takes before it begins.
#[derive(Drop)]
pub struct PlannedLoad {
    keys: KeysToLoad,
    // the same keys alone
    plans: Vec<KeysToLoad>,
}

impl Model for PlannedLoad {
    ghost use Rattle.std.specs.Prelude.{◌≡◌, [], ◌∷◌};
    ghost use Rattle.load_rounds.specs.Reading.{KeysOf};

    ghost Value = { KeysOf };

    ghost view = { λ p. p.keys };

    ghost invariant = { λ p. p.plans.items ≡ p.keys ∷ [] };
}

impl PlannedLoad {
    /// Keys of the loader of this number.
    pub fn new(loader: usize, keys: Vec<Key>) -> Result<PlannedLoad, AllocError>
        ensures { IfOk result (λ planned. planned ≡ keys_of loader (map key_of keys.items)) }
    {
        let alloc = *keys.allocator();
        let keys = KeysToLoad::new(loader, keys)?;
        let plans = vec![in alloc; keys.clone()?]?;
        Ok(PlannedLoad { keys, plans })
    }
}

/// Keys of a loader that a client loads as [`ClientSession::load_many`] loads them, but in a round that the caller runs. It owns the client
/// meanwhile, so no one else can change its session.
///
/// It is used in turns. [`advance`](LoadByHand::advance) returns the outcomes, or the one round is out that the keys need: then the caller
/// replies to each of its orders ([`orders`](LoadByHand::orders)) by its number, in any order ([`reply`](LoadByHand::reply)), and advances
/// again. At any time it gives the client back ([`into_client`](LoadByHand::into_client)).
///
/// A contract sees the client, the keys with their loader, and how far the load is. What was done since it was begun is `IsLoadUnderway` of
/// `specs/LoadsByHand.antt`: each call keeps it, and in the end it says of the outcomes what [`ClientSession::load_many`] says.
pub struct LoadByHand<S> {
    alloc: Global,
    queries: Queries,
    max_answer: Option<usize>,
    // Those of the client's answers: a load has none.
    limits: Limits,
    keys: KeysToLoad,
    // the program of these keys
    hand: Hand<S, KeysToLoad, ()>,
}

impl<S> Model for LoadByHand<S> {
    ghost use Rattle.std.specs.Coded.{codes};
    ghost use Rattle.gq_parser.specs.contracts.tree.TypeRef as type_ref;
    ghost use Rattle.gq_parser.specs.contracts.tree.Literal as literal;
    ghost use Rattle.server.specs.Clients.{client_of};
    ghost use Rattle.server.specs.LoadsByHand.{HoldsLoad, LoadByHandOf, load_by_hand_of};

    ghost Value = { LoadByHandOf S };

    ghost coded = { Prim.hlevel (codes, type_ref.the_row.coded, literal.the_row.coded, S.code) };

    ghost view = { λ b. load_by_hand_of
        (client_of b.queries b.max_answer b.limits b.hand.session) b.keys b.hand.far };

    ghost invariant = { λ b. HoldsLoad b.queries b.keys b.hand };
}

impl<S: Drop> Drop for LoadByHand<S> {
    fn drop(self) {
        let LoadByHand {
            alloc: _,
            queries: _queries,
            max_answer: _,
            limits: _,
            keys: _keys,
            hand: _hand,
        } = self;
    }
}

impl<S> ClientSession<S> {
    ghost use Rattle.server.specs.LoadsByHand.{load_by_hand_of};

    /// Keys of a loader, to be loaded in this client's session by hand. Nothing is done before the first call of
    /// [`advance`](LoadByHand::advance), and it takes no memory. Loaders are numbered from 0, in the order of their lines; the
    /// [session](ClientSession::session) tells how many there are. The client's limits are for its answers, and a load has none.
    pub fn load_by_hand(self, planned: PlannedLoad) -> LoadByHand<S>
        requires { planned.loader < length self.session.loaders }
        ensures { result ≡ load_by_hand_of self planned handed }
    {
        let ClientSession {
            alloc,
            queries,
            session,
            max_answer,
            limits,
        } = self;
        // A contract also sees here that no loader's limit is 0.
        let _memory = session.memory();
        let PlannedLoad { keys, plans } = planned;
        LoadByHand {
            alloc,
            queries,
            max_answer,
            limits,
            keys,
            hand: Hand::new(session, plans, Limits::none()),
        }
    }
}

impl<S> LoadByHand<S> {
    /// The server of the client.
    pub fn server(&self) -> &Server
        ensures { result.now ≡ self.now.client.server }
    {
        self.queries.server()
    }

    /// The orders of the round that is out, each with its reply once it has one. There are none where no round is out.
    pub fn orders(&self) -> &[Pending]
        ensures { result.now ≡ pending_in self.now.far }
    {
        self.hand.orders()
    }
}

impl<S: LocalSource> LoadByHand<S> {
    ghost use Rattle.server.specs.LoadsByHand.{AdvancesLoad, AsksAndAdvancesLoad, ClientAsksAndStores, ClientLoads, ClientStopsLoad, ClientStores, LoadGoesOn, LoadGoesOnIfMay};

    /// Stores the round that is out, if each of its orders has a reply, and returns the outcomes, one for each key in order. The first call
    /// begins: it forgets failed batches, and returns the outcomes if all keys are known; else the round that asks for the others is out. A load
    /// takes no steps, so it never returns [`Progress::Working`].
    ///
    /// # Errors
    ///
    /// Only when out of memory: a round that was out is lost, or it is stored and its outcomes aren't copied. The load is over then.
    pub fn advance(&mut self) -> Result<Progress<Vec<Outcome>>, AllocError>
        ensures advanced { IfOk result (AdvancesLoad self.old self.new) }
        ensures over { OnErr result (IsOver self.new.far) }
        ensures underway { LoadGoesOn S.may_tell
            self.old self.new }
        ensures loaded { IfOk result
            (ClientLoads S.may_tell self.old self.new) }
        // What was given as the reply to an order is what is stored.
        ensures stored { IfOk result (λ did. OnStep did
            (ClientStores self.old self.new.client)) }
        ensures asked { self.new.keys ≡ self.old.keys }
        ensures same { IsSameClient
            self.old.client self.new.client }
    {
        if !are_in(self.orders()) {
            return Ok(Progress::Waiting);
        }
        self.ask_and_advance()
    }

    /// Does what [`advance`](LoadByHand::advance) does, but asks the source of the loader for the orders without a reply. So it never waits.
    ///
    /// # Errors
    ///
    /// Those of [`advance`](LoadByHand::advance).
    pub fn ask_and_advance(&mut self) -> Result<Progress<Vec<Outcome>>, AllocError>
        ensures advanced { IfOk result (AsksAndAdvancesLoad self.old self.new) }
        ensures over { OnErr result (IsOver self.new.far) }
        ensures underway { LoadGoesOn S.may_tell
            self.old self.new }
        ensures loaded { IfOk result
            (ClientLoads S.may_tell self.old self.new) }
        ensures stored { OnOk result
            (ClientAsksAndStores S.may_tell self.old self.new.client) }
        ensures asked { self.new.keys ≡ self.old.keys }
        ensures same { IsSameClient
            self.old.client self.new.client }
    {
        let did = match self.hand.ask_and_advance() {
            Ok(did) => did,
            Err(HandFault::NoMemory) => return Err(AllocError),
            Err(HandFault::Over(_)) => unreachable!(),
        };
        let session = self.hand.session();
        let keys = &self.keys;
        did.try_map(
            |_answers: Vec<Answer>| -> Result<Vec<Outcome>, AllocError>
                requires within { keys.now.loader < length session.now.loaders }
                requires known { front_at (state_of session.now)
                    keys.now.loader keys.now.keys ≡ [] }
                ensures { IfOk result (TellsOutcomes session.entry.now keys.entry.now _answers) }
            { session.known_outcomes(keys.loader(), keys.keys()) },
        )
    }

    /// Replies to the order of this number in the round that is out, with items that came from elsewhere, or with a fault of the whole
    /// batch. A reply that hasn't an item for each key fails the batch.
    ///
    /// # Errors
    ///
    /// [`NoSuchOrder`](TakeFault::NoSuchOrder) and [`Replied`](TakeFault::Replied): nothing has changed then.
    /// [`NoMemory`](TakeFault::NoMemory) when out of memory, or where that is the reply: the round is lost, and the load is over.
    pub fn reply(
        &mut self,
        number: usize,
        reply: Result<Vec<Item>, FetchFault>,
    ) -> Result<(), TakeFault>
        ensures refused { RefusesReply (pending_in self.old.far) number
            self.old self.new (IsOver self.new.far) result }
        ensures taken { OnOk result (TakesReply (pending_in self.old.far)
            number reply (pending_in self.new.far)) }
        // It is still as the sources may answer, if this reply is.
        ensures underway { OnOk result (IfSome (slice_get (pending_in self.old.far) number)
            (LoadGoesOnIfMay S.may_tell reply self.old self.new)) }
        ensures stopped { OnErr result
            (LoadGoesOn S.may_tell self.old self.new) }
        ensures client { self.new.client ≡ self.old.client }
        ensures asked { self.new.keys ≡ self.old.keys }
    {
        self.hand.reply(number, reply)
    }

    /// Gives the client back, whatever is done. A round that is out is lost, and its batches stay in the log as not stored.
    pub fn into_client(self) -> ClientSession<S>
        ensures client { result ≡ self.client }
        ensures stopped { ClientStopsLoad
            S.may_tell self result }
    {
        let LoadByHand {
            alloc,
            queries,
            max_answer,
            limits,
            keys: _keys,
            hand,
        } = self;
        ClientSession {
            alloc,
            queries,
            session: hand.into_session(),
            max_answer,
            limits,
        }
    }
}
