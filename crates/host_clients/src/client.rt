//! Clients whose rounds another language runs.
ghost use Rattle.std.specs.Prelude.{◌≡◌, ◌≢◌, ◌<◌, ◌≤◌, ◌↔◌, true, false, length, Some, IfOk, IfErr, IfSome, IfNone, OnOk, OnErr, IsErrOf};
ghost use Rattle.std.specs.Prelude.{option_map, slice_get, IsUtf8};
ghost use Rattle.std.specs.Borrow.{sem};
ghost use Rattle.flat_orders.specs.Orders.{keys_of};
ghost use Rattle.host_clients.specs.AskedKeys.{flat_keys};
ghost use Rattle.host_clients.specs.Clients.{Advances, CanAnswer, CanEnd, Cancels, Ends, LoadsOn, answered_with};
ghost use Rattle.host_clients.specs.Clients.{HasCount, HasLoader, IsBegun, IsBegunLoad, IsGivenUp, LacksLoader, TakesFailure, TakesReply, TakesReplyTo};
ghost use Rattle.host_clients.specs.Clients.{KeepsOrStops, StopsAt, client_in, is_busy, orders_in, pending_of, width_in};
ghost use Rattle.host_clients.specs.Known.{items_in};
ghost use Rattle.host_clients.specs.Laid.{AreKeys, laid_keys, laid_reply};
ghost use Rattle.host_clients.specs.Lending.{LendsClient};
ghost use Rattle.host_clients.specs.Refused.{AskFault, FailureFault, LoadFault, LoaderFault, OrderFault, RowsFault};
ghost use Rattle.host_clients.specs.Texts.{asked_in};

use crate::answered::AnsweredClient;
use crate::asked::FlatAsked;
use crate::asked_keys::FlatKeys;
use crate::fault::Fault;
use crate::idle::IdleClient;
use crate::loaded::LoadedClient;
use crate::loaders::key_width;
use crate::loading::LoadUnderWay;
use crate::note::AskedNote;
use crate::under_way::UnderWay;
use core::mem::replace_with;
use flat_rows::FlatReply;
use load_memory::Item;
use load_queue::FetchFault;
use rounds_by_hand::{HandedIn, Pending, Progress};
use server::{Answer, ClientSession, PlannedLoad, Queries, Server};
use std::alloc::{AllocError, Global};
use std::snapshot::Snapshot;
use std::str;

/// A client of a server, whose host runs its rounds: it has a memory of what was replied, and answers one request at a time, or loads keys.
#[derive(Drop)]
pub enum HostClient {
    /// Nothing is asked.
    Idle(IdleClient),
    /// A request is on its way to its answer.
    Asked(UnderWay),
    /// The last request is answered.
    Answered(AnsweredClient),
    /// The keys that it is to load are on their way to their outcomes.
    Loading(LoadUnderWay),
    /// The keys that it was to load last are loaded.
    Loaded(LoadedClient),
}

impl HostClient {
    // The client alone: what is on its way is given up, and an answer or outcomes are let go.
    fn into_idle(self) -> IdleClient
        ensures client { result ≡ client_in self }
        ensures stopped { is_busy self ≡ true → IsGivenUp self (HostClient.Idle result) }
    {
        match self {
            HostClient::Idle(idle) => idle,
            HostClient::Asked(under_way) => under_way.into_idle(),
            HostClient::Answered(answered) => answered.into_idle(),
            HostClient::Loading(loading) => loading.into_idle(),
            HostClient::Loaded(loaded) => loaded.into_idle(),
        }
    }

    // Becomes idle.
    fn settle(&mut self)
        ensures client { self.new ≡ HostClient.Idle (client_in self.old) }
        ensures stopped { is_busy self.old ≡ true → IsGivenUp self.old self.new }
    {
        replace_with(self, (), |old, ()| (HostClient::Idle(old.into_idle()), ()));
    }

    /// The client, unless it is busy.
    pub(crate) fn idle(&self) -> Result<&ClientSession<HandedIn>, Fault>
        ensures client { IfOk result (λ client. client_in self.now ≡ client.now) }
        ensures idle { OnOk result (is_busy self.now ≡ false) }
        ensures busy { OnErr result (is_busy self.now ≡ true) }
        ensures fault { IfErr result (λ fault. fault ≡ Fault.Busy) }
    {
        match self {
            HostClient::Idle(idle) => Ok(&idle.client),
            HostClient::Answered(answered) => Ok(&answered.idle.client),
            HostClient::Loaded(loaded) => Ok(&loaded.idle.client),
            HostClient::Asked(_) | HostClient::Loading(_) => Err(Fault::Busy),
        }
    }

    /// The client, unless it is busy, without an answer or outcomes, which are let go.
    pub(crate) fn idle_mut(&mut self) -> Result<&mut ClientSession<HandedIn>, Fault>
        ensures* lends { sem 𝓛 (LendsClient self.entry result) }
        ensures client { IfOk result (λ client. client_in self.old ≡ client.now) }
        ensures idle { OnOk result (is_busy self.old ≡ false) }
        ensures busy { OnErr result (is_busy self.old ≡ true) }
        ensures fault { IfErr result (λ fault. fault ≡ Fault.Busy) }
    {
        if self.is_busy() {
            return Err(Fault::Busy);
        }
        self.settle();
        match self {
            HostClient::Idle(idle) => Ok(&mut idle.client),
            _ => Err(Fault::Busy),
        }
    }

    /// The client, which has a loader of this number.
    ///
    /// # Errors
    ///
    /// [`Busy`](Fault::Busy), [`NoLoader`](Fault::NoLoader).
    pub(crate) fn client_with(&self, loader: usize) -> Result<&ClientSession<HandedIn>, Fault>
        ensures client { IfOk result (λ client. client_in self.now ≡ client.now) }
        ensures there { OnOk result (HasLoader self.now loader) }
        ensures fault { IfErr result (LoaderFault loader self.now) }
    {
        let client = self.idle()?;
        if loader >= client.session().loaders().len() {
            return Err(Fault::NoLoader);
        }
        Ok(client)
    }

    /// Tells whether what it was asked last is on its way.
    pub fn is_busy(&self) -> bool
        ensures { result ≡ is_busy self.now }
    {
        match self {
            HostClient::Idle(_) | HostClient::Answered(_) | HostClient::Loaded(_) => false,
            HostClient::Asked(_) | HostClient::Loading(_) => true,
        }
    }

    /// The server of the client.
    pub(crate) fn server(&self) -> &Server
        ensures { result.now ≡ (client_in self.now).server }
    {
        match self {
            HostClient::Idle(idle) => idle.client.server(),
            HostClient::Asked(under_way) => under_way.hand.server(),
            HostClient::Answered(answered) => answered.idle.client.server(),
            HostClient::Loading(loading) => loading.hand.server(),
            HostClient::Loaded(loaded) => loaded.idle.client.server(),
        }
    }

    /// Begins the answer to what is asked, as the server of `queries` answers it, within the client's limits. What it does wrong is answered.
    /// An answer to what was asked before is let go.
    ///
    /// # Errors
    ///
    /// [`Busy`](Fault::Busy) while a request is being answered or keys are loaded; [`OtherServer`](Fault::OtherServer) where that server has
    /// another number of loaders; [`NoMemory`](Fault::NoMemory). The client is as it was.
    pub fn begin(
        &mut self,
        alloc: Global,
        queries: &mut Queries,
        asked: &FlatAsked<'_>,
    ) -> Result<(), Fault>
        ensures begun { OnOk result
            (IsBegun queries.old self.old (asked_in asked.now) self.new) }
        ensures kept { OnErr result (self.new ≡ self.old) }
        ensures busy { IsErrOf result Fault.Busy
            ↔ (is_busy self.old ≡ true) }
        ensures fault { IfErr result
            (AskFault queries.old self.old) }
        ensures same { queries.new ≡ queries.old }
    {
        let client = self.idle()?;
        let loaders = queries.server().bindings().loaders().len();
        if loaders != client.session().loaders().len() {
            return Err(Fault::OtherServer);
        }
        let planned = asked.plan(alloc, queries, client.max_answer())?;
        let note = AskedNote::of(asked);
        let planned_by = Snapshot::of(&*queries);
        replace_with(self, (), |old, ()| {
            let under_way = UnderWay::begin(old.into_idle(), planned, note, planned_by);
            (HostClient::Asked(under_way), ())
        });
        Ok(())
    }

    /// Begins to load keys of a loader: those that aren't known are asked for in one round, of equal keys only the first, and then there is
    /// an outcome for each key, in order. Failed batches are forgotten before. It goes on as a request does. An answer to what was asked
    /// before is let go.
    ///
    /// # Errors
    ///
    /// [`Busy`](Fault::Busy) while a request is being answered or keys are loaded; [`NoLoader`](Fault::NoLoader); the first fault of the
    /// keys ([`FlatKeys::read`]); [`NoMemory`](Fault::NoMemory). Nothing has changed then.
    pub fn begin_load(&mut self, alloc: Global, keys: &FlatKeys<'_>) -> Result<(), Fault>
        ensures begun { OnOk result (IsBegunLoad (flat_keys keys.now) self.old self.new) }
        ensures kept { OnErr result (self.new ≡ self.old) }
        ensures busy { IsErrOf result Fault.Busy
            ↔ (is_busy self.old ≡ true) }
        ensures no_loader { IsErrOf result Fault.NoLoader
            ↔ LacksLoader self.old keys.now.loader }
        ensures formed { OnOk result (AreKeys (width_in self.old keys.now.loader) (laid_keys keys.now)) }
        ensures fault { IfErr result
            (LoadFault (laid_keys keys.now) self.old) }
    {
        let client = self.client_with(keys.loader)?;
        let read = keys.read(alloc, key_width(client.server(), keys.loader))?;
        let planned = PlannedLoad::new(keys.loader, read)?;
        replace_with(self, (), |old, ()| {
            let loading = LoadUnderWay::begin(old.into_idle(), planned);
            (HostClient::Loading(loading), ())
        });
        Ok(())
    }

    /// Goes on: stores the round that is out, if each of its orders has a reply, and answers, gives the outcomes or makes the next round. Once
    /// it has taken as many steps of a request as the client's limit has ([`limit_steps`](HostClient::limit_steps)) and some are left, it
    /// returns [`Progress::Working`]: nothing is asked, and it is to be called again. Such calls in a row come to an end. It is over where
    /// memory ran out before: then it is given up, and the finished rounds stay known.
    ///
    /// # Errors
    ///
    /// [`Idle`](Fault::Idle) where nothing is asked; [`NoMemory`](Fault::NoMemory): it is given up, as where it is over.
    pub fn advance(&mut self, alloc: Global) -> Result<Progress<()>, Fault>
        ensures { Advances self.old self.new result }
    {
        match self {
            HostClient::Idle(_) => Err(Fault::Idle),
            HostClient::Asked(under_way) => {
                let did = under_way.advance();
                self.end(did)
            }
            HostClient::Loading(_) => replace_with(self, alloc, HostClient::load),
            HostClient::Answered(_) | HostClient::Loaded(_) => Ok(Progress::Done(())),
        }
    }

    // Ends the request if this came of a step of it: it is answered, or given up where memory ran out.
    fn end(&mut self, did: Result<Progress<Answer>, AllocError>) -> Result<Progress<()>, Fault>
        requires { CanEnd did self.old }
        ensures { Ends did self.old self.new result }
    {
        match did {
            Ok(Progress::Done(answer)) => {
                replace_with(self, answer, HostClient::answered);
                Ok(Progress::Done(()))
            }
            Ok(Progress::Round) => Ok(Progress::Round),
            Ok(Progress::Working) => Ok(Progress::Working),
            Ok(Progress::Waiting) => Ok(Progress::Waiting),
            Ok(Progress::Over) => {
                self.settle();
                Ok(Progress::Over)
            }
            Err(_) => {
                self.settle();
                Err(Fault::NoMemory)
            }
        }
    }

    // The client with the answer to its request, if it has one.
    fn answered(self, answer: Answer) -> (HostClient, ())
        requires { CanAnswer self answer }
        ensures { result.0 ≡ answered_with self answer }
    {
        match self {
            HostClient::Asked(under_way) => (HostClient::Answered(under_way.answered(answer)), ()),
            other => (other, ()),
        }
    }

    // The client after a call to go on with the keys that it loads, if it does, and what came of that.
    fn load(self, alloc: Global) -> (HostClient, Result<Progress<()>, Fault>)
        ensures { LoadsOn self result.0 result.1 }
    {
        match self {
            HostClient::Loading(loading) => loading.advance(alloc),
            other => (other, Err(Fault::Idle)),
        }
    }

    // The orders of the round that is out, with the replies that are there.
    fn pending(&self) -> &[Pending]
        ensures { result.now ≡ pending_of self.now }
    {
        match self {
            HostClient::Asked(under_way) => under_way.hand.orders(),
            HostClient::Loading(loading) => loading.hand.orders(),
            HostClient::Idle(_) | HostClient::Answered(_) | HostClient::Loaded(_) => &[],
        }
    }

    /// The order of this number in the round that is out.
    pub(crate) fn order(&self, number: usize) -> Option<&Pending>
        ensures some { IfSome result (λ found.
            slice_get (pending_of self.now) number ≡ Some found.now) }
        ensures none { IfNone result (length (pending_of self.now) ≤ number) }
    {
        self.pending().get(number)
    }

    // Returns how many keys the order of this number in the round that is out has, if there is one.
    fn count(&self, number: usize) -> Option<usize>
        ensures { result
            ≡ option_map (λ o. length (keys_of o)) (slice_get (orders_in self.now) number) }
    {
        match self {
            HostClient::Asked(under_way) => under_way.orders().count(number),
            HostClient::Loading(loading) => loading.orders().count(number),
            HostClient::Idle(_) | HostClient::Answered(_) | HostClient::Loaded(_) => None,
        }
    }

    /// Takes the reply to an order.
    pub(crate) fn take(
        &mut self,
        number: usize,
        reply: Result<Vec<Item>, FetchFault>,
    ) -> Result<(), Fault>
        ensures taken { OnOk result (TakesReplyTo number reply self.old self.new) }
        ensures kept { IfErr result (λ fault.
            fault ≢ Fault.NoMemory → self.new ≡ self.old) }
        ensures stopped { IfErr result (λ fault.
            fault ≡ Fault.NoMemory → StopsAt number self.old self.new) }
        ensures fault { IfErr result
            (OrderFault (pending_of self.old) number) }
    {
        match self {
            HostClient::Asked(under_way) => Ok(under_way.take(number, reply)?),
            HostClient::Loading(loading) => Ok(loading.take(number, reply)?),
            _ => Err(Fault::NoOrder),
        }
    }

    /// Takes the rows for the keys of an order.
    ///
    /// # Errors
    ///
    /// [`NoOrder`](Fault::NoOrder); [`BadCount`](Fault::BadCount); the reply's first fault; [`Replied`](Fault::Replied). Nothing has
    /// changed then. [`NoMemory`](Fault::NoMemory): nothing has changed, or it is stopped, which [`advance`](HostClient::advance) tells.
    pub fn take_rows(
        &mut self,
        alloc: Global,
        number: usize,
        reply: &FlatReply<'_>,
    ) -> Result<(), Fault>
        ensures taken { OnOk result (TakesReply number (items_in reply.now) self.old self.new) }
        ensures counted { OnOk result (HasCount number (length reply.now.rows.now) self.old) }
        ensures kept { IfErr result (λ fault.
            fault ≢ Fault.NoMemory → self.new ≡ self.old) }
        ensures no_memory { IfErr result (λ fault.
            fault ≡ Fault.NoMemory → KeepsOrStops number self.old self.new) }
        ensures fault { IfErr result
            (RowsFault number (laid_reply reply.now) self.old) }
    {
        match self.count(number) {
            None => return Err(Fault::NoOrder),
            Some(count) if count != reply.rows.len() => return Err(Fault::BadCount),
            Some(_) => {}
        }
        let items = reply.items(alloc)?;
        self.take(number, Ok(items))
    }

    /// Takes it that the batch of an order failed as a whole, with this text.
    ///
    /// # Errors
    ///
    /// [`NoOrder`](Fault::NoOrder), [`NotUtf8`](Fault::NotUtf8), [`Replied`](Fault::Replied). Nothing has changed then.
    /// [`NoMemory`](Fault::NoMemory) as that of [`take_rows`](HostClient::take_rows).
    pub fn take_failed(&mut self, alloc: Global, number: usize, text: &[u8]) -> Result<(), Fault>
        ensures taken { OnOk result (TakesFailure number text.now self.old self.new) }
        ensures formed { OnOk result (IsUtf8 text.now) }
        ensures kept { IfErr result (λ fault.
            fault ≢ Fault.NoMemory → self.new ≡ self.old) }
        ensures no_memory { IfErr result (λ fault.
            fault ≡ Fault.NoMemory → KeepsOrStops number self.old self.new) }
        ensures fault { IfErr result
            (FailureFault number text.now self.old) }
    {
        if self.order(number).is_none() {
            return Err(Fault::NoOrder);
        }
        let Ok(text) = str::from_utf8(text) else {
            return Err(Fault::NotUtf8);
        };
        let text = String::from_str(alloc, text)?;
        self.take(number, Err(FetchFault::Failed(text)))
    }

    /// Gives up what is on its way. The finished rounds stay known.
    ///
    /// # Errors
    ///
    /// [`Idle`](Fault::Idle) where none is.
    pub fn cancel(&mut self) -> Result<(), Fault>
        ensures { Cancels self.old self.new result }
    {
        if !self.is_busy() {
            return Err(Fault::Idle);
        }
        self.settle();
        Ok(())
    }
}
