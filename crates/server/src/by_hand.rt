//! A client that is answered by hand: the caller asks its sources itself.

ghost use Rattle.std.specs.Prelude.{◌≡◌, ◌≤◌, [], length, slice_get, IfOk, IfSome, OnOk, OnErr};
ghost use Rattle.rounds_by_hand.specs.Hands.{handed, given_up, IsOver, pending_in};
ghost use Rattle.rounds_by_hand.specs.Pending.{RefusesReply, TakesReply};
ghost use Rattle.rounds_by_hand.specs.Progress.{OnStep};
ghost use Rattle.server.specs.Clients.{IsSameClient};
ghost use Rattle.server.specs.Hands.{MakesResponse, refusals_in};

use crate::client::ClientSession;
use crate::planned::{PlannedRequest, ResponseForm};
use crate::queries::Queries;
use gq_resolve::{LimitedPlan, RootState};
use load_memory::Item;
use load_queue::{FetchFault, LocalSource};
use load_rounds::{Answer, Limits};
use plan_requests::Server;
use rounds_by_hand::{Hand, HandFault, Pending, Progress, TakeFault, are_in};
use std::alloc::{AllocError, Global};
use std::marker::Model;

/// Holds what was asked of a client, on its way to the answer, in rounds that the caller runs. It owns the client meanwhile, so no one else
/// can change its session.
///
/// It is used in turns. [`advance`](ByHand::advance) returns the answer, or a new round is out: then the caller replies to each of its
/// orders ([`orders`](ByHand::orders)) by its number, in any order ([`reply`](ByHand::reply)), and advances again. How it asks, and what, is
/// the caller's affair: one source after another, or all at the same time. Where the client limits the steps of a call
/// ([`limit_steps`](ClientSession::limit_steps)), the caller advances again as long as steps are left ([`Progress::Working`]). At any time it
/// gives the client back ([`into_client`](ByHand::into_client)).
///
/// A contract sees the client, what is planned, and how far that is. What was done since it was begun is `IsUnderway` of
/// `specs/Hands.antt`: each call keeps it, and in the end it says of the answer what [`ClientSession::answer`] says.
pub struct ByHand<S> {
    alloc: Global,
    queries: Queries,
    max_answer: Option<usize>,
    limits: Limits,
    form: ResponseForm,
    // Whether it is one request, which is refused: nothing is asked then.
    is_refused: bool,
    // Least number of loaders of a session.
    loaders: usize,
    hand: Hand<S, LimitedPlan, RootState>,
}

impl<S> Model for ByHand<S> {
    ghost use Rattle.std.specs.Coded.{codes};
    ghost use Rattle.gq_parser.specs.contracts.tree.TypeRef as type_ref;
    ghost use Rattle.gq_parser.specs.contracts.tree.Literal as literal;
    ghost use Rattle.gq_parser.specs.contracts.tree.Argument as argument;
    ghost use Rattle.gq_parser.specs.contracts.tree.Field as field;
    ghost use Rattle.gq_parser.specs.contracts.tree.Inline as inline;
    ghost use Rattle.gq_parser.specs.contracts.tree.SelectionSet as set;
    ghost use Rattle.gq_schema.specs.contracts.input.Input as input;
    ghost use Rattle.server.specs.Clients.{client_of};
    ghost use Rattle.server.specs.Hands.{ByHandOf, HoldsByHand, by_hand_of, planned_of};

    ghost Value = { ByHandOf S };

    ghost coded = { Prim.hlevel (codes, type_ref.the_row.coded, literal.the_row.coded, argument.the_row.coded, field.the_row.coded, inline.the_row.coded, set.the_row.coded, input.the_row.coded, S.code) };

    ghost view = { λ b. by_hand_of
        (client_of b.queries b.max_answer b.limits b.hand.session)
        (planned_of b.form b.loaders b.hand.plans) b.hand.far };

    ghost invariant = { λ b. HoldsByHand
        (client_of b.queries b.max_answer b.limits b.hand.session)
        (planned_of b.form b.loaders b.hand.plans) b.is_refused b.hand };
}

impl<S: Drop> Drop for ByHand<S> {
    fn drop(self) {
        let ByHand {
            alloc: _,
            queries: _queries,
            max_answer: _,
            limits: _,
            form: _form,
            is_refused: _,
            loaders: _,
            hand: _hand,
        } = self;
    }
}

impl<S> ClientSession<S> {
    ghost use Rattle.server.specs.Hands.{by_hand_of};

    /// Returns what was planned, to be answered in this client's session by hand. Nothing is done before the first call of
    /// [`advance`](ByHand::advance), and it takes no memory. What was planned by this client, or by another of its server, may be
    /// answered; [`can_answer`](ClientSession::can_answer) tells where that isn't known.
    ///
    /// # Headline
    ///
    /// `answered` of the two that advance, by `Responds` of `server/specs/Hands.antt`: the answer to what was
    /// planned is what `answer`, `answer_all` or `answer_text` answers to it (`AnswersAsked`), from the session
    /// that the client was handed in with to the one that it has now. `underway`: each call goes on from there, of
    /// `reply` if the reply is one that the order's source may give. `same` and `client`: the server and the
    /// limits stay. `plan`, `plan_all` and `plan_text` plan what is asked, within the client's limit (`planned`, by
    /// `PlansAsked`). Given up at any time: `stopped` of `ByHand::into_client`
    pub fn by_hand(self, planned: PlannedRequest) -> ByHand<S>
        requires { planned.loaders
            ≤ length self.session.loaders }
        ensures { result ≡ by_hand_of
            self planned handed }
    {
        let ClientSession {
            alloc,
            queries,
            session,
            max_answer,
            limits,
        } = self;
        let is_refused = planned.is_refused();
        let PlannedRequest {
            form,
            plans,
            loaders,
        } = planned;
        ByHand {
            alloc,
            queries,
            max_answer,
            limits,
            form,
            is_refused,
            loaders,
            hand: Hand::new(session, plans, limits),
        }
    }
}

impl<S> ByHand<S> {
    /// The server of the client.
    pub fn server(&self) -> &Server
        ensures { result.now ≡ self.now.client.server }
    {
        self.queries.server()
    }

    /// The orders of the round that is out, each with its reply once it has one. There are none where no round is out.
    pub fn orders(&self) -> &[Pending]
        ensures { result.now ≡ pending_in self.now.far }
    {
        self.hand.orders()
    }
}

impl<S: LocalSource> ByHand<S> {
    ghost use Rattle.server.specs.Hands.{AsksAndSteps, AsksAndStores, Ends, GivesUp, GoesOn, GoesOnIfMay, Nears, Responds, Steps, StoresReplies};

    /// Stores the round that is out, if each of its orders has a reply, and goes on over what is known then: returns the answer, or makes
    /// the next round. The first call begins. A request that is refused is answered by each call, and no round is made. Where what is asked is
    /// over a limit of the client by what is known then, the answer is the refusal of that, and no round more is made. Once the call has taken
    /// as many steps as the client's limit has ([`limit_steps`](ClientSession::limit_steps)) and some are left, it returns
    /// [`Progress::Working`]: nothing is asked, and it is to be called again. Such calls in a row come to an end (`working`).
    ///
    /// # Errors
    ///
    /// Only when out of memory: the finished rounds stay, and a round that was out is lost. It is over then, unless it is a request that is
    /// refused, which can be asked for again.
    ///
    /// # Headline
    ///
    /// As `ClientSession::by_hand` says
    pub fn advance(&mut self) -> Result<Progress<Answer>, AllocError>
        ensures stepped { IfOk result
            (Steps self.old self.new) }
        // What was given as the reply to an order is what is stored.
        ensures stored { IfOk result (λ did. OnStep did
            (StoresReplies self.old self.new.client)) }
        ensures ended { OnErr result
            (Ends self.old self.new) }
        ensures underway { GoesOn S.may_tell
            self.old self.new }
        ensures answered { IfOk result
            (Responds S.may_tell self.old self.new) }
        ensures working { IfOk result
            (Nears self.old self.new) }
        ensures same { IsSameClient
            self.old.client self.new.client }
        ensures planned { self.new.planned
            ≡ self.old.planned }
    {
        if !are_in(self.orders()) {
            return Ok(Progress::Waiting);
        }
        self.ask_and_advance()
    }

    /// Does what [`advance`](ByHand::advance) does, but asks the sources of the session for the orders without a reply. So it never waits.
    ///
    /// # Errors
    ///
    /// Those of [`advance`](ByHand::advance).
    ///
    /// # Headline
    ///
    /// As `ClientSession::by_hand` says
    pub fn ask_and_advance(&mut self) -> Result<Progress<Answer>, AllocError>
        ensures stepped { IfOk result
            (AsksAndSteps self.old self.new) }
        ensures stored { OnOk result
            (AsksAndStores S.may_tell self.old self.new.client) }
        ensures ended { OnErr result
            (Ends self.old self.new) }
        ensures underway { GoesOn S.may_tell
            self.old self.new }
        ensures answered { IfOk result
            (Responds S.may_tell self.old self.new) }
        ensures working { IfOk result
            (Nears self.old self.new) }
        ensures same { IsSameClient
            self.old.client self.new.client }
        ensures planned { self.new.planned
            ≡ self.old.planned }
    {
        let alloc = self.alloc;
        let form = &self.form;
        if self.is_refused {
            return Ok(Progress::Done(form.response(alloc, Vec::new(alloc))?));
        }
        let did = match self.hand.ask_and_advance() {
            Ok(did) => did,
            Err(HandFault::Over(overrun)) => {
                return Ok(Progress::Done(form.overrun(alloc, overrun)?));
            }
            Err(HandFault::NoMemory) => return Err(AllocError),
        };
        did.try_map(
            |answers: Vec<Answer>| -> Result<Answer, AllocError>
                ensures { IfOk result (MakesResponse form.entry.now.is_array
                    (refusals_in form.entry.now) answers) }
            { form.response(alloc, answers) },
        )
    }

    /// Replies to the order of this number in the round that is out, with items that came from elsewhere, or with a fault of the whole
    /// batch. A reply that hasn't an item for each key fails the batch.
    ///
    /// # Errors
    ///
    /// [`NoSuchOrder`](TakeFault::NoSuchOrder) and [`Replied`](TakeFault::Replied): nothing has changed then.
    /// [`NoMemory`](TakeFault::NoMemory) when out of memory, or where that is the reply: the round is lost, and it is over.
    ///
    /// # Headline
    ///
    /// As `ClientSession::by_hand` says
    pub fn reply(
        &mut self,
        number: usize,
        reply: Result<Vec<Item>, FetchFault>,
    ) -> Result<(), TakeFault>
        ensures refused { RefusesReply (pending_in self.old.far) number
            self.old self.new (IsOver self.new.far) result }
        ensures taken { OnOk result
            (TakesReply (pending_in self.old.far) number reply (pending_in self.new.far)) }
        // It is still as the sources may answer, if this reply is.
        ensures underway { OnOk result (IfSome (slice_get (pending_in self.old.far) number)
            (GoesOnIfMay S.may_tell reply self.old self.new)) }
        ensures stopped { OnErr result
            (GoesOn S.may_tell self.old self.new) }
        ensures client { self.new.client ≡ self.old.client }
        ensures planned { self.new.planned
            ≡ self.old.planned }
    {
        self.hand.reply(number, reply)
    }

    /// Gives up the round that is out, if one is: it is lost, and its batches stay in the logs as not stored. It is over then.
    pub fn give_up(&mut self)
        ensures out { pending_in self.new.far ≡ [] }
        ensures over { self.new.far ≡ given_up self.old.far }
        ensures underway { GoesOn S.may_tell
            self.old self.new }
        ensures client { self.new.client ≡ self.old.client }
        ensures planned { self.new.planned
            ≡ self.old.planned }
    {
        self.hand.give_up();
    }

    /// Gives the client back, whatever is done. The finished rounds stay in its session; a round that is out is lost, and its batches stay
    /// in the logs as not stored.
    pub fn into_client(self) -> ClientSession<S>
        ensures client { result ≡ self.client }
        ensures stopped { GivesUp S.may_tell
            self result }
    {
        let ByHand {
            alloc,
            queries,
            max_answer,
            limits,
            form: _form,
            is_refused: _,
            loaders: _,
            hand,
        } = self;
        ClientSession {
            alloc,
            queries,
            session: hand.into_session(),
            max_answer,
            limits,
        }
    }
}
