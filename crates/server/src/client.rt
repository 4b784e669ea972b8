//! The session of a client.

ghost use Rattle.std.specs.Prelude.{◌≡◌, ◌≤◌, ◌↔◌, true, None, All, length, IfOk, OnOk, OnErr};
ghost use Rattle.load_rounds.specs.Limits.{no_limits};
ghost use Rattle.load_rounds.specs.SharedRounds.{report_of};
ghost use Rattle.request_line.specs.Seen.{request_of, requests_of};
ghost use Rattle.server.specs.Answers.{AnswersRequest, StopsRequest};
ghost use Rattle.server.specs.Arrays.{AnswersArray, StopsArray};
ghost use Rattle.server.specs.Asked.{asked_of};
ghost use Rattle.server.specs.Clients.{HasLoaders, IsSameClient, begun, client_of};
ghost use Rattle.server.specs.Lines.{AnswersText, ServesLine, StopsLine, StopsText};
ghost use Rattle.server.specs.Planned.{AnswersAsked, PlansAsked, StopsAsked};

use crate::planned::PlannedRequest;
use crate::queries::Queries;
use crate::workers::Workers;
use load_queue::{LocalSource, Source};
use load_rounds::{Answer, Limits, Session};
use plan_requests::{Request, Server};
use std::alloc::{AllocError, Global};
use std::marker::Model;
use std::sync::Wait;
use std::thread::Threads;

/// Holds what a server keeps for one client: a loader for each `loader` line, one memory of what they returned, and its [`Queries`], so
/// that a request that comes again is neither parsed nor checked nor prepared again.
///
/// A request is answered over what the session knows, as with a DataLoader: what an earlier request of the client loaded isn't asked again.
/// [`restart`](ClientSession::restart) makes it forget.
///
/// A contract sees the server, the limits on answers, and the session.
#[derive(Drop)]
pub struct ClientSession<S> {
    pub(crate) alloc: Global,
    pub(crate) queries: Queries,
    pub(crate) session: Session<S>,
    pub(crate) max_answer: Option<usize>,
    pub(crate) limits: Limits,
}

impl<S> Model for ClientSession<S> {
    ghost use Rattle.std.specs.Coded.{codes};
    ghost use Rattle.gq_parser.specs.contracts.tree.TypeRef as type_ref;
    ghost use Rattle.gq_parser.specs.contracts.tree.Literal as literal;
    ghost use Rattle.server.specs.Clients.{ClientOf, HasLoaders, client_of};

    ghost Value = { ClientOf S };

    ghost coded = { Prim.hlevel (codes, type_ref.the_row.coded, literal.the_row.coded, S.code) };

    ghost view = { λ c. client_of c.queries c.max_answer c.limits c.session };

    ghost invariant = { λ c. HasLoaders c.queries c.session };
}

impl<S> ClientSession<S> {
    /// A session of a server's client, which has a loader for each `loader` line of the server's bindings, in order. Answers have no
    /// limit, nor have their work, their rounds and the steps of a call.
    pub fn new(alloc: Global, server: Server, session: Session<S>) -> ClientSession<S>
        requires { HasLoaders server session }
        ensures { result ≡ client_of server None no_limits session }
    {
        ClientSession {
            alloc,
            queries: Queries::new(server),
            session,
            max_answer: None,
            limits: Limits::none(),
        }
    }

    /// From now on the text of an answer has at most `most` bytes, that of each value of an array by itself. A longer one is refused with
    /// `answer too long`, and what is kept of it meanwhile is in proportion to the limit. Refusals aren't measured.
    ///
    /// The limit is for what may grow without bound: a refusal has at most one name of the query, and that of
    /// an answer 42 bytes.
    pub fn limit_answers(&mut self, most: Option<usize>)
        ensures { self.new ≡ client_of
            self.old.server most self.old.limits self.old.session }
    {
        self.max_answer = most;
    }

    /// Returns at most how many bytes the text of an answer has, if there is a limit ([`limit_answers`](ClientSession::limit_answers)).
    pub fn max_answer(&self) -> Option<usize>
        ensures { result ≡ self.now.most }
    {
        self.max_answer
    }

    /// From now on what is asked together may be at most `most` work: a request, or the requests of an array in sum. The work of a request
    /// is the number of positions of its answer: the response, its objects, lists and leaves, with nulls and faults, and each field that
    /// waits for a load. What is more is refused with `{"errors":[{"message":"too much work"}]}`; of an array each value is that has no
    /// refusal of its own.
    ///
    /// As more is known there is only more work. So it is refused as soon as what is known is over the limit, and nothing more is asked for
    /// it; the rounds until then are made, and what they brought stays known. An answer is within the limit. A plan is a position at
    /// least: with 0 each request is refused that has one, and nothing is asked. A request that is refused for a fault of its own has no
    /// plan, so that refusals aren't measured.
    ///
    /// The work is counted before each round, and no further than one position over the limit. So a refusal takes time for as much work as
    /// the limit, for each of its rounds, and not for what the answer would be. What is planned already is within the limit that the client
    /// has when it begins.
    pub fn limit_work(&mut self, most: Option<usize>)
        ensures { self.new ≡ client_of self.old.server self.old.most
            (record self.old.limits { work = most }) self.old.session }
    {
        self.limits.work = most;
    }

    /// From now on at most `most` rounds are made for what is asked together: for a request, or for the requests of an array, which share
    /// them. Where something is missing after as many, it is refused with `{"errors":[{"message":"too many rounds"}]}`; of an array each
    /// value is that has no refusal of its own.
    ///
    /// A round asks for all that is needed and missing. So this limits how many loads there are of which each needs the one before. With 0
    /// nothing is asked, and an answer is given where all that it needs is known. The rounds that were made stay known. What is over both
    /// limits is refused as too much work. Refusals aren't measured, as those of requests that have no plan.
    ///
    /// It takes time for executing the plans once more, where no round more may be made.
    pub fn limit_rounds(&mut self, most: Option<u32>)
        ensures { self.new ≡ client_of self.old.server self.old.most
            (record self.old.limits { rounds = most }) self.old.session }
    {
        self.limits.rounds = most;
    }

    /// Limits how many steps a call of [`ByHand::advance`](crate::ByHand::advance) takes, at least one: then it returns
    /// [`Progress::Working`](rounds_by_hand::Progress::Working), so that whoever runs an event loop can go on with something else. A step is a
    /// position that is counted, or a field or item that is written. Without a limit a call goes on to the next round or the answer. Answers in one
    /// call, and those by workers, aren't cut.
    pub fn limit_steps(&mut self, steps: Option<usize>)
        ensures { self.new ≡ client_of self.old.server self.old.most
            (record self.old.limits { steps = steps }) self.old.session }
    {
        self.limits.steps = steps;
    }

    /// Returns within which limits what is asked together is answered ([`limit_work`](ClientSession::limit_work),
    /// [`limit_rounds`](ClientSession::limit_rounds)), and how many steps a call takes ([`limit_steps`](ClientSession::limit_steps)).
    pub fn limits(&self) -> Limits
        ensures { result ≡ self.now.limits }
    {
        self.limits
    }

    /// The server.
    pub fn server(&self) -> &Server
        ensures server { result.now ≡ self.now.server }
        ensures loaders { HasLoaders
            self.now.server self.now.session }
    {
        self.queries.server()
    }

    /// The session: what is known, and each batch that was asked, with its round.
    pub fn session(&self) -> &Session<S>
        ensures { result.now ≡ self.now.session }
    {
        &self.session
    }

    /// Starts again: nothing is known of any key, the logs are empty, and no round was made. What is kept of requests stays. When out of
    /// memory, nothing is changed.
    pub fn restart(&mut self) -> Result<(), AllocError>
        ensures begun { OnOk result
            (self.new ≡ begun self.old) }
        ensures kept { OnErr result (self.new ≡ self.old) }
    {
        self.session.restart()
    }
}

impl<S> ClientSession<S> {
    ghost use Rattle.server.specs.Planned.{PlansAsked, one, several, text as asked_text};

    /// Returns what a request asks of this client: its plan, within the client's limit as it is now, or the text that refuses it. It is
    /// answered by hand ([`by_hand`](ClientSession::by_hand)) or as a future ([`into_answering`](ClientSession::into_answering)). Nothing
    /// is asked.
    ///
    /// # Errors
    ///
    /// Only when out of memory.
    pub fn plan(&mut self, request: &Request<'_>) -> Result<PlannedRequest, AllocError>
        ensures planned { IfOk result (PlansAsked self.old (one (request_of request.now))) }
        ensures fits { IfOk result (λ planned. planned.loaders ≤ length self.new.session.loaders) }
        ensures same { self.new ≡ self.old }
    {
        self.queries.plan(self.alloc, request, self.max_answer)
    }

    /// Returns what the requests of an array ask, of which `None` is a value that is no request. Each is planned or refused, as
    /// [`plan`](ClientSession::plan) does it.
    ///
    /// # Errors
    ///
    /// Only when out of memory.
    pub fn plan_all(
        &mut self,
        requests: &[Option<Request<'_>>],
    ) -> Result<PlannedRequest, AllocError>
        ensures planned { IfOk result (PlansAsked self.old (several (requests_of requests.now))) }
        ensures fits { IfOk result (λ planned. planned.loaders ≤ length self.new.session.loaders) }
        ensures same { self.new ≡ self.old }
    {
        self.queries.plan_all(self.alloc, requests, self.max_answer)
    }

    /// Returns what a request that is JSON text asks, or an array of 1 to 16, as [`answer_text`](ClientSession::answer_text) takes it. What
    /// is neither is refused with `not a request`.
    ///
    /// # Errors
    ///
    /// Only when out of memory.
    pub fn plan_text(&mut self, text: &[u8]) -> Result<PlannedRequest, AllocError>
        ensures planned { IfOk result
            (PlansAsked self.old (asked_text text.now)) }
        ensures fits { IfOk result (λ planned. planned.loaders ≤ length self.new.session.loaders) }
        ensures same { self.new ≡ self.old }
    {
        self.queries.plan_text(self.alloc, text, self.max_answer)
    }

    /// Tells whether this client's session has the loaders of what was planned. It has those of what it planned itself, and of what was
    /// planned by another client of its server.
    pub fn can_answer(&self, planned: &PlannedRequest) -> bool
        ensures { (result ≡ true) ↔ (planned.now.loaders
            ≤ length self.now.session.loaders) }
    {
        planned.loaders() <= self.session.loaders().len()
    }
}

/// What a client is asked: a request, several, or text that may be either.
#[derive(Clone, Copy)]
pub enum RequestInput<'i> {
    /// A request, as [`ClientSession::answer`] takes it.
    One(&'i Request<'i>),
    /// An array of requests, as [`ClientSession::answer_all`] takes it.
    Several(&'i [Option<Request<'i>>]),
    /// JSON text, as [`ClientSession::answer_text`] takes it.
    Text(&'i [u8]),
}

impl<S> ClientSession<S> {
    // Returns what is asked of this client, planned.
    fn plan_asked(&mut self, asked: RequestInput<'_>) -> Result<PlannedRequest, AllocError>
        ensures planned { IfOk result (PlansAsked self.old (asked_of asked.entry)) }
        ensures fits { IfOk result (λ planned. planned.loaders ≤ length self.new.session.loaders) }
        ensures same { self.new ≡ self.old }
    {
        match asked {
            RequestInput::One(request) => self.plan(request),
            RequestInput::Several(requests) => self.plan_all(requests),
            RequestInput::Text(text) => self.plan_text(text),
        }
    }
}

impl<S: LocalSource> ClientSession<S> {
    // The response to what is asked, by this thread.
    fn respond(&mut self, asked: RequestInput<'_>) -> Result<Answer, AllocError>
        ensures answered { IfOk result (λ answer. AnswersAsked S.may_tell
            self.old (asked_of asked.entry) (report_of answer) self.new.session) }
        ensures stopped { OnErr result
            (StopsAsked S.may_tell self.old (asked_of asked.entry) self.new.session) }
        ensures same { IsSameClient self.old self.new }
    {
        let planned = self.plan_asked(asked)?;
        if planned.is_refused() {
            return planned.form.response(self.alloc, Vec::new(self.alloc));
        }
        let PlannedRequest { form, plans, .. } = planned;
        let given = self.session.answer_all_within(plans, self.limits)?;
        form.respond(self.alloc, given)
    }

    /// The response to a request: the refusal of its first fault, with its message and its place, for which nothing was asked; or the
    /// answer of its plan, which has data or errors or both (section 7.1 of the GraphQL specification of October 2021); or the refusal of a
    /// plan that is over a limit ([`limit_work`](ClientSession::limit_work), [`limit_rounds`](ClientSession::limit_rounds)).
    ///
    /// # Errors
    ///
    /// Only when out of memory: the finished rounds stay, and a round that was out is lost (`stopped`). The
    /// server and the limits are the same (`same`). Documents that were kept may have been let go, which no
    /// clause shows and which changes no answer.
    ///
    /// # Headline
    ///
    /// `answered`, by `AnswersRequest`: the request is refused for its first fault and the session is as it was; or
    /// its plan was answered in that session, from `self.old` to `self.new`, with `Headline`, and the loads that it
    /// read are counted (`AnswersPlan` of `server/specs/Answers.antt`). Where the client has a limit, the text is the
    /// *Limited text*. Where it limits work or rounds, the answer is within these, or it is over one of them and
    /// refused, with the rounds that were made on record (`AreRefused`). Out of memory, `stopped`, by `StopsRequest`
    pub fn answer(&mut self, request: &Request<'_>) -> Result<Answer, AllocError>
        ensures answered { IfOk result (λ answer. AnswersRequest S.may_tell
            self.old (request_of request.now) (report_of answer) self.new.session) }
        ensures stopped { OnErr result
            (StopsRequest S.may_tell self.old (request_of request.now) self.new.session) }
        ensures same { IsSameClient self.old self.new }
    {
        self.respond(RequestInput::One(request))
    }

    /// The response to an array of requests, of which `None` is a value that is no request: an array of the response to each, in order.
    /// They are answered in rounds that they share, so that what several need is asked once.
    ///
    /// # Errors
    ///
    /// Those of [`answer`](ClientSession::answer).
    ///
    /// # Headline
    ///
    /// `answered`, by `AnswersArray`: each value has its refusal or its answer in its place, and all plans were
    /// answered in that session with `SharedHeadline`, or refused where together they are over a limit
    /// (`AreGiven`); the loads of all are counted; out of memory, `stopped`
    pub fn answer_all(&mut self, requests: &[Option<Request<'_>>]) -> Result<Answer, AllocError>
        ensures answered { IfOk result (λ answer. AnswersArray S.may_tell self.old
            (requests_of requests.now) (report_of answer) self.new.session) }
        ensures stopped { OnErr result
            (StopsArray S.may_tell self.old (requests_of requests.now) self.new.session) }
        ensures same { IsSameClient self.old self.new }
    {
        self.respond(RequestInput::Several(requests))
    }

    /// The response to a request that is JSON text, or to an array of 1 to 16: an object with the members `query`, `operationName` and
    /// `variables`, as clients send it. What is neither is refused with `not a request`.
    ///
    /// # Errors
    ///
    /// Those of [`answer`](ClientSession::answer).
    ///
    /// # Headline
    ///
    /// `answered`, by `AnswersText`: the text is no request, or is answered by `AnswersRequest` or `AnswersArray`;
    /// out of memory, `stopped`
    pub fn answer_text(&mut self, text: &[u8]) -> Result<Answer, AllocError>
        ensures answered { IfOk result (λ answer.
            AnswersText S.may_tell self.old text.now (report_of answer) self.new.session) }
        ensures stopped { OnErr result (StopsText S.may_tell self.old text.now self.new.session) }
        ensures same { IsSameClient self.old self.new }
    {
        self.respond(RequestInput::Text(text))
    }

    /// Starts again ([`restart`](ClientSession::restart)), and answers a line as [`answer_text`](ClientSession::answer_text) answers a
    /// text: the line sees nothing of what another loaded.
    ///
    /// # Errors
    ///
    /// Only when out of memory: the session is as it was, or has started again and is then as after
    /// [`answer_text`](ClientSession::answer_text) (`stopped`, by `StopsLine`).
    ///
    /// # Headline
    ///
    /// `served`, by `ServesLine`: the session starts again, and then the line is answered in it (`AnswersText`); out of
    /// memory, `stopped`
    pub fn answer_line(&mut self, line: &[u8]) -> Result<Answer, AllocError>
        ensures served { IfOk result (λ answer.
            ServesLine S.may_tell self.old line.now (report_of answer) self.new) }
        ensures stopped { OnErr result
            (StopsLine S.may_tell self.old line.now self.new) }
    {
        self.restart()?;
        self.answer_text(line)
    }
}

impl<S: Source> ClientSession<S> {
    /// The response to what is asked, as [`answer`](ClientSession::answer), [`answer_all`](ClientSession::answer_all) or
    /// [`answer_text`](ClientSession::answer_text) gives it; workers run the batches of each round. Of a request, an array and text
    /// `AnswersAsked` and `StopsAsked` are, by computing, what these calls say of it.
    ///
    /// # Errors
    ///
    /// Those of [`answer`](ClientSession::answer).
    ///
    /// # Headline
    ///
    /// `answered`, by `AnswersAsked`: it is answered by `AnswersRequest`, `AnswersArray` or `AnswersText`, as
    /// `answer`, `answer_all` and `answer_text` say; out of memory, `stopped`
    pub fn answer_with<R: Threads + Wait + Sync>(
        &mut self,
        workers: &Workers<'_, R>,
        asked: RequestInput<'_>,
    ) -> Result<Answer, AllocError>
        ensures answered { IfOk result (λ answer. AnswersAsked S.may_answer
            self.old (asked_of asked.entry) (report_of answer) self.new.session) }
        ensures stopped { OnErr result
            (StopsAsked S.may_answer self.old (asked_of asked.entry) self.new.session) }
        ensures same { IsSameClient self.old self.new }
    {
        let planned = self.plan_asked(asked)?;
        if planned.is_refused() {
            return planned.form.response(self.alloc, Vec::new(self.alloc));
        }
        let PlannedRequest { form, plans, .. } = planned;
        let given = workers.answer_all(&mut self.session, plans, self.limits)?;
        form.respond(self.alloc, given)
    }

    /// Starts again, and answers a line as [`answer_line`](ClientSession::answer_line) does; workers run the batches of each round.
    ///
    /// # Errors
    ///
    /// Those of [`answer_line`](ClientSession::answer_line).
    ///
    /// # Headline
    ///
    /// As `ClientSession::answer_line` says
    pub fn answer_line_with<R: Threads + Wait + Sync>(
        &mut self,
        workers: &Workers<'_, R>,
        line: &[u8],
    ) -> Result<Answer, AllocError>
        ensures served { IfOk result (λ answer.
            ServesLine S.may_answer self.old line.now (report_of answer) self.new) }
        ensures stopped { OnErr result
            (StopsLine S.may_answer self.old line.now self.new) }
    {
        self.restart()?;
        self.answer_with(workers, RequestInput::Text(line))
    }
}
