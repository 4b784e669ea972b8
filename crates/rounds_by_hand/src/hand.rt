//! Answers to several plans, in rounds by hand, with the session in which they are answered.
ghost use Rattle.std.specs.Prelude.{◌≡◌, [], slice_get, IfOk, IfErr, IfSome, IfNone, OnOk, OnErr};
ghost use Rattle.load_rounds.specs.Sessions.{state_of};

use crate::fault::{HandFault, TakeFault};
use crate::pending::{Pending, all_out, are_in, take_reply};
use crate::progress::Progress;
use crate::seen::Seen;
use crate::steps::store;
use execution::CountWork;
use load_memory::Item;
use load_queue::{FetchFault, LocalSource};
use load_rounds::{Ahead, Answer, Limits, Rounds, Session};
use std::alloc::AllocError;
use std::marker::Model;
use std::mem;

/// Says how far they are.
#[derive(Drop)]
pub(crate) enum Far<P, E> {
    /// Nothing is done yet of these plans.
    Handed(Vec<P>),
    /// A run that is ready to go on, no round of which is out: it has steps left.
    Ready(Box<Rounds<P, E>>),
    /// A round is out, with its orders. The run stays in its place from round to round.
    Out(Box<Rounds<P, E>>, Vec<Pending>),
    /// Nothing more can be done.
    Over,
}

/// Answers to several plans, which it owns, in rounds that they share and that the caller runs, with the session in which they are answered.
/// While they are under way, nothing else can change the session.
///
/// They have limits, together ([`Limits`]). Before each round the work over what is known is counted, up to the limit; where they are over
/// a limit, all are refused ([`HandFault::Over`]), and nothing more is asked.
///
/// It is used in turns. [`advance`](Hand::advance) returns the answers, or a new round is out: then the caller replies to each of the orders
/// ([`orders`](Hand::orders)) by its number, in any order ([`reply`](Hand::reply)), and advances again.
///
/// With `steps` in its limits a call returns [`Progress::Working`] after so many steps: nothing is asked then, and the call is to be made again.
/// Calls in a row come to an end, with the next round or the answers.
///
/// A contract sees the session, the plans, their limits, and how far they are. `Holds` of `specs/Hands.antt` is what each call needs and
/// keeps: the session has the loaders of each plan, as where they were begun, a run that is ready is of this session, and a round that is out
/// was asked within the limits. (No invariant of the type says it, since the type asks nothing of its parameters.) What was done in the
/// session since they were begun is `IsUnderway` of `specs/Hands.antt`: each call keeps it, and in the end it is the headline.
#[derive(Drop)]
pub struct Hand<S, P, E> {
    session: Session<S>,
    // The plans that were handed in, also once they are over and the plans are gone.
    plans: Seen<Vec<P>>,
    limits: Limits,
    far: Far<P, E>,
}

impl<S, P, E> Model for Hand<S, P, E> {
    ghost use Rattle.rounds_by_hand.specs.Hands.{HandOf, far_of, AreHanded};

    ghost Value = { HandOf S P E };

    ghost view = { λ h. record { session = h.session; plans = h.plans.value.items; limits = h.limits; far = far_of h.far } };

    ghost invariant = { λ h. AreHanded h.far h.plans.value.items };
}

impl<S, P, E> Hand<S, P, E> {
    ghost use Rattle.rounds_by_hand.specs.Hands.{hand_of, handed, pending_in};

    /// Answers to these plans in the session, within limits, of which nothing is done. It takes no memory. The session is to have the
    /// loaders of each plan, before the first call.
    pub fn new(session: Session<S>, plans: Vec<P>, limits: Limits) -> Hand<S, P, E>
        ensures { result ≡ hand_of session plans.items limits handed }
    {
        Hand {
            session,
            plans: Seen::of(&plans),
            limits,
            far: Far::Handed(plans),
        }
    }

    /// The orders of the round that is out, each with its reply once it has one. There are none where no round is out.
    pub fn orders(&self) -> &[Pending]
        ensures { result.now ≡ pending_in self.now.far }
    {
        match &self.far {
            Far::Out(_, pending) => pending,
            _ => &[],
        }
    }

    /// The session as it is: what is known, and each batch that was asked. A round that is out is in its logs as not stored.
    pub fn session(&self) -> &Session<S>
        ensures { result.now ≡ self.now.session }
    {
        &self.session
    }
}

impl<S: LocalSource, P: CountWork<E> + Drop, E: Drop> Hand<S, P, E> {
    ghost use Rattle.rounds_by_hand.specs.Hands.{Advances, AsksAndAdvances, AsksAndOverruns, AsksAndStores, AsksWithin, AnswersFrom, GoesOn, GoesOnIfMay, GivesUp, Holds, IsOver, KeepsHand, KeepsLoaders, KeepsSession, MayTurn, Nears, Overruns, Readies, StoresReplies, Turns, given_up, pending_in, with_run};
    ghost use Rattle.rounds_by_hand.specs.Progress.{OnStep};
    ghost use Rattle.rounds_by_hand.specs.Pending.{RefusesReply, TakesReply};

    /// Stores the round that is out, if each of its orders has a reply, and goes on over what is known: returns the answers, one for each
    /// plan in order, or makes the next round. The first call begins, and forgets failed batches.
    ///
    /// The answers and a round that is made are within the limits. The work is counted before each round, so a call takes time for as much
    /// work as the limit allows. With a limit on its steps it does so many, and while some are left it returns [`Working`](Progress::Working), each
    /// time with fewer than before (`working`): what the replies said is stored then, and nothing was asked.
    ///
    /// # Errors
    ///
    /// [`Over`](HandFault::Over) exactly if the answers are over a limit by what is known once the replies are stored: they are refused, and no
    /// round is made. [`NoMemory`](HandFault::NoMemory) when out of memory: the finished rounds stay, and a round that was out is lost. It is
    /// over then.
    pub fn advance(&mut self) -> Result<Progress<Vec<Answer>>, HandFault>
        requires { Holds P.program P.text_of P.loaders P.fits
            self.old.session self.old.plans self.old.limits self.old.far }
        ensures kept { KeepsHand P.program P.text_of P.loaders
            P.fits self.old self.new }
        ensures advanced { IfOk result
            (Advances self.old self.new) }
        ensures over { OnErr result (IsOver self.new.far) }
        ensures underway { GoesOn P.program
            P.text_of S.may_tell self.old self.new }
        ensures within { AsksWithin P.program
            P.text_of self.new }
        ensures answers { IfOk result
            (AnswersFrom P.program P.text_of S.may_tell self.old self.new) }
        ensures refused { IfErr result
            (Overruns P.program P.text_of S.may_tell self.old self.new) }
        ensures working { IfOk result
            (Nears P.left self.old self.new) }
        // What was given as the reply to an order is what is stored.
        ensures stored { IfOk result (λ did. OnStep did
            (StoresReplies self.old self.new)) }
    {
        if !are_in(self.orders()) {
            return Ok(Progress::Waiting);
        }
        self.ask_and_advance()
    }

    // A run that is ready to go on: that of plans of which nothing is done yet, the one that has steps left, or the one whose round was out, once
    // the replies to it are stored. None where they are over. They are over meanwhile.
    fn ready(&mut self) -> Result<Option<Box<Rounds<P, E>>>, AllocError>
        requires { Holds P.program P.text_of P.loaders P.fits
            self.old.session self.old.plans self.old.limits self.old.far }
        ensures ready { IfOk result (λ ready. IfSome ready (λ run.
            Readies P.program P.text_of S.may_tell P.loaders P.fits self.old self.new run.value)) }
        ensures none { IfOk result (λ ready. IfNone ready
            (IsOver self.old.far × (self.new ≡ self.old))) }
        ensures over { IsOver self.new.far }
        ensures plans { self.new.plans ≡ self.old.plans }
        ensures limits { self.new.limits ≡ self.old.limits }
        ensures loaders { KeepsLoaders (state_of self.old.session) (state_of self.new.session) }
        ensures stored { OnOk result
            (AsksAndStores S.may_tell self.old self.new) }
        ensures stopped { OnErr result (GoesOn P.program P.text_of S.may_tell self.old self.new) }
    {
        match mem::replace(&mut self.far, Far::Over) {
            Far::Over => Ok(None),
            Far::Handed(plans) => {
                let run = self.session.begin_all(plans)?;
                Ok(Some(Box::new(self.session.alloc(), run)?))
            }
            Far::Ready(run) => Ok(Some(run)),
            Far::Out(run, pending) => {
                let mut run = run;
                store(&mut self.session, &mut *run, pending)?;
                Ok(Some(run))
            }
        }
    }

    /// Does what [`advance`](Hand::advance) does, but asks the sources of the session for the orders without a reply. So it never waits.
    ///
    /// # Errors
    ///
    /// Those of [`advance`](Hand::advance).
    pub fn ask_and_advance(&mut self) -> Result<Progress<Vec<Answer>>, HandFault>
        requires { Holds P.program P.text_of P.loaders P.fits
            self.old.session self.old.plans self.old.limits self.old.far }
        ensures kept { KeepsHand P.program P.text_of P.loaders
            P.fits self.old self.new }
        ensures advanced { IfOk result
            (AsksAndAdvances self.old self.new) }
        ensures over { OnErr result (IsOver self.new.far) }
        ensures underway { GoesOn P.program
            P.text_of S.may_tell self.old self.new }
        ensures within { AsksWithin P.program
            P.text_of self.new }
        ensures answers { IfOk result
            (AnswersFrom P.program P.text_of S.may_tell self.old self.new) }
        ensures refused { IfErr result
            (AsksAndOverruns P.program P.text_of S.may_tell self.old self.new) }
        ensures stored { OnOk result
            (AsksAndStores S.may_tell self.old self.new) }
        ensures working { IfOk result
            (Nears P.left self.old self.new) }
    {
        let Some(run) = self.ready()? else {
            return Ok(Progress::Over);
        };
        let mut run = run;
        match run.step(&self.session, self.limits)? {
            Ahead::Over(excess) => Err(HandFault::Over(run.overrun(excess))),
            Ahead::Working => {
                self.far = Far::Ready(run);
                Ok(Progress::Working)
            }
            Ahead::Done => match self.turn(run)? {
                Some(answers) => Ok(Progress::Done(answers)),
                None => Ok(Progress::Round),
            },
        }
    }

    // Goes on with a run that is ready and within the limits: returns the answers, or nothing where a new round is out. They are over meanwhile.
    fn turn(&mut self, run: Box<Rounds<P, E>>) -> Result<Option<Vec<Answer>>, AllocError>
        requires { MayTurn P.program P.text_of S.may_tell P.loaders P.fits self.old run.value }
        ensures kept { KeepsHand P.program P.text_of P.loaders P.fits
            (with_run self.old run.value) self.new }
        ensures over { OnErr result (IsOver self.new.far) }
        ensures underway { GoesOn P.program P.text_of S.may_tell
            (with_run self.old run.value) self.new }
        ensures turned { IfOk result (Turns P.program P.text_of S.may_tell
            (with_run self.old run.value) self.new) }
    {
        let mut run = run;
        match run.advance(&mut self.session)? {
            None => Ok(Some(Box::into_inner(run).into_answers(self.session.alloc())?)),
            Some(orders) => {
                let pending = all_out(orders)?;
                self.far = Far::Out(run, pending);
                Ok(None)
            }
        }
    }

    /// Replies to the order of this number in the round that is out, with items that came from elsewhere, or with a fault of the whole
    /// batch. A reply that hasn't an item for each key fails the batch.
    ///
    /// # Errors
    ///
    /// [`NoSuchOrder`](TakeFault::NoSuchOrder) and [`Replied`](TakeFault::Replied): nothing has changed then.
    /// [`NoMemory`](TakeFault::NoMemory) when out of memory, or where that is the reply: the round is lost, and it is over.
    pub fn reply(
        &mut self,
        number: usize,
        reply: Result<Vec<Item>, FetchFault>,
    ) -> Result<(), TakeFault>
        requires { Holds P.program P.text_of P.loaders P.fits
            self.old.session self.old.plans self.old.limits self.old.far }
        ensures kept { KeepsSession P.program P.text_of P.loaders
            P.fits self.old self.new }
        ensures refused { RefusesReply (pending_in self.old.far) number
            self.old self.new (IsOver self.new.far) result }
        ensures taken { OnOk result
            (TakesReply (pending_in self.old.far) number reply (pending_in self.new.far)) }
        // It is still as the sources may answer, if this reply is.
        ensures underway { OnOk result (IfSome (slice_get (pending_in self.old.far) number)
            (GoesOnIfMay P.program P.text_of S.may_tell reply self.old self.new)) }
        ensures stopped { OnErr result (GoesOn P.program P.text_of S.may_tell self.old self.new) }
    {
        let Far::Out(_, pending) = &mut self.far else {
            return Err(TakeFault::NoSuchOrder);
        };
        match take_reply(pending, number, reply) {
            Ok(()) => Ok(()),
            Err(TakeFault::NoMemory) => {
                self.far = Far::Over;
                Err(TakeFault::NoMemory)
            }
            Err(TakeFault::NoSuchOrder) => Err(TakeFault::NoSuchOrder),
            Err(TakeFault::Replied) => Err(TakeFault::Replied),
        }
    }

    /// Gives up what is on its way: a round that is out, or a run that has steps left. It is over then. The finished rounds stay, and a round
    /// that was out is lost: its batches stay in the logs as not stored.
    pub fn give_up(&mut self)
        requires { Holds P.program P.text_of P.loaders P.fits
            self.old.session self.old.plans self.old.limits self.old.far }
        ensures kept { KeepsSession P.program P.text_of P.loaders
            P.fits self.old self.new }
        ensures out { pending_in self.new.far ≡ [] }
        ensures over { self.new.far ≡ given_up self.old.far }
        ensures underway { GoesOn P.program
            P.text_of S.may_tell self.old self.new }
    {
        match &self.far {
            Far::Handed(_) | Far::Over => {}
            Far::Ready(_) => self.far = Far::Over,
            Far::Out(_, _) => self.far = Far::Over,
        }
    }

    /// Gives the session back, whatever is done: the finished rounds stay, and a round that is out is lost. Its batches stay in the logs
    /// as not stored.
    pub fn into_session(self) -> Session<S>
        ensures session { result ≡ self.session }
        ensures stopped { GivesUp P.program
            P.text_of S.may_tell self result }
    {
        self.session
    }
}
