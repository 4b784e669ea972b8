//! The answering future: one round per poll.
//!
//! The layer above may rely on this: after an executor has run the future, its output is what `answer` says of the
//! session that was handed in (`gives`, which is `Answers` for a new future). A poll that is pending has run exactly one
//! round and has asked for the next poll, and there are no more such polls than the load chain is long; so the future is ready after at
//! most one poll more.
//!
//! A future states what its output will be by its own state, and a pending poll has to show that the new
//! promise implies the old one. So a future that has made rounds promises its output for whichever state these
//! began from (`Gives`). That the session has the plan's loaders is required where the future is polled, and
//! not where it is made.
ghost use Rattle.std.specs.Prelude.{◌≡◌, ◌≢◌};
ghost use Rattle.futures.specs.Poll.{IfReady, OnPending};
ghost use Rattle.futures.specs.Task.{Keeps};

use crate::answer::Answer;
use crate::lent::Lent;
use crate::rounds::Rounds;
use crate::session::Session;
use execution::Execute;
use futures::Future;
use futures::task::{Context, Poll};
use load_queue::LocalSource;
use std::alloc::AllocError;
use std::marker::Model;
use std::mem;

/// Says how far an answering future is.
#[derive(Drop)]
enum Far<'p, S, P, E> {
    /// It wasn't polled yet.
    Unpolled(Session<S>),
    /// It has made a round per poll.
    Polled(Session<S>, Rounds<Lent<'p, P>, E>),
    /// It has answered, and has returned the session.
    Over,
}

/// A future of an answer, made by [`Session::into_answering`]. Each poll makes one round in turn and asks to be polled
/// again. The poll that finds nothing missing returns the session with the answer. It isn't polled after that.
///
/// It keeps one run of the plan from poll to poll. A contract sees what is executed, and how far it is.
///
/// The progress `E` of the run is a parameter of the type, since that it fits the session is part of what a poll requires and
/// ensures again (`CanPoll`).
#[derive(Drop)]
pub struct Answering<'p, S, P, E> {
    plan: &'p P,
    far: Far<'p, S, P, E>,
}

impl<'p, S, P, E> Model for Answering<'p, S, P, E> {
    ghost use Rattle.load_rounds.specs.Answerings.{AnsweringOf, far_of};

    ghost Value = { AnsweringOf S P E };

    ghost view = { λ a. record { plan = a.plan.now; far = far_of a.far } };
}

impl<S> Session<S> {
    ghost use Rattle.load_rounds.specs.Answerings.{handed};

    /// Answers a plan as [`answer`](Session::answer) does, one round per poll, where the session has the plan's loaders.
    /// Nothing is done before the first poll. It takes no memory.
    ///
    /// # Errors
    ///
    /// None of this call. A poll that is out of memory is ready, with the session and the fault, as after
    /// [`answer`](Session::answer) (`gives`). A future that is dropped before it is ready takes its session
    /// with it.
    ///
    /// # Headline
    ///
    /// `gives` of the future that it returns: `Answers`, which is what both clauses of `answer` say
    pub fn into_answering<'p, E, P: Execute<E>>(self, plan: &'p P) -> Answering<'p, S, P, E>
        ensures { result ≡ record { plan = plan.now; far = handed self } }
    {
        Answering {
            plan,
            far: Far::Unpolled(self),
        }
    }
}

impl<'p, S: LocalSource, P, E> Far<'p, S, P, E> {
    ghost use Rattle.load_rounds.specs.Answerings.{CanPoll, StartsPoll, far_of, over};

    // The session and the run with which the next poll begins. At first failed batches are forgotten.
    fn begin(self, plan: &'p P) -> (Session<S>, Rounds<Lent<'p, P>, E>)
    where
        P: Execute<E>,
        requires { CanPoll P.program P.text_of P.loaders
            P.fits S.may_tell plan.now (far_of self) }
        ensures { StartsPoll P.program P.text_of P.loaders
            P.fits S.may_tell plan.now (far_of self.entry) result.0 result.1 }
    {
        match self {
            Far::Unpolled(mut session) => {
                let rounds = session.begin(plan);
                (session, rounds)
            }
            Far::Polled(session, rounds) => (session, rounds),
            Far::Over => unreachable!(),
        }
    }
}

impl<'p, S: LocalSource + Drop, E: Drop, P: Execute<E> + Drop> Future for Answering<'p, S, P, E> {
    ghost use Rattle.load_rounds.specs.Answerings.{CanPoll, Gives, GivesNoMore, Polls};

    type Output = (Session<S>, Result<Answer, AllocError>);

    ghost can_poll = { λ a. CanPoll P.program P.text_of P.loaders P.fits S.may_tell a.plan a.far };

    ghost gives = { λ a out. Gives P.program P.text_of S.may_tell a.plan a.far out };

    ghost needs = { λ a s. ⊥ };

    // Leaves out the trait's clause `registered`, which follows from `polled`.
    fn poll(&mut self, cx: &mut Context<'_>) -> Poll<(Session<S>, Result<Answer, AllocError>)>
        requires { CanPoll P.program P.text_of P.loaders P.fits S.may_tell self.old.plan self.old.far }
        ensures value { IfReady result
            (Gives P.program P.text_of S.may_tell self.old.plan self.old.far) }
        ensures again { OnPending result (CanPoll P.program P.text_of P.loaders P.fits
            S.may_tell self.new.plan self.new.far) }
        ensures same { OnPending result
            (GivesNoMore P.program P.text_of S.may_tell self.old self.new) }
        ensures kept { Keeps cx.old cx.new }
        ensures polled { Polls S.may_tell (P.program self.old.plan)
            self.old self.new cx.new.is_woken result }
    {
        let far = mem::replace(&mut self.far, Far::Over);
        let (mut session, mut rounds) = far.begin(self.plan);
        match rounds.turn(&mut session) {
            Ok(true) => {
                self.far = Far::Polled(session, rounds);
                cx.yield_now()
            }
            Ok(false) => match rounds.into_answer() {
                Some(answer) => Poll::Ready((session, Ok(answer))),
                None => unreachable!(),
            },
            Err(fault) => Poll::Ready((session, Err(fault))),
        }
    }
}
