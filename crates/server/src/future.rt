//! Answers as futures.

ghost use Rattle.std.specs.Prelude.{◌≡◌, ◌≤◌, length, true, Some, IsSome, IfSome};
ghost use Rattle.futures.specs.Poll.{IfReady, OnPending};
ghost use Rattle.futures.specs.Task.{Keeps};
ghost use Rattle.rounds_by_hand.specs.Hands.{handed};

use crate::by_hand::ByHand;
use crate::client::ClientSession;
use crate::planned::PlannedRequest;
use futures::Future;
use futures::task::{Context, Poll};
use load_queue::LocalSource;
use load_rounds::Answer;
use std::alloc::AllocError;

/// A future of an answer, which owns its client meanwhile. Its output is the client and the answer, or that memory ran out. Each poll
/// makes one round at most, over the sources of the session, or takes as many steps as the client's limit has
/// ([`limit_steps`](ClientSession::limit_steps)), and asks to be polled again; the first one begins. A request that is refused is answered by
/// the first poll.
pub struct ClientAnswering<S> {
    by_hand: Option<ByHand<S>>,
}

impl<S: Drop> Drop for ClientAnswering<S> {
    fn drop(self) {
        let ClientAnswering { by_hand: _by_hand } = self;
    }
}

impl<S> ClientSession<S> {
    ghost use Rattle.server.specs.Hands.{by_hand_of, CanPoll};

    /// The answer to what was planned, as a future. Nothing is done before the first poll, and it takes no memory. Its output says what
    /// [`answer`](ClientSession::answer) says, of this client as it is handed in.
    ///
    /// # Errors
    ///
    /// None of this call. A poll that is out of memory is ready, with the client and the fault, as after
    /// [`into_client`](crate::ByHand::into_client) (`value`). A future that is dropped before it is ready takes
    /// its client with it.
    ///
    /// # Headline
    ///
    /// `value` of the future's `poll`, by `Gives`: the client is handed back with that answer, or with what stays
    /// where memory ran out
    pub fn into_answering(self, planned: PlannedRequest) -> ClientAnswering<S>
        requires { planned.loaders
            ≤ length self.session.loaders }
        ensures begun { result.by_hand
            ≡ Some (by_hand_of self planned handed) }
        ensures can { CanPoll result.by_hand }
    {
        ClientAnswering {
            by_hand: Some(self.by_hand(planned)),
        }
    }
}

impl<S: LocalSource> ClientAnswering<S> {
    ghost use Rattle.server.specs.Hands.{GivesUp};

    // Takes the client out, which is handed in until then.
    fn take_client(&mut self) -> ClientSession<S>
        requires { IsSome self.old.by_hand }
        ensures client { IfSome self.old.by_hand
            (λ b. result ≡ b.client) }
        ensures stopped { IfSome self.old.by_hand
            (λ b. GivesUp S.may_tell b result) }
    {
        let Some(by_hand) = self.by_hand.take() else {
            unreachable!()
        };
        by_hand.into_client()
    }
}

impl<S: LocalSource + Drop> Future for ClientAnswering<S> {
    ghost use Rattle.server.specs.Hands.{CanPoll, Gives};

    type Output = (ClientSession<S>, Result<Answer, AllocError>);

    ghost can_poll = { λ a. CanPoll a.by_hand };

    ghost gives = { λ a out. Gives S.may_tell a.by_hand out };

    ghost needs = { λ a s. ⊥ };

    // Leaves out the trait's clause `registered`, which follows from `yielded`.
    fn poll(&mut self, cx: &mut Context<'_>) -> Poll<(ClientSession<S>, Result<Answer, AllocError>)>
        requires { CanPoll self.old.by_hand }
        ensures value { IfReady result
            (λ out. Gives S.may_tell self.old.by_hand out) }
        ensures again { OnPending result
            (CanPoll self.new.by_hand) }
        ensures same { OnPending result ((out : _) → Gives S.may_tell self.new.by_hand out
            → Gives S.may_tell self.old.by_hand out) }
        ensures kept { Keeps cx.old cx.new }
        ensures yielded { OnPending result
            (cx.new.is_woken ≡ true) }
    {
        let Some(by_hand) = &mut self.by_hand else {
            unreachable!()
        };
        match by_hand.ask_and_advance() {
            Ok(progress) => match progress.into_done() {
                Some(answer) => Poll::Ready((self.take_client(), Ok(answer))),
                // It never waits, and it isn't over before it has answered: its next round is out, or steps are left.
                None => cx.yield_now(),
            },
            Err(fault) => Poll::Ready((self.take_client(), Err(fault))),
        }
    }
}
