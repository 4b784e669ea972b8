//! How the replies to a round are stored, on the parts of a hand.
ghost use Rattle.std.specs.Prelude.{◌≡◌, OnOk, OnErr};
ghost use Rattle.load_rounds.specs.Sessions.{state_of};
ghost use Rattle.load_rounds.specs.Runs.{Holds};
ghost use Rattle.rounds_by_hand.specs.Hands.{IsOutWith, KeepsLoaders, GoesOnIfReplied, RunsIfReplied};
ghost use Rattle.rounds_by_hand.specs.Stored.{StoresRound};

use crate::pending::{Pending, replies_to};
use execution::Execute;
use load_queue::LocalSource;
use load_rounds::{Rounds, Session, Stage};
use std::alloc::AllocError;

/// Stores the replies to the round that is out. The sources are asked for the orders without one.
pub(crate) fn store<E: Drop, P: Execute<E> + Drop, S: LocalSource>(
    session: &mut Session<S>,
    run: &mut Rounds<P, E>,
    pending: Vec<Pending>,
) -> Result<(), AllocError>
    requires out { IsOutWith P.program P.text_of
        (state_of session.old) run.old pending.items }
    requires holds { Holds P.program P.text_of P.loaders P.fits run.old session.old }
    ensures ready { OnOk result
        (run.new ≡ record run.old { stage = Stage.Ready }) }
    ensures holds { OnOk result
        (Holds P.program P.text_of P.loaders P.fits run.new session.new) }
    ensures ran { OnOk result (GoesOnIfReplied P.program P.text_of
        S.may_tell session.old run.old session.new pending.items run.new) }
    ensures in_one { OnOk result (RunsIfReplied P.program P.text_of
        S.may_tell session.old run.old session.new pending.items) }
    ensures lost { OnErr result
        (state_of session.new ≡ state_of session.old) }
    ensures loaders { KeepsLoaders
        (state_of session.old) (state_of session.new) }
    ensures stored { OnOk result (StoresRound S.may_tell
        session.old session.new pending.items) }
{
    let replies = replies_to(pending, session.loaders())?;
    run.take_owned(session, replies)?;
    Ok(())
}
