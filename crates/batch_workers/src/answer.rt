//! Answers with workers: round after round until nothing is missing, each by workers over a shelf of its own.
//! Where the answers are over a limit, no round more is made.
//!
//! An answer is a run of `load_rounds`, which starts no threads, and takes the session's allocator. A
//! shelf goes with its round, so that no receipt of an earlier round is on it; the memory copies outcomes from
//! it.
ghost use Rattle.std.specs.Prelude.{◌≡◌, ◌<◌, ◌≤◌, ◌↔◌, ◌∷◌, [], length, IfOk, IfErr, OnOk, IsErrOf};
ghost use Rattle.load_rounds.specs.Sessions.{state_of};
ghost use Rattle.load_rounds.specs.ByHand.{AwaitsReplies, RunsAsked};
ghost use Rattle.load_rounds.specs.Limits.{AsksInTime, EndsWithin};
ghost use Rattle.load_rounds.specs.SharedRounds.{request_of};
ghost use Rattle.load_rounds.specs.Runs.{GoesOnFrom, Holds, program_of};
ghost use Rattle.load_rounds.specs.Executions.{plans_in};
ghost use Rattle.batch_workers.specs.Workers.{AnswersWithin, IsBadCount, Overruns, Stops, AreOrdersIn};

use crate::fault::WorkFault;
use crate::round::{MOST_WORKERS, run_round};
use execution::{CountWork, Execute};
use load_memory::Shelf;
use load_queue::{Order, Source};
use load_rounds::{Answer, Excess, Limits, Rounds, Session, Stage};
use std::alloc::AllocError;
use std::sync::Wait;
use std::thread::Threads;

/// Answers a plan within limits as [`Session::answer_within`] does, where the session has the plan's loaders; the batches of each
/// round are run by this many workers at the same time, 1 to 16. The calling thread is one of them, and a round of one batch starts
/// no thread. All workers have ended when it returns.
///
/// # Errors
///
/// [`BadCount`](WorkFault::BadCount) exactly if the number of workers isn't 1 to 16: nothing was asked then, and the session is
/// as it was, failed batches too. [`Over`](WorkFault::Over) where the answer is over a limit: it is refused as soon as it is, by what is
/// known, and nothing is asked then; the rounds that were made stay. [`NoMemory`](WorkFault::NoMemory) when out of memory: the finished
/// rounds stay, and a round that was out is lost.
///
/// # Headline
///
/// `answer`, within the limits; refused for one of them, `over`: the rounds that were made are lawful; out of memory, `stopped`; any
/// number of workers but 1 to 16 is refused, and nothing changes (`bad_count`, `refused`)
pub fn answer_with<S: Source, E: Drop, P: CountWork<E>, R: Threads + Wait + Sync>(
    rt: &R,
    session: &mut Session<S>,
    plan: &P,
    limits: Limits,
    workers: usize,
) -> Result<Answer, WorkFault>
    requires loaders { P.loaders plan.now
        ≤ length session.old.loaders }
    ensures bad_count { IsErrOf result WorkFault.BadCount
        ↔ IsBadCount workers }
    ensures refused { IsErrOf result WorkFault.BadCount
        → session.new ≡ session.old }
    ensures answer { IfOk result (AnswersWithin S.may_answer session.old session.new limits
        (request_of (P.program plan.now) (P.text_of plan.now))) }
    ensures over { IfErr result (Overruns S.may_answer session.old session.new limits
        (request_of (P.program plan.now) (P.text_of plan.now) ∷ [])) }
    ensures stopped { IsErrOf result WorkFault.NoMemory
        → Stops S.may_answer session.old session.new (P.program plan.now) }
{
    if workers == 0 || workers > MOST_WORKERS {
        return Err(WorkFault::BadCount);
    }
    let mut rounds = session.begin(plan);
    if let Some(excess) = run(rt, session, &mut rounds, limits, workers)? {
        return Err(WorkFault::Over(rounds.overrun(excess)));
    }
    match rounds.into_answer() {
        Some(answer) => Ok(answer),
        None => unreachable!(),
    }
}

/// Makes round after round until nothing is missing, or until the answers are over a limit, which it returns.
pub(crate) fn run<S: Source, E: Drop, P: CountWork<E>, R: Threads + Wait + Sync>(
    rt: &R,
    session: &mut Session<S>,
    rounds: &mut Rounds<P, E>,
    limits: Limits,
    workers: usize,
) -> Result<Option<Excess>, AllocError>
    requires count { (0 < workers) × (workers ≤ 16) }
    requires ready { (rounds.old.stage ≡ Stage.Ready) × (rounds.old.rounds ≡ 0) }
    requires holds { Holds P.program P.text_of P.loaders P.fits rounds.old session.old }
    ensures ended { IfOk result (EndsWithin P.program P.text_of limits
        rounds.new (state_of session.new)) }
    ensures in_time { OnOk result (AsksInTime P.program P.text_of S.may_answer limits
        (state_of session.old) (state_of session.new) rounds.old rounds.new) }
    ensures run { GoesOnFrom P.program P.text_of S.may_answer
        (state_of session.old) (state_of session.new) rounds.old rounds.new }
    ensures plans { plans_in rounds.new.parts ≡ plans_in rounds.old.parts }
{
    loop {
        if let Some(excess) = rounds.excess(session, limits)? {
            return Ok(Some(excess));
        }
        let Some(orders) = rounds.advance(session)? else {
            return Ok(None);
        };
        make_round(rt, session, rounds, orders, workers)?;
    }
}

// Runs the orders of the round that is out, and stores their replies.
fn make_round<S: Source, E, P: Execute<E>, R: Threads + Wait + Sync>(
    rt: &R,
    session: &mut Session<S>,
    rounds: &mut Rounds<P, E>,
    orders: Vec<Order>,
    workers: usize,
) -> Result<(), AllocError>
    requires count { (0 < workers) × (workers ≤ 16) }
    requires out { AwaitsReplies (program_of P.program P.text_of rounds.old)
        rounds.old.stage (state_of session.old) }
    requires orders { AreOrdersIn (state_of session.old)
        (program_of P.program P.text_of rounds.old) orders.items }
    requires holds { Holds P.program P.text_of P.loaders P.fits rounds.old session.old }
    ensures made { OnOk result (rounds.new ≡ record rounds.old { stage = Stage.Ready }) }
    ensures ran { OnOk result (RunsAsked S.may_answer (program_of P.program P.text_of rounds.old)
        (state_of session.old) (state_of session.new)) }
    ensures holds { Holds P.program P.text_of P.loaders P.fits rounds.new session.new }
    ensures run { GoesOnFrom P.program P.text_of S.may_answer
        (state_of session.old) (state_of session.new) rounds.old rounds.new }
    ensures plans { plans_in rounds.new.parts ≡ plans_in rounds.old.parts }
{
    let alloc = *orders.allocator();
    let shelf = Shelf::new(alloc)?;
    let receipts = run_round(rt, alloc, session.loaders(), &shelf, orders, workers)?;
    rounds.take(session, &shelf, receipts.as_slice())
}
