//! Answers to several plans with workers, in rounds that the plans share.
ghost use Rattle.std.specs.Prelude.{◌≡◌, ◌≤◌, ◌↔◌, All, length, IfOk, IfErr, IsErrOf};
ghost use Rattle.load_rounds.specs.SharedRounds.{requests, joint};
ghost use Rattle.batch_workers.specs.Workers.{AnswersAllWithin, IsBadCount, Overruns, Stops};

use crate::answer::run;
use crate::fault::WorkFault;
use crate::round::MOST_WORKERS;
use execution::CountWork;
use load_queue::Source;
use load_rounds::{Answer, Limits, Session};
use std::sync::Wait;
use std::thread::Threads;

/// Answers several plans within limits as [`Session::answer_all_within`] does, where the session has the plans' loaders; the batches of
/// each round are run by this many workers at the same time, 1 to 16. The calling thread is one of them, and a round of one batch
/// starts no thread. All workers have ended when it returns.
///
/// # Errors
///
/// Those of [`answer_with`](crate::answer_with).
///
/// # Headline
///
/// `answers`, `over`, `stopped`, `bad_count` and `refused`, as `answer_with`
pub fn answer_all_with<S: Source, E: Drop, P: CountWork<E> + Drop, R: Threads + Wait + Sync>(
    rt: &R,
    session: &mut Session<S>,
    plans: Vec<P>,
    limits: Limits,
    workers: usize,
) -> Result<Vec<Answer>, WorkFault>
    requires loaders { All (λ plan. P.loaders plan
        ≤ length session.old.loaders) plans.items }
    ensures bad_count { IsErrOf result WorkFault.BadCount
        ↔ IsBadCount workers }
    ensures refused { IsErrOf result WorkFault.BadCount
        → session.new ≡ session.old }
    ensures answers { IfOk result (AnswersAllWithin S.may_answer session.old session.new limits
        (requests P.program P.text_of plans.items)) }
    ensures over { IfErr result (Overruns S.may_answer session.old session.new limits
        (requests P.program P.text_of plans.items)) }
    ensures stopped { IsErrOf result WorkFault.NoMemory
        → Stops S.may_answer session.old session.new (joint P.program P.text_of plans.items) }
{
    if workers == 0 || workers > MOST_WORKERS {
        return Err(WorkFault::BadCount);
    }
    let alloc = *plans.allocator();
    let mut rounds = session.begin_all(plans)?;
    if let Some(excess) = run(rt, session, &mut rounds, limits, workers)? {
        return Err(WorkFault::Over(rounds.overrun(excess)));
    }
    Ok(rounds.into_answers(alloc)?)
}
