//! Laws of the worker core and of answers with workers. Each function does nothing: its contract is the law.
ghost use Rattle.load_rounds.specs.SharedKeyByKey.{AreAnsweredAlike};
ghost use Rattle.batch_workers.specs.Core.{Conserved};
ghost use Rattle.batch_workers.specs.Workers.{ChangeNothing};

use load_queue::PerKey;

/// *Each order once*: after any schedule of takes and stores the orders that wait, are held and are stored are the
/// round's, each once, and those that wait are a suffix of them.
pub fn every_schedule_keeps_the_orders()
    ensures { Conserved }
{}

/// Over sources that answer key by key, an answer with workers is the answer in turn from the same session: the same text and
/// rounds, and the same memory and logs after it, however many workers there were and in whatever order they took the batches. So it is
/// with the answers to several plans in shared rounds.
pub fn workers_change_nothing<S: PerKey>()
    ensures one { ChangeNothing S.may_answer }
    ensures several { AreAnsweredAlike S.may_answer }
{}
