//! Laws of traces. The function does nothing: its contract is the law.

ghost use Rattle.std.specs.Prelude.{List};
ghost use Rattle.load_memory.specs.Replies.{ReplyOf};
ghost use Rattle.execution.specs.Program.{Program};
ghost use Rattle.load_rounds.specs.Sessions.{SessionOf, StateOf};
ghost use Rattle.load_trace.specs.Logs.{TellsLog};

use load_queue::LocalSource;

/// The trace of a session that started again and then answered is the log by which the answer is lawful: in each round the batches that
/// were answered, in their order, each with its loader's name and its keys.
pub fn traces_are_logs<S: LocalSource>()
    ensures { (session : SessionOf S) (new : StateOf S) (p : Program) (log : List (List ReplyOf))
        → TellsLog S.may_tell session new p log }
{}
