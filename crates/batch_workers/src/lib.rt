//! Rounds and answers whose batches workers run at the same time.
//!
//! The layer above may rely on this: an answer with 1 to 16 workers ([`answer_with`]), of whatever can be executed, has the
//! headline of `load_rounds`, and is within the limits or refused, word for word as
//! [`Session::answer_within`](load_rounds::Session::answer_within) has it. Another number of workers is refused, and nothing was asked
//! or changed then. Over sources that answer key by key it is the answer in turn:
//! the same text, rounds, memory and logs (law [`workers_change_nothing`]).
//!
//! Several are answered in rounds that they share ([`answer_all_with`]), word for word as
//! [`Session::answer_all_within`](load_rounds::Session::answer_all_within) has it.
//!
//! A round by itself ([`run_round`]) gives one receipt for each order, in some order, and what it shows on the shelf is a reply to that
//! order, with an answer that its loader's source may give. Each order was taken by one worker and spent by its run, and all workers have
//! ended. The orders go to the workers through one queue, and their replies to the shelf through its one append-only vector. The queue's
//! rule (`specs::Desk`) holds at every step of every worker, and is what the worker core (`specs::Core`) says after the same steps; the law
//! [`every_schedule_keeps_the_orders`] is of that core.
//!
//! Threads share no more than what [`run_round`] needs: the loaders with their sources, the queue of a round's orders, and the
//! shelf of its replies. The plan is executed, and the memory and the logs are written, on the calling thread alone. Only this crate and
//! those above it start threads or wait.
#![tactic(auto)]

pub mod answer;
pub mod answering_all;
pub mod desk;
pub mod fault;
pub mod law;
pub mod round;

pub use answer::answer_with;
pub use answering_all::answer_all_with;
pub use fault::WorkFault;
pub use law::{every_schedule_keeps_the_orders, workers_change_nothing};
pub use round::{MOST_WORKERS, run_round};
