//! Sessions: loaders with a memory, and rounds in which what is missing is asked of each loader at once.
//!
//! The layer above may rely on this: what a call does to a session is a list of steps
//! (`execution::specs::Sessions`), which its contract names: failed batches are forgotten, a round asks exactly
//! what is needed and missing, a key is primed or cleared. The memory and the logs are those after these steps,
//! and nothing else changes. One call is no list of steps: [`Session::restart`] makes the session as a new one over its
//! loaders.
//!
//! Every answer carries one definition, the headline (`specs::Headline`), and the count of the loads that it read. All are answered by one
//! type, [`Rounds`]: it is advanced until nothing is missing, in turn ([`Session::answer`]), by a future ([`Answering`]), or by the caller
//! ([`Session::begin`]), who gets the orders of each round and gives their replies in any order. Each call's contract says what has been
//! done since the run was begun (`specs::Runs`, `IsRun`), and in the end that is the headline.
//!
//! Keys of one loader are a program too ([`KeysToLoad`]): whatever answers plans loads them, and then the session tells their outcomes
//! ([`Session::known_outcomes`]). What a run of it does is what [`Session::load_many`] does (`law::keys_are_a_program`).
//!
//! Answers are given to whatever can be executed ([`Execute`]): it loads keys, and gives a text
//! and how many loads it read. A plan of a GraphQL document is that; nothing here knows of one.
//!
//! Several plans are answered in rounds that they share, in turn ([`Session::answer_all`]) or by the caller ([`Session::begin_all`]):
//! there is one log, and each answer has a headline of its own (`specs::SharedRounds`, `SharedHeadline`).
//!
//! Answers may have limits ([`Limits`]), on the work of their plans and on their rounds ([`Session::answer_within`], `specs::Limits`). Whoever
//! advances a run asks [`Rounds::excess`] before each round, or [`Rounds::step`], which counts and works ahead so many steps at a time.
#![tactic(auto)]

pub mod answer;
pub mod answering;
mod executions;
pub mod fault;
pub mod keys;
pub mod law;
pub mod lent;
pub mod limits;
mod plan_execution;
mod restart;
mod round;
pub mod rounds;
pub mod session;
pub mod steps;

pub use answer::Answer;
pub use answering::Answering;
pub use execution::Execute;
pub use fault::SessionFault;
pub use keys::KeysToLoad;
pub use lent::Lent;
pub use limits::{Excess, Limits, Overrun};
pub use rounds::{Rounds, Stage};
pub use session::Session;
pub use steps::Ahead;
