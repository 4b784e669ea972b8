//! Rounds by hand: the caller itself replies to the orders of answers, by number and in any order, in a session that no one else can change
//! meanwhile.
//!
//! The layer above may rely on this: a [`Hand`] owns its session until it is given back, and its plans. Whoever replied to the orders, and in whatever
//! order, what was done in the session since the hand was begun is `IsUnderway` of `specs/Hands.antt`, which each call keeps: rounds were
//! made and nothing else, each order has a reply that its source may give, and in the end the answers have the headline of
//! `load_rounds`. A reply that no source may give is taken too, and then nothing is promised of the answers' texts; but what was given as
//! the reply to an order is what is stored, whoever gave it (`StoresReplies` of `specs/Hands.antt`). The requests of
//! these calls are what the hand was made with, the loaders that the plans need, and each call keeps that.
//!
//! The answers have limits ([`Limits`](load_rounds::Limits)): a round is made only within them, and where the answers are over one by what is
//! known, they are refused, and only then (`Overruns` of `specs/Hands.antt`).
//!
//! With a limit on its steps a call does so many, and then says that some are left: nothing was asked, what the replies said is stored, and each
//! such call leaves fewer (`Nears` of `specs/Hands.antt`). So a thread that has other things to do goes on with those in between.
//!
//! Keys of one loader are loaded so too: their program is a plan like any other (`KeysToLoad` of `load_rounds`).
#![tactic(auto)]

pub mod fault;
pub mod hand;
pub mod handed_in;
pub mod pending;
pub mod progress;
mod seen;
mod steps;
mod threads;

pub use fault::{HandFault, TakeFault};
pub use hand::Hand;
pub use handed_in::HandedIn;
pub use pending::{Pending, are_in};
pub use progress::Progress;
