//! Rudzkvano for C: handles of servers, of queries and of clients, and all data in buffers of the caller. `clients/c/rudzkvano.h` declares the calls.
//!
//! A caller may rely on this: what a handle holds is known to every contract here (`held`), and each call says what it makes of it. What
//! `rz_answer` copies is the answer of what was asked (`IsAnswerOf` of `host_clients/specs/UnderWay.antt`), and what `rz_loaded` copies are
//! the outcomes of the keys (`AreOutcomesOf` of `host_clients/specs/Loads.antt`). A call that is refused returns a code, and what its
//! handles held they still hold. C owes what `Handle` says: a handle is zero, or as a call left it; it is passed
//! to one call at a time; and buffers are as long as it says.
#![tactic(auto)]

mod clients;
mod codes;
mod handle;
mod keys;
mod loads;
mod queries;
mod requests;
mod servers;
