//! Slots, on which the handles of a C library stand: a box, or nothing, as the one pointer that C keeps of it.
//!
//! The crate of exports has one `#[repr(C)]` struct of a raw pointer, whose `also_owns` is `owns_held`
//! at the row of its object, and turns it into a [`Slot`] and back. It may rely on this: a slot says in
//! `held` what it holds, so each export can say it of its handles; a box comes out of a slot as it went
//! in; a null pointer holds nothing, and so does a struct of zeros; a slot can't be let go by mistake,
//! since it has no `Drop`; and slots and handles go to other threads where their objects do ([`sent`]).
//! The steps of the two proofs that the struct itself needs are in `proofs/`.
#![tactic(auto)]

mod slot;
mod threads;

pub use slot::Slot;
pub use threads::sent;
