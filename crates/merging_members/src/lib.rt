//! The members of selection sets: the fields that each has in all, with those of the fragments that it enters (GraphQL
//! specification of October 2021, section 5.3.2).
//!
//! The layer above may rely on this: fields are numbered in the order in which they are written (`specs/Members.antt`), and have
//! other numbers in a table of pairs, which [`numbering_of`] gives them: there each comes after those that its selection set has.
//! [`known_fragments`] says what each fragment has, [`reached_in`] what a set has, and [`add_clashing`] adds exactly the sets in
//! which two fields fail. [`first_member`] finds the first member of a set among some fields, without a list of the members, which
//! can be exponential. All of that is for documents whose fragments don't reach themselves: the calls take an order of the fragments
//! in which each comes after those that it spreads. Each call takes a time linear in what it walks through.
#![tactic(auto)]

mod counting;
mod first;
mod fragments;
mod gathering;
mod known;
mod meeting;
mod numbering;
mod set_members;
mod visiting;

pub use counting::{fragment_starts, operation_fields};
pub use first::first_member;
pub use fragments::known_fragments;
pub use gathering::members_of_fields;
pub use known::{FragmentMembers, NumberedDocument, Targets};
pub use meeting::{Met, first_met};
pub use numbering::{Numbering, numbering_of};
pub use set_members::reached_in;
pub use visiting::{ClashingSet, add_clashing};
