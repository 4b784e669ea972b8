//! The parts of a document over a schema: what all rules of validation look at (GraphQL specification of October 2021, section 5).
//!
//! The layer above may rely on this: [`Parts::new`] lists every field, spread, inline fragment, directive, argument,
//! variable and use of a variable of a document, once, each with the operation or fragment that it stands in and with what the
//! schema says of it (`specs/Listing.antt`). A rule is a pass over such a list, and returns the [`Violation`] with the earliest
//! place (`earliest`), which [`EarliestViolation`] keeps. Nothing here needs the places of a document to differ, or its names to be
//! unique.
#![tactic(auto)]

mod arguments;
mod broken;
mod fragments;
mod listing;
mod parents;
mod part;
mod parts;
mod selections;
mod source;

pub use arguments::field_arguments;
pub use broken::{BrokenName, EarliestViolation, Violation};
pub use part::{
    ArgumentList, ArgumentPart, DirectiveList, DirectiveLocation, FieldPart, InlinePart, Location,
    Owner, SpreadPart, VariablePart, VariableUse,
};
pub use parts::Parts;
