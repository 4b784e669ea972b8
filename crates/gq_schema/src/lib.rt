//! The types of a GraphQL schema, from its text (GraphQL specification of October 2021, section 3).
//!
//! A [`Schema`] is seen as the list of its definitions, in the order of the text. What is read of a text keeps the rules on
//! names, kinds, interfaces and defaults, so the layer above may rely on it: each name of a type is one of a type, each
//! argument is a scalar, an enum or a list of one, each default is right, each interface is implemented, and there is a root.
//! Look-ups take no memory. A type is found by hash; below a [`FoundType`], hashes serve only among many fields of a type.
//! [`accepts`] and [`coerce`] say what a literal is at a type.
#![tactic(auto)]

mod built_in;
mod check;
mod coercion;
mod entries;
mod fault;
mod found;
mod index;
mod input;
mod kind;
mod names;
mod possible;
mod reading;
mod references;
mod rules;
mod schema;
mod type_names;
mod types;

pub use coercion::{accepts, coerce, list_of_one};
pub use fault::SchemaFault;
pub use found::{FoundField, FoundType};
pub use index::IndexedDefinition;
pub use input::Input;
pub use kind::TypeKind;
pub use schema::Schema;
pub use schema_syntax::{ArgumentDefinition as ArgDef, FieldDefinition as FieldDef, Name};
