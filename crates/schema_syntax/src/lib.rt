//! The tree of a schema text, in the part of the schema definition language that is served (GraphQL specification of
//! October 2021, section 3).
//!
//! The layer above may rely on this: [`read`] gives the tree that the grammar (`specs/Grammar.antt`) relates to the text's
//! tokens, or the first place that can't stand or isn't served; a list of tokens has one tree at most ([`one_tree`]).
#![tactic(auto)]

mod fault;
mod law;
mod parser;
mod reading;
mod tree;
mod word;

pub use fault::SyntaxFault;
pub use law::one_tree;
pub use reading::{read, read_tokens};
pub use tree::{
    ArgumentDefinition, Definition, EnumDefinition, FieldDefinition, InterfaceDefinition, Name,
    ObjectDefinition, SchemaDefinition, SchemaDocument, UnionDefinition,
};
