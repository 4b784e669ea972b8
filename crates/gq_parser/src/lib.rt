//! The grammar of documents: from the text of a GraphQL document to its tree (October 2021, section 2).
//!
//! The layer above may rely on this: [`parse`] gives the tree that the grammar (`specs/Grammar.antt`) relates to the
//! text's tokens, or the first fault of the text with its place; no text has two trees ([`one_tree`]). The tree holds
//! all that the text says, with the place of each part, and opens no bracket while 128 are open, so that a recursion
//! over it is that deep at most. Its views without memory are in `specs/Tree.antt`; those of types and values
//! (`IsType`, `IsValue`) stand on their own, for other texts in which types and constant values are written so; [`Constness`]
//! is public for these.
#![tactic(auto)]

mod cursor;
mod definition;
mod fault;
mod keyword;
mod law;
mod lexeme;
mod reading;
mod selection;
mod tree;
mod value;

pub use fault::ParseFault;
pub use keyword::{Keyword, keyword_of};
pub use law::one_tree;
pub use reading::parse;
pub use tree::{
    Argument, Directive, Document, Field, Fragment, Inline, Literal, Operation, OperationKind,
    Selection, SelectionSet, Spread, TypeCondition, TypeRef, Value, VariableDefinition,
};
pub use value::Constness;
