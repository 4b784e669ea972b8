//! From a bindings text to its statements.
//!
//! A bindings text says how the fields of a schema are answered: which loaders there are, and which
//! of them a field asks with which key. This crate cuts the text into lines and words and tells which
//! statement each line is. What the statements mean over a schema, the crate above says.
//!
//! The layer above may rely on [`read`]: the statements are exactly those of the lines before the
//! first line that has no form, in order and with their lines' numbers, and that line is named.
#![tactic(auto)]

mod cut;
mod form;
mod line_words;
mod lines;
mod statement;
mod text;

pub use statement::{
    BindingsText, By, Form, KeyPart, KeyWords, NumberedStatement, Statement, Version, ViaLoaders,
    ViaWords,
};
pub use text::read;
