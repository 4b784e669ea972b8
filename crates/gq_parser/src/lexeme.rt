//! Lexemes: what a token says.

use gq_lexer::Punct;

/// A token's word, whose text lies in the document's.
#[derive(Drop)]
pub(crate) enum Lexeme<'a> {
    Punct(Punct),
    Name(&'a str),
    Int(&'a str),
    Float(&'a str),
    /// A string, by its value.
    Text(String),
}
