//! From a schema text to its tree.

ghost use Rattle.std.specs.Prelude.{◌≡◌, ◌≤◌, List, length, All, IfOk, IfErr, None};
ghost use Rattle.gq_lexer.specs.Tokens.{IsToken};
ghost use Rattle.gq_parser.specs.Word.{tokens_of};
ghost use Rattle.gq_parser.specs.Fault.{IsShallow, most_brackets};
ghost use Rattle.schema_syntax.specs.Tree.{definitions_of, Definition as tree_definition};
ghost use Rattle.schema_syntax.specs.Grammar.{IsDocument};
ghost use Rattle.schema_syntax.specs.Text.{IsSyntaxFault, FindsTree, IsSchemaOf, IsTextFault};

use crate::fault::{SyntaxFault, TokenFault};
use crate::parser::definitions;
use crate::tree::SchemaDocument;
use gq_lexer::{LexedText, MAX_BYTES, Place, Token, end_of, lex_front};
use std::alloc::Global;

/// The tree of a schema text's tokens. `lexical` is the place of the lexical fault behind them, if the text has one.
///
/// # Errors
///
/// The first fault from the left: [`SyntaxFault::NotServed`] at the word, the `@` or the `[` that isn't served,
/// [`SyntaxFault::Syntax`] at any other token that can't come, at a bracket that is opened while 128 are open, or
/// else at the lexical fault or at the end. [`SyntaxFault::NoMemory`] comes when memory runs out, before
/// any fault further on.
pub fn read_tokens(
    alloc: Global,
    text: &str,
    tokens: &[Token],
    lexical: Option<Place>,
) -> Result<SchemaDocument, SyntaxFault>
    requires size { length text.now ≤ MAX_BYTES }
    requires inside { All (IsToken text.now) tokens.now }
    // The definitions are what the grammar says, no bracket in them is opened while 128 are open,
    // and the text ends behind them.
    ensures found { let ts = tokens_of text.now tokens.now in IfOk result
        (λ d. IsDocument (definitions_of d) ts × IsShallow most_brackets ts × (lexical ≡ None)) }

    // Such a tree is found, and there is no other.
    ensures only { let ts = tokens_of text.now tokens.now in (ds : _) → IsDocument ds ts
        → IsShallow most_brackets ts → lexical ≡ None → FindsTree ds result }

    // Otherwise the first fault is named.
    ensures fault { IfErr result (IsSyntaxFault text.now (tokens_of text.now tokens.now) lexical) }
{
    match definitions(alloc, text, tokens) {
        Ok(document) => match lexical {
            None => Ok(document),
            Some(place) => Err(SyntaxFault::Syntax(place)),
        },
        Err(TokenFault::Unexpected(Some(place))) => Err(SyntaxFault::Syntax(place)),
        Err(TokenFault::Unexpected(None)) => match lexical {
            None => Err(SyntaxFault::Syntax(end_of(text))),
            Some(place) => Err(SyntaxFault::Syntax(place)),
        },
        Err(TokenFault::NotServed(place)) => Err(SyntaxFault::NotServed(place)),
        Err(TokenFault::NoMemory) => Err(SyntaxFault::NoMemory),
    }
}

/// The tree of a schema text, in the part of the language that is served (October 2021, section 3).
///
/// A text without definitions has a tree of none, and so no root; a description that nothing follows is a
/// syntax fault. Where `@` may begin a `@deprecated` and no name follows, the fault is at the next token;
/// elsewhere it is at the `@`.
///
/// # Errors
///
/// A text of more than [`MAX_BYTES`] bytes is [`SyntaxFault::Syntax`] at line 1, column 1. Otherwise the first fault
/// from the left is answered: [`SyntaxFault::NotServed`] at the word, the `@` or the `[` that isn't served, and
/// [`SyntaxFault::Syntax`] at any other token that can't come, at a bracket that is opened while 128 are open, at a
/// lexical fault, or at the end. [`SyntaxFault::NoMemory`] comes when out of memory.
pub fn read(alloc: Global, text: &str) -> Result<SchemaDocument, SyntaxFault>
    // The definitions are what the grammar says of the text's tokens, and no bracket in them is
    // opened while 128 are open.
    ensures found { IfOk result
        (λ d. IsSchemaOf text.now (definitions_of d)) }

    // Such a tree is found, and there is no other.
    ensures only { (ds : List tree_definition)
        → IsSchemaOf text.now ds → FindsTree ds result }

    // Otherwise the first fault is named.
    ensures fault { IfErr result (IsTextFault text.now) }
{
    if text.len() > MAX_BYTES {
        return Err(SyntaxFault::Syntax(Place::START));
    }
    let Ok(LexedText { tokens, fault }) = lex_front(alloc, text) else {
        return Err(SyntaxFault::NoMemory);
    };
    match fault {
        None => read_tokens(alloc, text, tokens.as_slice(), None),
        Some(fault) => read_tokens(alloc, text, tokens.as_slice(), fault.place()),
    }
}
