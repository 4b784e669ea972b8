//! From a text to its document.

ghost use Rattle.std.specs.Prelude.{◌≡◌, ◌≤◌, length, IfOk, IfErr, MatchResult};
ghost use Rattle.gq_parser.specs.Tree as trees;
ghost use Rattle.gq_parser.specs.Tree.{document_of};
ghost use Rattle.gq_parser.specs.Grammar.{IsDocument};
ghost use Rattle.gq_parser.specs.Fault.{IsDocumentOf, IsParseFault, IsShallow, Finds, most_brackets};
ghost use Rattle.gq_parser.specs.Machine.{ADefinition, one, read};
ghost use Rattle.gq_parser.specs.Parsing.{Fails, Adds, parse_fault_of};

use crate::cursor::Parser;
use crate::definition::Definition;
use crate::fault::{Fault, ParseFault};
use crate::tree::Document;
use gq_lexer::{MAX_BYTES, end_of, lex};
use std::alloc::Global;

/// The most brackets that may be open at once.
const MAX_BRACKETS: u32 = 128;

impl Document {
    fn add(&mut self, definition: Definition) -> Result<(), Fault>
        ensures { MatchResult result (λ _.
            Adds definition self.old self.new) (λ f. f ≡ Fault.NoMemory) }
    {
        match definition {
            Definition::Operation(operation) => Ok(self.operations.push(operation)?),
            Definition::Fragment(fragment) => Ok(self.fragments.push(fragment)?),
        }
    }
}

/// The document that the tokens are.
fn document(mut parser: Parser) -> Result<Document, Fault>
    ensures found { IfOk result (λ d.
        IsDocument (document_of d) parser.entry × IsShallow most_brackets parser.entry) }
    ensures fails { IfErr result (λ f.
        Fails f (read most_brackets (one ADefinition) parser.entry)) }
{
    let mut document = Document {
        operations: Vec::new(parser.alloc),
        fragments: Vec::new(parser.alloc),
    };
    'definitions: loop {
        let definition = parser.definition(MAX_BRACKETS)?;
        document.add(definition)?;
        if parser.is_at_end() {
            break 'definitions;
        }
    }
    document.operations.shrink_to_fit();
    Ok(document)
}

/// The fault of a text, from that of its tokens.
fn parse_fault_of(fault: Fault, text: &str) -> ParseFault
    requires { length text.now ≤ MAX_BYTES }
    ensures { result ≡ parse_fault_of fault text.now }
{
    match fault {
        Fault::Unexpected(Some(place)) => ParseFault::Unexpected(place),
        Fault::Unexpected(None) => ParseFault::UnexpectedEnd(end_of(text)),
        Fault::TooDeep(place) => ParseFault::TooDeep(place),
        Fault::NoMemory => ParseFault::NoMemory,
    }
}

/// Parses a document (October 2021, section 2).
///
/// # Errors
///
/// A text longer than [`MAX_BYTES`] is refused first, and then a lexical fault, wherever it is. Otherwise the leftmost
/// of these is returned: a token that can't come next; the end of the text within a document; a bracket that is opened
/// while 128 are open. [`ParseFault::NoMemory`] comes as soon as memory runs out, before any fault further on.
pub fn parse(alloc: Global, text: &str) -> Result<Document, ParseFault>
    // The document is what the grammar says, and no bracket in it is opened while 128 are open.
    ensures found { IfOk result
        (λ d. IsDocumentOf text.now (document_of d)) }

    // Such a document is found, and there is no other.
    ensures only { (d : trees.Document)
        → IsDocumentOf text.now d → Finds d result }

    // Otherwise the first fault is reported, with its place.
    ensures fault { IfErr result (IsParseFault text.now) }
{
    let tokens = lex(alloc, text)?;
    match document(Parser::new(alloc, text, &tokens)) {
        Ok(document) => Ok(document),
        Err(fault) => Err(parse_fault_of(fault, text)),
    }
}
