//! Faults: why a text is no document.

ghost use Rattle.std.specs.Prelude.{◌≡◌};
ghost use Rattle.gq_parser.specs.Fault.{place_of_parse_fault, lexed};
ghost use Rattle.gq_parser.specs.declared.fault.Fault.TheVariants.{NoMemory};

use gq_lexer::{LexFault, Place};
use std::alloc::{AllocError, AllocFailed};
use thiserror::Error;

/// Reason why a text has no tree. It is displayed as the message that a client reads, without the place.
///
/// A lexical fault comes first, wherever it is. Of the others the leftmost is returned; a token that is both
/// unexpected and too deep is unexpected.
#[derive(Debug, Drop, Error)]
pub enum ParseFault {
    /// The text has a lexical fault. It is never [`LexFault::NoMemory`].
    #[error("{0}")]
    Lex(LexFault),
    /// No document begins with the tokens up to and including the one here.
    #[error("unexpected token")]
    Unexpected(Place),
    /// The text ends here, within a document.
    #[error("unexpected end")]
    UnexpectedEnd(Place),
    /// The bracket here, `{`, `(` or `[`, is opened while 128 brackets are open.
    #[error("too deep")]
    TooDeep(Place),
    /// Out of memory.
    #[error("out of memory")]
    NoMemory,
}

impl ParseFault {
    /// The place of the fault. A text that is too long, or for which memory ran out, has none.
    pub fn place(&self) -> Option<Place>
        ensures { result ≡ place_of_parse_fault self.now }
    {
        match self {
            ParseFault::Lex(fault) => fault.place(),
            ParseFault::Unexpected(place)
            | ParseFault::UnexpectedEnd(place)
            | ParseFault::TooDeep(place) => Some(*place),
            ParseFault::NoMemory => None,
        }
    }
}

impl From<LexFault> for ParseFault {
    ghost from_gives = { λ f e. e ≡ lexed f };

    fn from(fault: LexFault) -> ParseFault {
        match fault {
            LexFault::NoMemory => ParseFault::NoMemory,
            fault => ParseFault::Lex(fault),
        }
    }
}

/// Reason why the tokens are no document. Where they end too early there is no place.
#[derive(Clone, Copy, Debug, PartialEq, Eq)]
pub(crate) enum Fault {
    Unexpected(Option<Place>),
    TooDeep(Place),
    NoMemory,
}

impl From<AllocError> for Fault {
    ghost from_gives = { λ _ e. e ≡ NoMemory };

    fn from(_e: AllocError) -> Fault {
        Fault::NoMemory
    }
}

impl<T: Drop> From<AllocFailed<T>> for Fault {
    ghost from_gives = { λ _ e. e ≡ NoMemory };

    fn from(_e: AllocFailed<T>) -> Fault {
        Fault::NoMemory
    }
}
