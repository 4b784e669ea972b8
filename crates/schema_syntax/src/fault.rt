//! Faults: why a text is no schema that is served.

ghost use Rattle.std.specs.Prelude.{◌≡◌};
ghost use Rattle.schema_syntax.specs.declared.fault.TokenFault.TheVariants.{NoMemory};

use gq_lexer::Place;
use std::alloc::{AllocError, AllocFailed};
use thiserror::Error;

/// Reason why a text is no schema that is served.
#[derive(Debug, Drop, Error)]
pub enum SyntaxFault {
    /// A token or the end of the text that can't come here, or bytes that are no token.
    #[error("syntax")]
    Syntax(Place),
    /// A part of the schema language begins here that isn't served.
    /// It stands where something else could: a definition's word where `type` could, `mutation` and
    /// `subscription` where `query` or `}` could, `implements` on an interface, the name `Float` where a type's
    /// name could, a `[` right after a `[`, and `@` with a name wherever it isn't a `@deprecated` that is
    /// served.
    #[error("not served")]
    NotServed(Place),
    #[error("out of memory")]
    NoMemory,
}

/// Place where the tokens end to be read, and the reason.
#[derive(Clone, Copy, Debug, PartialEq, Eq)]
pub(crate) enum TokenFault {
    /// A token that can't come here, or, where no place is given, the end.
    Unexpected(Option<Place>),
    /// A part of the language begins here that isn't served.
    NotServed(Place),
    NoMemory,
}

impl From<AllocError> for TokenFault {
    ghost from_gives = { λ _ e. e ≡ NoMemory };

    fn from(_e: AllocError) -> TokenFault {
        TokenFault::NoMemory
    }
}

impl<T: Drop> From<AllocFailed<T>> for TokenFault {
    ghost from_gives = { λ _ e. e ≡ NoMemory };

    fn from(_e: AllocFailed<T>) -> TokenFault {
        TokenFault::NoMemory
    }
}
