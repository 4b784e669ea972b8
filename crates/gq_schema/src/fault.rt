//! Faults: why a text is no schema.

ghost use Rattle.std.specs.Prelude.{◌≡◌};
ghost use Rattle.gq_schema.specs.declared.fault.SchemaFault.TheVariants.{NoMemory};

use gq_lexer::Place;
use std::alloc::{AllocError, AllocFailed};
use thiserror::Error;

/// Reason why a text gives no schema, or no bindings. A place is that in the text. It is printed as its code and its
/// name.
#[derive(Debug, Drop, Error)]
pub enum SchemaFault {
    /// The first token that no production allows, or the end of the text.
    /// Or a character that isn't a token. Correct the text at that place. Of this and `NotServed` the earlier
    /// place counts.
    #[error("S1 Syntax")]
    Syntax(Place),
    /// A name that is defined a second time: the later one.
    /// Or the second word `schema`. Rename or drop one.
    #[error("S2 Duplicate")]
    Duplicate(Place),
    /// A type's name that has no definition.
    /// Define the type, or correct the name.
    #[error("S3 UnknownType")]
    UnknownType(Place),
    /// The name, after `implements`, of an interface that is not implemented.
    /// Give the type the interface's fields and arguments.
    #[error("S4 BadImplements")]
    BadImplements(Place),
    /// There is neither a `schema` nor a type `Query`.
    /// It has no place. Define `type Query`, or name the root in `schema`.
    #[error("S5 NoQueryRoot")]
    NoQueryRoot,
    /// A defined name that begins with two underscores.
    /// Rename it.
    #[error("S6 ReservedName")]
    ReservedName(Place),
    /// A word or an `@` that begins something which is not served.
    /// Or the inner `[` of a list of lists. Leave the form out.
    #[error("S7 NotServed")]
    NotServed(Place),
    /// The line of the bindings, from 1; 0 where a line is missing.
    /// The line has no form of bindings, names something that isn't there, or doesn't fit; or a field that
    /// needs a line has none, or there is no line `bindings 1` or `bindings 2`.
    #[error("S8 BadBinding")]
    BadBinding(u64),
    /// Give the program more memory. `World::new` says `X4 NoMemory` instead.
    #[error("S9 NoMemory")]
    NoMemory,
    /// The name of a type of the wrong kind.
    /// An argument is of a composite type, a union member or a root isn't an object type, or an implemented
    /// type isn't an interface. Use a type of the right kind.
    #[error("S10 BadKind")]
    BadKind(Place),
    /// A default that is not of its argument's type.
    /// Correct the value or the type.
    #[error("S11 BadDefault")]
    BadDefault(Place),
}

impl From<AllocError> for SchemaFault {
    ghost from_gives = { λ _ e. e ≡ NoMemory };

    fn from(_e: AllocError) -> SchemaFault {
        SchemaFault::NoMemory
    }
}

impl<T: Drop> From<AllocFailed<T>> for SchemaFault {
    ghost from_gives = { λ _ e. e ≡ NoMemory };

    fn from(_e: AllocFailed<T>) -> SchemaFault {
        SchemaFault::NoMemory
    }
}
