//! Reading a schema text.

ghost use Rattle.std.specs.Prelude.{◌≡◌, IfOk, IfErr};
ghost use Rattle.gq_schema.specs.SyntaxFaults.{schema_fault_of};
ghost use Rattle.gq_schema.specs.Types.{tree_of};
ghost use Rattle.gq_schema.specs.Reading.{IsSchema, Reads, IsFaultOf};

use crate::check::check;
use crate::fault::SchemaFault;
use crate::schema::Schema;
use schema_syntax::{SyntaxFault, read};
use std::alloc::Global;

impl From<SyntaxFault> for SchemaFault {
    ghost from_gives = { λ s e. e ≡ schema_fault_of s };

    fn from(fault: SyntaxFault) -> SchemaFault {
        match fault {
            SyntaxFault::Syntax(place) => SchemaFault::Syntax(place),
            SyntaxFault::NotServed(place) => SchemaFault::NotServed(place),
            SyntaxFault::NoMemory => SchemaFault::NoMemory,
        }
    }
}

impl Schema {
    /// Reads a schema text (section 3, in the part that is served).
    ///
    /// The fault is [`SchemaFault::Syntax`] or [`SchemaFault::NotServed`], whichever comes first in the text; else the
    /// first of these that the text has, at its earliest place: [`SchemaFault::ReservedName`],
    /// [`SchemaFault::Duplicate`], [`SchemaFault::UnknownType`], [`SchemaFault::BadKind`], [`SchemaFault::BadImplements`],
    /// [`SchemaFault::BadDefault`], [`SchemaFault::NoQueryRoot`]. [`SchemaFault::NoMemory`] comes when out of memory,
    /// before any fault that would have been found later.
    pub fn read(alloc: Global, text: &str) -> Result<Schema, SchemaFault>
        // The result is a schema, with the definitions that the text says.
        ensures found { IfOk result
            (λ schema. IsSchema text.now (tree_of schema)) }

        // A schema is read, and there is no other in the text.
        ensures only { (defs : _)
            → IsSchema text.now defs → Reads defs result }

        // Otherwise the first fault is reported.
        ensures fault { IfErr result (IsFaultOf text.now) }
    {
        let document = read(alloc, text)?;
        check(alloc, document)
    }
}
