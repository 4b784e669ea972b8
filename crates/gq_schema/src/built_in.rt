//! The directives of every schema (section 3.13).

ghost use Rattle.std.specs.Prelude.{◌≡◌, ◌∷◌, [], IfOk};
ghost use Rattle.schema_syntax.specs.Tree.{arguments_of};
ghost use Rattle.gq_schema.specs.Schemas.{condition_argument};

use gq_lexer::Place;
use gq_parser::TypeRef;
use schema_syntax::{ArgumentDefinition as ArgDef, Name};
use short_text::Text;
use std::alloc::{AllocError, Global};

/// The arguments of `skip` and of `include`: `if: Boolean!` (sections 3.13.1 and 3.13.2). Their places say nothing.
pub fn condition_arguments(alloc: Global) -> Result<Vec<ArgDef>, AllocError>
    ensures { IfOk result (λ arguments. arguments_of
        arguments.items ≡ condition_argument ∷ []) }
{
    let mut arguments = Vec::with_capacity(alloc, 1)?;
    arguments.push(ArgDef {
        name: Name {
            text: String::from_str(alloc, "if")?,
            place: Place::START,
        },
        of_type: TypeRef::Named {
            place: Place::START,
            name: Text::from_str(alloc, "Boolean")?,
            non_null: true,
        },
        default: None,
    })?;
    Ok(arguments)
}
