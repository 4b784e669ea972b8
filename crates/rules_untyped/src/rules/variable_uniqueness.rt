//! Variable Uniqueness (section 5.8.1).

ghost use Rattle.std.specs.Prelude.{◌≡◌, IfOk};
ghost use Rattle.std.specs.Option.{option_map};
ghost use Rattle.rules_parts.specs.Broken.{broken_of, earliest};
ghost use Rattle.rules_parts.specs.Parts.{parts_in};
ghost use Rattle.rules_untyped.specs.VariableUniqueness.{variable_uniqueness};

use crate::names::add_repeated;
use rules_parts::{EarliestViolation, Parts, Violation};
use std::alloc::{AllocError, Global};

/// Variable Uniqueness (section 5.8.1): a variable whose name an earlier one of its operation has.
///
/// # Examples
///
/// | `query($i:ID!,$i:ID!){user(id:$i){name}}` | `5.8.1 Variable Uniqueness: i` | 14, the later one | Define each variable once. |
pub fn variable_uniqueness<'d>(
    alloc: Global,
    parts: &Parts<'d>,
) -> Result<Option<Violation<'d>>, AllocError>
    ensures { IfOk result (λ broken.
        option_map broken_of broken ≡ earliest (variable_uniqueness (parts_in parts.now))) }
{
    let document = parts.document;
    let mut earliest = EarliestViolation::new();
    for operation in &document.operations {
        add_repeated(alloc, &operation.variables, &mut earliest)?;
    }
    Ok(earliest.found)
}
