//! Operation Name Uniqueness (section 5.2.1.1).

ghost use Rattle.std.specs.Prelude.{◌≡◌, IfOk};
ghost use Rattle.std.specs.Option.{option_map};
ghost use Rattle.rules_parts.specs.Broken.{broken_of, earliest};
ghost use Rattle.rules_parts.specs.Parts.{parts_in};
ghost use Rattle.rules_untyped.specs.OperationNameUniqueness.{operation_name_uniqueness};

use crate::names::{Names, note};
use rules_parts::{EarliestViolation, Parts, Violation};
use std::alloc::{AllocError, Global};
use std::collections::HashSet;

/// Operation Name Uniqueness (section 5.2.1.1): an operation whose name an earlier one has.
///
/// # Examples
///
/// | `query A{users{id}} query A{users{name}}` | `5.2.1.1 Operation Name Uniqueness: A` | 20, the later one | Give each operation its own name. |
pub fn operation_name_uniqueness<'d>(
    alloc: Global,
    parts: &Parts<'d>,
) -> Result<Option<Violation<'d>>, AllocError>
    ensures { IfOk result (λ broken.
        option_map broken_of broken ≡ earliest (operation_name_uniqueness (parts_in parts.now))) }
{
    let document = parts.document;
    if document.operations.len() < 2 {
        return Ok(None);
    }
    let mut names: Names = HashSet::new(alloc);
    let mut earliest = EarliestViolation::new();
    for operation in &document.operations {
        if let Some(name) = &operation.name {
            note(&mut names, &mut earliest, name.as_str(), operation.place)?;
        }
    }
    Ok(earliest.found)
}
