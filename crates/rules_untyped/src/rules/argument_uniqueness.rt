//! Argument Uniqueness (section 5.4.2).

ghost use Rattle.std.specs.Prelude.{◌≡◌, IfOk};
ghost use Rattle.std.specs.Option.{option_map};
ghost use Rattle.rules_parts.specs.Broken.{broken_of, earliest};
ghost use Rattle.rules_parts.specs.Parts.{parts_in};
ghost use Rattle.rules_untyped.specs.ArgumentUniqueness.{argument_uniqueness};

use crate::names::add_repeated;
use rules_parts::{EarliestViolation, Parts, Violation};
use std::alloc::{AllocError, Global};

/// Argument Uniqueness (section 5.4.2): an argument whose name its field or directive was given before.
///
/// # Examples
///
/// | `{user(id:1,id:2){name}}` | `5.4.2 Argument Uniqueness: id` | 12, the later one | Give each argument once. |
pub fn argument_uniqueness<'d>(
    alloc: Global,
    parts: &Parts<'d>,
) -> Result<Option<Violation<'d>>, AllocError>
    ensures { IfOk result (λ broken.
        option_map broken_of broken ≡ earliest (argument_uniqueness (parts_in parts.now))) }
{
    let mut earliest = EarliestViolation::new();
    for part in &parts.fields {
        add_repeated(alloc, &part.field.arguments, &mut earliest)?;
    }
    for list in &parts.directive_arguments {
        add_repeated(alloc, list.arguments, &mut earliest)?;
    }
    Ok(earliest.found)
}
