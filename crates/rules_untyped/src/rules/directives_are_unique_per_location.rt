//! Directives Are Unique Per Location (section 5.7.3).

ghost use Rattle.std.specs.Prelude.{◌≡◌, IfOk};
ghost use Rattle.std.specs.Option.{option_map};
ghost use Rattle.rules_parts.specs.Broken.{broken_of, earliest};
ghost use Rattle.rules_parts.specs.Parts.{parts_in};
ghost use Rattle.rules_untyped.specs.DirectivesAreUniquePerLocation.{directives_are_unique_per_location};

use crate::names::add_repeated;
use rules_parts::{EarliestViolation, Parts, Violation};
use std::alloc::{AllocError, Global};

/// Directives Are Unique Per Location (section 5.7.3): a directive whose name stands at its location before.
///
/// Every name counts, known or not.
///
/// # Examples
///
/// | `{users{id@skip(if:true)@skip(if:false)}}` | `5.7.3 Directives Are Unique Per Location: skip` | 24, the later `@` | Use each directive once at a
/// place. |
pub fn directives_are_unique_per_location<'d>(
    alloc: Global,
    parts: &Parts<'d>,
) -> Result<Option<Violation<'d>>, AllocError>
    ensures { IfOk result (λ broken. option_map broken_of broken
        ≡ earliest (directives_are_unique_per_location (parts_in parts.now))) }
{
    let mut earliest = EarliestViolation::new();
    for list in &parts.directive_lists {
        add_repeated(alloc, list.directives, &mut earliest)?;
    }
    Ok(earliest.found)
}
