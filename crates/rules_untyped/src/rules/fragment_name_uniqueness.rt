//! Fragment Name Uniqueness (section 5.5.1.1).

ghost use Rattle.std.specs.Prelude.{◌≡◌, IfOk};
ghost use Rattle.std.specs.Option.{option_map};
ghost use Rattle.rules_parts.specs.Broken.{broken_of, earliest};
ghost use Rattle.rules_parts.specs.Parts.{parts_in};
ghost use Rattle.rules_untyped.specs.FragmentNameUniqueness.{fragment_name_uniqueness};

use crate::names::add_repeated;
use rules_parts::{EarliestViolation, Parts, Violation};
use std::alloc::{AllocError, Global};

/// Fragment Name Uniqueness (section 5.5.1.1): a fragment whose name an earlier one has.
///
/// # Examples
///
/// | `{users{...F}} fragment F on User{id} fragment F on User{name}` | `5.5.1.1 Fragment Name Uniqueness: F` | 38, the later one | Give each fragment
/// its own name. |
pub fn fragment_name_uniqueness<'d>(
    alloc: Global,
    parts: &Parts<'d>,
) -> Result<Option<Violation<'d>>, AllocError>
    ensures { IfOk result (λ broken.
        option_map broken_of broken ≡ earliest (fragment_name_uniqueness (parts_in parts.now))) }
{
    let document = parts.document;
    let mut earliest = EarliestViolation::new();
    add_repeated(alloc, &document.fragments, &mut earliest)?;
    Ok(earliest.found)
}
