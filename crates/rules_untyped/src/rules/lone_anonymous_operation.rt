//! Lone Anonymous Operation (section 5.2.2.1).

ghost use Rattle.std.specs.Prelude.{◌≡◌};
ghost use Rattle.std.specs.Option.{option_map};
ghost use Rattle.rules_parts.specs.Broken.{broken_of, earliest};
ghost use Rattle.rules_parts.specs.Parts.{parts_in};
ghost use Rattle.rules_untyped.specs.LoneAnonymousOperation.{lone_anonymous_operation};

use rules_parts::{EarliestViolation, Parts, Violation};

/// Lone Anonymous Operation (section 5.2.2.1): an operation without a name beside another. It is reported as
/// `query`.
///
/// # Examples
///
/// | `{users{id}} query B{users{id}}` | `5.2.2.1 Lone Anonymous Operation: query` | 1, the first without name | Name every operation if there are
/// several. |
pub fn lone_anonymous_operation<'d>(parts: &Parts<'d>) -> Option<Violation<'d>>
    ensures { option_map broken_of result
        ≡ earliest (lone_anonymous_operation (parts_in parts.now)) }
{
    let document = parts.document;
    if document.operations.len() < 2 {
        return None;
    }
    let mut earliest = EarliestViolation::new();
    for operation in &document.operations {
        if operation.name.is_none() {
            earliest.add(Violation::of_name("query", operation.place));
        }
    }
    earliest.found
}
