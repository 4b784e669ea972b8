//! Fragment Spread Target Defined (section 5.5.2.1).

ghost use Rattle.std.specs.Prelude.{◌≡◌};
ghost use Rattle.std.specs.Option.{option_map};
ghost use Rattle.rules_parts.specs.Broken.{broken_of, earliest};
ghost use Rattle.rules_parts.specs.Parts.{parts_in};
ghost use Rattle.rules_untyped.specs.FragmentSpreadTargetDefined.{fragment_spread_target_defined};

use rules_parts::{EarliestViolation, Parts, Violation};

/// Fragment Spread Target Defined (section 5.5.2.1): a spread of an undefined fragment.
///
/// # Examples
///
/// | `{users{...F}}` | `5.5.2.1 Fragment Spread Target Defined: F` | 8, the `...` | Define the fragment. |
pub fn fragment_spread_target_defined<'d>(parts: &Parts<'d>) -> Option<Violation<'d>>
    ensures { option_map broken_of result
        ≡ earliest (fragment_spread_target_defined (parts_in parts.now)) }
{
    let mut earliest = EarliestViolation::new();
    for part in &parts.spreads {
        if part.target.is_none() {
            earliest.add(Violation::of_name(part.spread.name.as_str(), part.spread.place));
        }
    }
    earliest.found
}
