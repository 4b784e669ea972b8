//! Directives Are In Valid Locations (section 5.7.2).

ghost use Rattle.std.specs.Prelude.{◌≡◌};
ghost use Rattle.std.specs.Option.{option_map};
ghost use Rattle.rules_parts.specs.Broken.{broken_of, earliest};
ghost use Rattle.rules_parts.specs.Parts.{directive_list_of, parts_in};
ghost use Rattle.rules_untyped.specs.Scans.{Tells};
ghost use Rattle.rules_untyped.specs.DirectivesAreInValidLocations.{is_valid, misplaced_directives, directives_are_in_valid_locations};

use crate::defined_directives::is_defined;
use rules_parts::{DirectiveList, DirectiveLocation, EarliestViolation, Parts, Violation};

// Tells whether `skip` and `include` may stand there (section 3.13).
fn is_valid(location: DirectiveLocation) -> bool
    ensures { result ≡ is_valid location }
{
    matches!(
        location,
        DirectiveLocation::Field
            | DirectiveLocation::FragmentSpread
            | DirectiveLocation::InlineFragment
    )
}

fn add_misplaced<'d>(list: &DirectiveList<'d>, earliest: &mut EarliestViolation<'d>)
    ensures { Tells earliest.old earliest.new (misplaced_directives (directive_list_of list.now)) }
{
    if is_valid(list.location) {
        return;
    }
    for directive in list.directives {
        if is_defined(directive) {
            earliest.add(Violation::of_name(directive.name.as_str(), directive.place));
        }
    }
}

/// Directives Are In Valid Locations (section 5.7.2): `skip` or `include` on something else than a field, a spread or an inline
/// fragment.
///
/// Directives that aren't known are skipped.
///
/// # Examples
///
/// | `query @skip(if:true){users{id}}` | `5.7.2 Directives Are In Valid Locations: skip` | 7, the `@` | Put it on a field, a spread or an inline
/// fragment. |
pub fn directives_are_in_valid_locations<'d>(parts: &Parts<'d>) -> Option<Violation<'d>>
    ensures { option_map broken_of result
        ≡ earliest (directives_are_in_valid_locations (parts_in parts.now)) }
{
    let mut earliest = EarliestViolation::new();
    for list in &parts.directive_lists {
        add_misplaced(list, &mut earliest);
    }
    earliest.found
}
