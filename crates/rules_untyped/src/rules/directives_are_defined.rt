//! Directives Are Defined (section 5.7.1).

ghost use Rattle.std.specs.Prelude.{◌≡◌};
ghost use Rattle.std.specs.Option.{option_map};
ghost use Rattle.rules_parts.specs.Broken.{broken_of, earliest};
ghost use Rattle.rules_parts.specs.Parts.{directive_list_of, parts_in};
ghost use Rattle.rules_untyped.specs.Scans.{Tells};
ghost use Rattle.rules_untyped.specs.DirectivesAreDefined.{undefined_directives, directives_are_defined};

use crate::defined_directives::is_defined;
use rules_parts::{DirectiveList, EarliestViolation, Parts, Violation};

fn add_undefined<'d>(list: &DirectiveList<'d>, earliest: &mut EarliestViolation<'d>)
    ensures { Tells earliest.old earliest.new (undefined_directives (directive_list_of list.now)) }
{
    for directive in list.directives {
        if !is_defined(directive) {
            earliest.add(Violation::of_name(directive.name.as_str(), directive.place));
        }
    }
}

/// Directives Are Defined (section 5.7.1): a directive other than `skip` and `include`.
///
/// # Examples
///
/// | `{users{id@upper}}` | `5.7.1 Directives Are Defined: upper` | 10, the `@` | Use only `@skip` and `@include`. |
pub fn directives_are_defined<'d>(parts: &Parts<'d>) -> Option<Violation<'d>>
    ensures { option_map broken_of result ≡ earliest
        (directives_are_defined (parts_in parts.now)) }
{
    let mut earliest = EarliestViolation::new();
    for list in &parts.directive_lists {
        add_undefined(list, &mut earliest);
    }
    earliest.found
}
