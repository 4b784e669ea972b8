//! Directives that every schema has (section 3.13).

ghost use Rattle.std.specs.Prelude.{◌≡◌};
ghost use Rattle.gq_parser.specs.Tree.{directive_of};
ghost use Rattle.rules_untyped.specs.DirectivesAreDefined.{is_defined};

use gq_parser::Directive;

/// Tells whether every schema has it (section 3.13).
pub fn is_defined(directive: &Directive) -> bool
    ensures { result ≡ is_defined
        (directive_of directive.now) }
{
    matches!(directive.name.as_str(), "skip" | "include")
}
