//! Values that fields give.

ghost use Rattle.std.specs.Prelude.{◌≡◌};
ghost use Rattle.plan_program.specs.Fields.{field_seen};

use gq_lexer::Place;
use gq_parser::Field;

/// The response key of a field: its alias, or its name where it has none (section 2.7).
pub fn key_of(field: &Field) -> &str
    ensures { result.now ≡ (field_seen field.now).key }
{
    match &field.alias {
        Some(alias) => alias.as_str(),
        None => field.name.as_str(),
    }
}

/// The place of a field, at which its errors stand.
pub fn place_of(field: &Field) -> Place
    ensures { result ≡ (field_seen field.now).place }
{
    field.place
}
