//! Limits: what isn't served, and how much is.

ghost use Rattle.std.specs.Prelude.{◌≡◌};
ghost use Rattle.std.specs.Option.{option_map, option_copied};
ghost use Rattle.rules_parts.specs.Broken.{broken_of, earliest};
ghost use Rattle.rules_parts.specs.Parts.{parts_in};
ghost use Rattle.rules_untyped.specs.NotServed.{other_kind, not_served};
ghost use Rattle.rules_untyped.specs.TooComplex.{is_too_complex};

use gq_parser::OperationKind;
use rules_parts::{EarliestViolation, Parts, Violation};

/// The most fields that a document may have, each counted once where it is written.
pub const MOST_FIELDS: usize = 1_000;

// The word of a kind that isn't served.
fn other_kind(kind: OperationKind) -> Option<&'static str>
    ensures { option_copied result ≡ other_kind kind }
{
    match kind {
        OperationKind::Query => None,
        OperationKind::Mutation => Some("mutation"),
        OperationKind::Subscription => Some("subscription"),
    }
}

/// An operation other than a query, reported by its keyword, or an introspection field `__schema` or `__type`, reported by its
/// name at its first token.
pub fn not_served<'d>(parts: &Parts<'d>) -> Option<Violation<'d>>
    ensures { option_map broken_of result
        ≡ earliest (not_served (parts_in parts.now)) }
{
    let document = parts.document;
    let mut earliest = EarliestViolation::new();
    for operation in &document.operations {
        if let Some(word) = other_kind(operation.kind) {
            earliest.add(Violation::of_name(word, operation.place));
        }
    }
    for part in &parts.fields {
        let name = part.field.name.as_str();
        if matches!(name, "__schema" | "__type") {
            earliest.add(Violation::of_name(name, part.field.place));
        }
    }
    earliest.found
}

/// Tells whether the document has more than [`MOST_FIELDS`] fields, those of fragments included.
pub fn is_too_complex(parts: &Parts) -> bool
    ensures { result ≡ is_too_complex (parts_in parts.now) }
{
    parts.fields.len() > MOST_FIELDS
}
