//! Laws of verdicts.

ghost use Rattle.std.specs.Prelude.{◌≡◌, ◌↔◌, List, Option};
ghost use Rattle.gq_parser.specs.Tree as trees;
ghost use Rattle.schema_syntax.specs.Tree as schema;
ghost use Rattle.rules_parts.specs.Listing.{parts_of};
ghost use Rattle.gq_check.specs.Valid.{KeepsRules};
ghost use Rattle.gq_check.specs.Verdict.{FaultOf, IsVerdict, IsValid};

use merging_fields::one_set_is_reported;

/// A document has at most one verdict over a schema. So [`check`](crate::check) returns a fault only if the document isn't
/// valid.
pub fn one_verdict()
    ensures { (defs : List schema.Definition) (d : trees.Document) (v w : Option FaultOf)
        → IsVerdict defs d v → IsVerdict defs d w → v ≡ w }
{
    one_set_is_reported();
}

/// A document is valid exactly if it keeps every rule. So [`check`](crate::check) accepts a document only if nothing in it
/// breaks a rule, and returns a fault only if something does.
pub fn valid_documents()
    ensures { (defs : List schema.Definition) (d : trees.Document)
        → IsValid defs d ↔ KeepsRules (parts_of defs d) }
{}
