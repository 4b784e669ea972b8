//! Knowledge of a document before its fields are compared, and once they are.

ghost use Rattle.std.specs.Prelude.{◌≡◌, ◌≤◌, length};
ghost use Rattle.gq_parser.specs.Tree.{document_of};
ghost use Rattle.merging_pairs.specs.Table.{IsBelow};
ghost use Rattle.merging_members.specs.Fragments.{AreTargets};
ghost use Rattle.merging_members.specs.Members.{members_of_fragment, fragment_starts, count_fields};
ghost use Rattle.merging_members.specs.Placed.{ArePlaced};
ghost use Rattle.merging_members.specs.SetMembers.{IsFixed};
ghost use Rattle.rules_parts.specs.Parts.{parts_in};
ghost use Rattle.merging_fields.specs.Numbered.{AreInside, IsInverse};

use merging_members::Targets;
use merging_pairs::{Field, FieldSet, ReachedFields};
use rules_parts::Parts;

/// Holds what is known of a document whose fragments don't reach themselves.
#[derive(Clone, Copy)]
pub struct Grounds<'a, 'd> {
    pub parts: &'a Parts<'d>,
    pub targets: &'a Targets<'d>,
    pub starts: &'a [usize],
    pub order: &'a [usize],
    pub numbers: &'a [usize],
    ghost few: { length order.now ≤ 1024 },
    ghost whole: { length numbers.now ≡ length order.now },
    ghost all: { length order.now ≡ length (parts_in parts.now).fields },
    ghost inverse: { IsInverse order.now numbers.now (length order.now) },
    ghost placed: { ArePlaced (document_of parts.now.document.now) order.now numbers.now },
    ghost named: { AreTargets (document_of parts.now.document.now).fragments targets.now },
    ghost started: { starts.now ≡ fragment_starts (document_of parts.now.document.now) },
    ghost counted: { count_fields (document_of parts.now.document.now) ≡ length (parts_in parts.now).fields },
    ghost inside: { AreInside (parts_in parts.now).fields },
    ghost fixed: { IsFixed (members_of_fragment (document_of parts.now.document.now)) (document_of parts.now.document.now) },
}

/// Holds what is known once the fields are compared.
#[derive(Clone, Copy)]
pub struct ComparedFields<'a, 'd> {
    pub grounds: Grounds<'a, 'd>,
    pub fields: &'a [Field],
    pub rows: &'a [FieldSet],
    pub fragments: &'a [ReachedFields],
    ghost len: { length rows.now ≡ length fields.now },
    ghost all: { length fields.now ≡ length grounds.order.now },
    ghost below: { IsBelow rows.now },
    ghost there: { length fragments.now ≡ length (document_of grounds.parts.now.document.now).fragments },
}
