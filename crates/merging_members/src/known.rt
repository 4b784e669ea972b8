//! Knowledge of a document where its selection sets are walked through.

ghost use Rattle.std.specs.Prelude.{◌≡◌, ◌<◌, ◌≤◌, ℕ, length};
ghost use Rattle.gq_parser.specs.Tree.{document_of};
ghost use Rattle.merging_pairs.specs.Table.{IsBelow};
ghost use Rattle.merging_members.specs.Fragments.{target_at, AreTargets};
ghost use Rattle.merging_members.specs.Members.{count_fields, fragment_starts};
ghost use Rattle.merging_members.specs.SetMembers.{to, AreThere};

use gq_parser::Document;
use merging_pairs::{FieldSet, ReachedFields};
use std::collections::HashMap;

/// The number of the first fragment of each name, from 0.
pub type Targets<'d> = HashMap<&'d str, usize>;

/// Holds what is to be known of a document before its fragments are walked through.
#[derive(Clone, Copy)]
pub struct NumberedDocument<'a, 'd> {
    pub document: &'d Document,
    pub targets: &'a Targets<'d>,
    /// The number of the first field of each fragment.
    pub starts: &'a [usize],
    /// The number of each field in the table of pairs, by its number in the document.
    pub numbers: &'a [usize],
    /// The pairs of fields that fail, by their numbers in the table.
    pub rows: &'a [FieldSet],
    ghost few: { length rows.now ≤ 1024 },
    ghost below: { IsBelow rows.now },
    ghost known: { (a : ℕ) → a < length numbers.now → to numbers.now a < length rows.now },
    ghost named: { AreTargets (document_of document.now).fragments targets.now },
    ghost counted: { count_fields (document_of document.now) ≤ length numbers.now },
    ghost started: { starts.now ≡ fragment_starts (document_of document.now) },
}

/// Holds what is known where sets are walked through.
#[derive(Clone, Copy)]
pub struct FragmentMembers<'a, 'd> {
    pub targets: &'a Targets<'d>,
    /// The number of each field in the table of pairs, by its number in the document.
    pub numbers: &'a [usize],
    /// The pairs of fields that fail, by their numbers in the table.
    pub rows: &'a [FieldSet],
    /// Holds what each fragment has.
    pub fragments: &'a [ReachedFields],
    ghost few: { length rows.now ≤ 1024 },
    ghost below: { IsBelow rows.now },
    ghost known: { (a : ℕ) → a < length numbers.now → to numbers.now a < length rows.now },
    ghost there: { AreThere (target_at targets.now) (length fragments.now) },
}
