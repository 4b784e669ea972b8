//! Laws of the definition.

ghost use Rattle.std.specs.Prelude.{◌≡◌, ℕ, List, Option, Some, length, map};
ghost use Rattle.gq_parser.specs.Tree.{Document, Selection};
ghost use Rattle.schema_syntax.specs.Tree.{Definition};
ghost use Rattle.merging_members.specs.Members.{members_entered, members_of_fragment, sets_of};
ghost use Rattle.merging_members.specs.Written.{written_fields};
ghost use Rattle.rules_parts.specs.Broken.{BrokenOf};
ghost use Rattle.rules_parts.specs.Listing.{fields_of};
ghost use Rattle.rules_parts.specs.Parts.{PartsOf};
ghost use Rattle.rules_spreads.specs.Levels.{levels_expanded};
ghost use Rattle.merging_fields.specs.Acyclic.{ForAcyclic};
ghost use Rattle.merging_fields.specs.Numbered.{as_written};
ghost use Rattle.merging_fields.specs.FieldSelectionMerging.{IsMerging};
ghost use Rattle.merging_fields.specs.Selected.{HasNumber, named_fields, own_members, own_selected, selecting_sets, looked_up};

/// Of the selection sets of a document that can't be merged one is reported, with its first response key that has a failing pair.
pub fn one_set_is_reported()
    ensures { (p : PartsOf) (a b : Option BrokenOf)
        → IsMerging p a → IsMerging p b → a ≡ b }
{}

/// A document's parts list its fields as they are written, so that a field has one number: its place in that list, and in the one
/// by which [`merging_members`] counts.
pub fn fields_are_listed_as_written()
    ensures { (definitions : List Definition) (d : Document)
        → map as_written (fields_of definitions d) ≡ written_fields d }
{}

/// The numbers of members name, among the fields as they are written, the very fields that a selection set has: those of each set of
/// a document, and those of the own set of each field.
pub fn numbers_name_fields()
    ensures sets { (d : Document)
        → map (looked_up (written_fields d)) (sets_of d) ≡ selecting_sets d }
    ensures own { (d : Document) (a : ℕ) (f : Selection) → HasNumber d a f
        → named_fields d (own_members d a f) ≡ map Some (own_selected d f) }
{}

/// Entering as many fragments as there are, one inside another, or more of them, finds all members
/// of a fragment, where no fragment reaches itself.
pub fn all_members_are_entered()
    ensures { ForAcyclic (λ d k.
        (name : List ℕ) → members_entered k d name ≡ members_of_fragment d name) }
{}

/// Expanding as many fragments as there are on a path, or more of them, counts all levels of a
/// fragment, where no fragment reaches itself.
pub fn all_levels_are_counted()
    ensures { ForAcyclic (λ d k. (j : ℕ)
        → levels_expanded k d.fragments j ≡ levels_expanded (length d.fragments) d.fragments j) }
{}
