//! The places of fields in the table of pairs: what a field's selection set has comes before the field.

ghost use Rattle.std.specs.Prelude.{◌≡◌, ◌<◌, ◌≤◌, [], ℕ, length, IfOk, OnOk, MatchBool};
ghost use Rattle.gq_parser.specs.Tree as tree;
ghost use Rattle.gq_parser.specs.Tree.{document_of};
ghost use Rattle.merging_members.specs.Fragments.{place_in};
ghost use Rattle.merging_members.specs.Members.{count_fields, members_of_fragment, fragment_starts};
ghost use Rattle.merging_members.specs.Placed.{HasPlaceIn, HasFragments, ArePlacedIn, OwnHavePlaces, AreReadyIn, AreDone, IsNumbering};
ghost use Rattle.merging_members.specs.Ranked.{IsOrder};
ghost use Rattle.merging_members.specs.SetMembers.{IsFixed};

use crate::counting::{fields_in, operation_fields};
use crate::fragments::start_of;
use gq_parser::Document;
use std::alloc::{AllocError, Global};

/// An order of a document's fields, and the place of each in it.
#[derive(Drop)]
pub struct Numbering {
    /// The numbers of fields by their places.
    pub order: Vec<usize>,
    /// The place of each field by its number.
    pub numbers: Vec<usize>,
}

// Tells whether a field has a place.
fn has_place(numbering: &Numbering, field: usize) -> bool
    requires { field < length numbering.now.numbers.items }
    ensures { MatchBool result (HasPlaceIn numbering.now field)
        (HasPlaceIn numbering.now field → ⊥) }
{
    match numbering.order.get(numbering.numbers[field]) {
        Some(there) => *there == field,
        None => false,
    }
}

// Gives a field the next place, unless it has one.
fn place(numbering: &mut Numbering, field: usize) -> Result<(), AllocError>
    requires there { field < length
        numbering.old.numbers.items }
    ensures len { length numbering.new.numbers.items
        ≡ length numbering.old.numbers.items }
    ensures own { OnOk result
        (HasPlaceIn numbering.new field) }
    ensures kept { (a : ℕ) → HasPlaceIn numbering.old a
        → OnOk result (HasPlaceIn numbering.new a) }
    ensures placed { (d : tree.Document) → ArePlacedIn d numbering.old
        → OwnHavePlaces d numbering.old field → OnOk result (ArePlacedIn d numbering.new) }
{
    if has_place(numbering, field) {
        return Ok(());
    }
    let next = numbering.order.len();
    numbering.order.push(field)?;
    numbering.numbers[field] = next;
    Ok(())
}

// Gives the fields from `first` to before `end` the next places, from the last to the first.
fn place_all(numbering: &mut Numbering, first: usize, end: usize) -> Result<(), AllocError>
    requires there { end ≤ length
        numbering.old.numbers.items }
    ensures len { length numbering.new.numbers.items
        ≡ length numbering.old.numbers.items }
    ensures own { (a : ℕ) → first ≤ a → a < end
        → OnOk result (HasPlaceIn numbering.new a) }
    ensures kept { (a : ℕ) → HasPlaceIn numbering.old a
        → OnOk result (HasPlaceIn numbering.new a) }
    ensures placed { (d : tree.Document) → ArePlacedIn d numbering.old
        → AreReadyIn d numbering.old first end → OnOk result (ArePlacedIn d numbering.new) }
{
    for field in (first..end).rev() {
        place(numbering, field)?;
    }
    Ok(())
}

// Gives the fields of all fragments the next places; `fragments` has each fragment after those that it spreads.
fn place_fragments(
    numbering: &mut Numbering,
    document: &Document,
    starts: &[usize],
    fragments: &[usize],
) -> Result<(), AllocError>
    requires none { numbering.old.order.items ≡ [] }
    requires few { length numbering.old.numbers.items
        ≤ 1024 }
    requires counted { count_fields (document_of document.now)
        ≤ length numbering.old.numbers.items }
    requires fragments { HasFragments (document_of document.now) starts.now fragments.now }
    ensures len { length numbering.new.numbers.items
        ≡ length numbering.old.numbers.items }
    ensures done { OnOk result (AreDone (document_of document.now)
        fragments.now numbering.new.order.items numbering.new.numbers.items) }
{
    for fragment in fragments {
        let first = start_of(starts, *fragment);
        let count = fields_in(&document.fragments[*fragment].selection_set);
        place_all(numbering, first, first + count)?;
    }
    Ok(())
}

/// Places for a document's fields, of which there are `count`; `fragments` has each fragment after those that it spreads, and
/// `starts` the number of the first field of each.
pub fn numbering_of(
    alloc: Global,
    document: &Document,
    starts: &[usize],
    fragments: &[usize],
    count: usize,
) -> Result<Numbering, AllocError>
    requires few { count ≤ 1024 }
    requires counted { count ≡ count_fields
        (document_of document.now) }
    requires started { starts.now
        ≡ fragment_starts (document_of document.now) }
    requires fragments { IsOrder fragments.now
        (place_in (document_of document.now).fragments) (document_of document.now).fragments }
    requires fixed { IsFixed (members_of_fragment (document_of document.now))
        (document_of document.now) }
    ensures { IfOk result (λ numbering.
        IsNumbering (document_of document.now) numbering.order.items numbering.numbers.items) }
{
    let mut numbering = Numbering {
        order: Vec::with_capacity(alloc, count)?,
        numbers: vec![in alloc; 0usize; count]?,
    };
    place_fragments(&mut numbering, document, starts, fragments)?;
    place_all(&mut numbering, 0, operation_fields(&document.operations))?;
    Ok(numbering)
}
