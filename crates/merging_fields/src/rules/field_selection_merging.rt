//! The rule (section 5.3.2).

ghost use Rattle.std.specs.Prelude.{◌≡◌, ◌<◌, ◌≤◌, [], ℕ, List, length, map, All, IfOk, IfSome};
ghost use Rattle.std.specs.Option.{option_map};
ghost use Rattle.merging_pairs.specs.Clashes.{first_clash};
ghost use Rattle.merging_members.specs.Fragments.{place_in};
ghost use Rattle.merging_members.specs.Ranked.{AreRanked};
ghost use Rattle.merging_members.specs.SetMembers.{clashing_of, IsInside};
ghost use Rattle.rules_parts.specs.Broken.{broken_of};
ghost use Rattle.rules_parts.specs.Listing.{parts_of};
ghost use Rattle.rules_parts.specs.Parts.{parts_in};
ghost use Rattle.rules_spreads.specs.Graphs.{graph_of};
ghost use Rattle.rules_spreads.specs.Rules.{fragment_spreads_must_not_form_cycles};
ghost use Rattle.merging_fields.specs.Knowledge.{document_in, IsFragmentOrder, IsCompared, fields_in, clash_in, set_in, HasFieldsOf, report_in};
ghost use Rattle.merging_fields.specs.FieldSelectionMerging.{IsMerging};
ghost use Rattle.merging_fields.specs.Reports.{earlier_set, earliest_set};

use crate::agreeing::agree_by_key;
use crate::attributes::response_key;
use crate::clashing::clashing_sets;
use crate::grounds::{fields_in_order, grounds_of};
use crate::known::{ComparedFields, Grounds};
use crate::ranks::rank_fragments;
use merging_members::{
    ClashingSet, FragmentMembers, NumberedDocument, first_member, fragment_starts, known_fragments,
    numbering_of, operation_fields, reached_in,
};
use merging_pairs::{failing_keys, failing_pairs};
use rules_parts::{Parts, Violation};
use rules_spreads::Graph;
use std::alloc::{AllocError, Global};

// The first member of a set whose response key has a conflict, by its number in the document.
fn first_clashing<'d>(compared: &ComparedFields<'_, 'd>, set: ClashingSet<'d>) -> Option<usize>
    requires compared { IsCompared compared.now }
    requires under { HasFieldsOf compared.now
        (set_in compared.now set) }
    requires inside { IsInside
        (length compared.now.grounds.numbers.now) set }
    ensures first { result ≡ first_clash (fields_in compared.now).one_key
        (clash_in compared.now) (set_in compared.now set.entry).members }
    ensures there { IfSome result (λ f.
        f < length (parts_in compared.now.grounds.parts.now).fields) }
{
    let walk = FragmentMembers {
        targets: compared.grounds.targets,
        numbers: compared.grounds.numbers,
        rows: compared.rows,
        fragments: compared.fragments,
    };
    let source = NumberedDocument {
        document: compared.grounds.parts.document,
        targets: compared.grounds.targets,
        starts: compared.grounds.starts,
        numbers: compared.grounds.numbers,
        rows: compared.rows,
    };
    let reached = reached_in(&walk, set.set, set.first);
    let keys = failing_keys(compared.fields, &reached);
    first_member(&source, compared.fragments, &keys, set)
}

// The fault to report for a set in which two fields conflict.
fn report<'d>(compared: &ComparedFields<'_, 'd>, set: ClashingSet<'d>) -> Option<Violation<'d>>
    requires compared { IsCompared compared.now }
    requires under { HasFieldsOf compared.now
        (set_in compared.now set) }
    requires inside { IsInside
        (length compared.now.grounds.numbers.now) set }
    ensures { option_map broken_of result ≡ report_in
        compared.now (set_in compared.now set.entry) }
{
    let number = first_clashing(compared, set)?;
    let field = &compared.grounds.parts.fields[number];
    Some(Violation::of_name(response_key(field), set.set.place))
}

// The earlier one of two sets; the first one if both have the same place.
fn earlier<'d>(kept: ClashingSet<'d>, other: ClashingSet<'d>) -> ClashingSet<'d>
    ensures inside { (many : ℕ) → IsInside many kept.entry
        → IsInside many other.entry → IsInside many result }
    ensures set { (spread : List ℕ → List ℕ) → clashing_of spread result
        ≡ earlier_set (clashing_of spread kept.entry) (clashing_of spread other.entry) }
{
    if other.set.place.is_before(kept.set.place) {
        other
    } else {
        kept
    }
}

// The set with the earliest `{`.
fn earliest_set<'d>(sets: &[ClashingSet<'d>]) -> Option<ClashingSet<'d>>
    ensures inside { (many : ℕ) → All (IsInside many)
        sets.now → IfSome result (IsInside many) }
    ensures set { (spread : List ℕ → List ℕ) → option_map (clashing_of spread) result
        ≡ earliest_set (map (clashing_of spread) sets.now) }
{
    let mut earliest: Option<ClashingSet<'d>> = None;
    for set in sets {
        earliest = match earliest {
            Some(kept) => Some(earlier(kept, *set)),
            None => Some(*set),
        };
    }
    earliest
}

// Finds the set with the earliest `{` that can't merge. Only in that set does it look for the response key to report.
fn first_report<'d>(
    alloc: Global,
    compared: &ComparedFields<'_, 'd>,
) -> Result<Option<Violation<'d>>, AllocError>
    requires compared { IsCompared compared.now }
    ensures { IfOk result (λ report.
        IsMerging (parts_in compared.now.grounds.parts.now) (option_map broken_of report)) }
{
    let sets = clashing_sets(alloc, compared)?;
    match earliest_set(&sets) {
        Some(set) => Ok(report(compared, set)),
        None => Ok(None),
    }
}

// Does the same, where the fields aren't compared yet; `fragments` are the fragments, each after those that it spreads.
fn compare<'d>(
    alloc: Global,
    grounds: Grounds<'_, 'd>,
    fragments: &[usize],
) -> Result<Option<Violation<'d>>, AllocError>
    requires fragments { IsFragmentOrder
        fragments.now grounds }
    requires ranked { ∥ AreRanked (place_in (document_in grounds).fragments)
        (document_in grounds).fragments ∥₁ }
    ensures { IfOk result (λ report.
        IsMerging (parts_in grounds.entry.parts.now) (option_map broken_of report)) }
{
    let fields = fields_in_order(alloc, &grounds, fragments)?;
    let rows = failing_pairs(alloc, &fields)?;
    let source = NumberedDocument {
        document: grounds.parts.document,
        targets: grounds.targets,
        starts: grounds.starts,
        numbers: grounds.numbers,
        rows: &rows,
    };
    let known = known_fragments(alloc, &source, fragments)?;
    let compared = ComparedFields {
        grounds,
        fields: &fields,
        rows: &rows,
        fragments: &known,
    };
    first_report(alloc, &compared)
}

/// Field Selection Merging: the selection set with the earliest `{` that can't be merged, by its first response key with a
/// failing pair (section 5.3.2). `graph` is that of the document's fragments.
///
/// Fields of one response key are compared first, wherever they stand. Where all have one name, equal arguments and types of one
/// shape, every set can be merged; the table of pairs is made for other documents alone. Object values are compared in order,
/// since no argument takes one.
///
/// It requires that no fragment reaches itself and that there are at most 1,024 fields: `check` of `gq_check`
/// allows 1,000, and asks this rule last, of documents without another fault.
///
/// # Errors
///
/// Out of memory.
///
/// # Examples
///
/// | `{user(id:1){name name:id}}` | `5.3.2 Field Selection Merging: name` | 12, the `{` | Give one of the two an alias: two fields with one response
/// key have to be the same field with equal arguments. |
/// | `{user(id:1){best{name} best{name:id}}}` | `5.3.2 Field Selection Merging: best` | 12, the `{` | Give one of the inner two an alias: the
/// selections of both `best` are merged, and `name` would be two fields there. |
/// | `{user(id:1){...F id}} fragment F on User{id:name}` | `5.3.2 Field Selection Merging: id` | 12, the `{` | Give one of the two another alias: a
/// set also has the fields of the fragments that it spreads. |
/// | `{named(id:1){...on User{x:id} ...on Bot{x:model}}}` | `5.3.2 Field Selection Merging: x` | 13, the `{` | Give the two different aliases, or
/// select fields whose types have one shape. |
pub fn field_selection_merging<'d>(
    alloc: Global,
    parts: &Parts<'d>,
    graph: &Graph,
) -> Result<Option<Violation<'d>>, AllocError>
    requires listed { parts_in parts.now
        ≡ parts_of (parts_in parts.now).definitions (parts_in parts.now).document }
    requires graph { graph.now
        ≡ graph_of (parts_in parts.now) }
    requires cycles { fragment_spreads_must_not_form_cycles
        (parts_in parts.now) ≡ [] }
    requires few { length (parts_in parts.now).fields
        ≤ 1024 }
    ensures { IfOk result (λ report. IsMerging (parts_in parts.now) (option_map broken_of report)) }
{
    if agree_by_key(alloc, parts)? {
        return Ok(None);
    }
    let document = parts.document;
    let fragments = rank_fragments(alloc, graph)?;
    let first = operation_fields(&document.operations);
    let starts = fragment_starts(alloc, first, &document.fragments)?;
    let numbering = numbering_of(alloc, document, &starts, &fragments, parts.fields.len())?;
    let grounds = grounds_of(parts, parts.fragment_numbers(), &starts, &numbering);
    compare(alloc, grounds, &fragments)
}
