//! Operations with too many levels.
//!
//! A path expands no more fragments than there are, so levels are defined for documents with cycles too.

ghost use Rattle.std.specs.Prelude.{◌≡◌, ◌+◌, ℕ, IfOk, length, is_some};
ghost use Rattle.std.specs.List.{list_all};
ghost use Rattle.std.specs.Option.{option_map};
ghost use Rattle.gq_parser.specs.Tree.{selection_of, set_of, operation_of};
ghost use Rattle.rules_parts.specs.Broken.{broken_of, earliest};
ghost use Rattle.rules_parts.specs.Parts.{parts_in};
ghost use Rattle.rules_spreads.specs.Known.{one_more, known_named, known_in, known_from};
ghost use Rattle.rules_spreads.specs.Levels.{fragment_levels};
ghost use Rattle.rules_spreads.specs.Tables.{fragments_in, Agrees, IsFull, IsSettled, expanded_table};
ghost use Rattle.rules_spreads.specs.Rules.{deep_operation, too_deep};

use crate::graph::Graph;
use gq_parser::{Operation, Selection, SelectionSet};
use rules_parts::{EarliestViolation, Parts, Violation};
use std::alloc::{AllocError, Global};

/// Greatest number of fields on a path.
const MAX_LEVELS: usize = 128;

/// The levels of each fragment, where they are known, counted up to one too many.
type LevelCounts = Vec<Option<usize>>;

fn one_more(levels: usize) -> usize
    ensures { result ≡ one_more levels }
{
    if levels < MAX_LEVELS {
        levels + 1
    } else {
        MAX_LEVELS + 1
    }
}

fn spread_levels(parts: &Parts, table: &[Option<usize>], name: &str) -> Option<usize>
    ensures { result ≡ known_named table.now
        (fragments_in parts.now) name.now }
{
    match parts.fragment(name) {
        Some(number) => match table.get(number) {
            Some(levels) => *levels,
            None => None,
        },
        None => Some(0),
    }
}

// The levels in a set, where all that they rest on are known.
#[cycle(levels)]
fn set_levels(parts: &Parts, table: &[Option<usize>], set: &SelectionSet) -> Option<usize>
    ensures { result ≡ known_in (known_named table.now (fragments_in parts.now)) (set_of set.now) }
{
    let mut levels = 0;
    for selection in &set.selections {
        match selection_levels(parts, table, selection) {
            Some(more) => levels = levels.max(more),
            None => return None,
        }
    }
    Some(levels)
}

#[cycle(levels)]
fn selection_levels(parts: &Parts, table: &[Option<usize>], selection: &Selection) -> Option<usize>
    ensures { result
        ≡ known_from (known_named table.now (fragments_in parts.now)) (selection_of selection.now) }
{
    match selection {
        Selection::Field(field) => match &field.selection_set {
            Some(set) => match set_levels(parts, table, set) {
                Some(levels) => Some(one_more(levels)),
                None => None,
            },
            None => Some(1),
        },
        Selection::Spread(spread) => spread_levels(parts, table, spread.name.as_str()),
        Selection::Inline(inline) => set_levels(parts, table, &inline.selection_set),
    }
}

// Learns the levels of a fragment from those that are known, where they suffice.
fn learn(parts: &Parts, table: &mut LevelCounts, number: usize)
    ensures settled { (k : ℕ) → IsSettled table.old.items k (fragments_in parts.now)
        → IsSettled table.new.items (k + 1) (fragments_in parts.now) }
    ensures len { length table.new.items
        ≡ length table.old.items }
{
    match parts.document.fragments.get(number) {
        Some(fragment) => {
            let levels = set_levels(parts, table, &fragment.selection_set);
            if let Some(known) = table.get_mut(number) {
                *known = levels;
            }
        }
        None => {}
    }
}

// The levels of fragments, each taken once after those that it spreads. In a document with cycles some stay unknown.
fn ordered_table(alloc: Global, parts: &Parts, graph: &Graph) -> Result<LevelCounts, AllocError>
    ensures agrees { IfOk result (λ table.
        Agrees table.items (fragment_levels (fragments_in parts.now))) }
    ensures len { IfOk result (λ table. length table.items
        ≡ length (fragments_in parts.now)) }
{
    let count = parts.document.fragments.len();
    let order = graph.order();
    let mut table: LevelCounts = vec![in alloc; None; count]?;
    for i in 0..count {
        match order.get(i) {
            Some(number) => learn(parts, &mut table, *number),
            None => {}
        }
    }
    Ok(table)
}

// The levels of all fragments, where paths may expand one fragment more than those of a table.
fn next_table(
    alloc: Global,
    parts: &Parts,
    table: &[Option<usize>],
) -> Result<LevelCounts, AllocError>
    ensures { IfOk result (λ next. next.items ≡ expanded_table table.now (fragments_in parts.now)) }
{
    let mut next = Vec::with_capacity(alloc, parts.document.fragments.len())?;
    for fragment in &parts.document.fragments {
        next.push(set_levels(parts, table, &fragment.selection_set))?;
    }
    Ok(next)
}

// The levels of all fragments, on paths that expand more and more. It takes a pass for each fragment.
fn expanded_table(alloc: Global, parts: &Parts) -> Result<LevelCounts, AllocError>
    ensures agrees { IfOk result (λ table.
        Agrees table.items (fragment_levels (fragments_in parts.now))) }
    ensures full { IfOk result (λ table. IsFull
        table.items (length (fragments_in parts.now))) }
{
    let count = parts.document.fragments.len();
    let mut table: LevelCounts = vec![in alloc; Some(0); count]?;
    for _ in 0..count {
        table = next_table(alloc, parts, &table)?;
    }
    Ok(table)
}

fn is_full(table: &[Option<usize>]) -> bool
    ensures { result ≡ list_all is_some table.now }
{
    table.iter().all(Option::is_some)
}

// The levels of all fragments.
fn levels_table(alloc: Global, parts: &Parts, graph: &Graph) -> Result<LevelCounts, AllocError>
    ensures agrees { IfOk result (λ table.
        Agrees table.items (fragment_levels (fragments_in parts.now))) }
    ensures full { IfOk result (λ table. IsFull
        table.items (length (fragments_in parts.now))) }
{
    let table = ordered_table(alloc, parts, graph)?;
    if is_full(&table) {
        return Ok(table);
    }
    expanded_table(alloc, parts)
}

// The operation, where it has too many levels.
fn deep_operation<'d>(
    parts: &Parts<'d>,
    table: &[Option<usize>],
    operation: &'d Operation,
) -> Option<Violation<'d>>
    requires agrees { Agrees table.now
        (fragment_levels (fragments_in parts.now)) }
    requires full { IsFull table.now
        (length (fragments_in parts.now)) }
    ensures { option_map broken_of result
        ≡ deep_operation (fragments_in parts.now) (operation_of operation.now) }
{
    match set_levels(parts, table, &operation.selection_set) {
        Some(levels) => {
            if levels > MAX_LEVELS {
                Some(Violation::of_name("", operation.place))
            } else {
                None
            }
        }
        None => None,
    }
}

/// The earliest operation with more than 128 fields on a path, fragments expanded. It is reported without a name.
///
/// Linear in a document without cycles; the graph serves to order its fragments.
pub fn too_deep<'d>(
    alloc: Global,
    parts: &Parts<'d>,
    graph: &Graph,
) -> Result<Option<Violation<'d>>, AllocError>
    ensures { IfOk result (λ broken.
        option_map broken_of broken ≡ earliest (too_deep (parts_in parts.now))) }
{
    let table = levels_table(alloc, parts, graph)?;
    let mut earliest = EarliestViolation::new();
    for operation in &parts.document.operations {
        earliest.add_if(deep_operation(parts, &table, operation));
    }
    Ok(earliest.found)
}
