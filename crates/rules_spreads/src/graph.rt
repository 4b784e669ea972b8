//! Graph of what operations and fragments spread.

ghost use Rattle.std.specs.Prelude.{◌≡◌, true, [], OnOk, IfOk, length, replicate};
ghost use Rattle.rules_parts.specs.Parts.{spread_part_of, parts_in};
ghost use Rattle.rules_spreads.specs.Graphs.{operation_number, fragment_number, with_target, graph_of, row};
ghost use Rattle.rules_spreads.specs.Reach.{are_known};
ghost use Rattle.rules_spreads.specs.Rows.{AddsSpread, rows_in};
ghost use Rattle.rules_spreads.specs.OperationSpans.{AreEdges};

use crate::components::{components, order};
use crate::edges::{Edge, edges_of};
use rules_parts::{Owner, Parts, SpreadPart};
use std::alloc::{AllocError, Global};
use std::marker::Model;

/// Holds what each of several spreads.
type SpreadLists = Vec<Vec<usize>>;

/// The fragments that each operation and each fragment of a document spreads, by their numbers from 0. What all rules need to go
/// through them in order is found once, with the graph.
///
/// That order serves cycles, levels, the rules on variables and field merging. No contract speaks of it: each
/// of them tests it or does without.
#[derive(Drop)]
pub struct Graph {
    operations: SpreadLists,
    fragments: SpreadLists,
    ranks: Vec<usize>,
    order: Vec<usize>,
    edges: Vec<Edge>,
}

impl Model for Graph {
    ghost use Rattle.rules_spreads.specs.Graphs.{GraphOf};
    ghost use Rattle.rules_spreads.specs.Rows.{rows_in};
    ghost use Rattle.rules_spreads.specs.OperationSpans.{IsLinked};

    ghost Value = { GraphOf };

    ghost view = { λ g. record { operations = rows_in g.operations.items; fragments = rows_in g.fragments.items } };

    ghost invariant = { λ g. IsLinked (record { operations = rows_in g.operations.items; fragments = rows_in g.fragments.items }) g.edges.items };
}

// Returns `count` rows that spread nothing.
fn empty_rows(alloc: Global, count: usize) -> Result<SpreadLists, AllocError>
    ensures { IfOk result
        (λ rows. rows_in rows.items ≡ replicate count []) }
{
    let mut rows = Vec::with_capacity(alloc, count)?;
    for _ in 0..count {
        rows.push(Vec::new(alloc))?;
    }
    Ok(rows)
}

// Adds a target to a row.
fn add_target(rows: &mut SpreadLists, number: usize, target: usize) -> Result<(), AllocError>
    ensures { OnOk result
        (rows_in rows.new.items ≡ with_target (rows_in rows.old.items) number target) }
{
    match rows.get_mut(number) {
        Some(row) => {
            row.push(target)?;
            Ok(())
        }
        None => Ok(()),
    }
}

// Adds what a spread gives, where there are `count` fragments.
fn add_spread(
    count: usize,
    spread: &SpreadPart,
    operations: &mut SpreadLists,
    fragments: &mut SpreadLists,
) -> Result<(), AllocError>
    ensures operations { OnOk result (AddsSpread count operation_number
        (spread_part_of spread.now) operations.old.items operations.new.items) }
    ensures fragments { OnOk result (AddsSpread count fragment_number
        (spread_part_of spread.now) fragments.old.items fragments.new.items) }
{
    match spread.target {
        Some(target) => {
            if target >= count {
                return Ok(());
            }
            match spread.owner {
                Owner::Operation(number) => add_target(operations, number, target),
                Owner::Fragment(number) => add_target(fragments, number, target),
            }
        }
        None => Ok(()),
    }
}

impl Graph {
    /// The graph of a document's parts.
    pub fn new(alloc: Global, parts: &Parts) -> Result<Graph, AllocError>
        ensures { IfOk result (λ graph.
            graph ≡ graph_of (parts_in parts.now)) }
    {
        let count = parts.document.fragments.len();
        let mut operations = empty_rows(alloc, parts.document.operations.len())?;
        let mut fragments = empty_rows(alloc, count)?;
        for spread in &parts.spreads {
            add_spread(count, spread, &mut operations, &mut fragments)?;
        }
        let ranks = components(alloc, &fragments)?;
        let order = order(alloc, &ranks)?;
        let edges = edges_of(alloc, &fragments, &order)?;
        Ok(Graph {
            operations,
            fragments,
            ranks,
            order,
            edges,
        })
    }

    /// The number of fragments.
    pub fn len(&self) -> usize
        ensures { result ≡ length self.now.fragments }
    {
        self.fragments.len()
    }

    /// A number for each fragment: one number for those that reach one another, and no less than those of what it spreads. Nothing
    /// is claimed of it, and who takes it looks.
    pub(crate) fn ranks(&self) -> &[usize] {
        &self.ranks
    }

    /// The fragments, each after those that it spreads, where there is no cycle. Nothing is claimed of it, and who takes it looks.
    pub fn order(&self) -> &[usize] {
        &self.order
    }

    /// Returns what the fragments spread, as one list. If there is no cycle, what a fragment spreads comes after everything that
    /// leads to it; no contract says so.
    pub(crate) fn edges(&self) -> &[Edge]
        ensures { AreEdges self.now.fragments result.now }
    {
        &self.edges
    }

    /// Returns what an operation or a fragment spreads, in the order of the text.
    pub fn row(&self, owner: Owner) -> &[usize]
        ensures row { result.now ≡ row self.now owner }
        ensures known { are_known self.now ≡ true }
    {
        let row = match owner {
            Owner::Operation(number) => self.operations.get(number),
            Owner::Fragment(number) => self.fragments.get(number),
        };
        match row {
            Some(row) => row,
            None => &[],
        }
    }
}
