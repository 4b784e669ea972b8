//! Edges: what the fragments spread, as one list.

ghost use Rattle.std.specs.Prelude.{◌≡◌, ◌==◌, ◌||◌, ◌&&◌, ℕ, OnOk, IfOk};
ghost use Rattle.rules_spreads.specs.Reach.{is_among};
ghost use Rattle.rules_spreads.specs.Rows.{rows_in};
ghost use Rattle.rules_spreads.specs.OperationSpans.{has_edge, AreEdges};

use crate::owner_lists::list_at;
use std::alloc::{AllocError, Global};

/// A fragment, by its number, and one that it spreads.
#[derive(Clone, Copy)]
pub struct Edge {
    pub from: usize,
    pub to: usize,
}

// Adds those of a fragment, which spreads what its row has.
fn add_edges(edges: &mut Vec<Edge>, row: &[usize], from: usize) -> Result<(), AllocError>
    ensures { (f j : ℕ) → OnOk result (has_edge edges.new.items f j
        ≡ (has_edge edges.old.items f j || (from == f && is_among j row.now))) }
{
    for to in row {
        edges.push(Edge { from, to: *to })?;
    }
    Ok(())
}

/// Returns what the fragments spread, where `rows` has it for each, from the last of the order to the first. If there is no
/// cycle, what a fragment spreads comes after everything that leads to it; no contract says so.
pub fn edges_of(
    alloc: Global,
    rows: &[Vec<usize>],
    order: &[usize],
) -> Result<Vec<Edge>, AllocError>
    ensures { IfOk result
        (λ edges. AreEdges (rows_in rows.now) edges.items) }
{
    let mut taken = vec![in alloc; false; rows.len()]?;
    let mut edges = Vec::new(alloc);
    for fragment in order.iter().rev() {
        if let Some(is_taken) = taken.get_mut(*fragment) {
            *is_taken = true;
            add_edges(&mut edges, list_at(rows, *fragment), *fragment)?;
        }
    }
    for (fragment, row) in rows.iter().enumerate() {
        if !taken[fragment] {
            add_edges(&mut edges, row, fragment)?;
        }
    }
    Ok(edges)
}
