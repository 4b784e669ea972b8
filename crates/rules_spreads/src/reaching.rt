//! Operations that reach each fragment, for a span of operations at a time.

ghost use Rattle.std.specs.Prelude.{◌≡◌, ◌≤◌, ◌<◌, ◌==◌, ◌||◌, ◌&&◌, ◌^◌, ℕ, Bool, true, false, length, IfOk, OnOk};
ghost use Rattle.rules_spreads.specs.Reach.{is_among, are_below, are_known};
ghost use Rattle.rules_spreads.specs.OperationSpans.{has, set_at, AreBelow, AreEdges, AreSpreaders, AreReachers, room, Passes, AllPass, AreKept, AreFollowed};

use crate::edges::Edge;
use crate::graph::Graph;
use crate::operation_set::OperationSet;
use rules_parts::Owner;
use std::alloc::{AllocError, Global};

// Adds an operation to the sets of these fragments.
fn add_to(sets: &mut Vec<OperationSet>, fragments: &[usize], number: usize)
    requires below { are_below
        (length sets.old.items) fragments.now ≡ true }
    requires number { number < 64 }
    ensures len { length sets.new.items
        ≡ length sets.old.items }
    ensures sets { (j i : ℕ) → has (set_at sets.new.items j) i
        ≡ ((i == number && is_among j fragments.now) || has (set_at sets.old.items j) i) }
{
    for fragment in fragments {
        sets[*fragment] = sets[*fragment].with(number);
    }
}

// Returns which operations of a span spread each fragment.
fn spreaders(
    alloc: Global,
    graph: &Graph,
    first: usize,
    count: usize,
) -> Result<Vec<OperationSet>, AllocError>
    requires first { first < 2 ^ 63 }
    requires count { count ≤ 64 }
    ensures len { IfOk result (λ sets.
        length sets.items ≡ length graph.now.fragments) }
    ensures known { 0 < count
        → OnOk result (are_known graph.now ≡ true) }
    ensures sets { IfOk result (λ sets.
        AreSpreaders graph.now first count sets.items) }
{
    let mut sets = vec![in alloc; OperationSet::new(); graph.len()]?;
    for number in 0..count {
        let row = graph.row(Owner::Operation(first + number));
        add_to(&mut sets, row, number);
    }
    Ok(sets)
}

// Adds what reaches a fragment to what reaches those that it spreads, and says whether that was anything.
fn follow(edges: &[Edge], sets: &mut Vec<OperationSet>) -> bool
    requires { AreBelow (length sets.old.items) edges.now }
    ensures len { length sets.new.items
        ≡ length sets.old.items }
    ensures passes { (test : ℕ → ℕ → Bool) → Passes edges.now test
        → AllPass test sets.old.items → AllPass test sets.new.items }
    ensures kept { AreKept sets.old.items sets.new.items }
    ensures followed { result ≡ false → AreFollowed
        edges.now (length edges.now) sets.new.items }
    ensures room { result ≡ true
        → room sets.new.items < room sets.old.items }
{
    let mut has_grown = false;
    for edge in edges {
        let from = sets[edge.from];
        let to = sets[edge.to];
        if !from.is_within(to) {
            sets[edge.to] = from.union(to);
            has_grown = true;
        }
    }
    has_grown
}

/// Returns which operations of a span reach each fragment: `count` from `first` on.
///
/// Takes two passes over what the fragments spread, where there is no cycle.
pub fn reachers(
    alloc: Global,
    graph: &Graph,
    edges: &[Edge],
    first: usize,
    count: usize,
) -> Result<Vec<OperationSet>, AllocError>
    requires first { first < 2 ^ 63 }
    requires count { (0 < count) × (count ≤ 64) }
    requires edges { AreEdges
        graph.now.fragments edges.now }
    ensures len { IfOk result (λ sets.
        length sets.items ≡ length graph.now.fragments) }
    ensures sets { IfOk result (λ sets.
        AreReachers graph.now first count sets.items) }
{
    let mut sets = spreaders(alloc, graph, first, count)?;
    let mut has_grown = true;
    while has_grown {
        has_grown = follow(edges, &mut sets);
    }
    Ok(sets)
}
