//! An order of fragments in which each comes after those that it spreads.

ghost use Rattle.std.specs.Prelude.{◌≡◌, ◌<◌, ℕ, false, length, slice_index_or, IsTrue, IfOk, OnOk};
ghost use Rattle.rules_spreads.specs.SpreadReaches.{IsMarked};
ghost use Rattle.merging_fields.specs.Orders.{are_marked, IsFree, IsPart, IsGraphOrder, TakesReady};

use rules_parts::Owner;
use rules_spreads::Graph;
use std::alloc::{AllocError, Global};

fn is_marked(taken: &[bool], fragment: usize) -> bool
    ensures { result ≡ slice_index_or
        taken.now fragment false }
{
    match taken.get(fragment) {
        Some(is_taken) => *is_taken,
        None => false,
    }
}

fn are_marked(taken: &[bool], fragments: &[usize]) -> bool
    ensures { result ≡ are_marked taken.now fragments.now }
{
    fragments.iter().all(|fragment| is_marked(taken, *fragment))
}

fn are_all_marked(taken: &[bool]) -> bool
    ensures { IsTrue result → (x : ℕ)
        → x < length taken.now → IsMarked taken.now x }
{
    taken.iter().all(|is_taken| *is_taken)
}

// Takes a fragment into an order, where all that it spreads are taken.
fn take_next(
    graph: &Graph,
    fragment: usize,
    taken: &mut Vec<bool>,
    order: &mut Vec<usize>,
) -> Result<(), AllocError>
    requires part { IsPart graph.now
        order.old.items taken.old.items }
    ensures part { OnOk result
        (IsPart graph.now order.new.items taken.new.items) }
    ensures kept { (x : ℕ) → IsMarked taken.old.items x
        → OnOk result (IsMarked taken.new.items x) }
    ensures taken { OnOk result (TakesReady graph.now taken.old.items taken.new.items fragment) }
{
    if fragment >= graph.len() {
        return Ok(());
    }
    if is_marked(taken, fragment) {
        return Ok(());
    }
    if !are_marked(taken, graph.row(Owner::Fragment(fragment))) {
        return Ok(());
    }
    order.push(fragment)?;
    taken[fragment] = true;
    Ok(())
}

// Takes each fragment all of whose spreads are taken.
fn take_all(graph: &Graph, taken: &mut Vec<bool>, order: &mut Vec<usize>) -> Result<(), AllocError>
    requires part { IsPart graph.now
        order.old.items taken.old.items }
    ensures part { OnOk result
        (IsPart graph.now order.new.items taken.new.items) }
    ensures taken { (x : ℕ) → OnOk result (TakesReady graph.now taken.old.items taken.new.items x) }
{
    for fragment in 0..graph.len() {
        take_next(graph, fragment, taken, order)?;
    }
    Ok(())
}

// Takes these fragments, where all that each of them spreads are taken.
fn take_these(
    graph: &Graph,
    fragments: &[usize],
    taken: &mut Vec<bool>,
    order: &mut Vec<usize>,
) -> Result<(), AllocError>
    requires part { IsPart graph.now
        order.old.items taken.old.items }
    ensures part { OnOk result
        (IsPart graph.now order.new.items taken.new.items) }
{
    for fragment in fragments {
        take_next(graph, *fragment, taken, order)?;
    }
    Ok(())
}

/// The fragments, each after those that it spreads. It is linear in the spreads.
pub fn rank_fragments(alloc: Global, graph: &Graph) -> Result<Vec<usize>, AllocError>
    requires free { IsFree graph.now }
    ensures { IfOk result
        (λ order. IsGraphOrder graph.now order.items) }
{
    let mut taken = vec![in alloc; false; graph.len()]?;
    let mut order = Vec::with_capacity(alloc, graph.len())?;
    take_these(graph, graph.order(), &mut taken, &mut order)?;
    for _ in 0..graph.len() {
        if are_all_marked(&taken) {
            return Ok(order);
        }
        take_all(graph, &mut taken, &mut order)?;
    }
    Ok(order)
}
