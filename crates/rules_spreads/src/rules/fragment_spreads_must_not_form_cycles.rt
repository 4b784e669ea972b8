//! Fragments that reach themselves.

ghost use Rattle.std.specs.Prelude.{◌≡◌, IfOk, IsTrue, Some, None};
ghost use Rattle.std.specs.Option.{option_map};
ghost use Rattle.rules_parts.specs.Broken.{broken_of, earliest};
ghost use Rattle.rules_parts.specs.Parts.{parts_in};
ghost use Rattle.rules_spreads.specs.Graphs.{graph_of};
ghost use Rattle.rules_spreads.specs.Reach.{is_cyclic};
ghost use Rattle.rules_spreads.specs.Ranks.{rank_of, are_at_most, are_under, IsOrdered};
ghost use Rattle.rules_spreads.specs.Rules.{stands_first, fragment_spreads_must_not_form_cycles};

use crate::graph::Graph;
use crate::spread_reach::SpreadReach;
use gq_lexer::Place;
use rules_parts::{EarliestViolation, Owner, Parts, Violation};
use std::alloc::{AllocError, Global};

fn rank_of(ranks: &[usize], fragment: usize) -> usize
    ensures { result ≡ rank_of ranks.now fragment }
{
    match ranks.get(fragment) {
        Some(rank) => *rank,
        None => 0,
    }
}

fn are_at_most(ranks: &[usize], rank: usize, fragments: &[usize]) -> bool
    ensures { result ≡ are_at_most
        ranks.now rank fragments.now }
{
    fragments
        .iter()
        .all(|fragment| rank_of(ranks, *fragment) <= rank)
}

fn are_under(ranks: &[usize], rank: usize, fragments: &[usize]) -> bool
    ensures { result ≡ are_under
        ranks.now rank fragments.now }
{
    fragments
        .iter()
        .all(|fragment| rank_of(ranks, *fragment) < rank)
}

// Tells whether what each fragment spreads has at most its rank.
fn is_ordered(ranks: &[usize], graph: &Graph) -> bool
    ensures { IsTrue result
        → IsOrdered ranks.now graph.now }
{
    (0..graph.len()).all(|fragment| {
        let row = graph.row(Owner::Fragment(fragment));
        are_at_most(ranks, rank_of(ranks, fragment), row)
    })
}

// Tells whether a fragment reaches itself. One that ranks above everything that it spreads doesn't; for any
// other it takes a walk.
fn is_cyclic(
    walk: &mut SpreadReach,
    ranks: &[usize],
    graph: &Graph,
    fragment: usize,
) -> Result<bool, AllocError>
    requires { IsOrdered ranks.now graph.now }
    ensures { IfOk result
        (λ cyclic. cyclic ≡ is_cyclic graph.now fragment) }
{
    let owner = Owner::Fragment(fragment);
    if are_under(ranks, rank_of(ranks, fragment), graph.row(owner)) {
        return Ok(false);
    }
    walk.reach_from(graph, owner)?;
    Ok(walk.reached_numbers().contains(&fragment))
}

// Tells whether what is broken at this place would stand before all so far.
fn stands_first(earliest: &EarliestViolation, place: Place) -> bool
    ensures { result ≡ stands_first
        (option_map broken_of earliest.now.found) place }
{
    match earliest.found {
        Some(kept) => place.is_before(kept.place),
        None => true,
    }
}

// Ranks that are ordered; where those of the graph are not, as never happens, all alike.
fn ranks(graph: &Graph) -> &[usize]
    ensures { IsOrdered result.now graph.now }
{
    let ranks = graph.ranks();
    if is_ordered(ranks, graph) { ranks } else { &[] }
}

/// Fragment Spreads Must Not Form Cycles: the earliest fragment that reaches itself (section 5.5.2.2).
///
/// Linear in the spreads where no fragment does, and where the first in the list that does is the earliest.
///
/// # Examples
///
/// | `{users{...F}} fragment F on User{best{...F}}` | `5.5.2.2 Fragment Spreads Must Not Form Cycles: F` | 15, the fragment | Write out as many
/// levels as you need. |
pub fn fragment_spreads_must_not_form_cycles<'d>(
    alloc: Global,
    parts: &Parts<'d>,
    graph: &Graph,
) -> Result<Option<Violation<'d>>, AllocError>
    requires { graph.now ≡ graph_of (parts_in parts.now) }
    ensures { IfOk result (λ broken. option_map broken_of broken
        ≡ earliest (fragment_spreads_must_not_form_cycles (parts_in parts.now))) }
{
    let ranks = ranks(graph);
    let mut walk = SpreadReach::new(alloc);
    let mut earliest = EarliestViolation::new();
    for (i, fragment) in parts.document.fragments.iter().enumerate() {
        if stands_first(&earliest, fragment.place) && is_cyclic(&mut walk, ranks, graph, i)? {
            earliest.add(Violation::of_name(fragment.name.as_str(), fragment.place));
        }
    }
    Ok(earliest.found)
}
