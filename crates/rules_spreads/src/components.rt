//! Components: fragments that lie on one cycle.

use crate::owner_lists::list_at;
use std::alloc::{AllocError, Global};

/// Holds what the search knows of a fragment.
#[derive(Clone, Copy)]
struct Node {
    /// In which order it was met, from 1; 0 before.
    number: usize,
    /// The least number that is known to be on a path from it and still open.
    low: usize,
    /// Tells whether its component is not complete yet.
    is_open: bool,
    /// The place of the next spread to follow.
    next: usize,
    /// The number of its component, from 1; 0 before.
    rank: usize,
}

/// A search from each fragment in turn for the sets of fragments that reach one another (Tarjan's).
#[derive(Drop)]
struct Search {
    nodes: Vec<Node>,
    open: Vec<usize>,
    path: Vec<usize>,
    met: usize,
    complete: usize,
}

impl Search {
    fn new(alloc: Global, count: usize) -> Result<Search, AllocError> {
        let unmet = Node {
            number: 0,
            low: 0,
            is_open: false,
            next: 0,
            rank: 0,
        };
        Ok(Search {
            nodes: vec![in alloc; unmet; count]?,
            open: Vec::new(alloc),
            path: Vec::new(alloc),
            met: 0,
            complete: 0,
        })
    }

    // Steps onto a fragment that was not met.
    fn enter(&mut self, fragment: usize) -> Result<(), AllocError> {
        self.met = self.met.saturating_add(1);
        if let Some(node) = self.nodes.get_mut(fragment) {
            node.number = self.met;
            node.low = self.met;
            node.is_open = true;
        }
        self.open.push(fragment)?;
        self.path.push(fragment)?;
        Ok(())
    }

    // Notes that a path leads from a fragment to an open one with this number.
    fn lower(&mut self, fragment: usize, number: usize) {
        if let Some(node) = self.nodes.get_mut(fragment) {
            node.low = node.low.min(number);
        }
    }

    // Steps back from a fragment. If it is the first of its component, that is complete.
    fn leave(&mut self, fragment: usize, node: Node) {
        self.path.pop();
        if node.low < node.number {
            if let Some(before) = self.path.last().copied() {
                self.lower(before, node.low);
            }
            return;
        }
        self.complete = self.complete.saturating_add(1);
        while let Some(member) = self.open.pop() {
            if let Some(node) = self.nodes.get_mut(member) {
                node.is_open = false;
                node.rank = self.complete;
            }
            if member == fragment {
                return;
            }
        }
    }

    // Follows the next spread of the last fragment of the path, or steps back.
    fn step(&mut self, rows: &[Vec<usize>], fragment: usize) -> Result<(), AllocError> {
        let Some(node) = self.nodes.get(fragment).copied() else {
            return Ok(());
        };
        match list_at(rows, fragment).get(node.next).copied() {
            Some(target) => {
                if let Some(node) = self.nodes.get_mut(fragment) {
                    node.next = node.next.saturating_add(1);
                }
                if let Some(reached) = self.nodes.get(target).copied() {
                    if reached.number == 0 {
                        self.enter(target)?;
                    } else if reached.is_open {
                        self.lower(fragment, reached.number);
                    }
                }
            }
            None => self.leave(fragment, node),
        }
        Ok(())
    }
}

// More steps than a search takes: one for each spread, one back from each fragment, and one for each to begin with.
fn most_steps(rows: &[Vec<usize>]) -> usize {
    let steps = rows.len().saturating_mul(2);
    rows.iter()
        .fold(steps, |steps, row| steps.saturating_add(row.len()))
}

/// A number for each fragment, where `rows` has what each spreads: one number for those that reach one another, and no less than
/// those of what it spreads. Nothing is claimed of it, and who takes it looks.
pub fn components(alloc: Global, rows: &[Vec<usize>]) -> Result<Vec<usize>, AllocError> {
    let mut search = Search::new(alloc, rows.len())?;
    let mut begun = 0;
    for _ in 0..most_steps(rows) {
        match search.path.last().copied() {
            Some(fragment) => search.step(rows, fragment)?,
            None => {
                if begun >= rows.len() {
                    break;
                }
                if search.nodes.get(begun).is_some_and(|node| node.number == 0) {
                    search.enter(begun)?;
                }
                begun += 1;
            }
        }
    }
    let mut ranks = Vec::with_capacity(alloc, search.nodes.len())?;
    for node in &search.nodes {
        ranks.push(node.rank)?;
    }
    Ok(ranks)
}

/// The fragments by their ranks, so that each comes after those that it spreads, where there is no cycle. Nothing is claimed of it.
pub fn order(alloc: Global, ranks: &[usize]) -> Result<Vec<usize>, AllocError> {
    let mut order = vec![in alloc; 0usize; ranks.len()]?;
    for (fragment, rank) in ranks.iter().enumerate() {
        if let Some(place) = order.get_mut(rank.saturating_sub(1)) {
            *place = fragment;
        }
    }
    Ok(order)
}
