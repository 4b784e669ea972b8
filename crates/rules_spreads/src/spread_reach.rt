//! Walks over spreads, each fragment once.

ghost use Rattle.std.specs.Prelude.{◌≡◌, ◌≤◌, ℕ, true, [], length, vec_len, OnOk};
ghost use Rattle.rules_spreads.specs.Reach.{is_among, are_below, reaches};
ghost use Rattle.rules_spreads.specs.SpreadReaches.{AreClear, AreListed, Visits};

use crate::graph::Graph;
use rules_parts::Owner;
use std::alloc::{AllocError, Global};
use std::marker::Model;

/// Holds what was reached last, with the memory for further walks.
///
/// A contract sees it as the list of the fragments that were reached last, by their numbers, each once.
#[derive(Drop)]
pub struct SpreadReach {
    /// Tells whether each fragment was reached last.
    marks: Vec<bool>,
    reached: Vec<usize>,
}

impl Model for SpreadReach {
    ghost use Rattle.std.specs.Prelude.{List, ℕ};
    ghost use Rattle.rules_spreads.specs.SpreadReaches.{AreListed};

    ghost Value = { List ℕ };

    ghost view = { λ w. w.reached.items };

    ghost invariant = { λ w. AreListed w.marks.items w.reached.items };
}

// Takes the marks away from what is listed, and empties the list.
fn clear(marks: &mut Vec<bool>, reached: &mut Vec<usize>)
    requires { AreListed marks.old.items reached.old.items }
    ensures marks { AreClear marks.new.items }
    ensures reached { reached.new.items ≡ [] }
{
    while let Some(fragment) = reached.pop() {
        if let Some(mark) = marks.get_mut(fragment) {
            *mark = false;
        }
    }
}

// Makes room for the marks of `count` fragments.
fn fit(marks: &mut Vec<bool>, count: usize) -> Result<(), AllocError>
    requires { AreClear marks.old.items }
    ensures clear { AreClear marks.new.items }
    ensures room { OnOk result (count ≤ vec_len marks.new) }
{
    while marks.len() < count {
        marks.push(false)?;
    }
    Ok(())
}

// Marks these, and lists those that were not marked.
fn visit(
    marks: &mut Vec<bool>,
    reached: &mut Vec<usize>,
    targets: &[usize],
) -> Result<(), AllocError>
    requires { are_below
        (length marks.old.items) targets.now ≡ true }
    ensures visits { OnOk result
        (Visits marks.old.items marks.new.items reached.old.items reached.new.items targets.now) }
    ensures listed { AreListed marks.old.items reached.old.items
        → AreListed marks.new.items reached.new.items }
{
    for target in targets {
        if !marks[*target] {
            reached.push(*target)?;
            marks[*target] = true;
        }
    }
    Ok(())
}

// Walks from an operation or a fragment, nothing being marked or listed.
fn follow(
    graph: &Graph,
    owner: Owner,
    marks: &mut Vec<bool>,
    reached: &mut Vec<usize>,
) -> Result<(), AllocError>
    requires clear { AreClear marks.old.items }
    requires empty { reached.old.items ≡ [] }
    requires room { length graph.now.fragments
        ≤ length marks.old.items }
    ensures reached { (j : ℕ)
        → OnOk result (is_among j reached.new.items ≡ reaches graph.now owner j) }
    ensures listed { AreListed
        marks.new.items reached.new.items }
{
    visit(marks, reached, graph.row(owner))?;
    let mut next = 0;
    while next < reached.len() {
        let fragment = Owner::Fragment(reached[next]);
        visit(marks, reached, graph.row(fragment))?;
        next += 1;
    }
    Ok(())
}

impl SpreadReach {
    /// Nothing reached yet.
    pub fn new(alloc: Global) -> SpreadReach
        ensures { result ≡ [] }
    {
        SpreadReach {
            marks: Vec::new(alloc),
            reached: Vec::new(alloc),
        }
    }

    /// Walks from an operation or a fragment. A fragment is itself among what it reaches only where it is on a cycle.
    ///
    /// # Errors
    ///
    /// When out of memory. No clause speaks then of what was reached.
    pub fn reach_from(&mut self, graph: &Graph, owner: Owner) -> Result<(), AllocError>
        ensures { (j : ℕ) → OnOk result (is_among j self.new
            ≡ reaches graph.now owner j) }
    {
        clear(&mut self.marks, &mut self.reached);
        fit(&mut self.marks, graph.len())?;
        follow(graph, owner, &mut self.marks, &mut self.reached)
    }

    /// The fragments that the last walk reached.
    pub fn reached_numbers(&self) -> &[usize]
        ensures { result.now ≡ self.now }
    {
        &self.reached
    }
}
