//! The loads of the later loaders of a `via`.

ghost use Rattle.std.specs.Prelude.{ℕ, IfOk, map};
ghost use Rattle.gq_bindings.specs.Seen.{step_of};
ghost use Rattle.load_memory.specs.Outcomes.{outcome_of};
ghost use Rattle.execution.specs.Loads.{Reader};
ghost use Rattle.plan_walk.specs.Reading.{lookup};
ghost use Rattle.plan_walk.specs.Following.{StepsTo, ComesTo, FollowsTo};

use crate::keys::{KeyOver, column_over};
use crate::reading::knows_nothing;
use gq_bindings::ViaLoader;
use load_memory::{KeyRef, Memory, Outcome, Probe, Row};
use plan_program::{LeafValue, no_column_message};
use std::alloc::{AllocError, Global};

/// Says where one later loader comes to from a row.
#[derive(Drop)]
pub enum ViaRow<'r> {
    Row(&'r Row),
    /// The load gives null, or a fault.
    LeafValue(LeafValue),
    /// There is null, or a fault, in place of a key, and so no load.
    NoKey(LeafValue),
    /// The memory lacks the load of this key.
    Missing(KeyRef<'r>),
}

/// Says how many loads the later loaders of a `via` read from a row, and where they come to.
#[derive(Drop)]
pub struct FollowedVia<'r> {
    pub loads: usize,
    pub to: ViaRows<'r>,
}

/// Says where the later loaders of a `via` come to from a row.
#[derive(Drop)]
pub enum ViaRows<'r> {
    Row(&'r Row),
    /// Null, or a fault.
    LeafValue(LeafValue),
    /// The memory lacks a load, after which `left` loaders come.
    Missing {
        left: usize,
        loader: usize,
        key: KeyRef<'r>,
    },
}

// The first row of a later loader's load, by a column of the row before.
fn step_from<'r>(
    alloc: Global,
    memory: &'r Memory,
    probe: &mut Probe,
    step: &ViaLoader,
    row: &'r Row,
) -> Result<ViaRow<'r>, AllocError>
    ensures { IfOk result (StepsTo (lookup memory.now) (step_of step.now) row.now) }
{
    let key = match column_over(step.column.as_str(), row) {
        KeyOver::Known(key) => key,
        KeyOver::Null => return Ok(ViaRow::NoKey(LeafValue::Null)),
        KeyOver::Lacking(column) => {
            let fault = no_column_message(alloc, column)?;
            return Ok(ViaRow::NoKey(LeafValue::Fault(fault)));
        }
    };
    if knows_nothing(memory, step.loader) {
        return Ok(ViaRow::Missing(key));
    }
    match memory.look_up(alloc, probe, step.loader, key)? {
        Some(outcome) => first_row_of(outcome),
        None => Ok(ViaRow::Missing(key)),
    }
}

// The first row of an outcome.
fn first_row_of<'r>(outcome: &'r Outcome) -> Result<ViaRow<'r>, AllocError>
    ensures { IfOk result (λ there.
        (R : Reader) (loader : ℕ) → ComesTo R loader (outcome_of outcome.now) there) }
{
    match outcome {
        Outcome::Rows(rows) => match rows.first() {
            Some(row) => Ok(ViaRow::Row(row)),
            None => Ok(ViaRow::LeafValue(LeafValue::Null)),
        },
        Outcome::KeyFault(text) => Ok(ViaRow::LeafValue(LeafValue::Fault(text.clone()?))),
        Outcome::BatchFault(text) => Ok(ViaRow::LeafValue(LeafValue::Fault(text.clone()?))),
    }
}

/// Goes on from a row by the last `left` of the later loaders of a `via`, each by a column of the row before. It ends where one
/// comes to null, to a fault, or to a load that the memory lacks.
pub fn follow_steps<'r>(
    alloc: Global,
    memory: &'r Memory,
    probe: &mut Probe,
    steps: &[ViaLoader],
    left: usize,
    from: &'r Row,
) -> Result<FollowedVia<'r>, AllocError>
    ensures { IfOk result (FollowsTo (lookup memory.now) (map step_of steps.now) left from.now) }
{
    let first = steps.len().saturating_sub(left);
    let mut row = from;
    for number in first..steps.len() {
        let step = &steps[number];
        let loads = number - first;
        match step_from(alloc, memory, probe, step, row)? {
            ViaRow::Row(next) => row = next,
            ViaRow::NoKey(leaf_value) => {
                let to = ViaRows::LeafValue(leaf_value);
                return Ok(FollowedVia { loads, to });
            }
            ViaRow::LeafValue(leaf_value) => {
                let to = ViaRows::LeafValue(leaf_value);
                return Ok(FollowedVia {
                    loads: loads + 1,
                    to,
                });
            }
            ViaRow::Missing(key) => {
                let to = ViaRows::Missing {
                    left: steps.len() - number - 1,
                    loader: step.loader,
                    key,
                };
                return Ok(FollowedVia {
                    loads: loads + 1,
                    to,
                });
            }
        }
    }
    Ok(FollowedVia {
        loads: steps.len() - first,
        to: ViaRows::Row(row),
    })
}
