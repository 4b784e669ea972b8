//! Uses of variables that the operations of a span allow where they stand.

ghost use Rattle.std.specs.Prelude.{◌≡◌, ◌<◌, ◌==◌, ◌&&◌, ℕ, IfOk, OnOk, not, if◌then◌else◌};
ghost use Rattle.gq_parser.specs.Tree.{variable_of, variables_of};
ghost use Rattle.rules_parts.specs.Parts.{use_of};
ghost use Rattle.rules_spreads.specs.OperationSpans.{has};
ghost use Rattle.rules_typed.specs.Allowances.{allows, AllowsWhere, AllowsByVariable, AllowsBy, KeepsOthers, AreAllowed};
ghost use Rattle.rules_typed.specs.UseKinds.{is_forbidden_use};

use crate::compatible_types::is_allowed;
use crate::use_kinds::UseKinds;
use gq_parser::VariableDefinition;
use rules_parts::VariableUse;
use rules_spreads::{OperationSet, OperationSpan, put, set_of};
use std::alloc::{AllocError, Global};

/// Tells whether an operation allows a use of a variable where it is.
#[derive(Clone, Copy)]
enum Allowance {
    Allowed,
    Forbidden,
}

// Tells whether a variable may stand where a use stands, or that isn't known.
fn allowance_of(variable: &VariableDefinition, part: &VariableUse) -> Allowance
    ensures { allows result ≡ not (is_forbidden_use (variable_of variable.now) (use_of part.now)) }
{
    match part.location {
        Some(location) => {
            if is_allowed(variable, location) {
                Allowance::Allowed
            } else {
                Allowance::Forbidden
            }
        }
        None => Allowance::Allowed,
    }
}

// Returns the same set of operations, with one of them in it if that one allows the use, and else without it.
fn note_allowance(set: OperationSet, number: usize, allowance: Allowance) -> OperationSet
    requires { number < 64 }
    ensures { (m : ℕ) → m < 64
        → has result m ≡ (if m == number then allows allowance else has set m) }
{
    match allowance {
        Allowance::Allowed => set.with(number),
        Allowance::Forbidden => set.without(number),
    }
}

// Notes whether the operation with this number in its span allows a use of this variable.
fn allow_use(
    uses: &[VariableUse],
    place: usize,
    variable: &VariableDefinition,
    number: usize,
    sets: &mut Vec<OperationSet>,
) -> Result<(), AllocError>
    requires { number < 64 }
    ensures { OnOk result (AllowsWhere (λ r m. m == number && r == place)
        (variable_of variable.now) uses.now sets.old.items sets.new.items) }
{
    if let Some(part) = uses.get(place) {
        let set = note_allowance(set_of(sets, place), number, allowance_of(variable, part));
        put(sets, OperationSet::new(), place, set)?;
    }
    Ok(())
}

// Does the same for all uses of the variable's name that stand for others.
fn allow_by_variable(
    kinds: &UseKinds,
    uses: &[VariableUse],
    variable: &VariableDefinition,
    number: usize,
    sets: &mut Vec<OperationSet>,
) -> Result<(), AllocError>
    requires { number < 64 }
    ensures { OnOk result (AllowsByVariable kinds.now (variable_of variable.now)
        number uses.now sets.old.items sets.new.items) }
{
    for place in kinds.of(variable.name.as_str()) {
        allow_use(uses, *place, variable, number, sets)?;
    }
    Ok(())
}

// Tells of the uses that stand for others whether the operation with this number in its span allows them. The variables are taken
// from the last to the first, since the first of a name counts.
fn allow_by_operation(
    kinds: &UseKinds,
    uses: &[VariableUse],
    variables: &[VariableDefinition],
    number: usize,
    sets: &mut Vec<OperationSet>,
) -> Result<(), AllocError>
    requires { number < 64 }
    ensures own { OnOk result (AllowsBy kinds.now (variables_of variables.now)
        number uses.now sets.old.items sets.new.items) }
    ensures others { OnOk result (KeepsOthers number uses.now sets.old.items sets.new.items) }
{
    for variable in variables.iter().rev() {
        allow_by_variable(kinds, uses, variable, number, sets)?;
    }
    Ok(())
}

/// For each use that stands for others, the operations of a span that allow it where it is.
pub fn allowing_sets(
    alloc: Global,
    kinds: &UseKinds,
    uses: &[VariableUse],
    span: &OperationSpan,
) -> Result<Vec<OperationSet>, AllocError>
    ensures { IfOk result (λ sets.
        AreAllowed kinds.now uses.now span.now sets.items) }
{
    let mut sets = vec![in alloc; OperationSet::all(); uses.len()]?;
    for number in 0..span.count {
        let variables = &span.operations[span.first + number].variables;
        allow_by_operation(kinds, uses, variables, number, &mut sets)?;
    }
    Ok(sets)
}
