//! Operations of a span that define a variable of each name, and those that use one, as a set of operations for each
//! name.
//!
//! The rules on variables take 64 operations at a time, as the bits of a word for each fragment, which is
//! passed along the spreads until none grows. So a span costs as much as a walk for one operation. Spans are
//! made one after another and for each rule anew: those of a whole document could be far larger than the
//! document.

ghost use Rattle.std.specs.Prelude.{◌≡◌, ◌<◌, ◌==◌, ◌&&◌, ℕ, IfOk, OnOk, length};
ghost use Rattle.gq_parser.specs.Tree.{operation_of};
ghost use Rattle.rules_spreads.specs.OperationSpans.{has, set_at, any_below};
ghost use Rattle.rules_spreads.specs.Rows.{rows_in};
ghost use Rattle.rules_untyped.specs.VariableUseIndex.{number_by, has_if};
ghost use Rattle.rules_untyped.specs.UseRows.{is_number_among, is_used_at, is_used_in, has_number};
ghost use Rattle.rules_untyped.specs.SpanSteps.{has_numbered, Adds, AreDefiners, NotesLacking};

use crate::variable_use_index::{VariableNumbers, VariableUseIndex, number_at};
use gq_parser::Operation;
use rules_spreads::{
    OperationSet, OperationSpan, list_at, note_missing_in_fragments, note_missing_in_operations,
    put, set_of,
};
use std::alloc::{AllocError, Global};

/// Some operations of a span for each name, by the name's number.
pub type Sets = Vec<OperationSet>;

// Adds an operation to the sets of its variables' names.
fn add_defined(
    names: &VariableNumbers,
    operation: &Operation,
    number: usize,
    sets: &mut Sets,
) -> Result<(), AllocError>
    requires { number < 64 }
    ensures { OnOk result (Adds (λ n m. m == number && has_numbered (number_by names.now)
        n (operation_of operation.now)) sets.old.items sets.new.items) }
{
    for variable in &operation.variables {
        if let Some(name) = names.get(variable.name.as_str()) {
            let set = set_of(sets, *name).with(number);
            put(sets, OperationSet::new(), *name, set)?;
        }
    }
    Ok(())
}

// For each name, the operations of a span that define a variable of that name.
fn defining_sets(
    alloc: Global,
    names: &VariableNumbers,
    span: &OperationSpan,
) -> Result<Sets, AllocError>
    ensures { IfOk result (λ sets. AreDefiners
        span.now (number_by names.now) sets.items) }
{
    let mut sets: Sets = Vec::new(alloc);
    for number in 0..span.count {
        let operation = &span.operations[span.first + number];
        add_defined(names, operation, number, &mut sets)?;
    }
    Ok(sets)
}

/// Notes the uses that an operation of a span reaches without defining their variables: for each name in an
/// operation or fragment the one use that stands for the others.
pub fn note_lacking(
    alloc: Global,
    table: &VariableUseIndex,
    span: &OperationSpan,
    lacking: &mut Vec<bool>,
) -> Result<(), AllocError>
    ensures { OnOk result (NotesLacking span.now table.now lacking.old.items lacking.new.items) }
{
    let sets = defining_sets(alloc, &table.names, span)?;
    let (rows, numbers) = (&table.rows, &table.numbers);
    note_missing_in_operations(&rows.operations, span, numbers, &sets, lacking)?;
    note_missing_in_fragments(&rows.fragments, &span.reached, numbers, &sets, lacking)?;
    Ok(())
}

// Adds these operations to the sets of the names that the uses in a row have.
fn add_uses(
    row: &[usize],
    reached_by: OperationSet,
    numbers: &[usize],
    sets: &mut Sets,
) -> Result<(), AllocError>
    ensures { OnOk result (Adds (λ n m. is_number_among numbers.now n row.now && has reached_by m)
        sets.old.items sets.new.items) }
{
    for place in row {
        let number = number_at(numbers, *place);
        let set = reached_by.union(set_of(sets, number));
        put(sets, OperationSet::new(), number, set)?;
    }
    Ok(())
}

// Adds the operations that reach a fragment to the sets of the names that are used in it, for each fragment.
fn add_uses_in_fragments(
    rows: &[Vec<usize>],
    reached: &[OperationSet],
    numbers: &[usize],
    sets: &mut Sets,
) -> Result<(), AllocError>
    ensures { OnOk result (Adds (λ n m. any_below (is_used_in numbers.now n
        (rows_in rows.now) reached.now m) (length reached.now)) sets.old.items sets.new.items) }
{
    for (fragment, reached_by) in reached.iter().enumerate() {
        add_uses(list_at(rows, fragment), *reached_by, numbers, sets)?;
    }
    Ok(())
}

// Adds each operation of a span to the sets of the names that it uses itself.
fn add_uses_in_operations(
    rows: &[Vec<usize>],
    span: &OperationSpan,
    numbers: &[usize],
    sets: &mut Sets,
) -> Result<(), AllocError>
    ensures { OnOk result (Adds (λ n m. any_below (is_used_at numbers.now n
        (rows_in rows.now) span.now.first m) span.now.count) sets.old.items sets.new.items) }
{
    for number in 0..span.count {
        let own = list_at(rows, span.first + number);
        add_uses(own, OperationSet::alone(number), numbers, sets)?;
    }
    Ok(())
}

/// For each name, the operations of a span that reach a use of it.
pub fn using_sets(
    alloc: Global,
    table: &VariableUseIndex,
    span: &OperationSpan,
) -> Result<Sets, AllocError>
    ensures { IfOk result (λ sets. (n m : ℕ) → has (set_at sets.items n) m
        ≡ has_number table.now span.now.first span.now.count span.now.reached.items m n) }
{
    let mut sets: Sets = Vec::new(alloc);
    let (rows, numbers) = (&table.rows, &table.numbers);
    add_uses_in_operations(&rows.operations, span, numbers, &mut sets)?;
    add_uses_in_fragments(&rows.fragments, &span.reached, numbers, &mut sets)?;
    Ok(sets)
}

/// Tells whether an operation of a span is in the set of a name; false for a name without a number.
pub fn has_if(sets: &[OperationSet], operation: usize, number: Option<usize>) -> bool
    requires { operation < 64 }
    ensures { result ≡ has_if sets.now operation number }
{
    match number {
        Some(number) => set_of(sets, number).contains(operation),
        None => false,
    }
}
