//! The choice of the operation (section 6.1, GetOperation).

ghost use Rattle.std.specs.Prelude.{◌≡◌, ◌<◌, IfOk, IfErr, length};
ghost use Rattle.gq_parser.specs.Tree.{operation_of};
ghost use Rattle.gq_check.specs.Planned.{IsChosenAt};
ghost use Rattle.gq_check.specs.Plans.{operations_in};
ghost use Rattle.gq_check.specs.Prepared.{is_operation, asked_name, chosen_operation, IsPrepareFault};

use crate::fault::PrepareFault;
use gq_parser::Operation;
use std::alloc::Global;
use std::sync::Arc;

// Tells whether an operation has this name.
fn is_operation(name: &str, operation: &Operation) -> bool
    ensures { result ≡ is_operation name.now
        (operation_of operation.now) }
{
    match &operation.name {
        Some(own) => name == own.as_str(),
        None => false,
    }
}

// The place of the first operation of this name.
fn operation_named(
    alloc: Global,
    operations: &[Arc<Operation>],
    name: &str,
) -> Result<usize, PrepareFault>
    ensures inside { IfOk result
        (λ place. place < length operations.now) }
    ensures ok { IfOk result
        (IsChosenAt operations.now (Some name.now)) }
    ensures err { IfErr result
        (IsPrepareFault (chosen_operation (operations_in operations.now) (Some name.now))) }
{
    for (place, operation) in operations.iter().enumerate() {
        if is_operation(name, operation) {
            return Ok(place);
        }
    }
    Err(PrepareFault::NoSuchOperation(String::from_str(alloc, name)?))
}

// The place of the only operation.
fn only_operation(operations: &[Arc<Operation>]) -> Result<usize, PrepareFault>
    ensures inside { IfOk result
        (λ place. place < length operations.now) }
    ensures ok { IfOk result
        (IsChosenAt operations.now None) }
    ensures err { IfErr result
        (IsPrepareFault (chosen_operation (operations_in operations.now) None)) }
{
    if operations.len() != 1 {
        return Err(PrepareFault::OperationNeeded);
    }
    Ok(0)
}

/// The place of the operation of this name, or of the only one.
pub fn chosen_operation(
    alloc: Global,
    operations: &[Arc<Operation>],
    name: Option<&str>,
) -> Result<usize, PrepareFault>
    ensures inside { IfOk result
        (λ place. place < length operations.now) }
    ensures ok { IfOk result (IsChosenAt operations.now (asked_name name.entry)) }
    ensures err { IfErr result
        (IsPrepareFault (chosen_operation (operations_in operations.now) (asked_name name.entry))) }
{
    match name {
        Some(name) => operation_named(alloc, operations, name),
        None => only_operation(operations),
    }
}
