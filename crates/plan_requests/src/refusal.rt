//! The texts that refuse requests.
//!
//! The messages of the parser's faults are stated here once more, since no clause speaks of what a derived
//! display writes.

ghost use Rattle.std.specs.Prelude.{◌≡◌, IfOk, string_bytes};
ghost use Rattle.plan_requests.specs.Planning.{RefusesFault, not_a_request};

use crate::fault::RequestFault;
use answer_json::write_refusal;
use std::alloc::{AllocError, Global};

/// The text that refuses a request with this fault.
///
/// # Errors
///
/// Only when out of memory, also where that is the fault.
pub(crate) fn refusal(alloc: Global, fault: &RequestFault) -> Result<String, AllocError>
    ensures { IfOk result (λ text.
        RefusesFault fault.now (string_bytes text)) }
{
    if fault.is_want_of_memory() {
        return Err(AllocError);
    }
    let message = fault.message(alloc)?;
    write_refusal(alloc, message.as_str(), fault.place())
}

/// The text that refuses a line or a value of an array that is no request.
///
/// # Errors
///
/// Only when out of memory.
pub fn not_a_request(alloc: Global) -> Result<String, AllocError>
    ensures { IfOk result
        (λ text. string_bytes text ≡ not_a_request) }
{
    write_refusal(alloc, "not a request", None)
}
