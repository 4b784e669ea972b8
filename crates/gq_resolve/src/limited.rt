//! The texts of answers, which may have a limit in bytes.

ghost use Rattle.std.specs.Prelude.{◌≡◌, IfOk, string_bytes};
ghost use Rattle.load_memory.specs.Pairs.{MemoryOf};
ghost use Rattle.gq_check.specs.Plans.{PlanOf};
ghost use Rattle.gq_resolve.specs.Limited.{too_long_text, limited_text};
ghost use Rattle.gq_resolve.specs.Within.{IsAnswerText, IsWritten};

use answer_json::write_refusal;
use std::alloc::{AllocError, Global};

// The refusal of an answer that is too long.
#[cold]
#[inline(never)]
fn too_long(alloc: Global) -> Result<String, AllocError>
    ensures { IfOk result
        (λ text. string_bytes text ≡ too_long_text) }
{
    write_refusal(alloc, "answer too long", None)
}

// The text, unless it is too long.
fn limit_text(alloc: Global, text: String, most: usize) -> Result<String, AllocError>
    ensures { IfOk result (λ kept. string_bytes kept
        ≡ limited_text most (string_bytes text)) }
{
    if text.len() > most {
        return too_long(alloc);
    }
    Ok(text)
}

/// The text of an answer, which was written within `most` bytes if there is such a limit, or its refusal where it has more.
pub fn whole_text(
    alloc: Global,
    written: Option<String>,
    most: Option<usize>,
) -> Result<String, AllocError>
    ensures { (plan : PlanOf) (m : MemoryOf) → IsWritten most plan m written
        → IfOk result (IsAnswerText most plan m) }
{
    match (written, most) {
        (Some(text), Some(most)) => limit_text(alloc, text, most),
        (Some(text), None) => Ok(text),
        (None, Some(_)) => too_long(alloc),
        // No text is longer than any limit.
        (None, None) => Err(AllocError),
    }
}
