//! Responses to arrays of requests.

ghost use Rattle.std.specs.Prelude.{◌≡◌, true, map, option_map, IfOk, string_bytes};
ghost use Rattle.execution.specs.Reads.{counted};
ghost use Rattle.load_rounds.specs.SharedRounds.{greatest, report_of};
ghost use Rattle.server.specs.Arrays.{texts_of};
ghost use Rattle.server.specs.Planned.{IsResponseOf, all_loads};

use load_rounds::Answer;
use std::alloc::{AllocError, Global};

// The text of each value: its refusal, or the next of these answers.
fn texts<'t>(
    alloc: Global,
    refusals: &'t [Option<String>],
    answers: &'t [Answer],
) -> Result<Vec<&'t str>, AllocError>
    ensures { IfOk result (λ texts.
        map (λ t. t.now) texts.items ≡ texts_of refusals.entry.now answers.entry.now) }
{
    let mut texts = Vec::with_capacity(alloc, refusals.len())?;
    let mut left = answers;
    for refusal in refusals {
        if let Some(text) = refusal {
            texts.push(text.as_str())?;
        } else if let Some((answer, more)) = left.split_first() {
            texts.push(answer.text.as_str())?;
            left = more;
        }
    }
    Ok(texts)
}

/// The response to an array: the refusals of its values, and in the other places these answers.
pub(crate) fn array_answer(
    alloc: Global,
    refusals: &[Option<String>],
    answers: &[Answer],
) -> Result<Answer, AllocError>
    ensures { IfOk result (λ answer. IsResponseOf true
        (map (option_map string_bytes) refusals.now) (map report_of answers.now) (report_of answer)) }
{
    let texts = texts(alloc, refusals, answers)?;
    let inside = texts.join(alloc, ",")?;
    Ok(Answer {
        text: format!(in alloc; "[{inside}]")?,
        rounds: most_rounds(answers),
        loads: all_loads(answers),
    })
}

// The rounds of the answer with the most.
fn most_rounds(answers: &[Answer]) -> u32
    ensures { result ≡ greatest
        (map report_of answers.now) }
{
    let mut most = 0;
    for answer in answers {
        most = answer.rounds.max(most);
    }
    most
}

// The loads of all answers, which stay at `u64::MAX`.
fn all_loads(answers: &[Answer]) -> u64
    ensures { result ≡ counted
        (all_loads (map report_of answers.now)) }
{
    let mut loads: u64 = 0;
    for answer in answers {
        loads = loads.saturating_add(answer.loads);
    }
    loads
}
