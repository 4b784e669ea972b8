//! Refusals of what is over a limit on its work or on its rounds.

ghost use Rattle.std.specs.Prelude.{◌≡◌, map, option_map, IfOk, string_bytes};
ghost use Rattle.load_rounds.specs.SharedRounds.{report_of};
ghost use Rattle.server.specs.Overruns.{overrun_report, overruns};

use answer_json::write_refusal;
use load_rounds::{Answer, Excess, Overrun};
use std::alloc::{AllocError, Global};

// The refusal of what is over a limit, for which nothing is read.
fn refusal(alloc: Global, overrun: Overrun) -> Result<Answer, AllocError>
    ensures { IfOk result (λ answer.
        report_of answer ≡ overrun_report overrun) }
{
    let text = match overrun.excess {
        Excess::Work => write_refusal(alloc, "too much work", None)?,
        Excess::Rounds => write_refusal(alloc, "too many rounds", None)?,
    };
    Ok(Answer {
        text,
        rounds: overrun.rounds,
        loads: 0,
    })
}

/// That refusal for each request that has none of its own.
pub(crate) fn overrun_answers(
    alloc: Global,
    refusals: &[Option<String>],
    overrun: Overrun,
) -> Result<Vec<Answer>, AllocError>
    ensures { IfOk result (λ answers. map report_of answers.items
        ≡ overruns overrun (map (option_map string_bytes) refusals.now)) }
{
    let mut answers = Vec::new(alloc);
    for own in refusals {
        if own.is_none() {
            answers.push(refusal(alloc, overrun)?)?;
        }
    }
    Ok(answers)
}
