//! The outcomes of a batch, place by place.
ghost use Rattle.std.specs.Prelude.{◌≡◌, IfOk, map, replicate, string_bytes};
ghost use Rattle.load_memory.specs.Outcomes.{item_of, outcome_of, known, batch_fault};
ghost use Rattle.load_queue.specs.Answers.{wrong_count};
ghost use Rattle.load_queue.specs.Fetched.{Follow};

use crate::source::FetchFault;
use load_memory::{Item, Outcome};
use std::alloc::{AllocError, Global};

/// The outcomes of `keys` keys that a source's answer gives.
pub(crate) fn outcomes_of_answer(
    alloc: Global,
    answer: Result<Vec<Item>, FetchFault>,
    keys: usize,
) -> Result<Vec<Outcome>, AllocError>
    ensures { IfOk result
        (λ v. Follow (map outcome_of v.items) answer keys) }
{
    match answer {
        Ok(items) if items.len() == keys => outcomes_of_items(alloc, items),
        Ok(items) => {
            let text = wrong_count_text(alloc, items.len(), keys)?;
            outcomes_of_fault(alloc, text.as_str(), keys)
        }
        Err(FetchFault::Failed(text)) => outcomes_of_fault(alloc, text.as_str(), keys),
        Err(FetchFault::NoMemory) => Err(AllocError),
    }
}

/// Each item as the outcome of its key.
fn outcomes_of_items(alloc: Global, items: Vec<Item>) -> Result<Vec<Outcome>, AllocError>
    ensures { IfOk result (λ v. map outcome_of v.items
        ≡ map known (map item_of items.items)) }
{
    let mut outcomes = Vec::with_capacity(alloc, items.len())?;
    for item in items {
        outcomes.push(Outcome::from(item))?;
    }
    Ok(outcomes)
}

/// One fault as the outcome of each of `keys` keys.
fn outcomes_of_fault(alloc: Global, text: &str, keys: usize) -> Result<Vec<Outcome>, AllocError>
    ensures { IfOk result (λ v. map outcome_of v.items
        ≡ replicate keys (batch_fault text.now)) }
{
    let mut outcomes = Vec::with_capacity(alloc, keys)?;
    for _ in 0..keys {
        outcomes.push(Outcome::BatchFault(String::from_str(alloc, text)?))?;
    }
    Ok(outcomes)
}

/// Returns what is said of a list of items that hasn't one item for each key.
fn wrong_count_text(alloc: Global, items: usize, keys: usize) -> Result<String, AllocError>
    ensures { IfOk result
        (λ t. string_bytes t ≡ wrong_count items keys) }
{
    Ok(format!(in alloc; "the source answered {items} results for {keys} keys")?)
}
