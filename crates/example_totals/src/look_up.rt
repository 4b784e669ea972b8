//! Look-ups of an execution: a key that isn't known is wanted.

ghost use Rattle.std.specs.Prelude.{◌≡◌, ◌<◌, length, IfOk, OnOk, option_map, option_copied};
ghost use Rattle.load_memory.specs.Outcomes.{outcome_of};
ghost use Rattle.execution.specs.Front.{wanting};
ghost use Rattle.load_rounds.specs.Calls.{reader_of};
ghost use Rattle.example_totals.specs.Totals.{load_of, lacked};

use load_memory::{Key, Memory, Outcome, cache_key};
use load_queue::Wants;
use std::alloc::{AllocError, Global};

/// Returns what is known of a key of a loader. If nothing is, adds the key to the wants.
pub fn look_up<'m>(
    alloc: Global,
    memory: &'m Memory,
    wants: &mut Wants,
    loader: usize,
    id: &str,
) -> Result<Option<&'m Outcome>, AllocError>
    requires known { loader < length memory.now.modes }
    requires wanted { loader < length wants.old }
    ensures found { IfOk result (λ found. option_map outcome_of (option_copied found)
        ≡ reader_of memory.now (load_of loader id.now)) }
    ensures wants { OnOk result
        (wants.new ≡ wanting wants.old (lacked memory.now (load_of loader id.now))) }
    ensures loaders { length wants.new ≡ length wants.old }
{
    let key = Key::of_text(alloc, id)?;
    let cached = cache_key(alloc, &key, memory.mode(loader))?;
    let found = memory.get(loader, &cached);
    if found.is_none() {
        wants.add(loader, key)?;
    }
    Ok(found)
}
