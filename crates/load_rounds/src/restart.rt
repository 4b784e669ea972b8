//! Restarts: what a session forgets when it starts again.
ghost use Rattle.std.specs.Prelude.{◌≡◌, [], map, IfOk, OnOk, OnErr};
ghost use Rattle.load_queue.specs.Loaders.{unasked};

use load_memory::Memory;
use load_queue::Loader;
use std::alloc::{AllocError, Global};

/// Says how many keys a memory may know for its tables to be kept. Emptying a table takes as long as it is large, so one
/// large session would slow all that come after it.
const KEPT_KEYS: usize = 1_024;

/// Forgets all keys. When out of memory, all stay.
pub(crate) fn forget_all(alloc: Global, memory: &mut Memory) -> Result<(), AllocError>
    ensures pairs { OnOk result (memory.new.pairs ≡ []) }
    ensures modes { memory.new.modes ≡ memory.old.modes }
    ensures kept { OnErr result (memory.new ≡ memory.old) }
{
    if memory.len() > KEPT_KEYS {
        *memory = fresh_memory(alloc, memory)?;
    } else {
        memory.forget_all();
    }
    Ok(())
}

// A memory that compares keys as this one does, and knows none.
fn fresh_memory(alloc: Global, memory: &Memory) -> Result<Memory, AllocError>
    ensures { IfOk result (λ fresh. fresh
        ≡ record { modes = memory.now.modes; pairs = [] }) }
{
    let mut modes = Vec::with_capacity(alloc, memory.modes().len())?;
    for mode in memory.modes().iter() {
        modes.push(*mode)?;
    }
    Memory::new(alloc, modes)
}

/// Forgets what was asked of each loader. The counts of orders go on.
pub(crate) fn restart_all<S>(loaders: &mut Vec<Loader<S>>)
    ensures { loaders.new.items
        ≡ map unasked loaders.old.items }
{
    for loader in 0..loaders.len() {
        loaders[loader].restart();
    }
}
