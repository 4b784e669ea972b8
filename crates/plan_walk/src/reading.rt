//! What is known of a memory before a load is looked up in it.

ghost use Rattle.std.specs.Prelude.{◌≡◌, ◌<◌, IsTrue, false, length, None};
ghost use Rattle.load_memory.specs.Keys.{KeyOf};
ghost use Rattle.plan_walk.specs.Reading.{lookup};

use load_memory::Memory;

/// Tells whether it is seen without a look-up that a memory says nothing of a loader's keys: it is empty, or has no such loader.
pub fn knows_nothing(memory: &Memory, loader: usize) -> bool
    ensures nothing { IsTrue result → (key : KeyOf)
        → lookup memory.now (record { loader = loader; key = key }) ≡ None }
    ensures there { result ≡ false → loader < length memory.now.modes }
{
    if memory.is_empty() {
        return true;
    }
    loader >= memory.modes().len()
}
