//! Sources that answer key by key.
ghost use Rattle.std.specs.Prelude.{◌≡◌, List, map};
ghost use Rattle.load_memory.specs.Keys.{KeyOf, folded};
ghost use Rattle.load_memory.specs.Outcomes.{ItemOf};
ghost use Rattle.load_queue.specs.Answers.{AnswerOf, given};

use crate::source::Source;
use load_memory::KeyMode;

/// A source that answers key by key: the item of each key depends on that key alone, and keys that
/// are equal under its mode have equal items. So it never fails as a whole; it may still return
/// [`NoMemory`](crate::FetchFault::NoMemory).
pub trait PerKey: Source {
    ghost use Rattle.load_memory.specs.declared.key.KeyMode.{KeyMode};

    // the mode in which it compares keys
    ghost mode_of: { Self → KeyMode };

    // the item of a key
    ghost item_at: { Self → KeyOf → ItemOf };

    /// Returns how it compares keys.
    fn mode(&self) -> KeyMode
        ensures { result ≡ mode_of self.now };

    ghost key_by_key: { (s : Self) (keys : List KeyOf) (answer : AnswerOf) → Self.may_answer s keys answer
        → answer ≡ given (map (item_at s) keys) };

    ghost respects: { (s : Self) (j k : KeyOf) → folded (mode_of s) j ≡ folded (mode_of s) k
        → item_at s j ≡ item_at s k };
}
