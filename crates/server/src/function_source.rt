//! Sources that are functions.

ghost use Rattle.std.specs.Prelude.{◌≡◌};
ghost use Rattle.server.specs.Sources.{may_return};

use load_memory::{Item, Key};
use load_queue::{FetchFault, Source};
use std::alloc::Global;

/// A function that answers the keys of a batch, as [`Source::fetch`] does.
type Fetch = fn(Global, &[Key]) -> Result<Vec<Item>, FetchFault>;

/// A source that answers by a function, which [`source_fn`] makes of it. It may give an answer that a call of the function at the keys may
/// return, and no other.
///
/// It keeps a function pointer and no closure: a ghost field or a `Model` can't cite what a closure requires
/// and ensures.
#[derive(Clone, Copy, Drop)]
pub struct SourceFn {
    fetch: Fetch,
    ghost callable: { Fetch.IsAlwaysCallable fetch },
}

/// A source that answers the keys of a batch by a function, without a type of its own: it returns an item for each, in order, as
/// [`Source::fetch`] does.
pub fn source_fn(fetch: Fetch) -> SourceFn
    requires { Fetch.IsAlwaysCallable fetch }
    ensures { result.fetch ≡ fetch }
{
    SourceFn { fetch }
}

impl Source for SourceFn {
    ghost may_answer = { λ s keys answer. may_return Fetch.post s.fetch keys answer };

    fn fetch(&self, alloc: Global, keys: &[Key]) -> Result<Vec<Item>, FetchFault> {
        (self.fetch)(alloc, keys)
    }
}
