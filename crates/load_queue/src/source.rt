//! Sources: what a server writes to answer keys.
ghost use Rattle.std.specs.Prelude.{List, map};
ghost use Rattle.load_memory.specs.Keys.{KeyOf, key_of};
ghost use Rattle.load_queue.specs.Answers.{AnswerOf};

use load_memory::{Item, Key};
use std::alloc::{AllocError, AllocFailed, Global};
use thiserror::Error;

/// Reason why a source gave no items.
#[derive(Debug, Drop, Error)]
pub enum FetchFault {
    /// The batch failed as a whole, with the source's own words.
    #[error("{0}")]
    Failed(String),
    /// Out of memory.
    #[error("out of memory")]
    NoMemory,
}

impl From<AllocError> for FetchFault {
    ghost use Rattle.std.specs.Prelude.{◌≡◌};
    ghost use Rattle.load_queue.specs.declared.source.FetchFault.TheVariants.{NoMemory};

    ghost from_gives = { λ _ fault. fault ≡ NoMemory };

    fn from(_e: AllocError) -> FetchFault {
        FetchFault::NoMemory
    }
}

impl<T: Drop> From<AllocFailed<T>> for FetchFault {
    ghost use Rattle.std.specs.Prelude.{◌≡◌};
    ghost use Rattle.load_queue.specs.declared.source.FetchFault.TheVariants.{NoMemory};

    ghost from_gives = { λ _ fault. fault ≡ NoMemory };

    fn from(_e: AllocFailed<T>) -> FetchFault {
        FetchFault::NoMemory
    }
}

/// A source of items, which threads share.
///
/// Its meaning is a relation: which answers it may give to a list of keys. It may return a list of
/// any length; one of another length than the keys fails the batch. Nothing is promised of a fetch
/// that returns [`NoMemory`](FetchFault::NoMemory).
pub trait Source: Sync {
    ghost use Rattle.load_queue.specs.Fetched.{Fetched};

    // the answers that it may give to a list of keys
    ghost may_answer: { Self → List KeyOf → AnswerOf → Type 0 };

    /// Answers the keys, all at once.
    ///
    /// # Errors
    ///
    /// [`Failed`](FetchFault::Failed) with a text where the batch failed as a whole: `may_answer` says when it
    /// may come, and a source that is [`PerKey`](crate::PerKey) never returns it (`key_by_key`). Nothing says
    /// when [`NoMemory`](FetchFault::NoMemory) may come.
    fn fetch(&self, alloc: Global, keys: &[Key]) -> Result<Vec<Item>, FetchFault>
        ensures { Fetched (may_answer self.now (map key_of keys.now)) result };
}

/// A source for code that runs on one thread and doesn't need `Sync`. Each [`Source`] is one, with
/// the same meaning.
///
/// It stands beside [`Source`] since, in a method of a trait's `impl`, the prover has no proof of a call of a
/// generic function whose bound implies `Sync`; a future's `poll` is such a method.
pub trait LocalSource {
    ghost use Rattle.load_queue.specs.Fetched.{Fetched};

    // the answers that it may give to a list of keys
    ghost may_tell: { Self → List KeyOf → AnswerOf → Type 0 };

    /// Answers the keys, all at once.
    ///
    /// # Errors
    ///
    /// Those of [`Source::fetch`].
    fn ask(&self, alloc: Global, keys: &[Key]) -> Result<Vec<Item>, FetchFault>
        ensures { Fetched (may_tell self.now (map key_of keys.now)) result };
}

impl<S: Source> LocalSource for S {
    ghost may_tell = { λ s. S.may_answer s };

    fn ask(&self, alloc: Global, keys: &[Key]) -> Result<Vec<Item>, FetchFault> {
        self.fetch(alloc, keys)
    }
}
