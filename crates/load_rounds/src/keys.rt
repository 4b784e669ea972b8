//! Keys of a loader as a program, and what is known of them.
ghost use Rattle.std.specs.Prelude.{◌≡◌, ◌<◌, ◌+◌, [], ⊤, All, IsSome, Some, map, length, IfOk};
ghost use Rattle.load_memory.specs.Keys.{key_of};
ghost use Rattle.load_memory.specs.Outcomes.{outcome_of};
ghost use Rattle.load_memory.specs.Pairs.{look};
ghost use Rattle.execution.specs.Loads.{read};
ghost use Rattle.execution.specs.Executes.{CanExecute, IsExecuted};
ghost use Rattle.load_rounds.specs.Calls.{load_of, reader_of};
ghost use Rattle.load_rounds.specs.Reading.{keys_of, no_text, reading};

use crate::session::Session;
use execution::{CountWork, Counted, Execute, ExecutionResult};
use futures::task::Poll;
use load_memory::{Key, Keys, Memory, Outcome, Probe};
use load_queue::Wants;
use std::alloc::{AllocError, Global};
use std::marker::Model;

/// Keys of a loader, which are loaded as anything else that is executed: their program is a list that reads each of them. Its text is empty;
/// [`Session::known_outcomes`] tells the outcomes once nothing is missing.
///
/// A contract sees the loader and its keys, which clones share.
#[derive(Drop)]
pub struct KeysToLoad {
    loader: usize,
    keys: Keys,
}

impl Model for KeysToLoad {
    ghost use Rattle.std.specs.Prelude.{map};
    ghost use Rattle.load_memory.specs.Keys.{key_of};
    ghost use Rattle.load_rounds.specs.Reading.{KeysOf, keys_of};

    ghost Value = { KeysOf };

    ghost view = { λ k. keys_of k.loader (map key_of k.keys) };
}

impl Clone for KeysToLoad {
    ghost is_clone = { λ x y. y ≡ x };

    fn clone(&self) -> Result<KeysToLoad, AllocError> {
        Ok(KeysToLoad {
            loader: self.loader,
            keys: self.keys.clone()?,
        })
    }
}

impl KeysToLoad {
    /// Keys of the loader of this number.
    pub fn new(loader: usize, keys: Vec<Key>) -> Result<KeysToLoad, AllocError>
        ensures { IfOk result (λ all. all ≡ keys_of loader (map key_of keys.items)) }
    {
        Ok(KeysToLoad {
            loader,
            keys: Keys::from_vec(keys)?,
        })
    }

    /// The loader's number.
    pub fn loader(&self) -> usize
        ensures { result ≡ self.now.loader }
    {
        self.loader
    }

    /// The keys, in order.
    pub fn keys(&self) -> &[Key]
        ensures { map key_of result.now ≡ self.now.keys }
    {
        self.keys.as_slice()
    }
}

impl Execute<()> for KeysToLoad {
    ghost use Rattle.load_rounds.specs.Reading.{keys_fits, keys_left, keys_loaders, keys_program, keys_text};

    ghost program = { keys_program };

    ghost text_of = { keys_text };

    ghost loaders = { keys_loaders };

    ghost fits = { keys_fits };

    ghost left = { keys_left };

    fn start(&self) {}

    fn execute(
        &self,
        _progress: &mut (),
        alloc: Global,
        memory: &Memory,
        wants: &mut Wants,
    ) -> Result<Poll<ExecutionResult>, AllocError> {
        want_missing(alloc, memory, self.loader, self.keys.as_slice(), wants)
    }

    // Nothing can be done ahead.
    fn work_ahead(
        &self,
        _progress: &mut (),
        _alloc: Global,
        _memory: &Memory,
        steps: usize,
    ) -> Result<Option<usize>, AllocError> {
        Ok(Some(steps))
    }
}

impl CountWork<()> for KeysToLoad {
    // A position for each key, whether it is known or not, and one for their list.
    fn work_left(
        &self,
        _alloc: Global,
        _memory: &Memory,
        most: usize,
    ) -> Result<Option<usize>, AllocError> {
        let keys = self.keys.as_slice().len();
        if keys >= most {
            return Ok(None);
        }
        Ok(Some(most - keys - 1))
    }

    // The count takes no steps: it is made at once.
    fn count_ahead(
        &self,
        _progress: &mut (),
        alloc: Global,
        memory: &Memory,
        most: usize,
        steps: usize,
    ) -> Result<Option<Counted>, AllocError> {
        Ok(Some(Counted {
            left: self.work_left(alloc, memory, most)?,
            steps,
        }))
    }
}

/// Keys of a loader that are loaded while they are lent.
#[derive(Drop)]
pub(crate) struct LentKeys<'k> {
    pub(crate) loader: usize,
    pub(crate) keys: &'k [Key],
}

impl<'k> Execute<()> for LentKeys<'k> {
    ghost program = { λ k. reading k.loader (map key_of k.keys.now) };

    ghost text_of = { λ _. no_text };

    ghost loaders = { λ k. k.loader + 1 };

    ghost fits = { λ _ _ _. ⊤ };

    ghost left = { λ _ _ _. 0 };

    fn start(&self) {}

    fn execute(
        &self,
        _progress: &mut (),
        alloc: Global,
        memory: &Memory,
        wants: &mut Wants,
    ) -> Result<Poll<ExecutionResult>, AllocError> {
        want_missing(alloc, memory, self.loader, self.keys, wants)
    }

    // Nothing can be done ahead.
    fn work_ahead(
        &self,
        _progress: &mut (),
        _alloc: Global,
        _memory: &Memory,
        steps: usize,
    ) -> Result<Option<usize>, AllocError> {
        Ok(Some(steps))
    }
}

// Wants the keys that the memory lacks. Ready if it lacks none.
fn want_missing(
    alloc: Global,
    memory: &Memory,
    loader: usize,
    keys: &[Key],
    wants: &mut Wants,
) -> Result<Poll<ExecutionResult>, AllocError>
    requires { CanExecute (loader + 1) memory.now wants.old }
    ensures { IfOk result (IsExecuted no_text wants.old wants.new
        (reading loader (map key_of keys.now)) memory.now) }
{
    let mut probe = Probe::new();
    let mut is_missing = false;
    for key in keys {
        if memory
            .look_up(alloc, &mut probe, loader, key.as_key_ref())?
            .is_none()
        {
            wants.add(loader, key.clone()?)?;
            is_missing = true;
        }
    }
    if is_missing {
        return Ok(Poll::Pending);
    }
    Ok(Poll::Ready(ExecutionResult {
        text: String::new(alloc),
        loads: keys.len() as u64,
    }))
}

// Copies of what is known of keys, place by place.
fn copied_outcomes(
    alloc: Global,
    memory: &Memory,
    loader: usize,
    keys: &[Key],
) -> Result<Vec<Outcome>, AllocError>
    requires loader { loader < length memory.now.modes }
    requires known { All (λ k. IsSome
        (read memory.now.modes (look memory.now.pairs) (load_of loader k))) (map key_of keys.now) }
    ensures { IfOk result (λ v. map (λ k. reader_of memory.now (load_of loader k))
        (map key_of keys.now) ≡ map Some (map outcome_of v.items)) }
{
    let mut probe = Probe::new();
    let mut outcomes = Vec::with_capacity(alloc, keys.len())?;
    for key in keys {
        let Some(outcome) = memory.look_up(alloc, &mut probe, loader, key.as_key_ref())? else {
            unreachable!();
        };
        outcomes.push(outcome.clone()?)?;
    }
    Ok(outcomes)
}

impl<S> Session<S> {
    ghost use Rattle.load_rounds.specs.Sessions.{state_of};
    ghost use Rattle.load_rounds.specs.Calls.{AreKnown, front_at};

    /// Copies of what is known of a loader's keys, place by place, where none of them is missing.
    pub fn known_outcomes(&self, loader: usize, keys: &[Key]) -> Result<Vec<Outcome>, AllocError>
        requires loader { loader < length self.now.loaders }
        requires known { front_at (state_of self.now) loader (map key_of keys.now) ≡ [] }
        ensures { IfOk result (λ outcomes. AreKnown (state_of self.now)
            loader (map key_of keys.now) (map outcome_of outcomes.items)) }
    {
        copied_outcomes(self.alloc(), self.memory(), loader, keys)
    }
}
