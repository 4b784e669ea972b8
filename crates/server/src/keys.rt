//! Keys of a client's session: what is known of them, loaded, primed and cleared.

ghost use Rattle.std.specs.Prelude.{◌≡◌, ◌≤◌, ◌↔◌, [], ◌∷◌, map, length, IfOk, OnOk, OnErr, IsErrOf, is_none, is_some};
ghost use Rattle.load_memory.specs.Keys.{key_of};
ghost use Rattle.load_memory.specs.Outcomes.{outcome_of, item_of};
ghost use Rattle.load_rounds.specs.Histories.{Loading, StoppedLoading, Priming, Clearing, ClearingAll, Forgetting, any_tell};
ghost use Rattle.server.specs.Clients.{IsClientCall, IsSameClient, client_cell, client_pair, known_of};

use crate::client::ClientSession;
use load_memory::{Item, Key, Outcome};
use load_queue::LocalSource;
use load_rounds::SessionFault;

impl<S> ClientSession<S> {
    /// Forgets failed batches, and then adds an item for a loader's key unless the key is known. Returns true if it was added. Loaders are
    /// numbered from 0, in the order of their lines.
    ///
    /// # Errors
    ///
    /// Those of [`Session::prime`].
    pub fn prime(&mut self, loader: usize, key: &Key, item: Item) -> Result<bool, SessionFault>
        ensures no_loader { IsErrOf result SessionFault.NoSuchLoader
            ↔ (length self.old.session.loaders ≤ loader) }
        ensures refused { IsErrOf result SessionFault.NoSuchLoader → self.new ≡ self.old }
        ensures no_memory { IsErrOf result SessionFault.NoMemory
            → IsClientCall any_tell Forgetting self.old self.new }
        ensures report { IfOk result (λ added.
            added ≡ is_none (known_of self.old loader (key_of key.now))) }
        ensures after { OnOk result (IsClientCall any_tell (Priming
            (client_pair self.old loader (key_of key.now) (item_of item))) self.old self.new) }
        ensures same { IsSameClient self.old self.new }
    {
        self.session.prime(loader, key, item)
    }

    /// Forgets failed batches, and then what is known of a loader's key, so that the next answer that needs it asks again. Returns true if
    /// the key was still known then.
    ///
    /// # Errors
    ///
    /// Those of [`Session::prime`].
    pub fn clear(&mut self, loader: usize, key: &Key) -> Result<bool, SessionFault>
        ensures no_loader { IsErrOf result SessionFault.NoSuchLoader
            ↔ (length self.old.session.loaders ≤ loader) }
        ensures refused { IsErrOf result SessionFault.NoSuchLoader → self.new ≡ self.old }
        ensures no_memory { IsErrOf result SessionFault.NoMemory
            → IsClientCall any_tell Forgetting self.old self.new }
        ensures report { IfOk result (λ there.
            there ≡ is_some (known_of self.old loader (key_of key.now))) }
        ensures after { OnOk result (IsClientCall any_tell
            (Clearing (client_cell self.old loader (key_of key.now))) self.old self.new) }
        ensures same { IsSameClient self.old self.new }
    {
        self.session.clear(loader, key)
    }

    /// Forgets failed batches, and then all keys of one loader. It takes no memory: its only fault is
    /// [`NoSuchLoader`](SessionFault::NoSuchLoader).
    pub fn clear_all(&mut self, loader: usize) -> Result<(), SessionFault>
        ensures no_loader { IsErrOf result SessionFault.NoSuchLoader
            ↔ (length self.old.session.loaders ≤ loader) }
        ensures refused { OnErr result
            (self.new ≡ self.old) }
        ensures no_other { IsErrOf result
            SessionFault.NoMemory → ⊥ }
        ensures after { OnOk result (IsClientCall any_tell (ClearingAll loader) self.old self.new) }
        ensures same { IsSameClient self.old self.new }
    {
        self.session.clear_all(loader)
    }
}

impl<S: LocalSource> ClientSession<S> {
    /// Loads one key of a loader, after it forgets failed batches. Returns a copy of the key's outcome: the known one, or else what the
    /// source returns in a round of this one key, which is kept.
    ///
    /// # Errors
    ///
    /// Those of [`Session::load`].
    pub fn load(&mut self, loader: usize, key: Key) -> Result<Outcome, SessionFault>
        ensures no_loader { IsErrOf result SessionFault.NoSuchLoader
            ↔ (length self.old.session.loaders ≤ loader) }
        ensures refused { IsErrOf result SessionFault.NoSuchLoader → self.new ≡ self.old }
        ensures no_memory { IsErrOf result SessionFault.NoMemory
            → IsClientCall S.may_tell (StoppedLoading loader (key_of key ∷ [])) self.old self.new }
        ensures loaded { IfOk result (λ outcome. IsClientCall S.may_tell
            (Loading loader (key_of key ∷ []) (outcome_of outcome ∷ [])) self.old self.new) }
        ensures same { IsSameClient self.old self.new }
    {
        self.session.load(loader, key)
    }

    /// Loads keys of a loader, as [`load`](ClientSession::load) does one, and returns an outcome for each, in order. The unknown keys are
    /// asked for in one round, of equal cache keys only the first.
    ///
    /// # Errors
    ///
    /// Those of [`Session::load`].
    pub fn load_many(&mut self, loader: usize, keys: &[Key]) -> Result<Vec<Outcome>, SessionFault>
        ensures no_loader { IsErrOf result SessionFault.NoSuchLoader
            ↔ (length self.old.session.loaders ≤ loader) }
        ensures refused { IsErrOf result SessionFault.NoSuchLoader → self.new ≡ self.old }
        ensures no_memory { IsErrOf result SessionFault.NoMemory → IsClientCall S.may_tell
            (StoppedLoading loader (map key_of keys.now)) self.old self.new }
        ensures loaded { IfOk result (λ outcomes. IsClientCall S.may_tell (Loading loader
            (map key_of keys.now) (map outcome_of outcomes.items)) self.old self.new) }
        ensures same { IsSameClient self.old self.new }
    {
        self.session.load_many(loader, keys)
    }
}
