//! Sessions, and the calls that need no plan.
ghost use Rattle.std.specs.Prelude.{◌≡◌, ◌<◌, ◌≤◌, ◌↔◌, ℕ, List, [], ◌∷◌, All, map, length, IfOk, OnOk, OnErr, IsErrOf, is_some, is_none, Some, option_map, option_copied, slice_get};
ghost use Rattle.load_memory.specs.Keys.{key_of};
ghost use Rattle.load_memory.specs.Outcomes.{outcome_of, known, item_of};
ghost use Rattle.load_memory.specs.Pairs.{look};
ghost use Rattle.load_memory.specs.Replies.{reply_of};
ghost use Rattle.load_memory.specs.Shelves.{IsOn, shown};
ghost use Rattle.load_queue.specs.Loaders.{AreOnRecord};
ghost use Rattle.load_queue.specs.Logs.{asked_of};
ghost use Rattle.load_queue.specs.Orders.{asks, AreCutBy};
ghost use Rattle.load_queue.specs.Wanted.{nothing_wanted};
ghost use Rattle.execution.specs.Loads.{Load, read};
ghost use Rattle.execution.specs.Rounds.{AreLimited, round_orders, without_failed};
ghost use Rattle.execution.specs.Sessions.{Forgot, Lost, AskedLoads};
ghost use Rattle.load_rounds.specs.Rounds.{AreWanted};

use crate::fault::SessionFault;
use crate::keys::LentKeys;
use crate::restart::{forget_all, restart_all};
use crate::round::{cut_all, mark_all, run_all, run_and_keep};
use load_memory::{Item, Key, Memory, Outcome, Receipt, Reply, Shelf, cache_key};
use load_queue::{Loader, LocalSource, LogEntry, Order, Wants};
use std::alloc::{AllocError, Global};
use std::marker::Model;
use std::mem;

/// A set of loaders with one cache of what they returned. A contract sees the loaders with their logs, the known pairs,
/// and how many rounds were made.
#[derive(Drop)]
pub struct Session<S> {
    loaders: Vec<Loader<S>>,
    memory: Memory,
    rounds: u32,
    // lists of earlier rounds, whose room the next round uses again
    spare: Wants,
}

impl<S> Model for Session<S> {
    ghost use Rattle.load_rounds.specs.Sessions.{SessionOf, IsSession};

    ghost Value = { SessionOf S };

    ghost view = { λ s. record { loaders = s.loaders.items; pairs = s.memory.pairs; rounds = s.rounds } };

    ghost invariant = { λ s. IsSession s.loaders.items s.memory s.rounds };
}

impl<S> Session<S> {
    ghost use Rattle.load_rounds.specs.Sessions.{session_modes, rules_of, state_of, after_step, restarted, AreNumbered};
    ghost use Rattle.load_rounds.specs.Calls.{cell_at, pair_at, RoundLost};
    ghost use Rattle.load_rounds.specs.Histories.{IsCallOf, Priming, Clearing, ClearingAll, Forgetting, Restarting, any_tell};
    ghost use Rattle.load_rounds.specs.ByHand.{received};

    /// The allocator that its calls take.
    pub fn alloc(&self) -> Global {
        *self.loaders.allocator()
    }

    /// Forgets the failed batches. A contract also sees here that no loader's limit is 0.
    pub(crate) fn forget(&mut self)
        ensures after { state_of self.new ≡ after_step (state_of self.old) Forgot }
        ensures limited { AreLimited
            (rules_of (state_of self.old)) }
    {
        self.memory.drop_failed();
    }

    /// No wanted keys yet, for the session's loaders. A contract also sees here that no loader's limit is 0.
    pub(crate) fn begin_wants(&mut self) -> Result<Wants, AllocError>
        ensures none { IfOk result (λ wants. wants
            ≡ map nothing_wanted (session_modes (state_of self.old))) }
        ensures same { self.new ≡ self.old }
        ensures limited { AreLimited
            (rules_of (state_of self.old)) }
    {
        let alloc = self.alloc();
        let mut wants = mem::replace(&mut self.spare, Wants::none(alloc));
        wants.begin(&self.memory)?;
        Ok(wants)
    }

    /// Keeps the room of wants for those that are begun next.
    pub(crate) fn keep_wants(&mut self, wants: Wants)
        ensures { self.new ≡ self.old }
    {
        self.spare = wants;
    }

    /// Cuts the wanted keys into the batches of the next round, enters these in the logs, and returns their orders, into
    /// which the keys move. A contract also sees here that the log's entries have the numbers of rounds that were made.
    pub(crate) fn cut(&mut self, wants: Wants) -> Result<Vec<Order>, AllocError>
        requires { length wants
            ≡ length self.old.loaders }
        ensures orders { (loads : List Load) → AreWanted wants loads → IfOk result
            (λ orders. map asks orders.items ≡ round_orders (rules_of (state_of self.old)) loads) }
        ensures cut { IfOk result (λ orders. AreCutBy
            self.new.loaders orders.items) }
        ensures entered { (loads : List Load) → AreWanted wants loads
            → OnOk result (state_of self.new ≡ after_step (state_of self.old) (Lost loads)) }
        ensures lost { (loads : List Load) → AreWanted wants loads
            → OnErr result (RoundLost (state_of self.old) (state_of self.new) loads) }
        ensures numbered { AreNumbered
            self.old.rounds self.old.loaders }
    {
        let round = self.rounds.checked_add(1).ok_or(AllocError)?;
        let mut wants = wants;
        let orders = cut_all(&mut self.loaders, &mut self.rounds, round, &mut wants)?;
        self.spare = wants;
        Ok(orders)
    }

    /// Stores the replies to the latest round, given by their receipts in any order, and marks its log entries as
    /// stored. A contract also sees here that no loader's limit is 0.
    pub(crate) fn receive(&mut self, shelf: &Shelf, receipts: &[Receipt]) -> Result<(), AllocError>
        requires shelf { All (IsOn shelf.now) receipts.now }
        requires loaders { All (λ r. (shown r).loader
            < length self.old.loaders) receipts.now }
        ensures received { OnOk result
            (state_of self.new ≡ received (state_of self.old) (map shown receipts.now)) }
        ensures kept { OnErr result
            (state_of self.new ≡ state_of self.old) }
        ensures limited { AreLimited
            (rules_of (state_of self.old)) }
    {
        self.memory.index(shelf, receipts)?;
        mark_all(&mut self.loaders, self.rounds);
        Ok(())
    }

    /// Does what [`receive`](Session::receive) does with replies that it is handed.
    pub(crate) fn receive_owned(&mut self, replies: Vec<Reply>) -> Result<(), AllocError>
        requires { All (λ r. r.loader
            < length self.old.loaders) replies.items }
        ensures received { OnOk result
            (state_of self.new ≡ received (state_of self.old) (map reply_of replies.items)) }
        ensures kept { OnErr result
            (state_of self.new ≡ state_of self.old) }
        ensures limited { AreLimited
            (rules_of (state_of self.old)) }
    {
        self.memory.keep_owned(replies)?;
        mark_all(&mut self.loaders, self.rounds);
        Ok(())
    }

    /// Returns what is known of the loaders' keys. A contract also sees here that no loader's limit is 0.
    pub fn memory(&self) -> &Memory
        ensures pairs { result.now.pairs ≡ self.now.pairs }
        ensures limited { AreLimited
            (rules_of (state_of self.now)) }
        ensures modes { result.now.modes ≡ session_modes (state_of self.now) }
    {
        &self.memory
    }

    /// The loaders, in order of number.
    pub fn loaders(&self) -> &[Loader<S>]
        ensures { result.now ≡ self.now.loaders }
    {
        self.loaders.as_slice()
    }

    /// The batches that a loader was asked for, oldest first. `None` if there is no loader of that number.
    pub fn logs(&self, loader: usize) -> Option<&[LogEntry]>
        ensures { option_map (map asked_of) (option_copied result)
            ≡ option_map (λ l. l.log) (slice_get self.now.loaders loader) }
    {
        match self.loaders.get(loader) {
            Some(loader) => Some(loader.log()),
            None => None,
        }
    }

    /// Forgets failed batches, and then adds an item for a loader's key unless the key is known. Returns true if it was
    /// added. A known key keeps its outcome.
    ///
    /// # Errors
    ///
    /// [`NoSuchLoader`](SessionFault::NoSuchLoader) exactly where the session has no loader of that number: it
    /// is as it was, failed batches too (`no_loader`, `refused`). When out of memory failed batches are
    /// forgotten, and nothing else has changed: no pair, no log and no number of a round (`no_memory`, by
    /// `Forgetting`).
    pub fn prime(&mut self, loader: usize, key: &Key, item: Item) -> Result<bool, SessionFault>
        ensures no_loader { IsErrOf result SessionFault.NoSuchLoader
            ↔ (length self.old.loaders ≤ loader) }
        ensures refused { IsErrOf result SessionFault.NoSuchLoader → self.new ≡ self.old }
        ensures no_memory { IsErrOf result SessionFault.NoMemory
            → IsCallOf any_tell Forgetting self.old self.new }
        ensures report { IfOk result (λ added. added ≡ is_none (without_failed (look self.old.pairs)
            loader (cell_at (state_of self.old) loader (key_of key.now)).1)) }
        ensures after { OnOk result (IsCallOf any_tell (Priming (pair_at (state_of self.old)
            loader (key_of key.now) (item_of item))) self.old self.new) }
    {
        if loader >= self.loaders.len() {
            return Err(SessionFault::NoSuchLoader);
        }
        self.memory.drop_failed();
        let mode = self.memory.mode(loader);
        let key = cache_key(*self.loaders.allocator(), key, mode)?;
        Ok(self.memory.prime(loader, key, item)?)
    }

    /// Forgets failed batches, and then what is known of a loader's key. Returns true if the key was still known then.
    ///
    /// # Errors
    ///
    /// Those of [`prime`](Session::prime).
    pub fn clear(&mut self, loader: usize, key: &Key) -> Result<bool, SessionFault>
        ensures no_loader { IsErrOf result SessionFault.NoSuchLoader
            ↔ (length self.old.loaders ≤ loader) }
        ensures refused { IsErrOf result SessionFault.NoSuchLoader → self.new ≡ self.old }
        ensures no_memory { IsErrOf result SessionFault.NoMemory
            → IsCallOf any_tell Forgetting self.old self.new }
        ensures report { IfOk result (λ there. there ≡ is_some (without_failed (look self.old.pairs)
            loader (cell_at (state_of self.old) loader (key_of key.now)).1)) }
        ensures after { OnOk result (IsCallOf any_tell
            (Clearing (cell_at (state_of self.old) loader (key_of key.now))) self.old self.new) }
    {
        if loader >= self.loaders.len() {
            return Err(SessionFault::NoSuchLoader);
        }
        self.memory.drop_failed();
        let mode = self.memory.mode(loader);
        let key = cache_key(*self.loaders.allocator(), key, mode)?;
        Ok(self.memory.clear(loader, &key))
    }

    /// Forgets failed batches, and then all keys of one loader. It takes no memory: its only fault is
    /// [`NoSuchLoader`](SessionFault::NoSuchLoader).
    pub fn clear_all(&mut self, loader: usize) -> Result<(), SessionFault>
        ensures no_loader { IsErrOf result SessionFault.NoSuchLoader
            ↔ (length self.old.loaders ≤ loader) }
        ensures refused { OnErr result
            (self.new ≡ self.old) }
        ensures no_other { IsErrOf result
            SessionFault.NoMemory → ⊥ }
        ensures after { OnOk result (IsCallOf any_tell (ClearingAll loader) self.old self.new) }
    {
        if loader >= self.loaders.len() {
            return Err(SessionFault::NoSuchLoader);
        }
        self.memory.drop_failed();
        self.memory.clear_all(loader);
        Ok(())
    }

    /// Starts again: the session is as a [new](Session::new) one over its loaders. Nothing is known of any key,
    /// the logs are empty, and no round was made; the counts of orders go on. Its tables stay for what comes,
    /// unless very many keys were known.
    ///
    /// # Errors
    ///
    /// When out of memory, the session is equal to what it was (`kept`). In the code that comes only where more
    /// than 1,024 keys were known, which no clause says.
    pub fn restart(&mut self) -> Result<(), AllocError>
        ensures restarted { OnOk result
            (self.new ≡ restarted self.old) }
        ensures after { OnOk result (IsCallOf any_tell Restarting self.old self.new) }
        ensures kept { OnErr result (self.new ≡ self.old) }
    {
        forget_all(*self.loaders.allocator(), &mut self.memory)?;
        restart_all(&mut self.loaders);
        self.rounds = 0;
        Ok(())
    }
}

impl<S: Drop> Session<S> {
    /// A new, empty session, over loaders that haven't been asked yet. They are numbered from 0.
    pub fn new(alloc: Global, loaders: Vec<Loader<S>>) -> Result<Session<S>, AllocError>
        requires { All (λ l. l.log ≡ []) loaders.items }
        ensures { IfOk result (λ s.
            s ≡ record { loaders = loaders.items; pairs = []; rounds = 0 }) }
    {
        let mut modes = Vec::with_capacity(alloc, loaders.len())?;
        for loader in loaders.iter() {
            modes.push(loader.mode())?;
        }
        let memory = Memory::new(alloc, modes)?;
        Ok(Session {
            loaders,
            memory,
            rounds: 0,
            spare: Wants::none(alloc),
        })
    }
}

impl<S: LocalSource> Session<S> {
    ghost use Rattle.execution.specs.Rounds.{may_at};
    ghost use Rattle.load_rounds.specs.Sessions.{state_of, rules_of};
    ghost use Rattle.load_rounds.specs.ByHand.{ReceivesReplies};
    ghost use Rattle.load_rounds.specs.Histories.{IsCallOf, Loading, StoppedLoading};

    /// Loads one key of a loader, after it forgets failed batches. Returns a copy of the key's outcome: the known one,
    /// or else what the source returns in a round of this one key, which is kept.
    ///
    /// # Errors
    ///
    /// [`NoSuchLoader`](SessionFault::NoSuchLoader) exactly where the session has no loader of that number: it
    /// is as it was, failed batches too (`no_loader`, `refused`). When out of memory failed batches are
    /// forgotten, and the round was lost, or it was made and stored and its outcomes weren't copied
    /// (`no_memory`, by `IsStopped`).
    ///
    /// # Headline
    ///
    /// `loaded` and `no_memory`: one lawful round, or none; `recorded`: nothing was asked off the record
    pub fn load(&mut self, loader: usize, key: Key) -> Result<Outcome, SessionFault>
        ensures no_loader { IsErrOf result SessionFault.NoSuchLoader
            ↔ (length self.old.loaders ≤ loader) }
        ensures refused { IsErrOf result SessionFault.NoSuchLoader → self.new ≡ self.old }
        ensures no_memory { IsErrOf result SessionFault.NoMemory
            → IsCallOf S.may_tell (StoppedLoading loader (key_of key ∷ [])) self.old self.new }
        ensures loaded { IfOk result (λ outcome. IsCallOf S.may_tell
            (Loading loader (key_of key ∷ []) (outcome_of outcome ∷ [])) self.old self.new) }
        ensures recorded { AreOnRecord
            self.old.loaders self.new.loaders }
    {
        let keys = [key];
        let mut outcomes = self.load_many(loader, &keys)?;
        match outcomes.pop() {
            Some(outcome) => Ok(outcome),
            None => unreachable!(),
        }
    }

    /// Loads keys of a loader, as [`load`](Session::load) does one, and returns an outcome for each, in order. The
    /// unknown keys are asked for in one round, of equal cache keys only the first.
    ///
    /// # Errors
    ///
    /// Those of [`load`](Session::load).
    ///
    /// # Headline
    ///
    /// As `Session::load` says
    pub fn load_many(&mut self, loader: usize, keys: &[Key]) -> Result<Vec<Outcome>, SessionFault>
        ensures no_loader { IsErrOf result SessionFault.NoSuchLoader
            ↔ (length self.old.loaders ≤ loader) }
        ensures refused { IsErrOf result SessionFault.NoSuchLoader → self.new ≡ self.old }
        ensures no_memory { IsErrOf result SessionFault.NoMemory
            → IsCallOf S.may_tell (StoppedLoading loader (map key_of keys.now)) self.old self.new }
        ensures loaded { IfOk result (λ outcomes. IsCallOf S.may_tell (Loading loader
            (map key_of keys.now) (map outcome_of outcomes.items)) self.old self.new) }
        ensures recorded { AreOnRecord
            self.old.loaders self.new.loaders }
    {
        if loader >= self.loaders.len() {
            return Err(SessionFault::NoSuchLoader);
        }
        self.answer(&LentKeys { loader, keys })?;
        Ok(self.known_outcomes(loader, keys)?)
    }

    /// Runs the orders of the latest round, one after another, stores what came of them, and marks its log entries as stored. A contract
    /// also sees here that no loader's limit is 0.
    pub(crate) fn run(&mut self, orders: Vec<Order>) -> Result<(), AllocError>
        requires { AreCutBy self.old.loaders orders.items }
        ensures ran { OnOk result (ReceivesReplies (may_at S.may_tell self.old.loaders)
            (map asks orders.items) (state_of self.old) (state_of self.new)) }
        ensures kept { OnErr result
            (state_of self.new ≡ state_of self.old) }
        ensures limited { AreLimited
            (rules_of (state_of self.old)) }
    {
        let alloc = self.alloc();
        run_and_keep(alloc, &self.loaders, orders, &mut self.memory)?;
        mark_all(&mut self.loaders, self.rounds);
        Ok(())
    }
}
