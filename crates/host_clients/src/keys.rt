//! Keys of a client, primed and cleared.
ghost use Rattle.std.specs.Prelude.{true, ◌≡◌, ◌≢◌, ◌≤◌, ◌∷◌, [], IfOk, IfErr, IfSome, IfNone, OnOk, OnErr, IsErrOf, length};
ghost use Rattle.load_memory.specs.Keys.{key_of};
ghost use Rattle.load_memory.specs.Outcomes.{item_of};
ghost use Rattle.load_rounds.specs.Histories.{ClearingAll};
ghost use Rattle.server.specs.Clients.{begun};
ghost use Rattle.host_clients.specs.Clients.{LacksLoader, client_in, is_busy, width_in};
ghost use Rattle.host_clients.specs.Known.{Calls, Clears, Forgets, KeepsOrForgets, OnClient, Primes, PrimesSaid, items_in, key_in};
ghost use Rattle.host_clients.specs.Known.{LimitsAnswers, LimitsRounds, LimitsSteps, LimitsWork};
ghost use Rattle.host_clients.specs.Laid.{AreKeyTexts, KeyFault, laid_reply, texts_at};
ghost use Rattle.host_clients.specs.Logs.{AreBatches, LogHolds};
ghost use Rattle.host_clients.specs.Refused.{BeginFault, BusyFault, ClearFault, KnownFault, LoaderFault, PrimeFault};

use crate::client::HostClient;
use crate::fault::Fault;
use crate::loaders::key_width;
use crate::log::BatchLog;
use flat_rows::{FlatReply, FlatTexts};
use load_memory::{Item, Key};
use std::alloc::Global;

/// The key of these texts, each from where the one before it ends, of a loader whose keys have `width`.
///
/// # Errors
///
/// [`NotUtf8`](Fault::NotUtf8), [`BadEnds`](Fault::BadEnds), [`BadKey`](Fault::BadKey), [`NoMemory`](Fault::NoMemory).
pub fn read_key(alloc: Global, width: u32, ends: &[u32], bytes: &[u8]) -> Result<Key, Fault>
    requires { width ≤ 2 }
    ensures key { IfOk result
        (λ key. key_of key ≡ key_in ends.now bytes.now) }
    ensures formed { OnOk result
        (AreKeyTexts width (texts_at ends.now bytes.now)) }
    ensures fault { IfErr result
        (KeyFault width (texts_at ends.now bytes.now)) }
{
    let texts = FlatTexts::new(bytes, ends)?;
    if texts.len() != width as usize {
        return Err(Fault::BadKey);
    }
    match width {
        0 => Ok(Key::All),
        1 => Ok(Key::of_text(alloc, texts.get(0))?),
        _ => Ok(Key::of_pair(alloc, texts.get(0), texts.get(1))?),
    }
}

// The item, where it is the only one.
fn the_one(items: Vec<Item>) -> Option<Item>
    ensures one { IfSome result
        (λ item. items.items ≡ item ∷ []) }
    ensures none { IfNone result (length items.items ≢ 1) }
{
    let mut items = items;
    let item = items.pop()?;
    if items.is_empty() { Some(item) } else { None }
}

impl HostClient {
    /// Adds an item for a loader's key, unless the key is known; true if it was added. Like each of these calls it lets an answer or
    /// outcomes go, unless it is refused.
    ///
    /// # Errors
    ///
    /// [`Busy`](Fault::Busy) while a request is being answered or keys are loaded, [`NoLoader`](Fault::NoLoader): nothing has changed.
    /// [`NoMemory`](Fault::NoMemory): failed batches are forgotten, an answer or outcomes are let go, and the client is else as it was.
    pub fn prime(&mut self, loader: usize, key: &Key, item: Item) -> Result<bool, Fault>
        ensures primed { IfOk result (λ added.
            OnClient (Primes loader (key_of key.now) (item_of item) added) self.old self.new) }
        ensures kept { IfErr result (λ fault.
            fault ≢ Fault.NoMemory → self.new ≡ self.old) }
        ensures no_memory { IfErr result (λ fault.
            fault ≡ Fault.NoMemory → OnClient Forgets self.old self.new) }
        ensures busy { is_busy self.old ≡ true
            → self.new ≡ self.old }
        ensures no_loader { IsErrOf result Fault.NoLoader
            → LacksLoader self.old loader }
        ensures fault { IfErr result (KnownFault loader self.old) }
    {
        self.client_with(loader)?;
        Ok(self.idle_mut()?.prime(loader, key, item)?)
    }

    /// Does what [`prime`](HostClient::prime) does with the key of these texts, and the one item of a reply.
    ///
    /// # Errors
    ///
    /// [`Busy`](Fault::Busy), [`NoLoader`](Fault::NoLoader); the first fault of the key, then that of the reply;
    /// [`BadCount`](Fault::BadCount) where the reply hasn't just one item: nothing has changed. [`NoMemory`](Fault::NoMemory) as that of
    /// [`prime`](HostClient::prime), or nothing has changed.
    pub fn prime_flat(
        &mut self,
        alloc: Global,
        loader: usize,
        key_ends: &[u32],
        key_bytes: &[u8],
        reply: &FlatReply<'_>,
    ) -> Result<bool, Fault>
        ensures primed { let key = key_in key_ends.now key_bytes.now in IfOk result
            (λ b. OnClient (PrimesSaid loader key (items_in reply.now) b) self.old self.new) }
        ensures kept { IfErr result (λ fault.
            fault ≢ Fault.NoMemory → self.new ≡ self.old) }
        ensures no_memory { IfErr result (λ fault.
            fault ≡ Fault.NoMemory → KeepsOrForgets self.old self.new) }
        ensures busy { is_busy self.old ≡ true
            → self.new ≡ self.old }
        ensures formed { OnOk result
            (AreKeyTexts (width_in self.old loader) (texts_at key_ends.now key_bytes.now)) }
        ensures fault { let key = texts_at key_ends.now key_bytes.now in
            IfErr result (PrimeFault loader key (laid_reply reply.now) self.old) }
    {
        let client = self.client_with(loader)?;
        let width = key_width(client.server(), loader);
        let key = read_key(alloc, width, key_ends, key_bytes)?;
        match the_one(reply.items(alloc)?) {
            Some(item) => self.prime(loader, &key, item),
            None => Err(Fault::BadCount),
        }
    }

    /// Does what [`clear`](HostClient::clear) does with the key of these texts.
    ///
    /// # Errors
    ///
    /// [`Busy`](Fault::Busy), [`NoLoader`](Fault::NoLoader); the first fault of the key: nothing has changed.
    /// [`NoMemory`](Fault::NoMemory) as that of [`clear`](HostClient::clear), or nothing has changed.
    pub fn clear_flat(
        &mut self,
        alloc: Global,
        loader: usize,
        key_ends: &[u32],
        key_bytes: &[u8],
    ) -> Result<bool, Fault>
        ensures cleared { IfOk result (λ there.
            OnClient (Clears loader (key_in key_ends.now key_bytes.now) there) self.old self.new) }
        ensures kept { IfErr result (λ fault.
            fault ≢ Fault.NoMemory → self.new ≡ self.old) }
        ensures no_memory { IfErr result (λ fault.
            fault ≡ Fault.NoMemory → KeepsOrForgets self.old self.new) }
        ensures busy { is_busy self.old ≡ true
            → self.new ≡ self.old }
        ensures formed { OnOk result
            (AreKeyTexts (width_in self.old loader) (texts_at key_ends.now key_bytes.now)) }
        ensures fault { IfErr result
            (ClearFault loader (texts_at key_ends.now key_bytes.now) self.old) }
    {
        let client = self.client_with(loader)?;
        let width = key_width(client.server(), loader);
        let key = read_key(alloc, width, key_ends, key_bytes)?;
        self.clear(loader, &key)
    }

    /// Forgets a loader's key; true if it was known.
    ///
    /// # Errors
    ///
    /// Those of [`prime`](HostClient::prime).
    pub fn clear(&mut self, loader: usize, key: &Key) -> Result<bool, Fault>
        ensures cleared { IfOk result (λ there.
            OnClient (Clears loader (key_of key.now) there) self.old self.new) }
        ensures kept { IfErr result (λ fault.
            fault ≢ Fault.NoMemory → self.new ≡ self.old) }
        ensures no_memory { IfErr result (λ fault.
            fault ≡ Fault.NoMemory → OnClient Forgets self.old self.new) }
        ensures busy { is_busy self.old ≡ true
            → self.new ≡ self.old }
        ensures no_loader { IsErrOf result Fault.NoLoader
            → LacksLoader self.old loader }
        ensures fault { IfErr result (KnownFault loader self.old) }
    {
        self.client_with(loader)?;
        Ok(self.idle_mut()?.clear(loader, key)?)
    }

    /// Forgets all keys of a loader.
    ///
    /// # Errors
    ///
    /// [`Busy`](Fault::Busy), [`NoLoader`](Fault::NoLoader).
    pub fn clear_all(&mut self, loader: usize) -> Result<(), Fault>
        ensures cleared { OnOk result (OnClient (Calls (ClearingAll loader)) self.old self.new) }
        ensures kept { OnErr result (self.new ≡ self.old) }
        ensures busy { is_busy self.old ≡ true
            → self.new ≡ self.old }
        ensures no_loader { IsErrOf result Fault.NoLoader
            → LacksLoader self.old loader }
        ensures fault { IfErr result (LoaderFault loader self.old) }
    {
        self.client_with(loader)?;
        Ok(self.idle_mut()?.clear_all(loader)?)
    }

    /// Forgets all keys, logs and rounds. The documents of queries stay.
    ///
    /// # Errors
    ///
    /// [`Busy`](Fault::Busy), [`NoMemory`](Fault::NoMemory).
    pub fn restart(&mut self) -> Result<(), Fault>
        ensures begun { OnOk result (OnClient (λ c d. d ≡ begun c) self.old self.new) }
        ensures kept { OnErr result
            (client_in self.new ≡ client_in self.old) }
        ensures unchanged { IfErr result (λ fault.
            fault ≢ Fault.NoMemory → self.new ≡ self.old) }
        ensures busy { is_busy self.old ≡ true
            → self.new ≡ self.old }
        ensures fault { IfErr result
            (BeginFault self.old) }
    {
        Ok(self.idle_mut()?.restart()?)
    }

    /// From now on the text of an answer has at most `most` bytes, that of each value of an array by itself; `None` is no limit.
    ///
    /// # Errors
    ///
    /// [`Busy`](Fault::Busy).
    pub fn limit_answers(&mut self, most: Option<usize>) -> Result<(), Fault>
        ensures limited { OnOk result (OnClient (LimitsAnswers most) self.old self.new) }
        ensures kept { OnErr result (self.new ≡ self.old) }
        ensures busy { is_busy self.old ≡ true
            → self.new ≡ self.old }
        ensures fault { IfErr result
            (BusyFault self.old) }
    {
        self.idle_mut()?.limit_answers(most);
        Ok(())
    }

    /// From now on what is asked together may be at most `most` work, that of an array in sum; `None` is no limit. What is more is refused
    /// with `too much work`. Keys that are loaded have no limit.
    ///
    /// # Errors
    ///
    /// [`Busy`](Fault::Busy).
    pub fn limit_work(&mut self, most: Option<usize>) -> Result<(), Fault>
        ensures limited { OnOk result (OnClient (LimitsWork most) self.old self.new) }
        ensures kept { OnErr result (self.new ≡ self.old) }
        ensures busy { is_busy self.old ≡ true
            → self.new ≡ self.old }
        ensures fault { IfErr result
            (BusyFault self.old) }
    {
        self.idle_mut()?.limit_work(most);
        Ok(())
    }

    /// From now on at most `most` rounds may be made for what is asked together; `None` is no limit. What needs more is refused with
    /// `too many rounds`. Keys that are loaded have no limit.
    ///
    /// # Errors
    ///
    /// [`Busy`](Fault::Busy).
    pub fn limit_rounds(&mut self, most: Option<u32>) -> Result<(), Fault>
        ensures limited { OnOk result (OnClient (LimitsRounds most) self.old self.new) }
        ensures kept { OnErr result (self.new ≡ self.old) }
        ensures busy { is_busy self.old ≡ true
            → self.new ≡ self.old }
        ensures fault { IfErr result
            (BusyFault self.old) }
    {
        self.idle_mut()?.limit_rounds(most);
        Ok(())
    }

    /// From now on a call of [`advance`](HostClient::advance) takes at most `steps` steps of a request, and at least one; `None` is no limit.
    /// A step is a position that is counted, or a field or item that is written. Keys that are loaded have no limit.
    ///
    /// # Errors
    ///
    /// [`Busy`](Fault::Busy).
    pub fn limit_steps(&mut self, steps: Option<usize>) -> Result<(), Fault>
        ensures limited { OnOk result (OnClient (LimitsSteps steps) self.old self.new) }
        ensures kept { OnErr result (self.new ≡ self.old) }
        ensures busy { is_busy self.old ≡ true
            → self.new ≡ self.old }
        ensures fault { IfErr result
            (BusyFault self.old) }
    {
        self.idle_mut()?.limit_steps(steps);
        Ok(())
    }

    /// The batches that a loader was asked for since the client was made or started again.
    ///
    /// # Errors
    ///
    /// [`Busy`](Fault::Busy) while a request is being answered or keys are loaded, [`NoLoader`](Fault::NoLoader),
    /// [`NoMemory`](Fault::NoMemory).
    pub fn log(&self, alloc: Global, loader: usize) -> Result<BatchLog, Fault>
        ensures log { IfOk result (λ l.
            LogHolds (λ log. AreBatches log l.rounds.items l.stored.items l.keys) self.now loader) }
        ensures no_loader { IsErrOf result Fault.NoLoader
            → LacksLoader self.now loader }
        ensures fault { IfErr result (KnownFault loader self.now) }
    {
        match self.idle()?.session().logs(loader) {
            Some(entries) => Ok(BatchLog::of(alloc, entries)?),
            None => Err(Fault::NoLoader),
        }
    }
}
