//! An order: keys that are to be asked together of one loader.
ghost use Rattle.std.specs.Prelude.{◌≡◌, IfOk, length, map};
ghost use Rattle.load_memory.specs.Keys.{key_of};
ghost use Rattle.load_queue.specs.Fetched.{Follow};

use crate::identity::Identity;
use crate::loader::Loader;
use crate::outcomes::outcomes_of_answer;
use crate::source::{FetchFault, LocalSource};
use load_memory::{Item, Key, Keys, Reply};
use std::alloc::{AllocError, Global};
use std::marker::Model;

/// A batch that is still to be asked: keys for one call of a loader's source. Only
/// [`Loader::cut`](crate::Loader::cut) makes one, and [`run`](Order::run) or [`reply_with`](Order::reply_with)
/// spends it.
///
/// A contract sees its loader's number, its keys, and which loader cut it.
pub struct Order {
    loader: usize,
    keys: Keys,
    identity: Identity,
}

impl Model for Order {
    ghost use Rattle.std.specs.Prelude.{map};
    ghost use Rattle.load_memory.specs.Keys.{key_of};
    ghost use Rattle.load_queue.specs.Orders.{CutOf, cut_of};

    ghost Value = { CutOf };

    ghost view = { λ o. cut_of o.identity o.loader (map key_of o.keys) };
}

impl Drop for Order {
    fn drop(self) {
        let Order {
            loader: _,
            keys: _keys,
            identity: _identity,
        } = self;
    }
}

impl Order {
    ghost use Rattle.load_queue.specs.Orders.{cut_of, asks, IsCutBy};
    ghost use Rattle.load_queue.specs.Runs.{IsReplyTo};
    ghost use Rattle.load_memory.specs.Replies.{reply_of};

    pub(crate) fn new(identity: &Identity, loader: usize, keys: Keys) -> Order
        ensures { result ≡ cut_of identity.now loader
            (map key_of keys) }
    {
        Order {
            loader,
            keys,
            identity: identity.same(),
        }
    }

    /// Its keys once more, in the list that it shares.
    pub(crate) fn shared_keys(&self) -> Result<Keys, AllocError>
        ensures { IfOk result
            (λ keys. map key_of keys ≡ self.now.keys) }
    {
        Ok(self.keys.clone()?)
    }

    /// The number of its loader.
    pub fn loader(&self) -> usize
        ensures { result ≡ self.now.loader }
    {
        self.loader
    }

    /// Its keys, in the order in which they are to be asked.
    pub fn keys(&self) -> &[Key]
        ensures { map key_of result.now ≡ self.now.keys }
    {
        self.keys.as_slice()
    }

    /// Asks the source of the order's loader once, and returns an outcome for each key, in order: the
    /// items of the source's list if it has one for each key. If the source failed, each key gets a
    /// batch fault with the source's message; if it returned N items for M keys, one with the text
    /// `the source answered N results for M keys`. The loaders are those from which the order was cut:
    /// an order of another loader can't be run.
    ///
    /// When out of memory, here or in the source, the order is spent and there is no reply.
    pub fn run<S: LocalSource>(
        self,
        alloc: Global,
        loaders: &[Loader<S>],
    ) -> Result<Reply, AllocError>
        requires { IsCutBy loaders.now self }
        ensures { IfOk result (λ reply. IsReplyTo
            S.may_tell loaders.now (asks self) (reply_of reply)) }
    {
        let Order {
            loader,
            keys,
            identity: _identity,
        } = self;
        let answer = loaders[loader].source().ask(alloc, keys.as_slice());
        let outcomes = outcomes_of_answer(alloc, answer, keys.len())?;
        Ok(Reply {
            loader,
            keys,
            outcomes,
        })
    }

    /// Answers the order with items that came from elsewhere; it asks no source. Returns an outcome for each key, in
    /// order, as [`run`](Order::run) does of what its source returned: the items if there is one for each key, or
    /// else for each key a batch fault, with the answer's message or the text of a wrong count.
    ///
    /// When out of memory, or if the answer is [`NoMemory`](FetchFault::NoMemory), the order is spent and there is no
    /// reply.
    pub fn reply_with(
        self,
        alloc: Global,
        answer: Result<Vec<Item>, FetchFault>,
    ) -> Result<Reply, AllocError>
        ensures loader { IfOk result
            (λ reply. reply.loader ≡ self.loader) }
        ensures keys { IfOk result
            (λ reply. (reply_of reply).keys ≡ self.keys) }
        ensures outcomes { IfOk result (λ reply.
            Follow (reply_of reply).outcomes answer (length self.keys)) }
    {
        let Order {
            loader,
            keys,
            identity: _identity,
        } = self;
        let outcomes = outcomes_of_answer(alloc, answer, keys.len())?;
        Ok(Reply {
            loader,
            keys,
            outcomes,
        })
    }
}
