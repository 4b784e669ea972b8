//! The shelf: replies that threads add, and that stay where they were put.
ghost use Rattle.std.specs.Prelude.{◌≡◌, IfOk, IfErr};
ghost use Rattle.load_memory.specs.Replies.{reply_of};
ghost use Rattle.load_memory.specs.Shelves.{IsOn, shown};

use crate::reply::Reply;
use boxcar::Pushed;
use std::alloc::{AllocError, Global};
use std::sync::Wait;

/// A place for the replies of a round, which all workers of the round fill at the same time through a `&`.
///
/// It only grows, and a reply stays where it was put, so readers take no lock.
///
/// A receipt is the token of a push, which says what is at its place for good. A reply leaves the shelf with
/// the shelf alone, so [`index`](crate::Memory::index) copies outcomes.
pub struct Shelf {
    replies: boxcar::Vec<Reply>,
}

impl Drop for Shelf {
    fn drop(self) {
        let Shelf { replies: _replies } = self;
    }
}

/// Finds a reply that was put on a shelf. It takes little memory: the reply stays on the shelf.
#[derive(Drop)]
pub struct Receipt {
    pushed: Pushed<Reply>,
}

impl Shelf {
    /// A shelf with no replies.
    pub fn new(alloc: Global) -> Result<Shelf, AllocError> {
        let replies = boxcar::Vec::new(alloc)?;
        Ok(Shelf { replies })
    }

    /// Puts a reply on the shelf and returns a receipt that shows it for good. When out of memory, returns the
    /// reply. It may wait while another thread makes room.
    pub fn put(&self, rt: &impl Wait, reply: Reply) -> Result<Receipt, Reply>
        ensures shown { IfOk result (λ r.
            IsOn self.now r × (shown r ≡ reply_of reply)) }
        ensures back { IfErr result
            (λ r. reply_of r ≡ reply_of reply) }
    {
        let pushed = self.replies.push_shown(rt, reply)?;
        Ok(Receipt { pushed })
    }

    /// The reply that a receipt of this shelf shows, for as long as the shelf is there. It takes no memory and waits
    /// for nobody.
    pub fn at<'a>(&'a self, receipt: &Receipt) -> &'a Reply
        requires { IsOn self.now receipt.now }
        ensures { reply_of result.now ≡ shown receipt.now }
    {
        self.replies.value(&receipt.pushed)
    }
}
