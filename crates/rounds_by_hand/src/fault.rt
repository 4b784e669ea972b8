//! Faults: why a reply to an order wasn't taken, and why a call gave no answers.
use load_rounds::Overrun;
use std::alloc::AllocError;
use thiserror::Error;

/// Says why a reply to an order wasn't taken.
#[derive(Clone, Copy, Debug, PartialEq, Eq, Error)]
pub enum TakeFault {
    /// No round is out, or it has no order of that number. Nothing has changed.
    #[error("no such order")]
    NoSuchOrder,
    /// The order has a reply already. Nothing has changed.
    #[error("the order has a reply already")]
    Replied,
    /// Out of memory, here or as the reply. The round is lost, and the session can only be taken back.
    #[error("out of memory")]
    NoMemory,
}

impl From<AllocError> for TakeFault {
    ghost use Rattle.std.specs.Prelude.{◌≡◌};
    ghost use Rattle.rounds_by_hand.specs.declared.fault.TakeFault.TheVariants.{NoMemory};

    ghost from_gives = { λ _ fault. fault ≡ NoMemory };

    fn from(_e: AllocError) -> TakeFault {
        TakeFault::NoMemory
    }
}

/// Says why a call that goes on with answers gave none, and they are over.
#[derive(Clone, Copy, Debug, PartialEq, Eq, Error)]
pub enum HandFault {
    /// They are over a limit, so they are refused. The rounds that were made stay, and nothing more was asked.
    #[error("over a limit")]
    Over(Overrun),
    /// Out of memory, here or in a source; or the number of the next round would overflow. The finished rounds stay, and a round that
    /// was out is lost.
    #[error("out of memory")]
    NoMemory,
}

impl From<AllocError> for HandFault {
    ghost use Rattle.std.specs.Prelude.{◌≡◌};
    ghost use Rattle.rounds_by_hand.specs.declared.fault.HandFault.TheVariants.{NoMemory};

    ghost from_gives = { λ _ fault. fault ≡ NoMemory };

    fn from(_e: AllocError) -> HandFault {
        HandFault::NoMemory
    }
}
