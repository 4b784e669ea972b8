//! A note of what a host asked, for contracts alone.
//!
//! What a client was asked is said of its answer (`IsAnswerOf` of `specs/UnderWay.antt`), long after the host's buffers are gone. The note
//! keeps it for that, and takes no memory. It says what clauses say of it, and no more.
ghost use Rattle.std.specs.Prelude.{◌≡◌};
ghost use Rattle.std.specs.Coded.{codes};
ghost use Rattle.host_clients.specs.Asked.{HostAsked};
ghost use Rattle.host_clients.specs.Texts.{asked_in};

use crate::asked::FlatAsked;
use std::marker::{Model, Send};

/// Says what a host asked.
#[derive(Drop)]
pub(crate) struct AskedNote {
    pub ghost asked: { HostAsked } by { Prim.hlevel codes },
}

impl Model for AskedNote {
    ghost use base.Fml.{ftrue};

    ghost also_owns = { λ _. ftrue };
}

// Safety: it owns nothing.
unsafe impl Send for AskedNote {}

impl AskedNote {
    /// Notes this.
    pub fn of(_asked: &FlatAsked<'_>) -> AskedNote
        ensures { result.asked ≡ asked_in _asked.now }
    {
        AskedNote {}
    }
}
