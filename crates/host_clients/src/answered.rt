//! A client that has answered what it was asked.
ghost use Rattle.std.specs.Prelude.{◌≡◌, string_bytes};
ghost use Rattle.host_clients.specs.UnderWay.{IsAnswerOf};

use crate::idle::IdleClient;
use crate::note::AskedNote;
use server::Queries;
use std::marker::Model;
use std::snapshot::Snapshot;

/// A client with the answer to what it was asked last.
///
/// A contract sees the client, the server that it was planned by, what was asked, the text and how many rounds it took. The text is the
/// answer of that, within the client's limits (`IsAnswerOf`).
pub struct AnsweredClient {
    pub(crate) idle: IdleClient,
    pub(crate) text: String,
    pub(crate) rounds: u32,
    pub(crate) note: AskedNote,
    // what planned it, for contracts alone: it takes no memory
    pub(crate) queries: Snapshot<Queries>,
}

impl Model for AnsweredClient {
    ghost use Rattle.std.specs.Coded.{codes};
    ghost use Rattle.std.specs.Prelude.{string_bytes};
    ghost use Rattle.gq_parser.specs.contracts.tree.TypeRef as type_ref;
    ghost use Rattle.gq_parser.specs.contracts.tree.Literal as literal;
    ghost use Rattle.rounds_by_hand.specs.contracts.handed_in.HandedIn as handed;
    ghost use Rattle.host_clients.specs.UnderWay.{AnsweredOf, IsAnswerOf};

    ghost Value = { AnsweredOf };

    ghost coded = { Prim.hlevel (codes, type_ref.the_row.coded, literal.the_row.coded, handed.the_row.coded) };

    ghost view = { λ a. record { client = a.idle; server = a.queries.value; asked = a.note.asked; text = string_bytes a.text; rounds = a.rounds } };

    ghost invariant = { λ a. IsAnswerOf a.queries.value a.idle.limits a.note.asked (string_bytes a.text) a.rounds };
}

impl Drop for AnsweredClient {
    fn drop(self) {
        let AnsweredClient {
            idle: _idle,
            text: _text,
            rounds: _,
            note: _note,
            queries: _queries,
        } = self;
    }
}

impl AnsweredClient {
    /// The text of the answer.
    pub fn text(&self) -> &str
        ensures text { result.now ≡ self.now.text }
        ensures answer { IsAnswerOf self.now.server self.now.client.limits
            self.now.asked self.now.text self.now.rounds }
    {
        self.text.as_str()
    }

    /// Returns how many rounds it took.
    pub fn rounds(&self) -> u32
        ensures { result ≡ self.now.rounds }
    {
        self.rounds
    }

    /// The client, without the answer.
    pub(crate) fn into_idle(self) -> IdleClient
        ensures { result ≡ self.client }
    {
        let AnsweredClient {
            idle,
            text: _text,
            rounds: _,
            note: _note,
            queries: _queries,
        } = self;
        idle
    }
}
