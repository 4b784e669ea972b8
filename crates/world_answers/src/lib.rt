//! The answers of request lines over a world.
//!
//! The layer above may rely on this: a client of a [`Service`] ([`Service::client`]) has a session over the sources of its world, with its
//! limits. Where it serves lines ([`server::serve`]), each has the one text that answers it (`specs/Lines.antt`, law [`lines_are_direct`]):
//! a refusal, or that of direct execution, where each load is answered at once by the rows of its key (`specs/Answers.antt`), so that no
//! memory, round, batch or limit of a batch changes it, and no number of workers. Whether it is too much work is a matter of direct
//! execution too. An array has such a text for each of its values. Each line has such a text (`existence`), so none of this is true of
//! nothing.
#![tactic(auto)]

mod existence;
mod law;
mod service;
mod sessions;

pub use existence::{
    answers_are_there, documents_have_verdicts, lines_are_answered, plans_are_answered,
    requests_are_answered, texts_are_read,
};
pub use law::{lines_are_direct, one_answer};
pub use service::Service;
