//! Request lines: a query, the name of its operation and its variables, in one line of JSON; or several of these in an array.
//!
//! The layer above may rely on this: [`LineReader::read`] returns the one request that a line is, or those of an array of 1 to 16
//! values, or that the line is neither (`IsRequest`, `AreRequests` and `IsNoRequest` in `specs/Requests.antt`). A line reads as
//! `serde_json` reads it, whose limit of nesting is part of that. One reader is kept from line to line: where a line is an
//! object, its query and the name of its operation lie in the line and in the reader, and memory is taken for its variables, and
//! for arrays and objects among its other members.
#![tactic(auto)]

mod key;
mod line;
mod member;
mod number;
mod plain;
mod reader;
mod request;

pub use line::Line;
pub use reader::LineReader;
pub use request::Request;
