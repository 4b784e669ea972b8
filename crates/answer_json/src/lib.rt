//! The bytes of answers: the start of one, with its field errors, and the refusal of a request.
//!
//! Of an answer the layer above writes the data itself, as it is completed. A refusal is one text without a line end: that of
//! `refusal_json` (`specs/Answer.antt`) with no space between its tokens, which reads back as that value.
#![tactic(auto)]

mod answer;
mod field_error;
mod put;

pub use answer::{begin_answer, write_refusal, writer_text};
pub use field_error::{FieldError, PathSegment};
