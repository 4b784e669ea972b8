//! What a fault of a schema or of its bindings says.
ghost use Rattle.std.specs.Prelude.{◌≡◌, IfOk, IfSome, string_bytes};
ghost use Rattle.gq_schema.specs.Types.{tree_of};
ghost use Rattle.fault_sentences.specs.Told.{IsCopied, Says, SaysOfBindings, SaysOfSchema, Tells, small};

use crate::cut::{line_at, words_of};
use crate::line::BadLine;
use crate::missing::missing_line;
use crate::schema::{SchemaComplaint, schema_complaint};
use gq_lexer::{MAX_BYTES, Place};
use gq_schema::{Schema, SchemaFault};
use std::alloc::{AllocError, Global};
use std::str;

/// A fault of a schema or of its bindings, with its place.
#[derive(Clone, Copy, Debug, PartialEq, Eq)]
pub struct FaultAt {
    /// The fault Sn has the number n.
    pub number: u32,
    /// From 1; 0 where it has none.
    pub line: u64,
    /// From 1, in characters; 0 where it has none.
    pub column: u64,
    /// Tells whether the line is one of the bindings.
    pub in_bindings: bool,
}

// A number of 32 bits, or the greatest.
fn small(number: u64) -> u32
    ensures { result ≡ small number }
{
    u32::try_from(number).unwrap_or(u32::MAX)
}

// What is wrong with a schema, in a sentence.
fn schema_sentence(alloc: Global, fault: &FaultAt, schema: &str) -> Result<String, AllocError>
    ensures { IfOk result (λ text. SaysOfSchema fault.now schema.now (string_bytes text)) }
{
    if schema.len() > MAX_BYTES {
        return SchemaComplaint::Refused.sentence(alloc);
    }
    let at = Place {
        line: small(fault.line),
        column: small(fault.column),
    };
    schema_complaint(alloc, fault.number, at, schema)?.sentence(alloc)
}

// The sentence on bindings over a schema, where the line of this number is bad, or for 0 none is.
fn bindings_sentence(
    alloc: Global,
    line: u64,
    schema: &Schema,
    bindings: &str,
) -> Result<String, AllocError>
    ensures { IfOk result (λ text. SaysOfBindings
        (tree_of schema.now) bindings.now line (string_bytes text)) }
{
    let text = bindings_syntax::read(alloc, bindings)?;
    if line == 0 {
        return missing_line(schema, &text).sentence(alloc);
    }
    let bad = line_at(bindings, line);
    let words = words_of(alloc, bad)?;
    let bad_line = BadLine {
        schema,
        text: &text,
        number: line,
        line: bad,
        words: &words,
    };
    bad_line.complaint().sentence(alloc)
}

/// What is wrong with a schema or its bindings, in a sentence. The fault is the first one of these texts.
///
/// # Errors
///
/// Only when out of memory.
pub fn sentence(
    alloc: Global,
    fault: &FaultAt,
    schema: &str,
    bindings: &str,
) -> Result<String, AllocError>
    ensures { IfOk result (λ text. Says fault.now schema.now bindings.now (string_bytes text)) }
{
    if !fault.in_bindings {
        return schema_sentence(alloc, fault, schema);
    }
    match Schema::read(alloc, schema) {
        Ok(read) => bindings_sentence(alloc, fault.line, &read, bindings),
        Err(SchemaFault::NoMemory) => Err(AllocError),
        Err(_) => SchemaComplaint::Refused.sentence(alloc),
    }
}

// The sentence on a fault of these texts, unless one isn't UTF-8 or memory runs out.
fn sentence_of(alloc: Global, fault: &FaultAt, schema: &[u8], bindings: &[u8]) -> Option<String>
    ensures { IfSome result (λ text. Says fault.now schema.now bindings.now (string_bytes text)) }
{
    let schema = str::from_utf8(schema).ok()?;
    let bindings = str::from_utf8(bindings).ok()?;
    sentence(alloc, fault, schema, bindings).ok()
}

// Copies as much of a text as there is room for. Returns its whole length.
fn copy_text(text: &str, bytes: &mut [u8]) -> usize
    ensures { IsCopied text.now bytes.old bytes.new result }
{
    let text = text.as_bytes();
    let len = text.len().min(bytes.len());
    bytes[..len].copy_from_slice(&text[..len]);
    text.len()
}

/// Copies what is wrong with a schema or its bindings, in a sentence, as much as there is room for. The fault is the first one of these
/// texts. Returns the whole length of the sentence; 0 where a text isn't UTF-8, or when out of memory.
pub fn copy_sentence(
    alloc: Global,
    fault: &FaultAt,
    schema: &[u8],
    bindings: &[u8],
    bytes: &mut [u8],
) -> usize
    ensures { Tells fault.now schema.now bindings.now
        bytes.old bytes.new result }
{
    match sentence_of(alloc, fault, schema, bindings) {
        Some(text) => copy_text(text.as_str(), bytes),
        None => 0,
    }
}
