//! Texts out of parts.
ghost use Rattle.std.specs.Prelude.{◌≡◌, IfOk, map, string_bytes};
ghost use Rattle.std.specs.List.{concat};
ghost use Rattle.fault_sentences.specs.Words.{mark_of, on_token};

use std::alloc::{AllocError, Global};

/// The text of these parts, one after the other.
pub(crate) fn joined(alloc: Global, parts: &[&str]) -> Result<String, AllocError>
    ensures { IfOk result (λ text. string_bytes text ≡ concat (map (λ p. p.now) parts.now)) }
{
    let mut text = String::new(alloc);
    for part in parts {
        text.push_str(part)?;
    }
    Ok(text)
}

// The mark on both sides of a token. One that is a string has its own.
fn mark_of<'p>(token: &'p str) -> &'p str
    ensures { result.now ≡ mark_of token.now }
{
    if token.starts_with('"') { "" } else { "\"" }
}

/// A token in quotes, between two texts.
pub(crate) fn on_token<'p>(
    alloc: Global,
    before: &'p str,
    token: &'p str,
    behind: &'p str,
) -> Result<String, AllocError>
    ensures { IfOk result (λ text. string_bytes text
        ≡ concat (on_token before.now token.now behind.now)) }
{
    let mark = mark_of(token);
    joined(alloc, &[before, mark, token, mark, behind])
}
