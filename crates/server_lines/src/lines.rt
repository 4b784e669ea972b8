//! Cutting a text at its line feeds.

ghost use Rattle.std.specs.Prelude.{◌≡◌, ℕ, List, ◌∷◌, ◌++◌, MatchOption};
ghost use Rattle.server_lines.specs.Lines.{HasNoLineFeed, line_feed};

use memchr::memchr;

/// The text before the first line feed, and the text after it.
pub fn cut_line(text: &[u8]) -> Option<(&[u8], &[u8])>
    ensures { MatchOption result (HasNoLineFeed text.now)
        (λ p. (text.now ≡ p.0.now ++ line_feed ∷ p.1.now) × HasNoLineFeed p.0.now) }
{
    let at = memchr(b'\n', text)?;
    Some((&text[..at], &text[at + 1..]))
}
