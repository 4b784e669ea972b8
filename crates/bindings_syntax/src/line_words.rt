//! The words of a line.

ghost use Rattle.std.specs.Prelude.{◌≡◌, List, [], ◌∷◌, Some, None, false, MatchOption, if◌then◌else◌};
ghost use Rattle.bindings_syntax.specs.Cuts.{Text};
ghost use Rattle.bindings_syntax.specs.Statements.{behind};
ghost use Rattle.bindings_syntax.specs.Words.{words_of};

use crate::cut::cut;
use std::marker::Model;

/// The first word, and what stands behind it.
fn first_word(line: &str) -> Option<(&str, &str)>
    ensures { MatchOption result (words_of line.now ≡ [])
        (λ p. words_of line.now ≡ p.0.now ∷ words_of p.1.now) }
{
    let mut rest = line;
    while let Some((word, after)) = cut(rest, ' ') {
        if !word.is_empty() {
            return Some((word, after));
        }
        rest = after;
    }
    if rest.is_empty() {
        None
    } else {
        Some((rest, ""))
    }
}

/// The words of a line that are left.
#[derive(Drop)]
pub(crate) struct LineWords<'text> {
    rest: &'text str,
}

impl<'text> Model for LineWords<'text> {
    ghost Value = { List Text };

    ghost view = { λ words. words_of words.rest.now };
}

impl<'text> LineWords<'text> {
    pub(crate) fn of(line: &'text str) -> Self
        ensures { result ≡ words_of line.now }
    {
        LineWords { rest: line }
    }

    /// The next word.
    pub(crate) fn next(&mut self) -> Option<&'text str>
        ensures { MatchOption result ((self.old ≡ []) × (self.new ≡ []))
            (λ word. self.old ≡ word.now ∷ self.new) }
    {
        let (word, rest) = first_word(self.rest)?;
        self.rest = rest;
        Some(word)
    }

    /// Takes the next word where it is this one, and tells whether it did.
    pub(crate) fn take(&mut self, wanted: &str) -> bool
        ensures taken { behind wanted.now self.old ≡ (if result then Some self.new else None) }
        ensures left { result ≡ false
            → self.new ≡ self.old }
    {
        match first_word(self.rest) {
            Some((word, rest)) if word == wanted => {
                self.rest = rest;
                true
            }
            _ => false,
        }
    }
}
