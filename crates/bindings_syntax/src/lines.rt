//! The lines of a text that count.

ghost use Rattle.std.specs.Prelude.{◌≡◌, ℕ, List, [], ◌∷◌, ◌+◌, ◌<◌, ◌^◌, length, MatchOption, IfSome};
ghost use Rattle.bindings_syntax.specs.Lines.{statement_lines, NumberedLine as NumberedText, kept_from, kept_lines, is_skipped};

use crate::cut::cut;
use std::marker::Model;

/// The first line, without its end, and what stands behind it.
fn first_line(text: &str) -> Option<(&str, &str)>
    ensures line { MatchOption result (statement_lines text.now ≡ []) (λ p.
        statement_lines text.now ≡ p.0.now ∷ statement_lines p.1.now) }
    ensures shorter { IfSome result
        (λ p. length p.1.now < length text.now) }
{
    match cut(text, '\n') {
        Some((line, rest)) => Some((line.strip_suffix('\r').unwrap_or(line), rest)),
        None => {
            if text.is_empty() {
                None
            } else {
                Some((text, ""))
            }
        }
    }
}

/// A line with its number, from 1.
#[derive(Clone, Copy)]
pub(crate) struct NumberedLine<'text> {
    pub number: u64,
    pub text: &'text str,
}

/// The lines that are left.
#[derive(Drop)]
pub(crate) struct Lines<'text> {
    rest: &'text str,
    /// The number of lines before them.
    passed: u64,
}

impl<'text> Model for Lines<'text> {
    ghost Value = { List NumberedText };

    ghost view = { λ lines. kept_from (lines.passed + 1) (statement_lines lines.rest.now) };

    ghost invariant = { λ lines. lines.passed + length lines.rest.now < 2 ^ 64 };
}

/// Tells whether a line says nothing: an empty one, or a comment.
fn says_nothing(line: &str) -> bool
    ensures { result ≡ is_skipped line.now }
{
    line.is_empty() || line.starts_with('#')
}

impl<'text> Lines<'text> {
    pub(crate) fn of(text: &'text str) -> Self
        ensures { result ≡ kept_lines text.now }
    {
        Lines {
            rest: text,
            passed: 0,
        }
    }

    /// The next line that counts.
    pub(crate) fn next(&mut self) -> Option<NumberedLine<'text>>
        ensures { MatchOption result (self.old ≡ []) (λ line.
            self.old ≡ record { number = line.number; text = line.text.now } ∷ self.new) }
    {
        while let Some((text, rest)) = first_line(self.rest) {
            self.rest = rest;
            self.passed += 1;
            if !says_nothing(text) {
                return Some(NumberedLine {
                    number: self.passed,
                    text,
                });
            }
        }
        None
    }
}
