//! Lines of bindings, and their words.
ghost use Rattle.std.specs.Prelude.{◌≡◌, ◌<◌, [], ◌∷◌, IfOk, IfSome, MatchOption, get_or, length, map, option_map};
ghost use Rattle.bindings_syntax.specs.Cuts.{cut_at};
ghost use Rattle.bindings_syntax.specs.Lines.{statement_lines};
ghost use Rattle.bindings_syntax.specs.Words.{words_of};
ghost use Rattle.fault_sentences.specs.Lines.{dot, line_of};

use std::alloc::{AllocError, Global};

// The text before the first of an ASCII character, and the text behind it.
fn cut(text: &str, mark: char) -> Option<(&str, &str)>
    requires { mark < 128 }
    ensures parts { option_map (λ p.
        (p.0.now, p.1.now)) result ≡ cut_at mark text.now }
    ensures shorter { IfSome result
        (λ p. length p.1.now < length text.now) }
{
    text.split_once(mark)
}

// The first line, without its end, and what stands behind it.
fn first_line(text: &str) -> Option<(&str, &str)>
    ensures line { MatchOption result (statement_lines text.now ≡ []) (λ p.
        statement_lines text.now ≡ p.0.now ∷ statement_lines p.1.now) }
    ensures shorter { IfSome result
        (λ p. length p.1.now < length text.now) }
{
    match cut(text, '\n') {
        Some((line, rest)) => Some((line.strip_suffix('\r').unwrap_or(line), rest)),
        None => {
            if text.is_empty() {
                None
            } else {
                Some((text, ""))
            }
        }
    }
}

/// The line of this number, from 1; empty where there is none.
pub(crate) fn line_at(bindings: &str, number: u64) -> &str
    ensures { result.now ≡ line_of bindings.now number }
{
    let mut left = number;
    let mut rest = bindings;
    while let Some((line, after)) = first_line(rest) {
        if left <= 1 {
            return line;
        }
        left -= 1;
        rest = after;
    }
    ""
}

/// The words of a line.
pub(crate) fn words_of(alloc: Global, line: &str) -> Result<Vec<&str>, AllocError>
    ensures { IfOk result
        (λ words. map (λ w. w.now) words.items ≡ words_of line.now) }
{
    let mut words = Vec::new(alloc);
    let mut rest = line;
    while let Some((word, after)) = cut(rest, ' ') {
        if !word.is_empty() {
            words.push(word)?;
        }
        rest = after;
    }
    if !rest.is_empty() {
        words.push(rest)?;
    }
    Ok(words)
}

/// A word by its index; empty where there is none.
pub(crate) fn word_at<'l>(words: &[&'l str], index: usize) -> &'l str
    ensures { result.now ≡ get_or (map (λ w. w.now) words.now) index [] }
{
    match words.get(index) {
        Some(word) => word,
        None => "",
    }
}

/// A type and its field, as a word names them with a dot in between.
pub(crate) fn type_and_field(word: &str) -> Option<(&str, &str)>
    ensures { option_map (λ p. (p.0.now, p.1.now)) result ≡ cut_at dot word.now }
{
    cut(word, '.')
}
