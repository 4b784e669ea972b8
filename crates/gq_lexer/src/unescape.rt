//! The escapes of a string.

ghost use Rattle.std.specs.Prelude.{◌≡◌, ◌≤◌, ◌<◌, ◌+◌, length, IfOk};
ghost use Rattle.std.specs.List.{prefix_len};
ghost use Rattle.std.specs.String.{string_bytes};
ghost use Rattle.gq_lexer.specs.Characters.{is_escaped};
ghost use Rattle.gq_lexer.specs.Pieces.{code_unit};
ghost use Rattle.gq_lexer.specs.Value.{IsSpelled, HasValue, escaped_char};
ghost use Rattle.gq_lexer.specs.Unescape.{is_plain, unit_value, escape_value};

use crate::quoted::{code_unit, is_high_surrogate, is_low_surrogate};
use std::alloc::{AllocError, Global};

/// Returns how many bytes come before the next backslash.
pub fn plain_len(bytes: &[u8]) -> usize
    ensures value { result ≡ prefix_len is_plain bytes.now }
    ensures within { result ≤ length bytes.now }
{
    bytes.iter().take_while(|byte| **byte != b'\\').count()
}

fn escaped_code(letter: u8) -> u32
    ensures { result ≡ escaped_char letter }
{
    match letter {
        b'b' => 0x08,
        b'f' => 0x0C,
        b'n' => 0x0A,
        b'r' => 0x0D,
        b't' => 0x09,
        _ => u32::from(letter),
    }
}

fn is_escaped(letter: u8) -> bool
    ensures { result ≡ is_escaped letter }
{
    matches!(
        letter,
        b'"' | b'\\' | b'/' | b'b' | b'f' | b'n' | b'r' | b't'
    )
}

/// Holds what an escape says.
#[derive(Clone, Copy, Debug, PartialEq, Eq)]
struct EscapeValue {
    /// The character that it stands for.
    code: u32,
    /// Number of its bytes behind its backslash.
    len: usize,
}

/// Returns what the escape says whose `u` these digits follow.
fn unit_value(digits: &[u8]) -> Option<EscapeValue>
    ensures { result ≡ unit_value
        (code_unit digits.now) digits.now }
{
    let unit = code_unit(digits)?;
    if !is_high_surrogate(unit) {
        return Some(EscapeValue { code: unit, len: 5 });
    }
    if digits.len() < 6 {
        return None;
    }
    let low = code_unit(&digits[6..])?;
    if !is_low_surrogate(low) {
        return None;
    }
    let code = 0x10000 + (unit - 0xD800) * 0x400 + (low - 0xDC00);
    Some(EscapeValue { code, len: 11 })
}

/// Returns what the escape says whose backslash these bytes follow.
fn escape_value(bytes: &[u8]) -> Option<EscapeValue>
    ensures { result ≡ escape_value bytes.now }
{
    let [letter, digits @ ..] = bytes else {
        return None;
    };
    if is_escaped(*letter) {
        let code = escaped_code(*letter);
        return Some(EscapeValue { code, len: 1 });
    }
    unit_value(digits)
}

/// Returns what stands between the quotes of a string, with each escape replaced by its character.
pub fn replace_escapes(alloc: Global, body: &str) -> Result<String, AllocError>
    requires { IsSpelled body.now }
    ensures { IfOk result
        (λ s. HasValue body.now (string_bytes s)) }
{
    let mut value = String::new(alloc);
    let mut rest = body;
    while !rest.is_empty() {
        let (plain, after) = rest.split_at(plain_len(rest.as_bytes()));
        value.push_str(plain)?;
        rest = after;
        if let [_, escape @ ..] = after.as_bytes() {
            let EscapeValue { code, len } = escape_value(escape).unwrap();
            value.push(char::from_u32(code).unwrap())?;
            rest = after.split_at(1 + len).1;
        }
    }
    Ok(value)
}
