//! What stands at a place of a schema.
ghost use Rattle.std.specs.Prelude.{◌≡◌, ◌≤◌, All, IfNone, IfSome, length};
ghost use Rattle.gq_lexer.specs.Tokens.{IsToken};
ghost use Rattle.gq_lexer.specs.declared.lexer.TheConstants.{MAX_BYTES};
ghost use Rattle.fault_sentences.specs.Places.{IsAt, IsCharacterAt, NoneIsAt, NothingIsAt, last_defined, text_at};

use gq_lexer::{MAX_BYTES, Place, Token, TokenKind, next_place};

/// The token at a place, and its index.
pub(crate) fn token_at(tokens: &[Token], at: Place) -> Option<(usize, Token)>
    ensures found { IfSome result (λ found. IsAt at found.0 found.1 tokens.now) }
    ensures none { IfNone result (NoneIsAt at tokens.now) }
{
    for i in 0..tokens.len() {
        let token = tokens[i];
        if token.line == at.line && token.column == at.column {
            return Some((i, token));
        }
    }
    None
}

/// The character at a place.
pub(crate) fn character_at(text: &str, at: Place) -> Option<&str>
    requires { length text.now ≤ MAX_BYTES }
    ensures found { IfSome result (λ c. IsCharacterAt text.now at c.now) }
    ensures none { IfNone result (NothingIsAt text.now at) }
{
    let bytes = text.as_bytes();
    let mut here = Place::START;
    for i in 0..bytes.len() {
        if here.line == at.line && here.column == at.column && text.is_char_boundary(i) {
            return Some(&text[i..text.ceil_char_boundary(i + 1)]);
        }
        here = next_place(here, bytes[i], &bytes[i + 1..]);
    }
    None
}

/// What a token by its index is written as; empty where there is none.
pub(crate) fn text_at<'t>(schema: &'t str, tokens: &[Token], index: usize) -> &'t str
    requires { All (IsToken schema.now) tokens.now }
    ensures { result.now ≡ text_at schema.now tokens.now index }
{
    match tokens.get(index) {
        Some(token) => token.text(schema),
        None => "",
    }
}

/// The name of the type with fields that is defined last in these tokens; empty where there is none.
pub(crate) fn last_defined<'t>(schema: &'t str, tokens: &[Token]) -> &'t str
    requires { All (IsToken schema.now) tokens.now }
    ensures { result.now ≡ last_defined schema.now tokens.now }
{
    let mut name = "";
    let mut is_name = false;
    for token in tokens {
        let text = token.text(schema);
        if is_name && token.kind == TokenKind::Name {
            name = text;
        }
        is_name = text == "type" || text == "interface";
    }
    name
}
