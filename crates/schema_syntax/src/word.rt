//! The names that mean something where the grammar has them as words.

ghost use Rattle.std.specs.Prelude.{◌≡◌, MatchBool, MatchResult};
ghost use Rattle.gq_parser.specs.Keywords.{keyword_of, IsEnumName};
ghost use Rattle.schema_syntax.specs.Parsing.{IsNameValue};
ghost use Rattle.schema_syntax.specs.Word.{word_of, IsServedName};
ghost use Rattle.schema_syntax.specs.declared.word.SchemaWord.TheVariants as words;

use crate::fault::TokenFault;
use gq_parser::{Keyword, Value, keyword_of};
use short_text::Text;
use std::alloc::Global;

/// Word that a name is where one is wanted. Elsewhere each of them is a plain name.
#[derive(Clone, Copy, Debug, PartialEq, Eq)]
pub(crate) enum SchemaWord {
    Schema,
    Object,
    Interface,
    Union,
    Enum,
    Implements,
    Deprecated,
    Reason,
    /// A word that begins a definition which is not served: `scalar`, `input`, `directive` or `extend`.
    Unserved,
    /// The type name that is not served, `Float`.
    Float,
    /// Any other name.
    Other,
}

/// Returns what a name is where a word is wanted.
pub(crate) fn word_of(name: &str) -> SchemaWord
    ensures { result ≡ word_of name.now }
{
    match name {
        "schema" => SchemaWord::Schema,
        "type" => SchemaWord::Object,
        "interface" => SchemaWord::Interface,
        "union" => SchemaWord::Union,
        "enum" => SchemaWord::Enum,
        "implements" => SchemaWord::Implements,
        "deprecated" => SchemaWord::Deprecated,
        "reason" => SchemaWord::Reason,
        "scalar" => SchemaWord::Unserved,
        "input" => SchemaWord::Unserved,
        "directive" => SchemaWord::Unserved,
        "extend" => SchemaWord::Unserved,
        "Float" => SchemaWord::Float,
        _ => SchemaWord::Other,
    }
}

/// Tells whether a type may have this name.
pub(crate) fn is_served_name(name: &str) -> bool
    ensures { MatchBool result (IsServedName name.now)
        (word_of name.now ≡ words.Float) }
{
    word_of(name) != SchemaWord::Float
}

/// Tells whether an enum's value may have this name.
pub(crate) fn is_enum_name(name: &str) -> bool
    ensures { MatchBool result (IsEnumName (keyword_of name.now))
        (IsEnumName (keyword_of name.now) → ⊥) }
{
    !matches!(
        keyword_of(name),
        Keyword::True | Keyword::False | Keyword::Null
    )
}

/// The value that a name is.
pub(crate) fn name_value(alloc: Global, name: &str) -> Result<Value, TokenFault>
    ensures { MatchResult result (IsNameValue name.now)
        (λ e. e ≡ TokenFault.NoMemory) }
{
    match keyword_of(name) {
        Keyword::True => Ok(Value::Boolean(true)),
        Keyword::False => Ok(Value::Boolean(false)),
        Keyword::Null => Ok(Value::Null),
        _ => Ok(Value::Enum(Text::from_str(alloc, name)?)),
    }
}
