//! The messages of field errors.

ghost use Rattle.std.specs.Prelude.{◌≡◌, ◌++◌, IfOk, string_bytes};
ghost use Rattle.plan_program.specs.Texts.{null_argument_message, bad_value_message, no_column_message, no_type_message, not_type_message};

use std::alloc::{AllocError, Global};

// A message that ends in a name.
fn text_about(alloc: Global, start: &str, name: &str) -> Result<String, AllocError>
    ensures { IfOk result (λ text.
        string_bytes text ≡ start.now ++ name.now) }
{
    let mut text = String::from_str(alloc, start)?;
    text.push_str(name)?;
    Ok(text)
}

/// An argument of non-null type has no value, or null.
pub fn null_argument_message(alloc: Global, name: &str) -> Result<String, AllocError>
    ensures { IfOk result (λ text. string_bytes text
        ≡ null_argument_message name.now) }
{
    text_about(alloc, "null for the non-null argument ", name)
}

/// A cell's text is none of its field's type.
pub fn bad_value_message(alloc: Global, column: &str) -> Result<String, AllocError>
    ensures { IfOk result (λ text.
        string_bytes text ≡ bad_value_message column.now) }
{
    text_about(alloc, "bad value in column ", column)
}

/// The row has no such column.
pub fn no_column_message(alloc: Global, column: &str) -> Result<String, AllocError>
    ensures { IfOk result (λ text.
        string_bytes text ≡ no_column_message column.now) }
{
    text_about(alloc, "no column ", column)
}

/// The row tells no object type.
pub fn no_type_message(alloc: Global) -> Result<String, AllocError>
    ensures { IfOk result
        (λ text. string_bytes text ≡ no_type_message) }
{
    String::from_str(alloc, "no object type")
}

/// The row tells no object type of the field's type.
pub fn not_type_message(alloc: Global, name: &str) -> Result<String, AllocError>
    ensures { IfOk result (λ text.
        string_bytes text ≡ not_type_message name.now) }
{
    text_about(alloc, "no object type ", name)
}
