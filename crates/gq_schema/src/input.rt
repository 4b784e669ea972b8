//! Coerced values.

use short_text::Text;

/// A coerced value (section 3). An ID and an enum's value are a `Text`.
#[derive(Debug, Drop, PartialEq)]
pub enum Input {
    Null,
    Int(i32),
    Text(Text),
    Bool(bool),
    List(Vec<Input>),
}
