//! Variables with their values.

use gq_schema::Input;
use short_text::Text;

/// A variable that has a value.
#[derive(Debug)]
pub struct Variable {
    /// The name without the `$`.
    pub name: Text,
    pub value: Input,
}

impl Drop for Variable {
    fn drop(self) {
        let Variable {
            name: _name,
            value: _value,
        } = self;
    }
}
