//! A line and a column.
ghost use Rattle.std.specs.Prelude.{◌≡◌};
ghost use Rattle.text_place.specs.Order.{is_before};

/// A line and a column, both from 1. Columns count characters.
///
/// A line ends after a line feed, and after a carriage return that no line feed follows.
///
/// A character is a Unicode scalar value.
#[derive(Clone, Copy, Debug, PartialEq, Eq)]
pub struct Place {
    /// The line, from 1.
    pub line: u32,
    /// The column in the line, from 1, in characters.
    pub column: u32,
}

impl Place {
    /// The place of a text's first character.
    pub const START: Place = Place { line: 1, column: 1 };

    /// Tells whether this place stands before another in a text.
    pub fn is_before(self, other: Place) -> bool
        ensures { result ≡ is_before self other }
    {
        self.line < other.line || (self.line == other.line && self.column < other.column)
    }
}
