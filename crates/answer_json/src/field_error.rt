//! Field errors, which answers begin with.

use gq_lexer::Place;

/// A field that couldn't be completed (section 7.1.2 of the GraphQL specification).
#[derive(Debug)]
pub struct FieldError {
    pub message: String,
    /// The place of the first field of its group in the document.
    pub place: Place,
    /// The response keys and the places in lists from `data` down to the field.
    pub path: Vec<PathSegment>,
}

impl Drop for FieldError {
    fn drop(self) {
        let FieldError {
            message: _message,
            place: _,
            path: _path,
        } = self;
    }
}

/// One step of a path.
#[derive(Debug, Drop)]
pub enum PathSegment {
    /// A response key.
    Key(String),
    /// A place in a list, from 0.
    Item(usize),
}
