//! Texts and errors, of which no more is kept than an answer of a limit has room for.

ghost use Rattle.std.specs.Prelude.{◌≡◌, ℕ, [], IfOk, OnOk, IfSome, IfNone, Some, None, false, map};
ghost use Rattle.json.specs.Token.{Token};
ghost use Rattle.answer_json.specs.Answer.{part_of, errors_of};
ghost use Rattle.gq_resolve.specs.Texted.{room_after, text_after, text_of, IsTokenText, with_token, error_at, with_error, errors_kept};

use answer_json::{FieldError, PathSegment};
use gq_lexer::Place;
use std::alloc::{AllocError, Global};
use std::mem;

/// The room that a text has from the start.
pub const FIRST_ROOM: usize = 128;

/// A JSON text that is written token by token, up to a limit.
#[derive(Drop)]
pub struct BoundedText {
    text: String,
    /// Tells whether a value has just ended, so that a comma stands before what begins next.
    after_value: bool,
    /// Says how many bytes more it may have. None where it is too long: nothing more is written then.
    room: Option<usize>,
}

/// Errors that are met one after another, up to a limit.
#[derive(Drop)]
pub struct BoundedErrors {
    errors: Vec<FieldError>,
    /// Says how many bytes more their text may have. None where they are too many: no more are kept then.
    room: Option<usize>,
}

// Returns the room that is left after so many bytes.
fn room_after(room: Option<usize>, bytes: usize) -> Option<usize>
    ensures { result ≡ room_after room bytes }
{
    room?.checked_sub(bytes)
}

impl BoundedText {
    /// Nothing yet. It may have `most` bytes.
    pub fn new(alloc: Global, most: usize) -> BoundedText
        ensures { text_of result ≡ record { bytes = []; after_value = false; room = Some most } }
    {
        BoundedText {
            text: String::new(alloc),
            after_value: false,
            room: Some(most),
        }
    }

    /// Appends the text of a token, of which it is known whether it begins and whether it ends a value.
    pub fn append(
        &mut self,
        text: &str,
        begins_value: bool,
        ends_value: bool,
    ) -> Result<(), AllocError>
        ensures { OnOk result ((t : Token) → IsTokenText t text.now begins_value ends_value
            → text_of self.new ≡ with_token t (text_of self.old)) }
    {
        let comma = if self.after_value && begins_value {
            ","
        } else {
            ""
        };
        self.room = room_after(self.room, comma.len() + text.len());
        if self.room.is_none() {
            return Ok(());
        }
        self.text.push_str(comma)?;
        self.text.push_str(text)?;
        self.after_value = ends_value;
        Ok(())
    }

    /// Begins a text in this one, which goes on where this one is. Returns this one.
    pub fn begin(&mut self, alloc: Global) -> Result<BoundedText, AllocError>
        ensures before { IfOk result (λ before. text_of before ≡ text_of self.old) }
        ensures within { OnOk result (text_of self.new ≡ record (text_of self.old) { bytes = [] }) }
    {
        let within = BoundedText {
            text: String::with_capacity(alloc, FIRST_ROOM)?,
            after_value: self.after_value,
            room: self.room,
        };
        Ok(mem::replace(self, within))
    }

    /// Ends a text in another one, which goes on where this one is.
    pub fn end(&mut self, before: BoundedText) -> Result<(), AllocError>
        ensures { OnOk result
            (text_of self.new ≡ text_after (text_of before) (text_of self.old)) }
    {
        let within = mem::replace(&mut self.text, before.text);
        self.text.push_str(within.as_str())
    }

    /// Returns what was written, unless it is too long.
    pub fn whole(&self) -> Option<&str>
        ensures some { IfSome result (λ text. (left : ℕ) × ((text_of self.now).room ≡ Some left)
            × (text.now ≡ (text_of self.now).bytes)) }
        ensures none { IfNone result ((text_of self.now).room ≡ None) }
    {
        match self.room {
            Some(_) => Some(self.text.as_str()),
            None => None,
        }
    }
}

// A copy of a step of a path.
fn copy_step(alloc: Global, step: &PathSegment) -> Result<PathSegment, AllocError>
    ensures { IfOk result
        (λ copy. part_of copy ≡ part_of step.now) }
{
    match step {
        PathSegment::Key(key) => Ok(PathSegment::Key(String::from_str(alloc, key.as_str())?)),
        PathSegment::Item(number) => Ok(PathSegment::Item(*number)),
    }
}

// A copy of a path.
fn copy_path(alloc: Global, path: &[PathSegment]) -> Result<Vec<PathSegment>, AllocError>
    ensures { IfOk result (λ copy.
        map part_of copy.items ≡ map part_of path.now) }
{
    let mut copy = Vec::new(alloc);
    for step in path {
        copy.push(copy_step(alloc, step)?)?;
    }
    Ok(copy)
}

impl BoundedErrors {
    /// None yet. Their text may have `most` bytes.
    pub fn new(alloc: Global, most: usize) -> BoundedErrors
        ensures { errors_kept result ≡ record { errors = []; room = Some most } }
    {
        BoundedErrors {
            errors: Vec::new(alloc),
            room: Some(most),
        }
    }

    /// Puts an error.
    pub fn put(
        &mut self,
        alloc: Global,
        message: &str,
        place: Place,
        path: &[PathSegment],
    ) -> Result<(), AllocError>
        ensures { OnOk result (errors_kept self.new
            ≡ with_error (error_at message.now place path.now) (errors_kept self.old)) }
    {
        self.room = room_after(self.room, message.len() + path.len() + 1);
        if self.room.is_none() {
            return Ok(());
        }
        self.errors.push(FieldError {
            message: String::from_str(alloc, message)?,
            place,
            path: copy_path(alloc, path)?,
        })?;
        Ok(())
    }

    /// Returns all of them, unless they are too many.
    pub fn whole(&self) -> Option<&[FieldError]>
        ensures some { IfSome result (λ errors. (left : ℕ) × ((errors_kept self.now).room ≡ Some left)
            × (errors_of errors.now ≡ (errors_kept self.now).errors)) }
        ensures none { IfNone result ((errors_kept self.now).room ≡ None) }
    {
        match self.room {
            Some(_) => Some(self.errors.as_slice()),
            None => None,
        }
    }
}
