//! The text of an answer, as it is written within a limit.
//!
//! An answer without errors is written straight from the rows, with no response and no string for a cell. An error can make null what
//! was written around it, and its path has keys, which a plain text needn't keep. So where the first error is met, what is written is read
//! back, and goes on as a text that may have errors (`CompletedText`).

ghost use Rattle.std.specs.Prelude.{◌≡◌, ◌≤◌, ◌∷◌, [], ℕ, suc, length, IfOk, OnOk, true, false, string_bytes};
ghost use Rattle.std.specs.Fmt.{signed_decimal};
ghost use Rattle.execution.specs.Loads.{Reader};
ghost use Rattle.execution.specs.Program.{ListOf, ObjectOf, Program};
ghost use Rattle.json.specs.Lex.{tokens};
ghost use Rattle.json.specs.Print.{IsPrintable, print, token_text};
ghost use Rattle.json.specs.Reads.{token_of};
ghost use Rattle.json.specs.Token.{number};
ghost use Rattle.json.specs.Tree.{json_tokens};
ghost use Rattle.plan_program.specs.Prepared.{leaf_value_seen};
ghost use Rattle.plan_walk.specs.Cells.{leaf_seen, value_seen};
ghost use Rattle.plan_walk.specs.Positions.{is_non_null, item_position, kind_of, member_position};
ghost use Rattle.plan_walk.specs.Puts.{Begins, Ends, Enters, Has, puts};

use crate::bounded::FIRST_ROOM;
use crate::completed_text::CompletedText;
use answer_json::writer_text;
use gq_lexer::Place;
use json::{Token, Writer};
use load_memory::Cell;
use plan_program::LeafValue;
use plan_walk::cells::{CellValue, cell_value, leaf_of};
use plan_walk::positions::{Items, Leaf, MemberPosition, Nullability, PositionKind};
use std::alloc::{AllocError, Global};
use std::mem;

/// Holds the text of an answer, from its start on.
#[derive(Drop)]
pub struct AnswerText {
    alloc: Global,
    /// Writes the text while it is plain: no error was met, and the limit wasn't passed.
    writer: Writer,
    is_plain: bool,
    /// The text from then on. Nothing is written where there is none.
    completed: Option<Box<CompletedText>>,
    /// The place of the errors of what is put next.
    place: Place,
    /// Says how many bytes the text may have.
    most: usize,
    /// Says how many bytes the plain text may grow. An escape in it counts as the character that it stands for.
    left: usize,
    pub ghost begins: { writer.before ≡ [] },
}

// Returns how many bytes a text in quotes takes at least.
fn text_bytes(text: &str) -> usize
    ensures { result ≤ suc (length text.now) }
{
    text.len().saturating_add(1)
}

/// Returns how many bytes a token takes at least.
#[inline]
pub fn least_bytes(token: Token<'_>) -> usize
    requires { IsPrintable (token_of token) }
    ensures { result ≤ length
        (token_text (token_of token.entry)) }
{
    match token {
        Token::Key(text) => text_bytes(text),
        Token::String(text) => text_bytes(text),
        _ => 1,
    }
}

impl AnswerText {
    ghost use Rattle.gq_resolve.specs.Answered.{leaf_json};
    ghost use Rattle.gq_resolve.specs.AnswerTexts.{IsTextOf, Takes, HasWritten, IsReadBackOf, IsCompletedAs, IsCompleted};
    ghost use Rattle.gq_resolve.specs.Limited.{AnswersWithin};
    ghost use Rattle.gq_resolve.specs.Texted.{written_of};

    /// The start of an answer that may have `most` bytes, up to its data. Of a plain text up to so many bytes are written, and one token more.
    pub fn new(alloc: Global, most: usize) -> Result<AnswerText, AllocError>
        ensures { IfOk result (IsTextOf most []) }
    {
        let mut writer = Writer::new(Vec::with_capacity(alloc, FIRST_ROOM)?);
        writer.token(Token::BeginObject)?;
        writer.token(Token::Key("data"))?;
        Ok(AnswerText {
            alloc,
            writer,
            is_plain: true,
            completed: None,
            place: Place { line: 1, column: 1 },
            most,
            left: most,
        })
    }

    /// No text. Nothing is written.
    pub fn nothing(alloc: Global) -> AnswerText {
        AnswerText {
            alloc,
            writer: Writer::new(Vec::new(alloc)),
            is_plain: false,
            completed: None,
            place: Place { line: 1, column: 1 },
            most: 0,
            left: 0,
        }
    }

    /// Writes no more, and lets go what it wrote since the first error.
    pub fn give_up(&mut self) {
        self.is_plain = false;
        self.completed = None;
    }

    // Takes out what was written as a plain text.
    fn take_plain(&mut self) -> String
        ensures text { string_bytes result ≡ print self.old.writer.tokens }
        ensures tokens { tokens (string_bytes result) ≡ self.old.writer.tokens }
        ensures most { self.new.most ≡ self.old.most }
        ensures place { self.new.place ≡ self.old.place }
    {
        let writer = mem::replace(&mut self.writer, Writer::new(Vec::new(self.alloc)));
        writer_text(writer)
    }

    /// Takes out the text of the answer. None where it is certain that it has too many bytes.
    pub fn finish(&mut self) -> Result<Option<String>, AllocError>
        ensures { IfOk result (λ text. (most : ℕ) (p : Program) (R : Reader)
            → IsTextOf most (puts false p R) self.old → AnswersWithin most p R text) }
    {
        if self.is_plain {
            self.writer.token(Token::EndObject)?;
            return Ok(Some(self.take_plain()));
        }
        match &self.completed {
            Some(text) => text.finish(),
            None => Ok(None),
        }
    }

    // Reads back what was written.
    fn read_back(&mut self) -> Result<CompletedText, AllocError>
        ensures most { self.new.most ≡ self.old.most }
        ensures text { IfOk result
            (IsReadBackOf self.old.writer.tokens self.old.most self.old.place) }
    {
        let text = self.take_plain();
        CompletedText::read_back(self.alloc, self.most, self.place, text.as_str())
    }

    // Goes on as a text that may have errors.
    fn go_on_as(&mut self, text: CompletedText) -> Result<(), AllocError>
        ensures { OnOk result (IsCompletedAs self.new (written_of text) self.old.most) }
    {
        self.completed = Some(Box::new(self.alloc, text)?);
        self.is_plain = false;
        Ok(())
    }

    // Reads back what was written, and goes on as a text that may have errors.
    #[cold]
    #[inline(never)]
    fn complete(&mut self) -> Result<(), AllocError>
        ensures { OnOk result (IsCompleted self.old.writer.tokens self.old self.new) }
    {
        let text = self.read_back()?;
        self.go_on_as(text)
    }

    // Does so at a position whose value is an error.
    #[cold]
    #[inline(never)]
    fn first_error(
        &mut self,
        leaf_value: &LeafValue,
        nullability: Nullability,
    ) -> Result<(), AllocError>
        requires { self.old.is_plain ≡ true }
        ensures { OnOk result (Takes (Has (is_non_null nullability)
            (leaf_value_seen leaf_value.now)) self.old self.new) }
    {
        let mut text = self.read_back()?;
        text.enter_item()?;
        text.leaf_value(leaf_value, nullability)?;
        self.go_on_as(text)
    }

    // Counts bytes that were written. Tells whether the text may go on as it is.
    fn is_within(&mut self, bytes: usize) -> bool
        ensures { self.new ≡ record self.old { left = self.new.left } }
    {
        match self.left.checked_sub(bytes) {
            Some(left) => {
                self.left = left;
                true
            }
            None => false,
        }
    }

    // Writes a token of a plain text. Past the limit an error may still let go what was written.
    #[inline]
    fn put(&mut self, token: Token<'_>) -> Result<(), AllocError>
        requires { (self.old.is_plain ≡ true) × IsPrintable (token_of token) }
        ensures { OnOk result (HasWritten (token_of token.entry ∷ []) self.old self.new) }
    {
        self.writer.token(token)?;
        if self.is_within(least_bytes(token)) {
            return Ok(());
        }
        self.complete()
    }

    // Writes a number of a plain text.
    fn put_number(&mut self, value: i32) -> Result<(), AllocError>
        requires { self.old.is_plain ≡ true }
        ensures { OnOk result (HasWritten (number (signed_decimal value) ∷ []) self.old self.new) }
    {
        self.writer.i64(i64::from(value))?;
        if self.is_within(1) {
            return Ok(());
        }
        self.complete()
    }

    /// An object or a list begins.
    pub fn begin(&mut self, kind: PositionKind) -> Result<(), AllocError>
        ensures { OnOk result (Takes (Begins (kind_of kind)) self.old self.new) }
    {
        if self.is_plain {
            return match kind {
                PositionKind::List => self.put(Token::BeginArray),
                PositionKind::Object => self.put(Token::BeginObject),
            };
        }
        match &mut self.completed {
            Some(text) => text.begin(kind),
            None => Ok(()),
        }
    }

    /// It ends. Its position may be null or not.
    pub fn end(&mut self, kind: PositionKind, nullability: Nullability) -> Result<(), AllocError>
        ensures { OnOk result
            (Takes (Ends (kind_of kind) (is_non_null nullability)) self.old self.new) }
    {
        if self.is_plain {
            return match kind {
                PositionKind::List => self.put(Token::EndArray),
                PositionKind::Object => self.put(Token::EndObject),
            };
        }
        match &mut self.completed {
            Some(text) => text.end(kind, nullability),
            None => Ok(()),
        }
    }

    /// A field of the object follows.
    pub fn field(&mut self, position: &MemberPosition) -> Result<(), AllocError>
        ensures { OnOk result
            (Takes (Enters ObjectOf (member_position position.now)) self.old self.new) }
    {
        if self.is_plain {
            self.place = position.place;
            return self.put(Token::Key(position.key.as_str()));
        }
        match &mut self.completed {
            Some(text) => text.field(position),
            None => Ok(()),
        }
    }

    /// The item of a number follows, from 0.
    pub fn item(&mut self, items: Items, number: usize) -> Result<(), AllocError>
        ensures { OnOk result
            (Takes (Enters ListOf (item_position items number)) self.old self.new) }
    {
        if self.is_plain {
            self.place = items.place;
            return Ok(());
        }
        match &mut self.completed {
            Some(text) => text.item(items, number),
            None => Ok(()),
        }
    }

    /// A position with nothing below it, which may be null or not.
    pub fn leaf_value(
        &mut self,
        leaf_value: &LeafValue,
        nullability: Nullability,
    ) -> Result<(), AllocError>
        ensures { OnOk result (Takes (Has (is_non_null nullability)
            (leaf_value_seen leaf_value.now)) self.old self.new) }
    {
        if self.is_plain {
            return match (leaf_value, nullability) {
                (LeafValue::Text(text), _) => self.put(Token::String(text.as_str())),
                (LeafValue::Int(number), _) => self.put_number(*number),
                (LeafValue::Bool(value), _) => self.put(Token::Bool(*value)),
                (LeafValue::Null, Nullability::Nullable) => self.put(Token::Null),
                _ => self.first_error(leaf_value, nullability),
            };
        }
        match &mut self.completed {
            Some(text) => text.leaf_value(leaf_value, nullability),
            None => Ok(()),
        }
    }

    // Puts the value of a cell, of which it is known what it is at its type.
    fn put_cell(&mut self, value: CellValue<'_>) -> Result<(), AllocError>
        requires { self.old.is_plain ≡ true }
        ensures { OnOk result (HasWritten (json_tokens
            (leaf_json (value_seen value.entry))) self.old self.new) }
    {
        match value {
            CellValue::Text(text) => self.put(Token::String(text)),
            CellValue::Int(number) => self.put_number(number),
            CellValue::Bool(value) => self.put(Token::Bool(value)),
        }
    }

    /// A position that is bound to a column, which may be null or not. It is written straight from its row.
    pub fn cell(&mut self, leaf: Leaf<'_>, nullability: Nullability) -> Result<(), AllocError>
        ensures { OnOk result (Takes
            (Has (is_non_null nullability) (leaf_seen leaf.entry)) self.old self.new) }
    {
        if !self.is_plain {
            return match &mut self.completed {
                Some(text) => text.cell(leaf, nullability),
                None => Ok(()),
            };
        }
        match (leaf.row.get(leaf.column), nullability) {
            (Cell::Null, Nullability::Nullable) => return self.put(Token::Null),
            (Cell::Text(text), _) => {
                if let Some(value) = leaf_of(leaf.schema, leaf.ty, text) {
                    return self.put_cell(value);
                }
            }
            _ => {}
        }
        let error = cell_value(self.alloc, leaf.schema, leaf.column, leaf.ty, leaf.row)?;
        self.first_error(&error, nullability)
    }
}
