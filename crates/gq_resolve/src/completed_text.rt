//! The text of an answer with its errors, as it is completed (sections 6.4.3 and 6.4.4).

ghost use Rattle.std.specs.Prelude.{◌≡◌, ◌≢◌, ◌∷◌, [], ℕ, false, drop, map, IfOk, OnOk};
ghost use Rattle.std.specs.Fmt.{signed_decimal};
ghost use Rattle.execution.specs.Loads.{Reader as LoadReader};
ghost use Rattle.execution.specs.Program.{ListOf, ObjectOf, Key, Program};
ghost use Rattle.json.specs.Lex.{tokens};
ghost use Rattle.json.specs.Print.{IsPrintable, begins, ends, print};
ghost use Rattle.json.specs.Reads.{token_of};
ghost use Rattle.json.specs.Token.{Token as JsonToken, key, number};
ghost use Rattle.json.specs.declared.token.Token as declared;
ghost use Rattle.plan_program.specs.Prepared.{leaf_value_seen};
ghost use Rattle.plan_walk.specs.Cells.{leaf_seen};
ghost use Rattle.plan_walk.specs.Positions.{is_non_null, item_position, kind_of, member_position};
ghost use Rattle.plan_walk.specs.Puts.{Begins, Ends, Enters, Has, puts};
ghost use Rattle.answer_json.specs.Answer.{part_of};
ghost use Rattle.gq_resolve.specs.AnswerTexts.{IsReadBackOf, after_puts};
ghost use Rattle.gq_resolve.specs.Limited.{AnswersWithin};
ghost use Rattle.gq_resolve.specs.ReadBack.{item_entered, next_item, taken};
ghost use Rattle.gq_resolve.specs.Texted.{IsTokenText, text_of, written, begun, nulled, closed, ended_in, entered_at, depth_in, faulted, nothing_written, put_one, written_of};

use crate::bounded::{BoundedErrors, BoundedText, FIRST_ROOM};
use answer_json::{PathSegment, begin_answer, writer_text};
use gq_lexer::Place;
use json::{Reader, Scratch, Token, Writer};
use load_memory::Cell;
use plan_program::LeafValue;
use plan_walk::cells::{CellValue, cell_value, leaf_of};
use plan_walk::positions::{Items, Leaf, MemberPosition, Nullability, PositionKind};
use std::alloc::{AllocError, Global};
use std::mem;

/// An object or a list that has begun.
#[derive(Drop)]
pub struct OpenLevel {
    kind: PositionKind,
    /// Says how many steps lead to it.
    depth: usize,
    /// Tells whether what is around it becomes null.
    muted: bool,
    /// The text before it.
    before: BoundedText,
}

/// Holds what is written of an answer, up to a limit, and the errors that it met.
///
/// Each object and each list has a text of its own until it ends. Where an error makes it null, that text is let go, and
/// nothing more of it is written.
#[derive(Drop)]
pub struct CompletedText {
    alloc: Global,
    /// Holds what has begun and not ended, outermost first.
    levels: Vec<OpenLevel>,
    /// The steps to the position of what is put next.
    path: Vec<PathSegment>,
    /// The place of the errors of that position.
    place: Place,
    /// Tells whether what was begun last becomes null.
    muted: bool,
    /// The text of what was begun last.
    text: BoundedText,
    errors: BoundedErrors,
    /// Memory for the texts of tokens.
    room: Vec<u8>,
}

// Tells whether a token begins a value or a member.
fn begins(token: Token<'_>) -> bool
    ensures { result ≡ begins (token_of token.entry) }
{
    !matches!(token, Token::EndObject | Token::EndArray)
}

// Tells whether a token is the last of a value.
fn ends(token: Token<'_>) -> bool
    ensures { result ≡ ends (token_of token.entry) }
{
    !matches!(
        token,
        Token::BeginObject | Token::BeginArray | Token::Key(_)
    )
}

// Returns the number of the item that follows a step into a list.
fn item_after(step: &PathSegment) -> Result<usize, AllocError>
    ensures { IfOk result
        (λ number. number ≡ next_item (part_of step.now ∷ [])) }
{
    match step {
        PathSegment::Item(number) => Ok(number.checked_add(1).ok_or(AllocError)?),
        PathSegment::Key(_) => Ok(0),
    }
}

impl CompletedText {
    /// Nothing yet, at the root of an answer that may have `most` bytes.
    pub fn new(alloc: Global, most: usize) -> CompletedText
        ensures { written_of result ≡ nothing_written most }
    {
        CompletedText {
            alloc,
            levels: Vec::new(alloc),
            path: Vec::new(alloc),
            place: Place { line: 1, column: 1 },
            muted: false,
            text: BoundedText::new(alloc, most),
            errors: BoundedErrors::new(alloc, most),
            room: Vec::new(alloc),
        }
    }

    /// Reads the text of an answer back that was written so far without an error, up to a limit: what has begun and not ended, and the
    /// steps to what is put next, whose errors have this place. Keys stand in the text, and items are counted.
    #[cold]
    #[inline(never)]
    pub fn read_back(
        alloc: Global,
        most: usize,
        place: Place,
        text: &str,
    ) -> Result<CompletedText, AllocError>
        ensures { IfOk result (IsReadBackOf (tokens text.now) most place) }
    {
        let mut scratch = Scratch::new(alloc);
        let mut reader = Reader::new(text, &mut scratch)?;
        // The object that the data stands in.
        reader.next();
        reader.next();
        let mut back = CompletedText::new(alloc, most);
        while let Some(token) = reader.next() {
            back.take(token)?;
        }
        back.place = place;
        Ok(back)
    }

    /// The text of the answer, with its errors before its data. None where it is certain that it has too many bytes.
    #[cold]
    #[inline(never)]
    pub fn finish(&self) -> Result<Option<String>, AllocError>
        ensures { IfOk result (λ t. (most : ℕ) (p : Program) (R : LoadReader)
            → written_of self.now ≡ after_puts most (puts false p R) → AnswersWithin most p R t) }
    {
        let Some(errors) = self.errors.whole() else {
            return Ok(None);
        };
        let Some(data) = self.text.whole() else {
            return Ok(None);
        };
        let mut writer = Writer::new(Vec::with_capacity(self.alloc, FIRST_ROOM)?);
        begin_answer(&mut writer, errors)?;
        let mut text = writer_text(writer);
        text.push_str(data)?;
        text.push_str("}")?;
        Ok(Some(text))
    }

    // Returns what a token is written with.
    fn token_writer(&mut self) -> Writer
        ensures before { result.before ≡ [] }
        ensures tokens { result.tokens ≡ [] }
        ensures same { written_of self.new ≡ written_of self.old }
    {
        let mut room = mem::replace(&mut self.room, Vec::new(self.alloc));
        room.clear();
        Writer::new(room)
    }

    // Appends what a token was written with, unless it stands in what becomes null.
    fn append(&mut self, writer: Writer, begins: bool, ends: bool) -> Result<(), AllocError>
        requires { writer.before ≡ [] }
        ensures { OnOk result ((t : JsonToken) → IsTokenText t (print writer.tokens) begins ends
            → written_of self.new ≡ written (t ∷ []) (written_of self.old)) }
    {
        let text = writer_text(writer);
        if self.muted {
            return Ok(());
        }
        self.text.append(text.as_str(), begins, ends)?;
        self.room = text.into_bytes();
        Ok(())
    }

    // Puts a token.
    fn put(&mut self, token: Token<'_>) -> Result<(), AllocError>
        requires { IsPrintable (token_of token) }
        ensures { OnOk result (written_of self.new
            ≡ written (token_of token.entry ∷ []) (written_of self.old)) }
    {
        let mut writer = self.token_writer();
        writer.token(token)?;
        self.append(writer, begins(token), ends(token))
    }

    // Puts a number.
    fn put_number(&mut self, value: i32) -> Result<(), AllocError>
        ensures { OnOk result (written_of self.new
            ≡ written (number (signed_decimal value) ∷ []) (written_of self.old)) }
    {
        let mut writer = self.token_writer();
        writer.i64(i64::from(value))?;
        self.append(writer, true, true)
    }

    // Puts an error, and a null in its place.
    fn put_error(&mut self, message: &str, nullability: Nullability) -> Result<(), AllocError>
        ensures { OnOk result (written_of self.new
            ≡ faulted message.now (is_non_null nullability) (written_of self.old)) }
    {
        self.errors
            .put(self.alloc, message, self.place, &self.path)?;
        self.muted = self.muted || nullability.is_non_null();
        self.put(Token::Null)
    }

    /// A position with nothing below it: its own value, and its error.
    pub fn leaf_value(
        &mut self,
        leaf_value: &LeafValue,
        nullability: Nullability,
    ) -> Result<(), AllocError>
        ensures { OnOk result (written_of self.new ≡ put_one (Has (is_non_null nullability)
            (leaf_value_seen leaf_value.now)) (written_of self.old)) }
    {
        match (leaf_value, nullability) {
            (LeafValue::Text(text), _) => self.put(Token::String(text.as_str())),
            (LeafValue::Int(number), _) => self.put_number(*number),
            (LeafValue::Bool(value), _) => self.put(Token::Bool(*value)),
            (LeafValue::Null, Nullability::Nullable) => self.put(Token::Null),
            (LeafValue::Null, Nullability::NonNull) => {
                self.put_error("null where the type is non-null", nullability)
            }
            (LeafValue::Fault(message), _) => self.put_error(message.as_str(), nullability),
        }
    }

    // Returns how many steps lead to what was begun last.
    fn depth(&self) -> usize
        ensures { result ≡ depth_in
            (written_of self.now).levels }
    {
        match self.levels.last() {
            Some(level) => level.depth,
            None => 0,
        }
    }

    // Enters a position of what was begun last.
    fn enter(&mut self, step: PathSegment, place: Place) -> Result<(), AllocError>
        ensures { OnOk result (written_of self.new
            ≡ entered_at (part_of step) place (written_of self.old)) }
    {
        let depth = self.depth();
        self.path.truncate(depth);
        self.path.push(step)?;
        self.place = place;
        Ok(())
    }

    // Enters the field of a key.
    fn enter_field(&mut self, name: &str, place: Place) -> Result<(), AllocError>
        ensures { OnOk result (written_of self.new
            ≡ written (key name.now ∷ []) (entered_at (Key name.now) place (written_of self.old))) }
    {
        let step = String::from_str(self.alloc, name)?;
        self.enter(PathSegment::Key(step), place)?;
        self.put(Token::Key(name))
    }

    // Returns the number of the next item of a list, which so many steps lead to.
    fn next_item(&self, depth: usize) -> Result<usize, AllocError>
        ensures { IfOk result (λ number. number
            ≡ next_item (drop depth (map part_of self.now.path.items))) }
    {
        match self.path.get(depth) {
            Some(step) => item_after(step),
            None => Ok(0),
        }
    }

    /// Enters the next item, where what was begun last is a list.
    pub fn enter_item(&mut self) -> Result<(), AllocError>
        ensures { OnOk result (written_of self.new
            ≡ item_entered (written_of self.old).levels (written_of self.old)) }
    {
        let (kind, depth) = match self.levels.last() {
            Some(level) => (level.kind, level.depth),
            None => return Ok(()),
        };
        match kind {
            PositionKind::Object => Ok(()),
            PositionKind::List => {
                let number = self.next_item(depth)?;
                self.enter(PathSegment::Item(number), self.place)
            }
        }
    }

    // Takes a token of a text without errors.
    fn take(&mut self, token: Token<'_>) -> Result<(), AllocError>
        requires { token ≢ declared.Token.Bad → IsPrintable (token_of token) }
        ensures { OnOk result
            (written_of self.new ≡ taken (token_of token.entry) (written_of self.old)) }
    {
        match token {
            Token::BeginObject => {
                self.enter_item()?;
                self.begin(PositionKind::Object)
            }
            Token::BeginArray => {
                self.enter_item()?;
                self.begin(PositionKind::List)
            }
            Token::EndObject => self.end(PositionKind::Object, Nullability::Nullable),
            Token::EndArray => self.end(PositionKind::List, Nullability::Nullable),
            Token::Key(name) => self.enter_field(name, self.place),
            Token::Bad => Ok(()),
            _ => {
                self.enter_item()?;
                self.put(token)
            }
        }
    }

    // Ends what is null, so that what stood before it is followed by a null.
    fn end_null(
        &mut self,
        nullability: Nullability,
        muted: bool,
        before: BoundedText,
    ) -> Result<(), AllocError>
        ensures { OnOk result (written_of self.new
            ≡ nulled (is_non_null nullability) muted (text_of before) (written_of self.old)) }
    {
        self.muted = muted || nullability.is_non_null();
        self.text = before;
        self.put(Token::Null)
    }

    // Ends what isn't null.
    fn end_kept(&mut self, kind: PositionKind, before: BoundedText) -> Result<(), AllocError>
        requires { self.old.muted ≡ false }
        ensures { OnOk result (written_of self.new
            ≡ closed (kind_of kind) (text_of before) (written_of self.old)) }
    {
        match kind {
            PositionKind::List => self.put(Token::EndArray)?,
            PositionKind::Object => self.put(Token::EndObject)?,
        }
        self.text.end(before)
    }

    /// An object or a list begins.
    pub fn begin(&mut self, kind: PositionKind) -> Result<(), AllocError>
        ensures { OnOk result
            (written_of self.new ≡ put_one (Begins (kind_of kind)) (written_of self.old)) }
    {
        let before = self.text.begin(self.alloc)?;
        self.levels.push(OpenLevel {
            kind,
            depth: self.path.len(),
            muted: self.muted,
            before,
        })?;
        match kind {
            PositionKind::List => self.put(Token::BeginArray),
            PositionKind::Object => self.put(Token::BeginObject),
        }
    }

    /// It ends. Its position may be null or not.
    pub fn end(&mut self, kind: PositionKind, nullability: Nullability) -> Result<(), AllocError>
        ensures { OnOk result (written_of self.new ≡ put_one
            (Ends (kind_of kind) (is_non_null nullability)) (written_of self.old)) }
    {
        let Some(level) = self.levels.pop() else {
            return Ok(());
        };
        self.path.truncate(level.depth);
        if !self.muted {
            return self.end_kept(kind, level.before);
        }
        self.end_null(nullability, level.muted, level.before)
    }

    /// A field of the object follows.
    pub fn field(&mut self, position: &MemberPosition) -> Result<(), AllocError>
        ensures { OnOk result (written_of self.new ≡ put_one
            (Enters ObjectOf (member_position position.now)) (written_of self.old)) }
    {
        self.enter_field(position.key.as_str(), position.place)
    }

    /// The item of a number follows, from 0.
    pub fn item(&mut self, items: Items, number: usize) -> Result<(), AllocError>
        ensures { OnOk result (written_of self.new ≡ put_one
            (Enters ListOf (item_position items number)) (written_of self.old)) }
    {
        self.enter(PathSegment::Item(number), items.place)
    }

    /// A position that is bound to a column. A text is put without a copy.
    pub fn cell(&mut self, leaf: Leaf<'_>, nullability: Nullability) -> Result<(), AllocError>
        ensures { OnOk result (written_of self.new ≡ put_one
            (Has (is_non_null nullability) (leaf_seen leaf.entry)) (written_of self.old)) }
    {
        if let Cell::Text(text) = leaf.row.get(leaf.column) {
            if let Some(CellValue::Text(text)) = leaf_of(leaf.schema, leaf.ty, text) {
                return self.put(Token::String(text));
            }
        }
        let leaf_value = cell_value(self.alloc, leaf.schema, leaf.column, leaf.ty, leaf.row)?;
        self.leaf_value(&leaf_value, nullability)
    }
}
