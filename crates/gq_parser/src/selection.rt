//! Selections and selection sets.

ghost use Rattle.std.specs.Prelude.{◌<◌, ◌≤◌, [], suc, length, OnOk};
ghost use Rattle.gq_parser.specs.declared.keyword.Keyword as keywords;
ghost use Rattle.gq_parser.specs.Tree.{selection_of, set_of, below_of};
ghost use Rattle.gq_parser.specs.Grammar.{IsSelection, IsOptionalSet, IsSelectionSet};
ghost use Rattle.gq_parser.specs.Machine.{AName, AfterName, AfterDots, a_field_then, an_inline_then, MaybeSet, ASet, FirstSelection, MoreSelections, one};
ghost use Rattle.gq_parser.specs.Parsing.{Reads, ReadsOne, IsName, AreNamesAfterFirst, IsFieldAfterName, IsSelectionAfterDots, IsInlineAfterCondition, IsSetAfterBrace};

use crate::cursor::Parser;
use crate::fault::Fault;
use crate::keyword::{Keyword, keyword_of};
use crate::tree::{Field, Inline, Selection, SelectionSet, Spread, TypeCondition};
use crate::value::Constness;
use gq_lexer::{LocatedText, Place, Punct};
use short_text::Text;
use std::sync::Arc;

/// Holds what a field is called.
#[derive(Drop)]
struct FieldName {
    alias: Option<Text>,
    name: Text,
}

impl Parser<'_> {
    /// Returns what a field is called, whose first name was read.
    fn field_name(&mut self, first: Text) -> Result<FieldName, Fault>
        ensures reads { (room : _) (place : _) (k : keywords.Keyword)
            → ReadsOne (AreNamesAfterFirst place k first) AfterName room self.old self.new result }
        ensures shrinks { OnOk result
            (length self.new ≤ length self.old) }
    {
        if !self.eat(Punct::Colon) {
            return Ok(FieldName {
                alias: None,
                name: first,
            });
        }
        let name = self.name()?.value;
        Ok(FieldName {
            alias: Some(first),
            name,
        })
    }

    #[cycle(selection)]
    fn selection(&mut self, room: u32) -> Result<Selection, Fault>
        ensures reads { Reads (λ s. IsSelection (selection_of s)) room
            (one FirstSelection) room (one MoreSelections) self.old self.new result }
        ensures shrinks { OnOk result
            (length self.new < length self.old) }
    {
        if let Some(LocatedText { place, value }) = self.take_name() {
            let first = Text::from_str(self.alloc, value)?;
            return Ok(Selection::Field(self.field(place, first, room)?));
        }
        let Some(place) = self.take(Punct::Spread) else {
            return Err(self.fault_here());
        };
        self.dots(place, room)
    }

    /// A field, whose first name was read.
    #[cycle(selection)]
    fn field(&mut self, place: Place, first: Text, room: u32) -> Result<Field, Fault>
        ensures reads { (k : keywords.Keyword) → Reads (IsFieldAfterName place k first)
            room a_field_then room [] self.old self.new result }
        ensures shrinks { OnOk result
            (length self.new ≤ length self.old) }
    {
        let FieldName { alias, name } = self.field_name(first)?;
        let arguments = self.arguments(Constness::NotConst, room)?;
        let directives = self.directives(Constness::NotConst, room)?;
        let selection_set = self.maybe_set(room)?;
        Ok(Field {
            place,
            alias,
            name,
            arguments,
            directives,
            selection_set,
        })
    }

    /// A spread or an inline fragment, whose dots were read.
    #[cycle(selection)]
    fn dots(&mut self, place: Place, room: u32) -> Result<Selection, Fault>
        ensures reads { ReadsOne (IsSelectionAfterDots place)
            AfterDots room self.old self.new result }
        ensures shrinks { OnOk result
            (length self.new ≤ length self.old) }
    {
        let Some(name) = self.take_name() else {
            return Ok(Selection::Inline(self.inline(place, None, room)?));
        };
        if keyword_of(name.value) == Keyword::On {
            let condition = self.condition()?;
            return Ok(Selection::Inline(self.inline(place, Some(condition), room)?));
        }
        let name = Text::from_str(self.alloc, name.value)?;
        let directives = self.directives(Constness::NotConst, room)?;
        Ok(Selection::Spread(Spread {
            place,
            name,
            directives,
        }))
    }

    /// The type that a fragment is for.
    pub(crate) fn condition(&mut self) -> Result<TypeCondition, Fault>
        ensures reads { (room : _) → ReadsOne (λ c.
            IsName c.place c.name) AName room self.old self.new result }
        ensures shrinks { OnOk result
            (length self.new < length self.old) }
    {
        let LocatedText { place, value: name } = self.name()?;
        Ok(TypeCondition { place, name })
    }

    /// An inline fragment, whose condition was read.
    #[cycle(selection)]
    fn inline(
        &mut self,
        place: Place,
        condition: Option<TypeCondition>,
        room: u32,
    ) -> Result<Inline, Fault>
        ensures reads { Reads (IsInlineAfterCondition place condition)
            room an_inline_then room [] self.old self.new result }
        ensures shrinks { OnOk result
            (length self.new ≤ length self.old) }
    {
        let directives = self.directives(Constness::NotConst, room)?;
        let selection_set = self.set(room)?;
        Ok(Inline {
            place,
            condition,
            directives,
            selection_set,
        })
    }

    /// A selection set, where a brace opens it.
    #[cycle(selection)]
    fn maybe_set(&mut self, room: u32) -> Result<Option<Arc<SelectionSet>>, Fault>
        ensures reads { ReadsOne (λ s. IsOptionalSet (below_of s))
            MaybeSet room self.old self.new result }
        ensures shrinks { OnOk result
            (length self.new ≤ length self.old) }
    {
        let Some(place) = self.take(Punct::BraceLeft) else {
            return Ok(None);
        };
        if room == 0 {
            return Err(Fault::TooDeep(place));
        }
        let set = self.selections(place, room - 1)?;
        Ok(Some(Arc::new(self.alloc, set)?))
    }

    /// A selection set.
    #[cycle(selection)]
    pub(crate) fn set(&mut self, room: u32) -> Result<SelectionSet, Fault>
        ensures reads { ReadsOne (λ s. IsSelectionSet (set_of s))
            ASet room self.old self.new result }
        ensures shrinks { OnOk result
            (length self.new < length self.old) }
    {
        let Some(place) = self.take(Punct::BraceLeft) else {
            return Err(self.fault_here());
        };
        if room == 0 {
            return Err(Fault::TooDeep(place));
        }
        self.selections(place, room - 1)
    }

    /// A selection set whose brace was read.
    #[cycle(selection)]
    pub(crate) fn selections(&mut self, place: Place, room: u32) -> Result<SelectionSet, Fault>
        ensures reads { Reads (IsSetAfterBrace place) room
            (one FirstSelection) (suc room) [] self.old self.new result }
        ensures shrinks { OnOk result
            (length self.new < length self.old) }
    {
        let mut selections = Vec::with_capacity(self.alloc, 1)?;
        selections.push(self.selection(room)?)?;
        while !self.eat(Punct::BraceRight) {
            selections.push(self.selection(room)?)?;
        }
        selections.shrink_to_fit();
        Ok(SelectionSet { place, selections })
    }
}
