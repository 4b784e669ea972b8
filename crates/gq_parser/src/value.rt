//! Values, types, arguments and directives.

ghost use Rattle.std.specs.Prelude.{◌≡◌, ◌<◌, ◌≤◌, ◌∷◌, [], suc, length, List, OnOk, IfOk, IfErr};
ghost use Rattle.gq_parser.specs.declared.keyword.Keyword as keywords;
ghost use Rattle.gq_parser.specs.Keywords.{keyword_of};
ghost use Rattle.gq_parser.specs.Tree.{literal_of, map_literals, map_members, argument_of, arguments_of, directives_of, type_of};
ghost use Rattle.gq_parser.specs.Grammar.{IsValue, AreValues, AreMembers, IsType, IsArgument, AreOptionalArguments, AreDirectives};
ghost use Rattle.gq_parser.specs.Machine.{AValue, MoreValues, MoreMembers, AType, ABracket, MaybeBang, an_argument, MaybeArguments, MaybeDirectives, one};
ghost use Rattle.gq_parser.specs.Parsing.{Reads, ReadsOne, IsNamedValue, IsTypeAfterName, IsTypeAfterBracket};

use crate::cursor::Parser;
use crate::fault::Fault;
use crate::keyword::{Keyword, keyword_of};
use crate::lexeme::Lexeme;
use crate::tree::{Argument, Directive, Literal, TypeRef, Value};
use gq_lexer::{LocatedText, Place, Punct};
use short_text::Text;
use std::alloc::Global;

/// Tells whether a value may have variables in it: where the grammar says `[Const]`, it has none (section
/// 2.9).
#[derive(Clone, Copy, Debug, PartialEq, Eq)]
pub enum Constness {
    Const,
    NotConst,
}

/// Returns what a name says where a value is wanted.
fn named_value(alloc: Global, place: Place, name: &str) -> Result<Literal, Fault>
    ensures value { IfOk result
        (IsNamedValue place name.now) }
    ensures fault { IfErr result (λ f. f ≡ Fault.NoMemory) }
{
    match keyword_of(name) {
        Keyword::True => Ok(Literal::new(place, Value::Boolean(true))),
        Keyword::False => Ok(Literal::new(place, Value::Boolean(false))),
        Keyword::Null => Ok(Literal::new(place, Value::Null)),
        _ => Ok(Literal::new(place, Value::Enum(Text::from_str(alloc, name)?))),
    }
}

impl Parser<'_> {
    #[cycle(value)]
    pub(crate) fn value(&mut self, constness: Constness, room: u32) -> Result<Literal, Fault>
        ensures reads { ReadsOne (λ v. IsValue constness (literal_of v))
            (AValue constness) room self.old self.new result }
        ensures shrinks { OnOk result
            (length self.new < length self.old) }
    {
        let LocatedText { place, value } = self.next()?;
        match value {
            Lexeme::Int(number) => {
                let text = Text::from_str(self.alloc, number)?;
                Ok(Literal::new(place, Value::Int(text)))
            }
            Lexeme::Float(number) => {
                let text = Text::from_str(self.alloc, number)?;
                Ok(Literal::new(place, Value::Float(text)))
            }
            Lexeme::Text(text) => Ok(Literal::new(place, Value::Text(Text::from(text)))),
            Lexeme::Name(name) => named_value(self.alloc, place, name),
            Lexeme::Punct(Punct::Dollar) => {
                if constness == Constness::Const {
                    return Err(Fault::Unexpected(Some(place)));
                }
                let name = self.name()?.value;
                Ok(Literal::new(place, Value::Variable(name)))
            }
            Lexeme::Punct(Punct::BracketLeft) => {
                if room == 0 {
                    return Err(Fault::TooDeep(place));
                }
                let items = self.values(constness, room - 1)?;
                Ok(Literal::new(place, Value::List(items)))
            }
            Lexeme::Punct(Punct::BraceLeft) => {
                if room == 0 {
                    return Err(Fault::TooDeep(place));
                }
                let members = self.members(constness, room - 1)?;
                Ok(Literal::new(place, Value::Object(members)))
            }
            _ => Err(Fault::Unexpected(Some(place))),
        }
    }

    /// The values up to the bracket that closes them.
    #[cycle(value)]
    fn values(&mut self, constness: Constness, room: u32) -> Result<Vec<Literal>, Fault>
        ensures reads { Reads (λ vs. AreValues constness (map_literals vs.items))
            room (one (MoreValues constness)) (suc room) [] self.old self.new result }
        ensures shrinks { OnOk result
            (length self.new < length self.old) }
    {
        let mut values = Vec::new(self.alloc);
        while !self.eat(Punct::BracketRight) {
            values.push(self.value(constness, room)?)?;
        }
        Ok(values)
    }

    /// The fields of an object up to the brace that closes them.
    #[cycle(value)]
    fn members(&mut self, constness: Constness, room: u32) -> Result<Vec<Argument>, Fault>
        ensures reads { Reads (λ ms. AreMembers constness (map_members ms.items)) room
            (one (MoreMembers constness)) (suc room) [] self.old self.new result }
        ensures shrinks { OnOk result
            (length self.new < length self.old) }
    {
        let mut members = Vec::new(self.alloc);
        while !self.eat(Punct::BraceRight) {
            members.push(self.argument(constness, room)?)?;
        }
        Ok(members)
    }

    /// A name and its value.
    #[cycle(value)]
    fn argument(&mut self, constness: Constness, room: u32) -> Result<Argument, Fault>
        ensures reads { Reads (λ a. IsArgument constness (argument_of a))
            room (an_argument constness) room [] self.old self.new result }
        ensures shrinks { OnOk result
            (length self.new < length self.old) }
    {
        let LocatedText { place, value: name } = self.name()?;
        self.colon()?;
        let value = self.value(constness, room)?;
        Ok(Argument { place, name, value })
    }

    /// The arguments, where a parenthesis opens them.
    pub(crate) fn arguments(
        &mut self,
        constness: Constness,
        room: u32,
    ) -> Result<Vec<Argument>, Fault>
        ensures reads { ReadsOne (λ args. AreOptionalArguments constness (arguments_of args.items))
            (MaybeArguments constness) room self.old self.new result }
        ensures shrinks { OnOk result
            (length self.new ≤ length self.old) }
    {
        let mut arguments = Vec::new(self.alloc);
        let Some(place) = self.take(Punct::ParenLeft) else {
            return Ok(arguments);
        };
        if room == 0 {
            return Err(Fault::TooDeep(place));
        }
        arguments.push(self.argument(constness, room - 1)?)?;
        while !self.eat(Punct::ParenRight) {
            arguments.push(self.argument(constness, room - 1)?)?;
        }
        arguments.shrink_to_fit();
        Ok(arguments)
    }

    /// The directives, as many as come.
    pub(crate) fn directives(
        &mut self,
        constness: Constness,
        room: u32,
    ) -> Result<Vec<Directive>, Fault>
        ensures reads { ReadsOne (λ ds. AreDirectives constness (directives_of ds.items))
            (MaybeDirectives constness) room self.old self.new result }
        ensures shrinks { OnOk result
            (length self.new ≤ length self.old) }
    {
        let mut directives = Vec::new(self.alloc);
        while let Some(place) = self.take(Punct::At) {
            let name = self.name()?.value;
            let arguments = self.arguments(constness, room)?;
            directives.push(Directive {
                place,
                name,
                arguments,
            })?;
        }
        Ok(directives)
    }

    /// A type.
    #[cycle(type_ref)]
    pub(crate) fn type_ref(&mut self, room: u32) -> Result<TypeRef, Fault>
        ensures reads { ReadsOne (λ t. IsType (type_of t))
            AType room self.old self.new result }
        ensures shrinks { OnOk result
            (length self.new < length self.old) }
    {
        if let Some(LocatedText { place, value: name }) = self.take_name() {
            return self.named_type(place, name);
        }
        let Some(place) = self.take(Punct::BracketLeft) else {
            return Err(self.fault_here());
        };
        if room == 0 {
            return Err(Fault::TooDeep(place));
        }
        self.list_type(place, room - 1)
    }

    /// A type whose name was read.
    fn named_type(&mut self, place: Place, name: &str) -> Result<TypeRef, Fault>
        ensures reads { (room : _) (k : keywords.Keyword)
            → ReadsOne (IsTypeAfterName place k name.now) MaybeBang room self.old self.new result }
        ensures shrinks { OnOk result
            (length self.new ≤ length self.old) }
    {
        let name = Text::from_str(self.alloc, name)?;
        let non_null = self.eat(Punct::Bang);
        Ok(TypeRef::Named {
            place,
            name,
            non_null,
        })
    }

    /// A list's type, whose bracket was read.
    #[cycle(type_ref)]
    fn list_type(&mut self, place: Place, room: u32) -> Result<TypeRef, Fault>
        ensures reads { Reads (IsTypeAfterBracket place) room
            (AType ∷ ABracket ∷ one MaybeBang) (suc room) [] self.old self.new result }
        ensures shrinks { OnOk result
            (length self.new ≤ length self.old) }
    {
        let item = self.type_ref(room)?;
        self.bracket()?;
        let item = Box::new(self.alloc, item)?;
        let non_null = self.eat(Punct::Bang);
        Ok(TypeRef::List {
            place,
            item,
            non_null,
        })
    }
}
