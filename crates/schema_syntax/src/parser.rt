//! From the tokens of a schema text to its tree.
//!
//! The cursor isn't that of `gq_parser`, which takes a token and then judges it: here the token after an `@`
//! says what isn't served, so a token is judged before it is taken. What a keyword is, `gq_parser` alone says.

ghost use Rattle.std.specs.Prelude.{◌≡◌, ◌<◌, ◌≤◌, ◌∷◌, [], suc, length, MatchOption, MatchResult, OnOk, IfOk, IfErr, All, List, true, false};
ghost use Rattle.gq_lexer.specs.declared.token.Punct.TheVariants as punct;
ghost use Rattle.gq_lexer.specs.Tokens.{IsToken};
ghost use Rattle.gq_parser.specs.declared.value.Constness.TheVariants.{Const};
ghost use Rattle.gq_parser.specs.Fault.{IsShallow, most_brackets};
ghost use Rattle.gq_parser.specs.Word.{tokens_of, at, Punct as a_mark, Int as an_int, Float as a_float};
ghost use Rattle.gq_parser.specs.Tree.{literal_of, type_of, map_literals, map_members, default_of, argument_of as member_of};
ghost use Rattle.gq_parser.specs.Grammar.{IsValue, AreValues, AreMembers, IsDefault};
ghost use Rattle.schema_syntax.specs.declared.word.SchemaWord.TheVariants as words;
ghost use Rattle.schema_syntax.specs.declared.tree.Definition.TheVariants as declared;
ghost use Rattle.schema_syntax.specs.Tree.{name_of, names_of, argument_of, arguments_of, field_of, fields_of, definition_of, definitions_of};
ghost use Rattle.schema_syntax.specs.Fault.{IsStop};
ghost use Rattle.schema_syntax.specs.Grammar.{IsDocument, IsBody, IsName, IsTypeName, IsReason, IsDeprecated, IsArgument, AreArguments, AreOptionalArguments, IsField, AreFields, IsEnumValue, AreEnumValues};
ghost use Rattle.schema_syntax.specs.Machine.{one, a_union_then, A, AName, AColon, ATypeName, AnItem, AnEnumName, AQuery, ARootEnd, ADefinition, RootBody, ObjectBody, FirstInterface, MoreInterfaces, InterfaceBody, EnumBody, Fields, MaybeArguments, Arguments, MaybeDefault, AType, MaybeBang, MaybeDeprecated, MaybeReason, EnumValues, MaybePipe, MoreMembers, AValue, MoreValues, MoreObjectFields, refused};
ghost use Rattle.schema_syntax.specs.Parsing.{Reads, Eats, Expects, Describes, TakesMark, TakesText, NumberReads, IsNotNext, IsNoName, IsNoInt, IsNoFloat, IsNameTaken, IsTaken, IsMemberRead, IsEnumNameRead, IsQueryTaken, AreSomeInterfaces, AreMembersRead, IsTypeRead, IsNamed, AreInterfacesRead, IsDefinitionRead, IsTypeBody, Finds};

use crate::fault::TokenFault;
use crate::tree::{
    ArgumentDefinition, Definition, EnumDefinition, FieldDefinition, InterfaceDefinition, Name,
    ObjectDefinition, SchemaDefinition, SchemaDocument, UnionDefinition,
};
use crate::word::{SchemaWord, is_enum_name, is_served_name, name_value, word_of};
use gq_lexer::{LocatedText, Place, Punct, Token, TokenKind, string_value};
use gq_parser::{Argument, Keyword, Literal, TypeRef, Value, keyword_of};
use short_text::Text;
use std::alloc::Global;
use std::marker::Model;

/// Reads from the left. A clause sees the tokens that are left.
#[derive(Drop)]
struct Parser<'a> {
    alloc: Global,
    text: &'a str,
    rest: &'a [Token],
}

impl<'a> Model for Parser<'a> {
    ghost use Rattle.std.specs.Prelude.{List, All};
    ghost use Rattle.gq_lexer.specs.Tokens.{IsToken};
    ghost use Rattle.gq_parser.specs.Word.{Token, tokens_of};

    ghost Value = { List Token };

    ghost view = { λ p. tokens_of p.text.now p.rest.now };

    ghost invariant = { λ p. All (IsToken p.text.now) p.rest.now };
}

impl<'a> Parser<'a> {
    fn tokens_left(&self) -> usize
        ensures { result ≡ length self.now }
    {
        self.rest.len()
    }

    /// The fault, if what is next can't come.
    fn stop(&self) -> TokenFault
        ensures { result ≡ refused self.now }
    {
        let Some((first, rest)) = self.rest.split_first() else {
            return TokenFault::Unexpected(None);
        };
        match (first.kind, rest.split_first()) {
            (TokenKind::Punct(Punct::At), Some((name, _))) if name.kind == TokenKind::Name => {
                TokenFault::NotServed(first.place())
            }
            _ => TokenFault::Unexpected(Some(first.place())),
        }
    }

    /// The name that is next, if one is.
    fn word(&mut self) -> Option<LocatedText<&'a str>>
        ensures { MatchOption result ((self.new ≡ self.old) × IsNoName self.old)
            (λ t. IsNameTaken t.place t.value.now self.old self.new) }
    {
        match self.rest.split_first() {
            Some((first, rest)) if first.kind == TokenKind::Name => {
                let place = first.place();
                let value = first.text(self.text);
                self.rest = rest;
                Some(LocatedText { place, value })
            }
            _ => None,
        }
    }

    /// The place of this punctuator, if it is next.
    fn take(&mut self, mark: Punct) -> Option<Place>
        ensures { TakesMark
            (a_mark mark) self.old self.new result }
    {
        match self.rest.split_first() {
            Some((first, rest)) if first.kind == TokenKind::Punct(mark) => {
                self.rest = rest;
                Some(first.place())
            }
            _ => None,
        }
    }

    fn eat(&mut self, mark: Punct) -> bool
        ensures { Eats (a_mark mark)
            self.old self.new result }
    {
        self.take(mark).is_some()
    }

    fn expect(&mut self, mark: Punct) -> Result<(), TokenFault>
        ensures { Expects (a_mark mark)
            self.old self.new result }
    {
        if self.eat(mark) {
            Ok(())
        } else {
            Err(self.stop())
        }
    }

    /// Skips the string that is next, if one is.
    fn description(&mut self) -> bool
        ensures { Describes self.old self.new result }
    {
        match self.rest.split_first() {
            Some((first, rest))
                if first.kind == TokenKind::Str || first.kind == TokenKind::BlockStr => {
                self.rest = rest;
                true
            }
            _ => false,
        }
    }

    fn name(&mut self) -> Result<Name, TokenFault>
        ensures reads { (room : _) → Reads (λ n. IsName (name_of n))
            room (one (A AName)) room [] self.old self.new result }
        ensures shrinks { OnOk result
            (length self.new < length self.old) }
    {
        let Some(LocatedText { place, value: text }) = self.word() else {
            return Err(self.stop());
        };
        let text = String::from_str(self.alloc, text)?;
        Ok(Name { text, place })
    }

    fn type_name(&mut self) -> Result<Name, TokenFault>
        ensures reads { (room : _) → Reads (λ n. IsTypeName (name_of n))
            room (one (A ATypeName)) room [] self.old self.new result }
        ensures shrinks { OnOk result
            (length self.new < length self.old) }
    {
        let Some(LocatedText { place, value: text }) = self.word() else {
            return Err(self.stop());
        };
        if !is_served_name(text) {
            return Err(TokenFault::NotServed(place));
        }
        let text = String::from_str(self.alloc, text)?;
        Ok(Name { text, place })
    }

    /// A type that is no list.
    fn named_type(&mut self) -> Result<TypeRef, TokenFault>
        ensures reads { (room : _) → Reads (λ t. IsTypeRead (type_of t)) room
            (A ATypeName ∷ one MaybeBang) room [] self.old self.new result }
        ensures named { IfOk result
            (λ t. IsNamed (type_of t)) }
        ensures shrinks { OnOk result
            (length self.new < length self.old) }
    {
        let Name { text, place } = self.type_name()?;
        let non_null = self.eat(Punct::Bang);
        Ok(TypeRef::Named {
            place,
            name: Text::from(text),
            non_null,
        })
    }

    /// The type in a list.
    fn item_type(&mut self) -> Result<TypeRef, TokenFault>
        ensures reads { (room : _) → Reads (λ t. IsTypeRead (type_of t)) room
            (A AnItem ∷ one MaybeBang) room [] self.old self.new result }
        ensures named { IfOk result
            (λ t. IsNamed (type_of t)) }
        ensures shrinks { OnOk result
            (length self.new < length self.old) }
    {
        if let Some(place) = self.take(Punct::BracketLeft) {
            return Err(TokenFault::NotServed(place));
        }
        self.named_type()
    }

    fn type_ref(&mut self) -> Result<TypeRef, TokenFault>
        ensures reads { (room : _) → Reads (λ t. IsTypeRead (type_of t))
            (suc room) (one AType) (suc room) [] self.old self.new result }
        ensures shrinks { OnOk result
            (length self.new < length self.old) }
    {
        let Some(place) = self.take(Punct::BracketLeft) else {
            return self.named_type();
        };
        let item = self.item_type()?;
        self.expect(Punct::BracketRight)?;
        let non_null = self.eat(Punct::Bang);
        Ok(TypeRef::List {
            place,
            item: Box::new(self.alloc, item)?,
            non_null,
        })
    }

    /// The reason of a `@deprecated`, if a parenthesis opens one. It is skipped.
    fn reason(&mut self) -> Result<(), TokenFault>
        ensures reads { (room : _) → Reads (λ _. IsReason) (suc room)
            (one MaybeReason) (suc room) [] self.old self.new result }
        ensures shrinks { OnOk result
            (length self.new ≤ length self.old) }
    {
        if !self.eat(Punct::ParenLeft) {
            return Ok(());
        }
        let Some(LocatedText { place, value: name }) = self.word() else {
            return Err(self.stop());
        };
        let SchemaWord::Reason = word_of(name) else {
            return Err(TokenFault::Unexpected(Some(place)));
        };
        self.expect(Punct::Colon)?;
        if !self.description() {
            return Err(self.stop());
        }
        self.expect(Punct::ParenRight)
    }

    /// A `@deprecated`, if an `@` begins one. It is skipped.
    fn skip_deprecated(&mut self) -> Result<(), TokenFault>
        ensures reads { (room : _) → Reads (λ _. IsDeprecated) (suc room)
            (one MaybeDeprecated) (suc room) [] self.old self.new result }
        ensures shrinks { OnOk result
            (length self.new ≤ length self.old) }
    {
        let Some(place) = self.take(Punct::At) else {
            return Ok(());
        };
        let Some(name) = self.word() else {
            return Err(self.stop());
        };
        let SchemaWord::Deprecated = word_of(name.value) else {
            return Err(TokenFault::NotServed(place));
        };
        self.reason()
    }

    /// The value of the string that is next, if one is.
    fn string(&mut self) -> Result<Option<LocatedText<String>>, TokenFault>
        ensures { MatchResult result (TakesText self.old self.new) (λ e. e ≡ TokenFault.NoMemory) }
    {
        match self.rest.split_first() {
            Some((first, rest))
                if first.kind == TokenKind::Str || first.kind == TokenKind::BlockStr => {
                let value = match string_value(self.alloc, self.text, first) {
                    Ok(value) => value,
                    Err(_) => return Err(TokenFault::NoMemory),
                };
                let place = first.place();
                self.rest = rest;
                Ok(Some(LocatedText { place, value }))
            }
            _ => Ok(None),
        }
    }

    /// The integer that is next, if one is.
    fn int(&mut self) -> Option<LocatedText<&'a str>>
        ensures { MatchOption result ((self.new ≡ self.old) × IsNoInt self.old)
            (λ t. self.old ≡ at t.place (an_int t.value.now) ∷ self.new) }
    {
        match self.rest.split_first() {
            Some((first, rest)) if first.kind == TokenKind::Int => {
                let place = first.place();
                let value = first.text(self.text);
                self.rest = rest;
                Some(LocatedText { place, value })
            }
            _ => None,
        }
    }

    /// The number with a fraction or an exponent that is next, if one is.
    fn float(&mut self) -> Option<LocatedText<&'a str>>
        ensures { MatchOption result ((self.new ≡ self.old) × IsNoFloat self.old)
            (λ t. self.old ≡ at t.place (a_float t.value.now) ∷ self.new) }
    {
        match self.rest.split_first() {
            Some((first, rest)) if first.kind == TokenKind::Float => {
                let place = first.place();
                let value = first.text(self.text);
                self.rest = rest;
                Some(LocatedText { place, value })
            }
            _ => None,
        }
    }

    fn number(&mut self) -> Result<Literal, TokenFault>
        ensures { NumberReads self.old self.new result }
    {
        if let Some(LocatedText { place, value: text }) = self.int() {
            let number = Text::from_str(self.alloc, text)?;
            let value = Value::Int(number);
            return Ok(Literal { place, value });
        }
        if let Some(LocatedText { place, value: text }) = self.float() {
            let number = Text::from_str(self.alloc, text)?;
            let value = Value::Float(number);
            return Ok(Literal { place, value });
        }
        Err(self.stop())
    }

    #[cycle(value)]
    fn value(&mut self, room: u32) -> Result<Literal, TokenFault>
        ensures reads { Reads (λ v. IsValue Const (literal_of v))
            room (one AValue) room [] self.old self.new result }
        ensures shrinks { OnOk result
            (length self.new < length self.old) }
    {
        if let Some(LocatedText { place, value: text }) = self.string()? {
            let value = Value::Text(Text::from(text));
            return Ok(Literal { place, value });
        }
        if let Some(LocatedText { place, value: name }) = self.word() {
            let value = name_value(self.alloc, name)?;
            return Ok(Literal { place, value });
        }
        if let Some(place) = self.take(Punct::BracketLeft) {
            if room == 0 {
                return Err(TokenFault::Unexpected(Some(place)));
            }
            let value = Value::List(self.values(room - 1)?);
            return Ok(Literal { place, value });
        }
        if let Some(place) = self.take(Punct::BraceLeft) {
            if room == 0 {
                return Err(TokenFault::Unexpected(Some(place)));
            }
            let value = Value::Object(self.object_fields(room - 1)?);
            return Ok(Literal { place, value });
        }
        self.number()
    }

    /// The values up to the bracket that closes them.
    #[cycle(value)]
    fn values(&mut self, room: u32) -> Result<Vec<Literal>, TokenFault>
        ensures reads { Reads (λ vs. AreValues Const (map_literals vs.items))
            room (one MoreValues) (suc room) [] self.old self.new result }
        ensures shrinks { OnOk result
            (length self.new < length self.old) }
    {
        let mut values = Vec::new(self.alloc);
        while !self.eat(Punct::BracketRight) {
            values.push(self.value(room)?)?;
        }
        Ok(values)
    }

    #[cycle(value)]
    fn object_field(&mut self, room: u32) -> Result<Argument, TokenFault>
        ensures reads { Reads (λ a. IsMemberRead (member_of a)) room
            (A AName ∷ A AColon ∷ one AValue) room [] self.old self.new result }
        ensures shrinks { OnOk result
            (length self.new < length self.old) }
    {
        let Name { text, place } = self.name()?;
        self.expect(Punct::Colon)?;
        let value = self.value(room)?;
        Ok(Argument {
            place,
            name: Text::from(text),
            value,
        })
    }

    /// The fields of an object value up to the brace that closes them.
    #[cycle(value)]
    fn object_fields(&mut self, room: u32) -> Result<Vec<Argument>, TokenFault>
        ensures reads { Reads (λ ms. AreMembers Const (map_members ms.items))
            room (one MoreObjectFields) (suc room) [] self.old self.new result }
        ensures shrinks { OnOk result
            (length self.new < length self.old) }
    {
        let mut fields = Vec::new(self.alloc);
        while !self.eat(Punct::BraceRight) {
            fields.push(self.object_field(room)?)?;
        }
        Ok(fields)
    }

    /// The default of an argument, if a `=` begins one.
    fn default(&mut self) -> Result<Option<Literal>, TokenFault>
        ensures reads { Reads (λ v. IsDefault (default_of v)) 126
            (one MaybeDefault) 126 [] self.old self.new result }
        ensures shrinks { OnOk result
            (length self.new ≤ length self.old) }
    {
        if !self.eat(Punct::Equals) {
            return Ok(None);
        }
        Ok(Some(self.value(126)?))
    }

    fn argument(&mut self) -> Result<ArgumentDefinition, TokenFault>
        ensures reads { Reads (λ a. IsArgument (argument_of a)) 126
            (one (Arguments false)) 126 (one (Arguments true)) self.old self.new result }
        ensures shrinks { OnOk result
            (length self.new < length self.old) }
    {
        self.description();
        let name = self.name()?;
        self.expect(Punct::Colon)?;
        let of_type = self.type_ref()?;
        let default = self.default()?;
        Ok(ArgumentDefinition {
            name,
            of_type,
            default,
        })
    }

    /// The arguments of a field, if a parenthesis opens them.
    fn arguments(&mut self) -> Result<Vec<ArgumentDefinition>, TokenFault>
        ensures reads { Reads (λ args. AreOptionalArguments (arguments_of args.items)) 127
            (one MaybeArguments) 127 [] self.old self.new result }
        ensures shrinks { OnOk result
            (length self.new ≤ length self.old) }
    {
        let mut arguments = Vec::new(self.alloc);
        if !self.eat(Punct::ParenLeft) {
            return Ok(arguments);
        }
        arguments.push(self.argument()?)?;
        while !self.eat(Punct::ParenRight) {
            arguments.push(self.argument()?)?;
        }
        Ok(arguments)
    }

    fn field(&mut self) -> Result<FieldDefinition, TokenFault>
        ensures reads { Reads (λ f. IsField (field_of f)) 127
            (one (Fields false)) 127 (one (Fields true)) self.old self.new result }
        ensures shrinks { OnOk result
            (length self.new < length self.old) }
    {
        self.description();
        let name = self.name()?;
        let arguments = self.arguments()?;
        self.expect(Punct::Colon)?;
        let of_type = self.type_ref()?;
        self.skip_deprecated()?;
        Ok(FieldDefinition {
            name,
            arguments,
            of_type,
        })
    }

    /// The fields up to the brace that closes them.
    fn fields(&mut self) -> Result<Vec<FieldDefinition>, TokenFault>
        ensures reads { Reads (λ fs. AreFields false (fields_of fs.items)) 127
            (one (Fields false)) 128 [] self.old self.new result }
        ensures shrinks { OnOk result
            (length self.new < length self.old) }
    {
        let mut fields = Vec::new(self.alloc);
        fields.push(self.field()?)?;
        while !self.eat(Punct::BraceRight) {
            fields.push(self.field()?)?;
        }
        Ok(fields)
    }

    fn enum_value(&mut self) -> Result<Name, TokenFault>
        ensures reads { Reads (λ v. IsEnumValue (name_of v)) 127
            (one (EnumValues false)) 127 (one (EnumValues true)) self.old self.new result }
        ensures shrinks { OnOk result
            (length self.new < length self.old) }
    {
        self.description();
        let name = self.enum_name()?;
        self.skip_deprecated()?;
        Ok(name)
    }

    /// The values up to the brace that closes them.
    fn enum_values(&mut self) -> Result<Vec<Name>, TokenFault>
        ensures reads { Reads (λ vs. AreEnumValues false (names_of vs.items)) 127
            (one (EnumValues false)) 128 [] self.old self.new result }
        ensures shrinks { OnOk result
            (length self.new < length self.old) }
    {
        let mut values = Vec::new(self.alloc);
        values.push(self.enum_value()?)?;
        while !self.eat(Punct::BraceRight) {
            values.push(self.enum_value()?)?;
        }
        Ok(values)
    }

    /// A name that an enum's value may have.
    fn enum_name(&mut self) -> Result<Name, TokenFault>
        ensures reads { (room : _) → Reads (λ n. IsEnumNameRead (name_of n))
            room (one (A AnEnumName)) room [] self.old self.new result }
        ensures shrinks { OnOk result
            (length self.new < length self.old) }
    {
        let Some(LocatedText { place, value: text }) = self.word() else {
            return Err(self.stop());
        };
        if !is_enum_name(text) {
            return Err(TokenFault::Unexpected(Some(place)));
        }
        let text = String::from_str(self.alloc, text)?;
        Ok(Name { text, place })
    }

    /// The interfaces that an object type implements, and the brace behind them.
    fn interfaces(&mut self) -> Result<Vec<Name>, TokenFault>
        ensures reads { Reads (λ is. AreInterfacesRead (names_of is.items)) 128
            (one ObjectBody) 127 (one (Fields false)) self.old self.new result }
        ensures shrinks { OnOk result
            (length self.new ≤ length self.old) }
    {
        let Some(LocatedText { place, value: name }) = self.word() else {
            self.expect(Punct::BraceLeft)?;
            return Ok(Vec::new(self.alloc));
        };
        let SchemaWord::Implements = word_of(name) else {
            return Err(TokenFault::Unexpected(Some(place)));
        };
        let interfaces = self.some_interfaces()?;
        self.expect(Punct::BraceLeft)?;
        Ok(interfaces)
    }

    /// The interfaces behind `implements`.
    fn some_interfaces(&mut self) -> Result<Vec<Name>, TokenFault>
        ensures reads { Reads (λ is. AreSomeInterfaces (names_of is.items)) 128
            (one FirstInterface) 128 (one MoreInterfaces) self.old self.new result }
        ensures ends { OnOk result
            (IsNotNext (a_mark punct.Amp) self.new) }
        ensures shrinks { OnOk result
            (length self.new ≤ length self.old) }
    {
        let mut interfaces = Vec::new(self.alloc);
        self.eat(Punct::Amp);
        interfaces.push(self.type_name()?)?;
        while self.eat(Punct::Amp) {
            interfaces.push(self.type_name()?)?;
        }
        Ok(interfaces)
    }

    /// The brace behind the name of an interface.
    fn interface_brace(&mut self) -> Result<(), TokenFault>
        ensures reads { Reads (λ _. IsTaken (a_mark punct.BraceLeft)) 128
            (one InterfaceBody) 127 (one (Fields false)) self.old self.new result }
        ensures shrinks { OnOk result
            (length self.new < length self.old) }
    {
        if let Some(LocatedText { place, value: name }) = self.word() {
            return match word_of(name) {
                SchemaWord::Implements => Err(TokenFault::NotServed(place)),
                _ => Err(TokenFault::Unexpected(Some(place))),
            };
        }
        self.expect(Punct::BraceLeft)
    }

    /// The members of a union, behind its `=`.
    fn members(&mut self) -> Result<Vec<Name>, TokenFault>
        ensures reads { Reads (λ ms. AreMembersRead (names_of ms.items)) 128
            (MaybePipe ∷ A ATypeName ∷ one MoreMembers) 128 [] self.old self.new result }
        ensures shrinks { OnOk result
            (length self.new ≤ length self.old) }
    {
        let mut members = Vec::new(self.alloc);
        self.eat(Punct::Pipe);
        members.push(self.type_name()?)?;
        while self.eat(Punct::Pipe) {
            members.push(self.type_name()?)?;
        }
        Ok(members)
    }

    /// The word `query` in `schema`.
    fn query(&mut self) -> Result<(), TokenFault>
        ensures reads { (room : _)
            → Reads (λ _. IsQueryTaken) room (one (A AQuery)) room [] self.old self.new result }
        ensures shrinks { OnOk result
            (length self.new < length self.old) }
    {
        let Some(LocatedText { place, value: name }) = self.word() else {
            return Err(self.stop());
        };
        match keyword_of(name) {
            Keyword::Query => Ok(()),
            Keyword::Mutation | Keyword::Subscription => Err(TokenFault::NotServed(place)),
            _ => Err(TokenFault::Unexpected(Some(place))),
        }
    }

    /// The brace that ends `schema`.
    fn root_end(&mut self) -> Result<(), TokenFault>
        ensures reads { Reads (λ _. IsTaken (a_mark punct.BraceRight)) 127
            (one (A ARootEnd)) 128 [] self.old self.new result }
        ensures shrinks { OnOk result
            (length self.new < length self.old) }
    {
        if let Some(LocatedText { place, value: name }) = self.word() {
            return match keyword_of(name) {
                Keyword::Mutation | Keyword::Subscription => Err(TokenFault::NotServed(place)),
                _ => Err(TokenFault::Unexpected(Some(place))),
            };
        }
        self.expect(Punct::BraceRight)
    }

    fn schema(&mut self, place: Place) -> Result<SchemaDefinition, TokenFault>
        ensures reads { Reads (λ d. IsBody words.Schema place (definition_of
            (declared.Schema d))) 128 (one RootBody) 128 [] self.old self.new result }
        ensures shrinks { OnOk result
            (length self.new ≤ length self.old) }
    {
        self.expect(Punct::BraceLeft)?;
        self.query()?;
        self.expect(Punct::Colon)?;
        let query = self.type_name()?;
        self.root_end()?;
        Ok(SchemaDefinition { place, query })
    }

    fn object(&mut self) -> Result<ObjectDefinition, TokenFault>
        ensures reads { Reads (λ d. IsTypeBody words.Object (declared.Object d)) 128
            (A ATypeName ∷ one ObjectBody) 128 [] self.old self.new result }
        ensures shrinks { OnOk result
            (length self.new ≤ length self.old) }
    {
        let name = self.type_name()?;
        let interfaces = self.interfaces()?;
        let fields = self.fields()?;
        Ok(ObjectDefinition {
            name,
            interfaces,
            fields,
        })
    }

    fn interface(&mut self) -> Result<InterfaceDefinition, TokenFault>
        ensures reads { Reads (λ d. IsTypeBody words.Interface (declared.Interface d)) 128
            (A ATypeName ∷ one InterfaceBody) 128 [] self.old self.new result }
        ensures shrinks { OnOk result
            (length self.new ≤ length self.old) }
    {
        let name = self.type_name()?;
        self.interface_brace()?;
        let fields = self.fields()?;
        Ok(InterfaceDefinition { name, fields })
    }

    fn union_type(&mut self) -> Result<UnionDefinition, TokenFault>
        ensures reads { Reads (λ d. IsTypeBody words.Union (declared.Union d)) 128
            (A ATypeName ∷ a_union_then) 128 [] self.old self.new result }
        ensures shrinks { OnOk result
            (length self.new ≤ length self.old) }
    {
        let name = self.type_name()?;
        self.expect(Punct::Equals)?;
        let members = self.members()?;
        Ok(UnionDefinition { name, members })
    }

    fn enum_type(&mut self) -> Result<EnumDefinition, TokenFault>
        ensures reads { Reads (λ d. IsTypeBody words.Enum (declared.Enum d)) 128
            (A ATypeName ∷ one EnumBody) 128 [] self.old self.new result }
        ensures shrinks { OnOk result
            (length self.new ≤ length self.old) }
    {
        let name = self.type_name()?;
        self.expect(Punct::BraceLeft)?;
        let values = self.enum_values()?;
        Ok(EnumDefinition { name, values })
    }

    /// A definition, whose description was skipped.
    fn definition(&mut self) -> Result<Definition, TokenFault>
        ensures reads { Reads (λ d. IsDefinitionRead (definition_of d)) 128
            (one ADefinition) 128 [] self.old self.new result }
        ensures shrinks { OnOk result
            (length self.new < length self.old) }
    {
        let Some(LocatedText { place, value: name }) = self.word() else {
            return Err(self.stop());
        };
        match word_of(name) {
            SchemaWord::Schema => Ok(Definition::Schema(self.schema(place)?)),
            SchemaWord::Object => Ok(Definition::Object(self.object()?)),
            SchemaWord::Interface => Ok(Definition::Interface(self.interface()?)),
            SchemaWord::Union => Ok(Definition::Union(self.union_type()?)),
            SchemaWord::Enum => Ok(Definition::Enum(self.enum_type()?)),
            SchemaWord::Unserved => Err(TokenFault::NotServed(place)),
            _ => Err(TokenFault::Unexpected(Some(place))),
        }
    }
}

/// The definitions that the tokens are.
pub(crate) fn definitions(
    alloc: Global,
    text: &str,
    tokens: &[Token],
) -> Result<SchemaDocument, TokenFault>
    requires { All (IsToken text.now) tokens.now }
    // The definitions are what the grammar says, and no bracket in them is opened while 128 are
    // open.
    ensures found { IfOk result (λ d. IsDocument (definitions_of d) (tokens_of text.now tokens.now)
        × IsShallow most_brackets (tokens_of text.now tokens.now)) }

    // Such a tree is found, and there is no other.
    ensures only { (ds : _) → IsDocument ds (tokens_of text.now tokens.now)
        → IsShallow most_brackets (tokens_of text.now tokens.now) → Finds ds result }

    // Otherwise the first fault is named.
    ensures stop { IfErr result
        (IsStop (tokens_of text.now tokens.now)) }
{
    let mut parser = Parser {
        alloc,
        text,
        rest: tokens,
    };
    let mut definitions = Vec::new(alloc);
    while parser.tokens_left() != 0 {
        parser.description();
        definitions.push(parser.definition()?)?;
    }
    Ok(SchemaDocument { definitions })
}
