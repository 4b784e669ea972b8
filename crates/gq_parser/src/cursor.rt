//! The tokens that are left, and the steps that take one of them.

ghost use Rattle.std.specs.Prelude.{◌≡◌, ◌<◌, ◌≤◌, ◌∷◌, ◌++◌, [], suc, length, List, MatchResult, OnOk, All, IsTrue, ◌↔◌};
ghost use Rattle.gq_lexer.specs.Tokens.{IsToken, bytes_of};
ghost use Rattle.gq_parser.specs.Word.{Token, at, place_of_next};
ghost use Rattle.gq_parser.specs.Word as words;
ghost use Rattle.gq_parser.specs.Grammar.{IsOptionalName};
ghost use Rattle.gq_parser.specs.Machine.{AName, AFragmentName, AnOn, AColon, ABracket, MaybeName, FirstVariable, MoreVariables, a_variable_then, one};
ghost use Rattle.gq_parser.specs.Parsing.{Reads, ReadsOne, Takes, TakesName, Eats, IsName, IsPunct, IsFragmentNameTaken, IsOnTaken, IsDollarTaken, IsMissing, says};

use crate::fault::Fault;
use crate::keyword::{Keyword, keyword_of};
use crate::lexeme::Lexeme;
use gq_lexer::{LexFault, LocatedText, Place, Punct, Token, TokenKind, string_value};
use short_text::Text;
use std::alloc::Global;
use std::marker::Model;

/// Reads tokens from the left. A clause sees those that are left.
#[derive(Drop)]
pub(crate) struct Parser<'a> {
    pub(crate) alloc: Global,
    text: &'a str,
    rest: &'a [Token],
}

impl<'a> Model for Parser<'a> {
    ghost use Rattle.std.specs.Prelude.{List, All};
    ghost use Rattle.gq_lexer.specs.Tokens.{IsToken};
    ghost use Rattle.gq_parser.specs.Word.{Token, tokens_of};

    ghost Value = { List Token };

    ghost view = { λ p. tokens_of p.text.now p.rest.now };

    ghost invariant = { λ p. All (IsToken p.text.now) p.rest.now };
}

impl<'a> Parser<'a> {
    ghost use Rattle.gq_lexer.specs.Tokens.{IsToken};
    ghost use Rattle.gq_parser.specs.Word.{tokens_of};

    pub(crate) fn new(alloc: Global, text: &'a str, tokens: &'a [Token]) -> Self
        requires { All (IsToken text.now) tokens.now }
        ensures { result ≡ tokens_of text.now tokens.now }
    {
        Parser {
            alloc,
            text,
            rest: tokens,
        }
    }

    pub(crate) fn is_at_end(&self) -> bool
        ensures { IsTrue result ↔ (self.now ≡ []) }
    {
        self.rest.is_empty()
    }

    /// The fault of a token that may not be next.
    pub(crate) fn fault_here(&self) -> Fault
        ensures { result ≡ Fault.Unexpected
            (place_of_next self.now) }
    {
        Fault::Unexpected(self.rest.first().map(|token| token.place()))
    }

    /// Takes the next token; a fault if there is none.
    pub(crate) fn next(&mut self) -> Result<LocatedText<Lexeme<'a>>, Fault>
        ensures { MatchResult result (λ t.
            self.old ≡ at t.place (says t.value) ∷ self.new) (λ f. IsMissing f self.old) }
    {
        let Some((token, rest)) = self.rest.split_first() else {
            return Err(Fault::Unexpected(None));
        };
        let value = lexeme_of(self.alloc, self.text, token)?;
        let place = token.place();
        self.rest = rest;
        Ok(LocatedText { place, value })
    }

    /// The place of the next token, which is taken if it is this one.
    pub(crate) fn take(&mut self, punct: Punct) -> Option<Place>
        ensures { Takes (words.Punct punct)
            self.old self.new result }
    {
        match self.rest.split_first() {
            Some((token, rest)) if token.kind == TokenKind::Punct(punct) => {
                self.rest = rest;
                Some(token.place())
            }
            _ => None,
        }
    }

    /// Tells whether the next token is this one, which is then taken.
    pub(crate) fn eat(&mut self, punct: Punct) -> bool
        ensures { Eats (words.Punct punct)
            self.old self.new result }
    {
        self.take(punct).is_some()
    }

    /// The name that is next, if one is.
    pub(crate) fn take_name(&mut self) -> Option<LocatedText<&'a str>>
        ensures { TakesName self.old self.new result }
    {
        match self.rest.split_first() {
            Some((token, rest)) if token.kind == TokenKind::Name => {
                let place = token.place();
                let value = token.text(self.text);
                self.rest = rest;
                Some(LocatedText { place, value })
            }
            _ => None,
        }
    }
}

/// Returns what a token of this text says.
fn lexeme_of<'a>(alloc: Global, text: &'a str, token: &Token) -> Result<Lexeme<'a>, Fault>
    requires { IsToken text.now token.now }
    ensures { MatchResult result (λ l. words.word token.now.kind (bytes_of text.now token.now)
        ≡ says l) (λ f. f ≡ Fault.NoMemory) }
{
    match token.kind {
        TokenKind::Punct(punct) => Ok(Lexeme::Punct(punct)),
        TokenKind::Name => Ok(Lexeme::Name(token.text(text))),
        TokenKind::Int => Ok(Lexeme::Int(token.text(text))),
        TokenKind::Float => Ok(Lexeme::Float(token.text(text))),
        TokenKind::Str | TokenKind::BlockStr => match string_value(alloc, text, token) {
            Ok(value) => Ok(Lexeme::Text(value)),
            Err(_) => Err(Fault::NoMemory),
        },
    }
}

impl<'a> Parser<'a> {
    pub(crate) fn name(&mut self) -> Result<LocatedText<Text>, Fault>
        ensures reads { (room : _) → ReadsOne (λ n.
            IsName n.place n.value) AName room self.old self.new result }
        ensures shrinks { OnOk result
            (length self.new < length self.old) }
    {
        let LocatedText { place, value } = self.next()?;
        let Lexeme::Name(name) = value else {
            return Err(Fault::Unexpected(Some(place)));
        };
        let value = Text::from_str(self.alloc, name)?;
        Ok(LocatedText { place, value })
    }

    /// A name that is not `on`.
    pub(crate) fn fragment_name(&mut self) -> Result<Text, Fault>
        ensures reads { (room : _) → ReadsOne (λ n. IsFragmentNameTaken n)
            AFragmentName room self.old self.new result }
        ensures shrinks { OnOk result
            (length self.new < length self.old) }
    {
        let LocatedText { place, value } = self.next()?;
        match value {
            Lexeme::Name(name) if keyword_of(name) != Keyword::On => {
                Ok(Text::from_str(self.alloc, name)?)
            }
            _ => Err(Fault::Unexpected(Some(place))),
        }
    }

    /// The word `on`.
    pub(crate) fn on(&mut self) -> Result<(), Fault>
        ensures reads { (room : _) → ReadsOne (λ _.
            IsOnTaken) AnOn room self.old self.new result }
        ensures shrinks { OnOk result
            (length self.new < length self.old) }
    {
        let LocatedText { place, value } = self.next()?;
        match value {
            Lexeme::Name(name) if keyword_of(name) == Keyword::On => Ok(()),
            _ => Err(Fault::Unexpected(Some(place))),
        }
    }

    pub(crate) fn colon(&mut self) -> Result<(), Fault>
        ensures reads { (room : _) → ReadsOne (λ _.
            IsPunct (words.Punct Punct.Colon)) AColon room self.old self.new result }
        ensures shrinks { OnOk result
            (length self.new < length self.old) }
    {
        let LocatedText { place, value } = self.next()?;
        match value {
            Lexeme::Punct(Punct::Colon) => Ok(()),
            _ => Err(Fault::Unexpected(Some(place))),
        }
    }

    /// The dollar sign of a variable's definition, and its place.
    pub(crate) fn dollar(&mut self) -> Result<Place, Fault>
        ensures reads { (room : _) → Reads IsDollarTaken room (one FirstVariable)
            room (a_variable_then ++ one MoreVariables) self.old self.new result }
        ensures shrinks { OnOk result
            (length self.new < length self.old) }
    {
        let LocatedText { place, value } = self.next()?;
        match value {
            Lexeme::Punct(Punct::Dollar) => Ok(place),
            _ => Err(Fault::Unexpected(Some(place))),
        }
    }

    /// The bracket that closes a list's type.
    pub(crate) fn bracket(&mut self) -> Result<(), Fault>
        ensures reads { (room : _) → Reads (λ _. IsPunct (words.Punct Punct.BracketRight))
            room (one ABracket) (suc room) [] self.old self.new result }
        ensures shrinks { OnOk result
            (length self.new < length self.old) }
    {
        let LocatedText { place, value } = self.next()?;
        match value {
            Lexeme::Punct(Punct::BracketRight) => Ok(()),
            _ => Err(Fault::Unexpected(Some(place))),
        }
    }

    /// The name that is next, if one is.
    pub(crate) fn name_if(&mut self) -> Result<Option<Text>, Fault>
        ensures reads { (room : _)
            → ReadsOne IsOptionalName MaybeName room self.old self.new result }
        ensures shrinks { OnOk result
            (length self.new ≤ length self.old) }
    {
        let Some(name) = self.take_name() else {
            return Ok(None);
        };
        Ok(Some(Text::from_str(self.alloc, name.value)?))
    }
}
