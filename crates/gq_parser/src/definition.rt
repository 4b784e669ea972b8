//! Operations and fragments.

ghost use Rattle.std.specs.Prelude.{◌<◌, ◌≤◌, [], suc, length, OnOk, MatchOption};
ghost use Rattle.gq_parser.specs.Tree.{default_of, variable_of, variables_of};
ghost use Rattle.gq_parser.specs.Grammar.{IsDefault, IsVariable, AreOptionalVariables, IsKind};
ghost use Rattle.gq_parser.specs.Machine.{FirstSelection, MaybeDefault, FirstVariable, MoreVariables, MaybeVariables, an_operation_then, a_fragment_then, ADefinition, one};
ghost use Rattle.gq_parser.specs.Parsing.{Reads, ReadsOne, IsDefinition, IsOperationAfterKind, IsOperationAfterBrace, IsFragmentAfterWord, IsNoKind};

use crate::cursor::Parser;
use crate::fault::Fault;
use crate::keyword::{Keyword, keyword_of};
use crate::tree::{Fragment, Literal, Operation, OperationKind, VariableDefinition};
use crate::value::Constness;
use gq_lexer::{LocatedText, Place, Punct};

/// An operation or a fragment.
#[derive(Drop)]
pub(crate) enum Definition {
    Operation(Operation),
    Fragment(Fragment),
}

/// The kind of operation that a word begins, if it begins one.
fn kind_of(keyword: Keyword) -> Option<OperationKind>
    ensures { MatchOption result (IsNoKind keyword)
        (λ kind. IsKind kind keyword) }
{
    match keyword {
        Keyword::Query => Some(OperationKind::Query),
        Keyword::Mutation => Some(OperationKind::Mutation),
        Keyword::Subscription => Some(OperationKind::Subscription),
        _ => None,
    }
}

impl Parser<'_> {
    /// The default of a variable, where an equals sign begins it.
    fn default_value(&mut self, room: u32) -> Result<Option<Literal>, Fault>
        ensures reads { ReadsOne (λ d. IsDefault (default_of d))
            MaybeDefault room self.old self.new result }
        ensures shrinks { OnOk result
            (length self.new ≤ length self.old) }
    {
        if !self.eat(Punct::Equals) {
            return Ok(None);
        }
        Ok(Some(self.value(Constness::Const, room)?))
    }

    fn variable(&mut self, room: u32) -> Result<VariableDefinition, Fault>
        ensures reads { Reads (λ v. IsVariable (variable_of v)) room
            (one FirstVariable) room (one MoreVariables) self.old self.new result }
        ensures shrinks { OnOk result
            (length self.new < length self.old) }
    {
        let place = self.dollar()?;
        let name = self.name()?.value;
        self.colon()?;
        let of_type = self.type_ref(room)?;
        let default = self.default_value(room)?;
        let directives = self.directives(Constness::Const, room)?;
        Ok(VariableDefinition {
            place,
            name,
            of_type,
            default,
            directives,
        })
    }

    /// The variables of an operation, where a parenthesis opens them.
    fn variables(&mut self, room: u32) -> Result<Vec<VariableDefinition>, Fault>
        ensures reads { ReadsOne (λ vs. AreOptionalVariables (variables_of vs.items))
            MaybeVariables room self.old self.new result }
        ensures shrinks { OnOk result
            (length self.new ≤ length self.old) }
    {
        let mut variables = Vec::new(self.alloc);
        let Some(place) = self.take(Punct::ParenLeft) else {
            return Ok(variables);
        };
        if room == 0 {
            return Err(Fault::TooDeep(place));
        }
        variables.push(self.variable(room - 1)?)?;
        while !self.eat(Punct::ParenRight) {
            variables.push(self.variable(room - 1)?)?;
        }
        variables.shrink_to_fit();
        Ok(variables)
    }

    /// An operation, whose kind was read.
    fn operation(
        &mut self,
        place: Place,
        kind: OperationKind,
        room: u32,
    ) -> Result<Operation, Fault>
        ensures reads { Reads (IsOperationAfterKind place kind) room
            an_operation_then room [] self.old self.new result }
        ensures shrinks { OnOk result
            (length self.new ≤ length self.old) }
    {
        let name = self.name_if()?;
        let variables = self.variables(room)?;
        let directives = self.directives(Constness::NotConst, room)?;
        let selection_set = self.set(room)?;
        Ok(Operation {
            place,
            kind,
            name,
            variables,
            directives,
            selection_set,
        })
    }

    /// A fragment, whose first word was read.
    fn fragment(&mut self, place: Place, room: u32) -> Result<Fragment, Fault>
        ensures reads { Reads (IsFragmentAfterWord place) room
            a_fragment_then room [] self.old self.new result }
        ensures shrinks { OnOk result
            (length self.new ≤ length self.old) }
    {
        let name = self.fragment_name()?;
        self.on()?;
        let condition = self.condition()?;
        let directives = self.directives(Constness::NotConst, room)?;
        let selection_set = self.set(room)?;
        Ok(Fragment {
            place,
            name,
            condition,
            directives,
            selection_set,
        })
    }

    /// An operation without a kind, whose brace was read.
    fn shorthand(&mut self, place: Place, room: u32) -> Result<Operation, Fault>
        ensures reads { Reads (IsOperationAfterBrace place) room
            (one FirstSelection) (suc room) [] self.old self.new result }
        ensures shrinks { OnOk result
            (length self.new ≤ length self.old) }
    {
        let selection_set = self.selections(place, room)?;
        Ok(Operation {
            place,
            kind: OperationKind::Query,
            name: None,
            variables: Vec::new(self.alloc),
            directives: Vec::new(self.alloc),
            selection_set,
        })
    }

    pub(crate) fn definition(&mut self, room: u32) -> Result<Definition, Fault>
        ensures reads { ReadsOne IsDefinition
            ADefinition room self.old self.new result }
        ensures shrinks { OnOk result
            (length self.new < length self.old) }
    {
        if let Some(LocatedText { place, value: word }) = self.take_name() {
            let keyword = keyword_of(word);
            if keyword == Keyword::Fragment {
                return Ok(Definition::Fragment(self.fragment(place, room)?));
            }
            let Some(kind) = kind_of(keyword) else {
                return Err(Fault::Unexpected(Some(place)));
            };
            return Ok(Definition::Operation(self.operation(place, kind, room)?));
        }
        let Some(place) = self.take(Punct::BraceLeft) else {
            return Err(self.fault_here());
        };
        if room == 0 {
            return Err(Fault::TooDeep(place));
        }
        Ok(Definition::Operation(self.shorthand(place, room - 1)?))
    }
}
