//! The tree of a document, with the place of each of its parts (October 2021, section 2).
//!
//! The tree holds all that the text says, so that nobody who has it needs the text again.

ghost use Rattle.std.specs.Prelude.{◌≡◌};
ghost use Rattle.gq_parser.specs.Tree.{the_literal, type_of};
ghost use Rattle.gq_parser.specs.Types.{named_of, named_place, is_non_null, is_list};

use gq_lexer::Place;
use short_text::Text;
use std::sync::Arc;

/// A document: its operations and its fragments, each in the order of the text (section 2.2).
///
/// The places of the two lists give the order between them.
#[derive(Debug, Drop)]
pub struct Document {
    pub operations: Vec<Operation>,
    pub fragments: Vec<Fragment>,
}

/// Kind of an operation (section 2.3).
#[derive(Clone, Copy, Debug, PartialEq, Eq)]
pub enum OperationKind {
    Query,
    Mutation,
    Subscription,
}

/// An operation (section 2.3). A selection set that stands alone is a query without a name.
#[derive(Debug)]
pub struct Operation {
    /// The place of its first token: its kind's word, or the `{` where it has none.
    pub place: Place,
    pub kind: OperationKind,
    pub name: Option<Text>,
    pub variables: Vec<VariableDefinition>,
    pub directives: Vec<Directive>,
    pub selection_set: SelectionSet,
}

impl Drop for Operation {
    fn drop(self) {
        let Operation {
            place: _,
            kind: _,
            name: _name,
            variables: _variables,
            directives: _directives,
            selection_set: _selection_set,
        } = self;
    }
}

/// A fragment's definition (section 2.8). Its name is not `on`.
#[derive(Debug, Drop)]
pub struct Fragment {
    /// The place of the word `fragment`.
    pub place: Place,
    pub name: Text,
    pub condition: TypeCondition,
    pub directives: Vec<Directive>,
    pub selection_set: SelectionSet,
}

/// The type that a fragment is for (section 2.8.1).
#[derive(Debug, Drop)]
pub struct TypeCondition {
    /// The place of the type's name.
    pub place: Place,
    pub name: Text,
}

/// The definition of a variable (section 2.10). Neither its default nor its directives use variables.
#[derive(Debug)]
pub struct VariableDefinition {
    /// The place of its `$`.
    pub place: Place,
    /// The name without the `$`.
    pub name: Text,
    pub of_type: TypeRef,
    pub default: Option<Literal>,
    pub directives: Vec<Directive>,
}

impl Drop for VariableDefinition {
    fn drop(self) {
        let VariableDefinition {
            place: _,
            name: _name,
            of_type: _of_type,
            default: _default,
            directives: _directives,
        } = self;
    }
}

/// Holds what is selected of an object, at least one selection (section 2.4).
#[derive(Debug, Drop)]
#[cycle(selection)]
pub struct SelectionSet {
    /// The place of its `{`.
    pub place: Place,
    pub selections: Vec<Selection>,
}

/// One selection of a set (section 2.4).
#[derive(Debug, Drop)]
#[cycle(selection)]
pub enum Selection {
    Field(Field),
    Spread(Spread),
    Inline(Inline),
}

/// A field, with what is selected below it (section 2.5), which may be shared.
#[derive(Debug, Drop)]
#[cycle(selection)]
pub struct Field {
    /// The place of its first token: its alias, or its name where it has none.
    pub place: Place,
    pub alias: Option<Text>,
    pub name: Text,
    pub arguments: Vec<Argument>,
    pub directives: Vec<Directive>,
    pub selection_set: Option<Arc<SelectionSet>>,
}

/// A fragment's spread (section 2.8). Its name is not `on`.
#[derive(Debug, Drop)]
pub struct Spread {
    /// The place of its `...`.
    pub place: Place,
    pub name: Text,
    pub directives: Vec<Directive>,
}

/// An inline fragment (section 2.8.2).
#[derive(Debug, Drop)]
#[cycle(selection)]
pub struct Inline {
    /// The place of its `...`.
    pub place: Place,
    pub condition: Option<TypeCondition>,
    pub directives: Vec<Directive>,
    pub selection_set: SelectionSet,
}

/// A directive (section 2.12).
#[derive(Debug, Drop)]
pub struct Directive {
    /// The place of its `@`.
    pub place: Place,
    /// The name without the `@`.
    pub name: Text,
    pub arguments: Vec<Argument>,
}

/// A name and its value: an argument (section 2.6), or a field of an object value (section 2.9.8).
#[derive(Debug, Drop)]
#[cycle(literal)]
pub struct Argument {
    /// The place of its name.
    pub place: Place,
    pub name: Text,
    pub value: Literal,
}

/// A value as it is written (section 2.9).
#[derive(Debug, Drop)]
#[cycle(literal)]
pub struct Literal {
    /// The place of its first token, as a variable's `$`.
    pub place: Place,
    pub value: Value,
}

impl Literal {
    pub(crate) fn new(place: Place, value: Value) -> Literal
        ensures { result ≡ the_literal place value }
    {
        Literal { place, value }
    }
}

/// Meaning of a literal (section 2.9).
///
/// A string is held by its value and not by its spelling, and a number as it is written.
#[derive(Debug, Drop)]
#[cycle(literal)]
pub enum Value {
    /// The name without the `$`.
    Variable(Text),
    /// The text of the number.
    Int(Text),
    /// The text of the number.
    Float(Text),
    /// The value of the string, without quotes and escapes.
    Text(Text),
    Boolean(bool),
    Null,
    /// A name that is none of `true`, `false` and `null`.
    Enum(Text),
    List(Vec<Literal>),
    Object(Vec<Argument>),
}

/// A reference to a type (section 2.11).
#[derive(Debug, Drop)]
pub enum TypeRef {
    Named {
        /// The place of the name.
        place: Place,
        name: Text,
        /// Tells whether a `!` follows.
        non_null: bool,
    },
    List {
        /// The place of the `[`.
        place: Place,
        item: Box<TypeRef>,
        /// Tells whether a `!` follows the `]`.
        non_null: bool,
    },
}

impl TypeRef {
    /// The name that its lists and `!`s are around.
    pub fn innermost_name(&self) -> &str
        ensures { result.now ≡ named_of (type_of self.now) }
    {
        match self {
            TypeRef::Named { name, .. } => name.as_str(),
            TypeRef::List { item, .. } => item.innermost_name(),
        }
    }

    /// The place of that name.
    pub fn named_place(&self) -> Place
        ensures { result ≡ named_place (type_of self.now) }
    {
        match self {
            TypeRef::Named { place, .. } => *place,
            TypeRef::List { item, .. } => item.named_place(),
        }
    }

    /// Tells whether a `!` ends it.
    pub fn is_non_null(&self) -> bool
        ensures { result ≡ is_non_null (type_of self.now) }
    {
        match self {
            TypeRef::Named { non_null, .. } => *non_null,
            TypeRef::List { non_null, .. } => *non_null,
        }
    }

    pub fn is_list(&self) -> bool
        ensures { result ≡ is_list (type_of self.now) }
    {
        matches!(self, TypeRef::List { .. })
    }
}
