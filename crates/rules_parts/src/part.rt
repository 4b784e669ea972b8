//! The parts of a document. Each borrows the document and the schema.

use gq_lexer::Place;
use gq_parser::{
    Argument, Directive, Field, Inline, Selection, Spread, TypeRef, VariableDefinition,
};
use gq_schema::{ArgDef, FieldDef};

/// Definition in which a part stands: an operation or a fragment, by its number in the document's list,
/// from 0.
#[derive(Clone, Copy, Debug, PartialEq, Eq)]
pub enum Owner {
    Operation(usize),
    Fragment(usize),
}

/// Location of directives (section 2.12).
#[derive(Clone, Copy, Debug, PartialEq, Eq)]
pub enum DirectiveLocation {
    /// An operation, of whatever kind.
    Operation,
    VariableDefinition,
    Field,
    FragmentSpread,
    InlineFragment,
    FragmentDefinition,
}

/// A selection (section 2.4).
#[derive(Clone, Copy)]
pub struct SelectionPart<'d> {
    pub owner: Owner,
    /// The composite type whose selection set it stands in, where that is known.
    pub parent: Option<&'d str>,
    /// Of a field: its definition, where it is known.
    pub definition: Option<&'d FieldDef>,
    /// The composite type of the set inside it, where that is known.
    pub inside: Option<&'d str>,
    pub selection: &'d Selection,
}

/// A field (section 2.5).
#[derive(Clone, Copy)]
pub struct FieldPart<'d> {
    pub owner: Owner,
    /// The composite type that it is selected of, where that is known.
    pub parent: Option<&'d str>,
    /// Its definition, where it is known. `__typename` has none.
    pub definition: Option<&'d FieldDef>,
    /// The composite type of its own selection set, where that is known.
    pub inside: Option<&'d str>,
    pub field: &'d Field,
}

/// A fragment's spread (section 2.8).
#[derive(Clone, Copy)]
pub struct SpreadPart<'d> {
    pub owner: Owner,
    /// The composite type whose selection set it stands in, where that is known.
    pub parent: Option<&'d str>,
    /// The number of the first fragment of its name, from 0.
    pub target: Option<usize>,
    pub spread: &'d Spread,
}

/// An inline fragment (section 2.8.2).
#[derive(Clone, Copy)]
pub struct InlinePart<'d> {
    pub owner: Owner,
    /// The composite type whose selection set it stands in, where that is known.
    pub parent: Option<&'d str>,
    /// The composite type of its own selection set, where that is known.
    pub inside: Option<&'d str>,
    pub inline: &'d Inline,
}

/// A variable (section 2.10).
#[derive(Clone, Copy)]
pub struct VariablePart<'d> {
    /// The number of the operation that it belongs to, from 0.
    pub operation: usize,
    pub definition: &'d VariableDefinition,
}

/// The directives that stand at one location, at least one (section 2.12).
#[derive(Clone, Copy)]
pub struct DirectiveList<'d> {
    pub owner: Owner,
    pub location: DirectiveLocation,
    pub directives: &'d [Directive],
}

/// The arguments of a field or of a directive, which may be none (section 2.6).
#[derive(Clone, Copy)]
pub struct ArgumentList<'d> {
    pub owner: Owner,
    /// The place of the field or directive.
    pub place: Place,
    /// Holds what may be given, where the field or directive is known.
    pub definitions: Option<&'d [ArgDef]>,
    pub arguments: &'d [Argument],
}

/// An argument (section 2.6).
#[derive(Clone, Copy)]
pub struct ArgumentPart<'d> {
    pub owner: Owner,
    /// Tells whether the field or directive that it is given to is known.
    pub is_known: bool,
    /// Its definition, where there is one.
    pub definition: Option<&'d ArgDef>,
    pub argument: &'d Argument,
}

/// Location of a value (section 5.8.5).
#[derive(Clone, Copy)]
pub struct Location<'d> {
    /// The type that is wanted there.
    pub of_type: &'d TypeRef,
    /// Tells whether there is a default.
    pub has_default: bool,
}

/// A variable in a value (section 2.10).
#[derive(Clone, Copy)]
pub struct VariableUse<'d> {
    pub owner: Owner,
    /// The place of its `$`.
    pub place: Place,
    /// The name without the `$`.
    pub name: &'d str,
    /// Its location, where that is known: not below an object, nor in a list where none is wanted.
    pub location: Option<Location<'d>>,
}
