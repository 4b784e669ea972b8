//! The tree of a schema text, with the place of each name in it (October 2021, section 3).
//!
//! Descriptions and `@deprecated` leave no trace in it.

use gq_lexer::Place;
use gq_parser::{Literal, TypeRef};

/// A schema text: its definitions, in the order of the text (section 3.3). An empty text has none.
#[derive(Debug, Drop)]
pub struct SchemaDocument {
    pub definitions: Vec<Definition>,
}

/// A definition of a type, or of the schema's root (sections 3.3 and 3.4).
#[derive(Debug, Drop)]
pub enum Definition {
    Schema(SchemaDefinition),
    Object(ObjectDefinition),
    Interface(InterfaceDefinition),
    Union(UnionDefinition),
    Enum(EnumDefinition),
}

/// A name, and the place of its first character.
#[derive(Debug, Drop)]
pub struct Name {
    pub text: String,
    pub place: Place,
}

/// The root: `schema { query: Name }` (section 3.3).
#[derive(Debug, Drop)]
pub struct SchemaDefinition {
    /// The place of the word `schema`.
    pub place: Place,
    /// The type that queries begin at.
    pub query: Name,
}

/// An object type (section 3.6).
#[derive(Debug, Drop)]
pub struct ObjectDefinition {
    pub name: Name,
    /// The interfaces that it implements, in the order of the text.
    pub interfaces: Vec<Name>,
    /// At least one field.
    pub fields: Vec<FieldDefinition>,
}

/// An interface (section 3.7).
#[derive(Debug, Drop)]
pub struct InterfaceDefinition {
    pub name: Name,
    /// At least one field.
    pub fields: Vec<FieldDefinition>,
}

/// A union (section 3.8).
#[derive(Debug, Drop)]
pub struct UnionDefinition {
    pub name: Name,
    /// At least one member.
    pub members: Vec<Name>,
}

/// An enum (section 3.9).
#[derive(Debug, Drop)]
pub struct EnumDefinition {
    pub name: Name,
    /// At least one value. None is called `true`, `false` or `null`.
    pub values: Vec<Name>,
}

/// A field of an object type or of an interface (section 3.6).
#[derive(Debug, Drop)]
pub struct FieldDefinition {
    pub name: Name,
    pub arguments: Vec<ArgumentDefinition>,
    /// No list of lists, and not `Float`.
    pub of_type: TypeRef,
}

/// An argument of a field (section 3.6.1).
#[derive(Debug, Drop)]
pub struct ArgumentDefinition {
    pub name: Name,
    /// No list of lists, and not `Float`.
    pub of_type: TypeRef,
    /// Its default, without variables.
    pub default: Option<Literal>,
}
