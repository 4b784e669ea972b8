//! The uses of types' names.

ghost use Rattle.std.specs.Prelude.{◌≡◌};
ghost use Rattle.gq_parser.specs.Tree.{type_of};
ghost use Rattle.schema_syntax.specs.Tree.{name_of, names_of, arguments_of, fields_of, definition_of};
ghost use Rattle.gq_schema.specs.Scan.{first_in};
ghost use Rattle.gq_schema.specs.Types.{tree_of, core_of};
ghost use Rattle.gq_schema.specs.Uses.{fits, keeps, broken_use, broken_argument, broken_field, broken_root, broken_in, first_broken};

use crate::kind::TypeKind;
use crate::schema::Schema;
use gq_lexer::Place;
use gq_parser::TypeRef;
use schema_syntax::{ArgumentDefinition, Definition, FieldDefinition, Name};

/// Role of the use of a type's name.
#[derive(Clone, Copy, Debug, PartialEq, Eq)]
pub enum Role {
    FieldType,
    ArgumentType,
    Implemented,
    Member,
    Root,
}

/// Demand on the use of a type's name.
#[derive(Clone, Copy, Debug, PartialEq, Eq)]
pub enum TypeUseDemand {
    /// The name has a definition.
    IsDefined,
    /// The named type may stand there.
    Fits,
}

// Tells whether a type of this kind may stand there.
fn fits(role: Role, kind: TypeKind) -> bool
    ensures { result ≡ fits role kind }
{
    match role {
        Role::FieldType => true,
        Role::ArgumentType => kind.is_leaf(),
        Role::Implemented => kind == TypeKind::Interface,
        Role::Member => kind == TypeKind::Object,
        Role::Root => kind == TypeKind::Object,
    }
}

fn keeps(rule: TypeUseDemand, role: Role, kind: Option<TypeKind>) -> bool
    ensures { result ≡ keeps rule role kind }
{
    match (rule, kind) {
        (_, Some(kind)) => rule == TypeUseDemand::IsDefined || fits(role, kind),
        (TypeUseDemand::IsDefined, None) => false,
        (TypeUseDemand::Fits, None) => true,
    }
}

fn broken_use(
    schema: &Schema,
    rule: TypeUseDemand,
    role: Role,
    name: &str,
    place: Place,
) -> Option<Place>
    ensures { result
        ≡ broken_use (tree_of schema.now) rule role (record { text = name.now; place = place }) }
{
    if keeps(rule, role, schema.kind_of(name)) {
        None
    } else {
        Some(place)
    }
}

fn broken_name(schema: &Schema, rule: TypeUseDemand, role: Role, name: &Name) -> Option<Place>
    ensures { result ≡ broken_use
        (tree_of schema.now) rule role (name_of name.now) }
{
    broken_use(schema, rule, role, name.text.as_str(), name.place)
}

fn broken_type(schema: &Schema, rule: TypeUseDemand, role: Role, of_type: &TypeRef) -> Option<Place>
    ensures { result ≡ broken_use (tree_of schema.now)
        rule role (core_of (type_of of_type.now)) }
{
    broken_use(
        schema,
        rule,
        role,
        of_type.innermost_name(),
        of_type.named_place(),
    )
}

fn broken_names(schema: &Schema, rule: TypeUseDemand, role: Role, names: &[Name]) -> Option<Place>
    ensures { result ≡ first_in (broken_use (tree_of schema.now) rule role) (names_of names.now) }
{
    for name in names {
        if let Some(place) = broken_name(schema, rule, role, name) {
            return Some(place);
        }
    }
    None
}

fn broken_arguments(
    schema: &Schema,
    rule: TypeUseDemand,
    arguments: &[ArgumentDefinition],
) -> Option<Place>
    ensures { result
        ≡ first_in (broken_argument (tree_of schema.now) rule) (arguments_of arguments.now) }
{
    for argument in arguments {
        if let Some(place) = broken_type(schema, rule, Role::ArgumentType, &argument.of_type) {
            return Some(place);
        }
    }
    None
}

fn broken_fields(schema: &Schema, rule: TypeUseDemand, fields: &[FieldDefinition]) -> Option<Place>
    ensures { result ≡ first_in (broken_field (tree_of schema.now) rule) (fields_of fields.now) }
{
    for field in fields {
        if let Some(place) = broken_arguments(schema, rule, &field.arguments) {
            return Some(place);
        }
        if let Some(place) = broken_type(schema, rule, Role::FieldType, &field.of_type) {
            return Some(place);
        }
    }
    None
}

// The use of a definition's own name, where it is the root without a `schema`.
fn broken_root(schema: &Schema, rule: TypeUseDemand, name: &Name) -> Option<Place>
    ensures { result ≡ broken_root
        (tree_of schema.now) rule (name_of name.now) }
{
    if !schema.declares_root() && name.text.as_str() == "Query" {
        broken_name(schema, rule, Role::Root, name)
    } else {
        None
    }
}

fn broken_in(schema: &Schema, rule: TypeUseDemand, definition: &Definition) -> Option<Place>
    ensures { result ≡ broken_in (tree_of schema.now) rule
        (definition_of definition.now) }
{
    match definition {
        Definition::Schema(root) => broken_name(schema, rule, Role::Root, &root.query),
        Definition::Object(object) => broken_root(schema, rule, &object.name)
            .or_else(|| broken_names(schema, rule, Role::Implemented, &object.interfaces))
            .or_else(|| broken_fields(schema, rule, &object.fields)),
        Definition::Interface(interface) => broken_root(schema, rule, &interface.name).or_else(
            || broken_fields(schema, rule, &interface.fields),
        ),
        Definition::Union(union) => broken_root(schema, rule, &union.name).or_else(|| broken_names(
            schema,
            rule,
            Role::Member,
            &union.members,
        )),
        Definition::Enum(values) => broken_root(schema, rule, &values.name),
    }
}

/// The first use in the text of a type's name that breaks the rule.
pub fn first_broken(schema: &Schema, rule: TypeUseDemand) -> Option<Place>
    ensures { result ≡ first_broken
        (tree_of schema.now) rule }
{
    for indexed in schema.definitions() {
        if let Some(place) = broken_in(schema, rule, &indexed.definition) {
            return Some(place);
        }
    }
    None
}
