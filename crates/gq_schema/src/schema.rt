//! Schemas, and what they say of names.

ghost use Rattle.std.specs.Prelude.{◌≡◌, ◌∷◌, [], IfOk, IfSome, map, is_some, unwrap_or, string_bytes};
ghost use Rattle.gq_schema.specs.Entries.{entry_in};
ghost use Rattle.gq_schema.specs.Indexes.{definition_in};
ghost use Rattle.std.specs.Option.{option_map, option_copied};
ghost use Rattle.schema_syntax.specs.Tree.{arguments_of, field_of, fields_of, definition_of};
ghost use Rattle.gq_parser.specs.Tree.{type_of};
ghost use Rattle.gq_schema.specs.Schemas.{condition_argument};
ghost use Rattle.gq_schema.specs.Types.{tree_of, declared_root, query, root_in, type_in, kind_in, fields_in, field_in, has_value, can_be, possible_in, is_covariant};

use crate::built_in::condition_arguments;
use crate::entries::{TypeEntry, entry_of, field_entries};
use crate::found::{FoundField, FoundType};
use crate::index::{IndexedDefinition, NameIndices, index};
use crate::kind::TypeKind;
use crate::names::own_fields;
use crate::possible::{Possible, possible_in};
use crate::types::{declared_root, definition, kind, type_places};
use gq_parser::TypeRef;
use schema_syntax::{ArgumentDefinition as ArgDef, FieldDefinition as FieldDef, SchemaDocument};
use std::alloc::{AllocError, Global};
use std::marker::Model;

/// The types of a schema with their fields, arguments, values and possible types, each found by its name (section 3).
///
/// The four built-in scalars are types of each schema.
pub struct Schema {
    definitions: Vec<IndexedDefinition>,
    root: Option<String>,
    types: NameIndices,
    possible: Possible,
    // what the root is, and what the types of each definition's fields are
    root_entry: TypeEntry,
    field_entries: Vec<Vec<TypeEntry>>,
    // the arguments of `skip` and of `include`
    condition: Vec<ArgDef>,
}

impl Model for Schema {
    ghost use Rattle.std.specs.Prelude.{List, map};
    ghost use Rattle.schema_syntax.specs.declared.tree.Definition.{Definition};
    ghost use Rattle.gq_parser.specs.contracts.tree.TypeRef as type_ref;
    ghost use Rattle.gq_parser.specs.contracts.tree.Literal as literal;
    ghost use Rattle.std.specs.Coded.{codes};

    ghost Value = { List Definition };

    ghost coded = { Prim.hlevel (codes, type_ref.the_row.coded, literal.the_row.coded) };

    ghost use Rattle.gq_schema.specs.Indexes.{definition_in};
    ghost use Rattle.gq_schema.specs.Schemas.{IsIndexed};

    ghost view = { λ s. map definition_in s.definitions.items };

    ghost invariant = { λ s. IsIndexed s.definitions.items s.root s.types s.possible
        s.root_entry s.field_entries.items s.condition.items };
}

impl Drop for Schema {
    fn drop(self) {
        let Schema {
            definitions: _definitions,
            root: _root,
            types: _types,
            possible: _possible,
            root_entry: _root_entry,
            field_entries: _field_entries,
            condition: _condition,
        } = self;
    }
}

// The name of the root, where `schema` names this one.
fn root_name(root: &Option<String>) -> &str
    ensures { result.now ≡ unwrap_or
        (option_map string_bytes root.now) query }
{
    match root {
        Some(root) => root.as_str(),
        None => "Query",
    }
}

impl Schema {
    /// The schema of these definitions, which may break rules.
    pub(crate) fn of(alloc: Global, document: SchemaDocument) -> Result<Schema, AllocError>
        ensures { IfOk result (λ schema.
            schema ≡ document.definitions.items) }
    {
        let definitions = index(alloc, document.definitions)?;
        let root = declared_root(&definitions)?;
        let types = type_places(alloc, &definitions)?;
        let possible = possible_in(alloc, &definitions)?;
        let root_entry = entry_of(&definitions, &types, root_name(&root));
        let field_entries = field_entries(alloc, &definitions, &types)?;
        let condition = condition_arguments(alloc)?;
        Ok(Schema {
            definitions,
            root,
            types,
            possible,
            root_entry,
            field_entries,
            condition,
        })
    }

    /// The definitions in the order of the text.
    pub fn definitions(&self) -> &[IndexedDefinition]
        ensures { map definition_in result.now ≡ self.now }
    {
        &self.definitions
    }

    /// The arguments of `skip` and of `include`, the directives of every schema. Their places say nothing.
    pub fn condition_arguments(&self) -> &[ArgDef]
        ensures { arguments_of result.now
            ≡ condition_argument ∷ [] }
    {
        &self.condition
    }

    /// Tells whether there is a `schema`.
    pub(crate) fn declares_root(&self) -> bool
        ensures { result ≡ is_some
            (declared_root (tree_of self.now)) }
    {
        self.root.is_some()
    }

    /// The name of the type that queries begin at (section 3.3.1).
    pub fn root(&self) -> &str
        ensures { result.now ≡ root_in (tree_of self.now) }
    {
        root_name(&self.root)
    }

    /// The type that queries begin at.
    pub fn root_type(&self) -> FoundType<'_>
        ensures schema { result.schema.now ≡ self.now }
        ensures name { result.name.now
            ≡ root_in (tree_of self.now) }
    {
        FoundType {
            schema: self,
            name: self.root(),
            entry: self.root_entry,
        }
    }

    /// The type of this name. There may be none.
    pub fn find_type<'a>(&'a self, name: &'a str) -> FoundType<'a>
        ensures schema { result.schema.now ≡ self.now }
        ensures name { result.name.now ≡ name.now }
    {
        FoundType {
            schema: self,
            name,
            entry: entry_of(&self.definitions, &self.types, name),
        }
    }

    /// The field of a type that was found.
    pub(crate) fn field_below(
        &self,
        ty: &str,
        entry: TypeEntry,
        name: &str,
    ) -> Option<FoundField<'_>>
        requires { entry ≡ entry_in (tree_of self.now) ty.now }
        ensures schema { IfSome result (λ f. f.schema.now ≡ self.now) }
        ensures definition { option_map (λ f. field_of f.definition.now) result
            ≡ field_in (tree_of self.now) ty.now name.now }
    {
        let number = entry.place?;
        let indexed = &self.definitions[number];
        let fields = own_fields(&indexed.definition);
        let place = indexed.field_place(name)?;
        let entries = &self.field_entries[number];
        Some(FoundField {
            schema: self,
            definition: &fields[place],
            entry: entries[place],
        })
    }

    // The definition of a type.
    fn definition(&self, name: &str) -> Option<&IndexedDefinition>
        ensures { option_map (λ indexed. definition_of indexed.definition) (option_copied result)
            ≡ type_in (tree_of self.now) name.now }
    {
        definition(&self.definitions, &self.types, name)
    }

    /// Tells whether the text defines a type of this name.
    pub(crate) fn defines(&self, name: &str) -> bool
        ensures { result ≡ is_some
            (type_in (tree_of self.now) name.now) }
    {
        self.definition(name).is_some()
    }

    /// The kind of a type; `None` if there is no type of this name.
    pub fn kind_of(&self, name: &str) -> Option<TypeKind>
        ensures { result ≡ kind_in
            (tree_of self.now) name.now }
    {
        kind(&self.definitions, &self.types, name)
    }

    /// The fields of an object type or of an interface, in order; none where there is no such type.
    pub fn fields(&self, ty: &str) -> &[FieldDef]
        ensures { fields_of result.now
            ≡ fields_in (tree_of self.now) ty.now }
    {
        match self.definition(ty) {
            Some(indexed) => own_fields(&indexed.definition),
            None => &[],
        }
    }

    /// The field of a type; nothing where there is no such type or no such field (section 3.6).
    pub fn field(&self, ty: &str, name: &str) -> Option<&FieldDef>
        ensures { option_map field_of (option_copied result)
            ≡ field_in (tree_of self.now) ty.now name.now }
    {
        self.definition(ty)?.field(name)
    }

    /// Tells whether a type is an enum that has this value (section 3.9).
    pub fn has_value(&self, ty: &str, value: &str) -> bool
        ensures { result ≡ has_value
            (tree_of self.now) ty.now value.now }
    {
        match self.definition(ty) {
            Some(indexed) => indexed.has_value(value),
            None => false,
        }
    }

    /// Tells whether an object type is a possible type of a type: it is that type, implements it, or is a member of it.
    pub fn can_be(&self, ty: &str, object: &str) -> bool
        ensures { result ≡ can_be
            (tree_of self.now) ty.now object.now }
    {
        match self.possible.get(ty) {
            Some(names) => names.contains(object),
            None => false,
        }
    }

    /// The object types that a type can be, in the order of their definitions: of an object type itself, of an interface
    /// the types that implement it, of a union its members. Nothing for a scalar, an enum and an unknown name.
    pub fn possible_types(&self, ty: &str) -> Option<&[String]>
        ensures { option_map (λ names. map string_bytes names.now) result
            ≡ possible_in (tree_of self.now) ty.now }
    {
        let kind = self.kind_of(ty)?;
        if kind.is_leaf() {
            return None;
        }
        match self.possible.get(ty) {
            Some(names) => Some(names.as_slice()),
            None => Some(&[]),
        }
    }

    /// Tells whether a type is covariant with another (section 3.6): equal types; an object type with an interface that
    /// it implements or a union that has it; a list with a list, if their items are; a non-null type with one that may
    /// be null.
    pub fn is_covariant(&self, own: &TypeRef, wanted: &TypeRef) -> bool
        ensures { result ≡ is_covariant (tree_of self.now)
            (type_of own.now) (type_of wanted.now) }
    {
        match (own, wanted) {
            (
                TypeRef::Named { name, non_null, .. },
                TypeRef::Named {
                    name: wanted_name,
                    non_null: wanted_non_null,
                    ..
                },
            ) => {
                (*non_null || !*wanted_non_null)
                    && (name.as_str() == wanted_name.as_str()
                        || self.can_be(wanted_name.as_str(), name.as_str()))
            }
            (
                TypeRef::List { item, non_null, .. },
                TypeRef::List {
                    item: wanted_item,
                    non_null: wanted_non_null,
                    ..
                },
            ) => (*non_null || !*wanted_non_null) && self.is_covariant(item, wanted_item),
            _ => false,
        }
    }
}
