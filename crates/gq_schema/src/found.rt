//! Types and fields that were found once: below them no type is looked up by its name.

ghost use Rattle.std.specs.Prelude.{◌≡◌, IfSome};
ghost use Rattle.std.specs.Option.{option_map};
ghost use Rattle.gq_parser.specs.Tree.{type_of};
ghost use Rattle.schema_syntax.specs.Tree.{field_of};
ghost use Rattle.gq_schema.specs.Types.{tree_of, kind_in, field_in, core_of};
ghost use Rattle.gq_schema.specs.Entries.{entry_in};

use crate::entries::TypeEntry;
use crate::kind::TypeKind;
use crate::schema::Schema;
use schema_syntax::FieldDefinition as FieldDef;

/// A name of a type in a schema, looked up once. There may be no such type.
#[derive(Clone, Copy)]
pub struct FoundType<'a> {
    pub schema: &'a Schema,
    pub name: &'a str,
    pub(crate) entry: TypeEntry,
    ghost found: { entry ≡ entry_in (tree_of schema.now) name.now },
}

/// A field's definition in a schema, with what its innermost type is.
#[derive(Clone, Copy)]
pub struct FoundField<'a> {
    pub schema: &'a Schema,
    pub definition: &'a FieldDef,
    pub(crate) entry: TypeEntry,
    ghost found: { entry ≡ entry_in (tree_of schema.now)
        (core_of (type_of definition.now.of_type)).text },
}

impl<'a> FoundType<'a> {
    /// The kind of the type; `None` if there is no type of the name.
    pub fn kind(&self) -> Option<TypeKind>
        ensures { result ≡ kind_in
            (tree_of self.now.schema.now) self.now.name.now }
    {
        self.entry.kind
    }

    /// The field of this name; nothing where there is no such type or no such field (section 3.6).
    pub fn field(&self, name: &str) -> Option<FoundField<'a>>
        ensures schema { IfSome result (λ f. f.schema.now ≡ self.now.schema.now) }
        ensures definition { option_map (λ f. field_of f.definition.now) result
            ≡ field_in (tree_of self.now.schema.now) self.now.name.now name.now }
    {
        self.schema.field_below(self.name, self.entry, name)
    }
}

impl<'a> FoundField<'a> {
    /// The innermost type of the field.
    pub fn of_type(&self) -> FoundType<'a>
        ensures schema { result.schema.now ≡ self.now.schema.now }
        ensures name { result.name.now
            ≡ (core_of (type_of self.now.definition.now.of_type)).text }
    {
        FoundType {
            schema: self.schema,
            name: self.definition.of_type.innermost_name(),
            entry: self.entry,
        }
    }
}
