//! Bindings, and how a text is read to them.

ghost use Rattle.std.specs.Prelude.{◌≡◌, None, Some, IfOk, IfErr, OnOk, map, string_bytes};
ghost use Rattle.std.specs.Option.{option_map, option_copied};
ghost use Rattle.bindings_syntax.specs.Seen.{statement_seen, numbered_seen, form_seen, by_seen};
ghost use Rattle.bindings_syntax.specs.Statements.{field_line};
ghost use Rattle.schema_syntax.specs.Tree.{field_of, fields_of};
ghost use Rattle.gq_schema.specs.Types.{tree_of};
ghost use Rattle.gq_bindings.specs.Reading.{bound_field};
ghost use Rattle.gq_bindings.specs.Tree.{binding_in};
ghost use Rattle.gq_bindings.specs.Seen.{by_of, loader_of, binding_of, bound_of};

use crate::binding::{Binding, BoundField, By, LoaderLine};
use crate::fields::BoundFields;
use crate::forms::field_binding;
use crate::loaders::Loaders;
use crate::types::{is_leaf_type, is_root_type};
use bindings_syntax::{By as ByWords, Form, NumberedStatement, Statement};
use gq_schema::{Schema, SchemaFault};
use schema_syntax::{Definition, FieldDefinition};
use std::alloc::{AllocError, Global};
use std::marker::Model;

/// Bindings of a schema's fields: the loaders, and the binding of each field of an object
/// type.
pub struct Bindings {
    loaders: Loaders,
    fields: BoundFields,
}

impl Model for Bindings {
    ghost use Rattle.gq_bindings.specs.Tree.{BindingsOf};

    ghost Value = { BindingsOf };

    ghost view = { λ b. record { loaders = b.loaders; fields = b.fields } };
}

impl Drop for Bindings {
    fn drop(self) {
        let Bindings {
            loaders: _loaders,
            fields: _fields,
        } = self;
    }
}

fn owned_text(alloc: Global, text: Option<&str>) -> Result<Option<String>, AllocError>
    ensures { IfOk result (λ owned.
        option_map (λ t. string_bytes t) owned ≡ option_map (λ t. t.now) text.entry) }
{
    match text {
        Some(text) => Ok(Some(String::from_str(alloc, text)?)),
        None => Ok(None),
    }
}

fn owned_by(alloc: Global, by: Option<ByWords<'_>>) -> Result<Option<By>, AllocError>
    ensures { IfOk result (λ owned. option_map by_of owned
        ≡ option_map by_seen by.entry) }
{
    match by {
        Some(by) => Ok(Some(By {
            column: String::from_str(alloc, by.column)?,
            second: owned_text(alloc, by.second)?,
            fold: by.fold,
        })),
        None => Ok(None),
    }
}

fn owned_loader(
    alloc: Global,
    name: &str,
    table: &str,
    by: Option<ByWords<'_>>,
) -> Result<LoaderLine, AllocError>
    ensures { IfOk result (λ line. loader_of line
        ≡ record { name = name.now; table = table.now; by = option_map by_seen by.entry }) }
{
    let by = owned_by(alloc, by)?;
    let name = String::from_str(alloc, name)?;
    let table = String::from_str(alloc, table)?;
    Ok(LoaderLine { name, table, by })
}

fn owned_field(
    alloc: Global,
    type_name: &str,
    field_name: &str,
    binding: Binding,
) -> Result<BoundField, AllocError>
    ensures { IfOk result (λ field. bound_of field
        ≡ bound_field type_name.now field_name.now (binding_of binding)) }
{
    let type_name = String::from_str(alloc, type_name)?;
    let field_name = String::from_str(alloc, field_name)?;
    Ok(BoundField {
        type_name,
        field_name,
        binding,
    })
}

impl Bindings {
    ghost use Rattle.gq_bindings.specs.Seen.{binding_of, loader_of};
    ghost use Rattle.gq_bindings.specs.Reading.{AreNewIf, nothing, after_loader, after_statement, after_statements, settled_field, settled_fields, settled, bindings_of, accepted};
    ghost use Rattle.gq_bindings.specs.Faults.{Refuses};

    /// Reads a bindings text over a schema.
    ///
    /// Loaders are defined before they are used. A field has at most one line, and its type is an
    /// object type. `column` is for a leaf, `one` for a composite, and `many`, `each` and `via` are for a
    /// list of composites. A key `arg NAME` names an argument that is an `Int`, an `ID` or a `String`; the
    /// argument of `each` is a list of one of these. The fields of the root have no row, so they take
    /// neither a column nor a key from one. `all` stands exactly with a loader without `by`, and a key of
    /// two parts exactly with one by two columns; the loader of `each` and the later ones of `via` find
    /// their rows by one column. A field of leaf type without a line is bound to the column of its own
    /// name.
    ///
    /// # Errors
    ///
    /// `BadBinding` with the number of the first line that has no form or breaks one of these rules; and then
    /// with 0 where the text has no line `bindings 1` or `bindings 2`, or a field of an object type needs a
    /// line and has none: a field of the root, or one whose type is composite or a list. `NoMemory` for want of
    /// memory. It returns no other of these faults.
    pub fn read(alloc: Global, schema: &Schema, text: &str) -> Result<Bindings, SchemaFault>
        ensures ok { IfOk result (λ bindings.
            bindings_of (tree_of schema.now) text.now ≡ accepted bindings) }
        ensures fault { IfErr result (λ fault.
            Refuses fault (bindings_of (tree_of schema.now) text.now)) }
    {
        let text = bindings_syntax::read(alloc, text)?;
        let mut bindings = Bindings::new(alloc);
        bindings.add_statements(alloc, schema, &text.statements)?;
        if let Some(line) = text.bad_line {
            return Err(SchemaFault::BadBinding(line));
        }
        if text.is_headed && bindings.settle(alloc, schema)? {
            Ok(bindings)
        } else {
            Err(SchemaFault::BadBinding(0))
        }
    }

    /// The binding of a field of an object type; `None` if there is no such field, or the type isn't an
    /// object type. A field of leaf type without a line is bound to the column of its own name.
    pub fn binding_of(&self, ty: &str, field: &str) -> Option<&Binding>
        ensures { option_map binding_of (option_copied result)
            ≡ binding_in self.now.fields ty.now field.now }
    {
        self.fields.get(ty, field)
    }

    /// The loaders in the order of their lines. A binding names them by their places here.
    pub fn loaders(&self) -> &[LoaderLine]
        ensures { map loader_of result.now
            ≡ self.now.loaders }
    {
        self.loaders.as_slice()
    }

    fn new(alloc: Global) -> Bindings
        ensures { result ≡ nothing }
    {
        Bindings {
            loaders: Loaders::new(alloc),
            fields: BoundFields::new(alloc),
        }
    }

    /// Adds what the lines say, up to the first bad one.
    fn add_statements(
        &mut self,
        alloc: Global,
        schema: &Schema,
        statements: &[NumberedStatement<'_>],
    ) -> Result<(), SchemaFault>
        ensures ok { OnOk result (after_statements (tree_of schema.now)
            self.old (map numbered_seen statements.now) ≡ accepted self.new) }
        ensures fault { IfErr result (λ fault. Refuses fault
            (after_statements (tree_of schema.now) self.old (map numbered_seen statements.now))) }
    {
        for numbered in statements {
            if !self.add_statement(alloc, schema, numbered.statement)? {
                return Err(SchemaFault::BadBinding(numbered.line));
            }
        }
        Ok(())
    }

    /// Adds what a line says; false where it is bad.
    fn add_statement(
        &mut self,
        alloc: Global,
        schema: &Schema,
        statement: Statement<'_>,
    ) -> Result<bool, AllocError>
        ensures { IfOk result (AreNewIf (after_statement (tree_of schema.now)
            self.old (statement_seen statement.entry)) self.new) }
    {
        match statement {
            Statement::Loader { name, table, by } => self.add_loader(alloc, name, table, by),
            Statement::Field {
                type_name,
                field_name,
                form,
            } => self.add_field(alloc, schema, type_name, field_name, form),
        }
    }

    /// Adds a loader; false where its name is defined.
    fn add_loader(
        &mut self,
        alloc: Global,
        name: &str,
        table: &str,
        by: Option<ByWords<'_>>,
    ) -> Result<bool, AllocError>
        ensures { IfOk result (AreNewIf (after_loader self.old (record
            { name = name.now; table = table.now; by = option_map by_seen by.entry })) self.new) }
    {
        if self.loaders.find(name).is_some() {
            return Ok(false);
        }
        let line = owned_loader(alloc, name, table, by)?;
        self.loaders.push(line)?;
        Ok(true)
    }

    /// Adds the binding of a field; false where it has one, or the form gives none that fits.
    fn add_field(
        &mut self,
        alloc: Global,
        schema: &Schema,
        type_name: &str,
        field_name: &str,
        form: Form<'_>,
    ) -> Result<bool, AllocError>
        ensures { IfOk result (AreNewIf (after_statement (tree_of schema.now) self.old
            (field_line type_name.now field_name.now (form_seen form.entry))) self.new) }
    {
        if self.fields.get(type_name, field_name).is_some() {
            return Ok(false);
        }
        match field_binding(alloc, schema, &self.loaders, type_name, field_name, form)? {
            Some(binding) => {
                let field = owned_field(alloc, type_name, field_name, binding)?;
                self.fields.push(field)?;
                Ok(true)
            }
            None => Ok(false),
        }
    }

    /// Binds each field of an object type that has no line; false where one needs a line.
    fn settle(&mut self, alloc: Global, schema: &Schema) -> Result<bool, AllocError>
        ensures { IfOk result
            (AreNewIf (settled (tree_of schema.now) self.old (tree_of schema.now)) self.new) }
    {
        for indexed in schema.definitions() {
            if let Definition::Object(object) = &indexed.definition {
                if !self.settle_fields(alloc, schema, &object.name.text, &object.fields)? {
                    return Ok(false);
                }
            }
        }
        Ok(true)
    }

    /// Binds each of these fields of a type that has no line; false where one needs a line.
    fn settle_fields(
        &mut self,
        alloc: Global,
        schema: &Schema,
        type_name: &str,
        fields: &[FieldDefinition],
    ) -> Result<bool, AllocError>
        ensures { IfOk result (AreNewIf (settled_fields (tree_of schema.now)
            type_name.now self.old (fields_of fields.now)) self.new) }
    {
        for field in fields {
            if !self.settle_field(alloc, schema, type_name, field)? {
                return Ok(false);
            }
        }
        Ok(true)
    }

    /// Binds a field that has no line to the column of its own name; false where it needs a line.
    fn settle_field(
        &mut self,
        alloc: Global,
        schema: &Schema,
        type_name: &str,
        field: &FieldDefinition,
    ) -> Result<bool, AllocError>
        ensures { IfOk result (AreNewIf (settled_field (tree_of schema.now)
            type_name.now self.old (field_of field.now)) self.new) }
    {
        if self.fields.get(type_name, &field.name.text).is_some() {
            return Ok(true);
        }
        if is_root_type(schema, type_name) || !is_leaf_type(schema, &field.of_type) {
            return Ok(false);
        }
        let column = Binding::Column(String::from_str(alloc, &field.name.text)?);
        let bound = owned_field(alloc, type_name, &field.name.text, column)?;
        self.fields.push(bound)?;
        Ok(true)
    }
}
