//! Bindings that the lines of fields give.

ghost use Rattle.std.specs.Prelude.{◌≡◌, [], ◌∷◌, IfOk, map};
ghost use Rattle.std.specs.Option.{option_map};
ghost use Rattle.bindings_syntax.specs.Seen.{part_seen, key_seen, step_seen, steps_seen, form_seen};
ghost use Rattle.bindings_syntax.specs.Statements.{to_column, to_one, to_many, to_each, to_via};
ghost use Rattle.schema_syntax.specs.Tree.{field_of};
ghost use Rattle.gq_schema.specs.Types.{tree_of};
ghost use Rattle.gq_bindings.specs.Seen.{part_of, key_of, step_of, binding_of};
ghost use Rattle.gq_bindings.specs.Forms.{keyed_loader, paired_loader, whole_loader, part_fits, asked_loader, later_step, later_steps, field_binding};
ghost use Rattle.gq_bindings.specs.Targets.{Gives};

use crate::binding::{Binding, KeyOrigin, KeyPart, ViaLoader};
use crate::loaders::{Loaders, NumberedLoader};
use crate::types::{
    is_composite_list, is_composite_type, is_leaf_type, is_object_type, is_root_type, takes_key,
    takes_keys,
};
use bindings_syntax::{
    Form, KeyPart as PartWords, KeyWords, ViaLoaders as StepsWords, ViaWords as StepWords,
};
use gq_schema::Schema;
use schema_syntax::FieldDefinition;
use std::alloc::{AllocError, Global};
use std::sync::Arc;

/// The number of a loader that finds its rows by exactly one column.
fn keyed_loader(loaders: &Loaders, name: &str) -> Option<usize>
    ensures { result ≡ keyed_loader loaders.now name.now }
{
    let NumberedLoader { number, line } = loaders.find(name)?;
    match &line.by {
        Some(by) if by.second.is_none() => Some(number),
        _ => None,
    }
}

/// The number of a loader that finds its rows by two columns.
fn paired_loader(loaders: &Loaders, name: &str) -> Option<usize>
    ensures { result ≡ paired_loader loaders.now name.now }
{
    let NumberedLoader { number, line } = loaders.find(name)?;
    match &line.by {
        Some(by) if by.second.is_some() => Some(number),
        _ => None,
    }
}

/// The number of a loader that gives all rows.
fn whole_loader(loaders: &Loaders, name: &str) -> Option<usize>
    ensures { result ≡ whole_loader loaders.now name.now }
{
    let NumberedLoader { number, line } = loaders.find(name)?;
    if line.by.is_some() {
        None
    } else {
        Some(number)
    }
}

fn owned_part(alloc: Global, part: PartWords<'_>) -> Result<KeyPart, AllocError>
    ensures { IfOk result
        (λ owned. part_of owned ≡ part_seen part.entry) }
{
    match part {
        PartWords::Argument(name) => Ok(KeyPart::Argument(String::from_str(alloc, name)?)),
        PartWords::Column(name) => Ok(KeyPart::Column(String::from_str(alloc, name)?)),
    }
}

fn owned_key(alloc: Global, key: KeyWords<'_>) -> Result<KeyOrigin, AllocError>
    ensures { IfOk result
        (λ owned. key_of owned ≡ key_seen key.entry) }
{
    match key {
        KeyWords::Argument(name) => Ok(KeyOrigin::Argument(String::from_str(alloc, name)?)),
        KeyWords::Column(name) => Ok(KeyOrigin::Column(String::from_str(alloc, name)?)),
        KeyWords::All => Ok(KeyOrigin::All),
        KeyWords::Pair(one, two) => {
            let one = owned_part(alloc, one)?;
            let two = owned_part(alloc, two)?;
            Ok(KeyOrigin::Pair(one, two))
        }
    }
}

/// A loader of `via` after its first; none where no loader by one column has that name.
fn later_step(
    alloc: Global,
    loaders: &Loaders,
    step: StepWords<'_>,
) -> Result<Option<ViaLoader>, AllocError>
    ensures { IfOk result (λ found.
        option_map step_of found ≡ later_step loaders.now (step_seen step.entry)) }
{
    let Some(loader) = keyed_loader(loaders, step.loader) else {
        return Ok(None);
    };
    let column = String::from_str(alloc, step.column)?;
    Ok(Some(ViaLoader { loader, column }))
}

/// The loaders of `via` after its first.
fn later_steps(
    alloc: Global,
    loaders: &Loaders,
    steps: &[StepWords<'_>],
) -> Result<Option<Vec<ViaLoader>>, AllocError>
    ensures { IfOk result (λ found. option_map (λ v. map step_of v.items) found
        ≡ later_steps loaders.now (map step_seen steps.now)) }
{
    let mut found = Vec::with_capacity(alloc, steps.len())?;
    for words in steps {
        let Some(step) = later_step(alloc, loaders, *words)? else {
            return Ok(None);
        };
        found.push(step)?;
    }
    Ok(Some(found))
}

/// Does the same of one to three.
fn owned_steps(
    alloc: Global,
    loaders: &Loaders,
    steps: StepsWords<'_>,
) -> Result<Option<Vec<ViaLoader>>, AllocError>
    ensures { IfOk result (λ found. option_map (λ v. map step_of v.items) found
        ≡ later_steps loaders.now (steps_seen steps.entry)) }
{
    match steps {
        StepsWords::One(first) => later_steps(alloc, loaders, &[first]),
        StepsWords::Two(first, second) => later_steps(alloc, loaders, &[first, second]),
        StepsWords::Three(first, second, third) => {
            later_steps(alloc, loaders, &[first, second, third])
        }
    }
}

/// The field that a line binds, and what its form is read over.
#[derive(Clone, Copy)]
struct Target<'a> {
    schema: &'a Schema,
    loaders: &'a Loaders,
    field: &'a FieldDefinition,
    /// Tells whether the field is one of a root type, whose objects have no row.
    of_root: bool,
}

impl Target<'_> {
    /// Tells whether the field can take this part of a key.
    fn takes_part(&self, part: PartWords<'_>) -> bool
        ensures { result
            ≡ part_fits self.now.of_root (field_of self.now.field.now) (part_seen part.entry) }
    {
        match part {
            PartWords::Argument(argument) => takes_key(self.field, argument),
            PartWords::Column(_) => !self.of_root,
        }
    }

    /// The number of a loader that the field can ask with this key.
    fn asked_loader(&self, name: &str, key: KeyWords<'_>) -> Option<usize>
        ensures { result ≡ asked_loader self.now.loaders.now self.now.of_root
            (field_of self.now.field.now) name.now (key_seen key.entry) }
    {
        match key {
            KeyWords::Argument(argument) => {
                if takes_key(self.field, argument) {
                    keyed_loader(self.loaders, name)
                } else {
                    None
                }
            }
            KeyWords::Column(_) => {
                if self.of_root {
                    None
                } else {
                    keyed_loader(self.loaders, name)
                }
            }
            KeyWords::All => whole_loader(self.loaders, name),
            KeyWords::Pair(one, two) => {
                if self.takes_part(one) && self.takes_part(two) {
                    paired_loader(self.loaders, name)
                } else {
                    None
                }
            }
        }
    }

    /// `column COLUMN`, for a leaf.
    fn column(&self, alloc: Global, column: &str) -> Result<Option<Binding>, AllocError>
        ensures { IfOk result
            (Gives self.now (to_column column.now)) }
    {
        if !self.of_root && is_leaf_type(self.schema, &self.field.of_type) {
            Ok(Some(Binding::Column(String::from_str(alloc, column)?)))
        } else {
            Ok(None)
        }
    }

    /// `one LOADER KEY`, for a composite.
    fn one(
        &self,
        alloc: Global,
        loader: &str,
        key: KeyWords<'_>,
    ) -> Result<Option<Binding>, AllocError>
        ensures { IfOk result (Gives self.now (to_one loader.now (key_seen key.entry))) }
    {
        if !is_composite_type(self.schema, &self.field.of_type) {
            return Ok(None);
        }
        let Some(loader) = self.asked_loader(loader, key) else {
            return Ok(None);
        };
        let key = owned_key(alloc, key)?;
        Ok(Some(Binding::One { loader, key }))
    }

    /// `many LOADER KEY`, for a list of composites.
    fn many(
        &self,
        alloc: Global,
        loader: &str,
        key: KeyWords<'_>,
    ) -> Result<Option<Binding>, AllocError>
        ensures { IfOk result (Gives self.now (to_many loader.now (key_seen key.entry))) }
    {
        if !is_composite_list(self.schema, &self.field.of_type) {
            return Ok(None);
        }
        let Some(loader) = self.asked_loader(loader, key) else {
            return Ok(None);
        };
        let key = owned_key(alloc, key)?;
        Ok(Some(Binding::Many { loader, key }))
    }

    /// `each LOADER arg NAME`, for a list of composites.
    fn each(
        &self,
        alloc: Global,
        loader: &str,
        argument: &str,
    ) -> Result<Option<Binding>, AllocError>
        ensures { IfOk result (Gives self.now (to_each loader.now argument.now)) }
    {
        if !is_composite_list(self.schema, &self.field.of_type)
            || !takes_keys(self.field, argument)
        {
            return Ok(None);
        }
        let Some(loader) = keyed_loader(self.loaders, loader) else {
            return Ok(None);
        };
        let argument = String::from_str(alloc, argument)?;
        Ok(Some(Binding::Each { loader, argument }))
    }

    /// `via LOADER KEY LOADER2 COLUMN ..`, for a list of composites.
    fn via(
        &self,
        alloc: Global,
        loader: &str,
        key: KeyWords<'_>,
        steps: StepsWords<'_>,
    ) -> Result<Option<Binding>, AllocError>
        ensures { IfOk result
            (Gives self.now (to_via loader.now (key_seen key.entry) (steps_seen steps.entry))) }
    {
        if !is_composite_list(self.schema, &self.field.of_type) {
            return Ok(None);
        }
        let Some(loader) = self.asked_loader(loader, key) else {
            return Ok(None);
        };
        let Some(steps) = owned_steps(alloc, self.loaders, steps)? else {
            return Ok(None);
        };
        let key = owned_key(alloc, key)?;
        let steps = Arc::new(alloc, steps)?;
        Ok(Some(Binding::Via { loader, key, steps }))
    }

    /// Returns what a form gives for the field; nothing where it does not fit.
    fn binding(&self, alloc: Global, form: Form<'_>) -> Result<Option<Binding>, AllocError>
        ensures { IfOk result
            (Gives self.now (form_seen form.entry)) }
    {
        match form {
            Form::Column(name) => self.column(alloc, name),
            Form::One { loader, key } => self.one(alloc, loader, key),
            Form::Many { loader, key } => self.many(alloc, loader, key),
            Form::Each { loader, argument } => self.each(alloc, loader, argument),
            Form::Via { loader, key, steps } => self.via(alloc, loader, key, steps),
        }
    }
}

/// Returns what a form gives for the field of this name of this type; nothing where it does not
/// fit.
pub fn field_binding(
    alloc: Global,
    schema: &Schema,
    loaders: &Loaders,
    type_name: &str,
    field_name: &str,
    form: Form<'_>,
) -> Result<Option<Binding>, AllocError>
    ensures { IfOk result (λ b. option_map binding_of b ≡ field_binding
        (tree_of schema.now) loaders.now type_name.now field_name.now (form_seen form.entry)) }
{
    if !is_object_type(schema, type_name) {
        return Ok(None);
    }
    let Some(field) = schema.field(type_name, field_name) else {
        return Ok(None);
    };
    let target = Target {
        schema,
        loaders,
        field,
        of_root: is_root_type(schema, type_name),
    };
    target.binding(alloc, form)
}
