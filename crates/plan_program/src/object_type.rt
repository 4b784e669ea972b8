//! Object types whose fields are prepared.

ghost use Rattle.std.specs.Prelude.{◌≡◌};
ghost use Rattle.std.specs.Option.{option_map, option_copied};
ghost use Rattle.schema_syntax.specs.Tree.{field_of};
ghost use Rattle.gq_schema.specs.Types.{field_in};
ghost use Rattle.gq_check.specs.Plans.{plan_of};
ghost use Rattle.plan_program.specs.Fields.{field_seen};
ghost use Rattle.plan_program.specs.ObjectTypes.{name_in, is_found, IsOf};

use gq_check::Plan;
use gq_parser::Field;
use gq_schema::{FieldDef, FoundType};

/// An object type whose fields are prepared.
#[derive(Clone, Copy)]
pub enum ObjectType<'p, 'a> {
    /// A type that was found in the plan's schema. It isn't looked up again.
    Found(FoundType<'p>),
    /// A name that may not live as long as the plan, as one that a row tells. The type is looked up for each field.
    Named(&'a str),
}

impl<'p, 'a> ObjectType<'p, 'a> {
    /// The name of the type.
    pub fn name(&self) -> &str
        ensures { result.now ≡ name_in self.now }
    {
        match self {
            ObjectType::Found(found) => found.name,
            ObjectType::Named(name) => name,
        }
    }

    /// Tells whether the type was found.
    pub fn is_found(&self) -> bool
        ensures { result ≡ is_found self.now }
    {
        matches!(self, ObjectType::Found(_))
    }
}

/// The definition of a field of the type in the plan's schema (section 3.6).
pub fn definition_of<'p>(
    plan: &'p Plan,
    ty: &ObjectType<'p, '_>,
    field: &Field,
) -> Option<&'p FieldDef>
    requires { IsOf (plan_of plan.now) ty.now }
    ensures { option_map field_of (option_copied result) ≡ field_in
        (plan_of plan.now).definitions (name_in ty.now) (field_seen field.now).name }
{
    let name = field.name.as_str();
    match ty {
        ObjectType::Found(found) => Some(found.field(name)?.definition),
        ObjectType::Named(own) => plan.schema().field(own, name),
    }
}
