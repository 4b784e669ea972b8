//! Preparation of groups: all that is the same for each row.

ghost use Rattle.std.specs.Prelude.{◌≡◌, IfOk, Some, false, map, bytes_eq, codes};
ghost use Rattle.std.specs.Option.{option_map, option_copied};
ghost use Rattle.std.specs.Arc.{arc_value};
ghost use Rattle.gq_parser.specs.Tree.{type_of, below_of};
ghost use Rattle.gq_parser.specs.Types.{is_non_null};
ghost use Rattle.schema_syntax.specs.Tree.{field_of};
ghost use Rattle.gq_schema.specs.Inputs.{input_of, inputs_of};
ghost use Rattle.gq_bindings.specs.Seen.{part_of, key_of as source_of, step_of, binding_of};
ghost use Rattle.load_memory.specs.Keys.{key_of};
ghost use Rattle.gq_check.specs.Plans.{plan_of};
ghost use Rattle.plan_program.specs.FieldValues.{item_type, text_of_input, key_of_input, input_named, key_if, part_from, key_from, keys_of, have_loaders, IsLoadedBy, first_row, all_rows, each_asked, joined_rows, sets_below, children_of, position_of, known, prepared};
ghost use Rattle.execution.specs.Program.{Null};
ghost use Rattle.plan_program.specs.Fields.{field_seen, fields_seen};
ghost use Rattle.plan_program.specs.Seen.{group_of, values_of};
ghost use Rattle.plan_program.specs.ObjectTypes.{name_in, IsOf};
ghost use Rattle.plan_program.specs.Prepared.{bound_by, by_key, part_from_seen, key_from_seen, keys_seen, children_seen, value_from_seen, defined_by, prepared_seen};

use crate::arguments::{ArgFault, Args, coerced_arguments};
use crate::fields::place_of;
use crate::group::Group;
use crate::object_type::{ObjectType, definition_of};
use crate::prepared::{
    Children, KeyFrom, KeyPairFrom, KeyPartFrom, LeafValue, PreparedField, ValueFrom,
};
use crate::texts::null_argument_message;
use gq_bindings::{Binding, KeyOrigin, KeyPart, ViaLoader};
use gq_check::Plan;
use gq_lexer::Place;
use gq_parser::{Field, SelectionSet, TypeRef};
use gq_schema::{FieldDef, Input};
use load_memory::{Key, Text};
use short_list::ShortList;
use std::alloc::{AllocError, Global};
use std::sync::Arc;

// The text that an argument's value is in a key.
fn text_of_input(alloc: Global, input: &Input) -> Result<Option<Text>, AllocError>
    ensures { IfOk result (λ text.
        text ≡ text_of_input (input_of input.now)) }
{
    match input {
        Input::Text(text) => Ok(Some(text.clone()?)),
        Input::Int(number) => Ok(Some(Text::from(number.to_string(alloc)?))),
        Input::Null => Ok(None),
        Input::Bool(_) => Ok(None),
        Input::List(_) => Ok(None),
    }
}

/// The key that an argument's value is.
pub fn key_of_input(alloc: Global, input: &Input) -> Result<Option<Key>, AllocError>
    ensures { IfOk result (λ key. option_map key_of key
        ≡ key_of_input (input_of input.now)) }
{
    match text_of_input(alloc, input)? {
        Some(text) => Ok(Some(Key::Text(text))),
        None => Ok(None),
    }
}

// The value of the argument of this name.
fn input_named<'a>(args: &'a Args<'_>, name: &str) -> Option<&'a Input>
    ensures { option_map input_of (option_copied result)
        ≡ input_named name.now (values_of args.now) }
{
    for (own_name, input) in args.pairs.as_slice() {
        if *own_name == name {
            return Some(input);
        }
    }
    None
}

fn key_of_argument(
    alloc: Global,
    args: &Args<'_>,
    name: &str,
) -> Result<Option<KeyFrom>, AllocError>
    ensures { IfOk result (λ key.
        option_map key_from_seen key ≡ key_if (input_named name.now (values_of args.now))) }
{
    match input_named(args, name) {
        Some(input) => match key_of_input(alloc, input)? {
            Some(key) => Ok(Some(KeyFrom::Fixed(key))),
            None => Ok(None),
        },
        None => Ok(None),
    }
}

// Returns where a part of a key of two parts comes from.
fn part_from(alloc: Global, args: &Args<'_>, source: &KeyPart) -> Result<KeyPartFrom, AllocError>
    ensures { IfOk result (λ part.
        part_from_seen part ≡ part_from (values_of args.now) (part_of source.now)) }
{
    match source {
        KeyPart::Argument(name) => match input_named(args, name.as_str()) {
            Some(input) => Ok(KeyPartFrom::Fixed(text_of_input(alloc, input)?)),
            None => Ok(KeyPartFrom::Fixed(None)),
        },
        KeyPart::Column(column) => Ok(KeyPartFrom::Column(Text::from_str(alloc, column.as_str())?)),
    }
}

// Returns where a key comes from; nothing where it is null.
fn key_from(
    alloc: Global,
    args: &Args<'_>,
    source: &KeyOrigin,
) -> Result<Option<KeyFrom>, AllocError>
    ensures { IfOk result (λ key.
        option_map key_from_seen key ≡ key_from (values_of args.now) (source_of source.now)) }
{
    match source {
        KeyOrigin::Argument(name) => key_of_argument(alloc, args, name.as_str()),
        KeyOrigin::Column(column) => {
            let column = Text::from_str(alloc, column.as_str())?;
            Ok(Some(KeyFrom::Column(column)))
        }
        KeyOrigin::All => Ok(Some(KeyFrom::Fixed(Key::All))),
        KeyOrigin::Pair(one, two) => {
            let first = part_from(alloc, args, one)?;
            let second = part_from(alloc, args, two)?;
            let pair = KeyPairFrom { first, second };
            Ok(Some(KeyFrom::Pair(Box::new(alloc, pair)?)))
        }
    }
}

fn keys_of(alloc: Global, inputs: &Vec<Input>) -> Result<Vec<Option<Key>>, AllocError>
    ensures { IfOk result (λ keys.
        keys_seen keys.items ≡ keys_of (inputs_of (map input_of inputs.now.items))) }
{
    let mut keys = Vec::with_capacity(alloc, inputs.len())?;
    for input in inputs {
        keys.push(key_of_input(alloc, input)?)?;
    }
    Ok(keys)
}

// The first row of a key.
fn first_row(
    alloc: Global,
    loader: usize,
    key: Option<KeyFrom>,
    children: Children,
) -> Result<ValueFrom, AllocError>
    ensures { IfOk result (λ a. value_from_seen a
        ≡ by_key key (λ k. first_row loader k (children_seen children))) }
{
    match key {
        Some(key) => Ok(ValueFrom::First {
            loader,
            key,
            children: Arc::new(alloc, children)?,
        }),
        None => Ok(ValueFrom::Known(LeafValue::Null)),
    }
}

// All rows of a key.
fn all_rows(
    alloc: Global,
    loader: usize,
    key: Option<KeyFrom>,
    children: Children,
) -> Result<ValueFrom, AllocError>
    ensures { IfOk result (λ a. value_from_seen a
        ≡ by_key key (λ k. all_rows loader k (children_seen children))) }
{
    match key {
        Some(key) => Ok(ValueFrom::All {
            loader,
            key,
            children: Arc::new(alloc, children)?,
        }),
        None => Ok(ValueFrom::Known(LeafValue::Null)),
    }
}

// The rows of a key that the steps of `via` join.
fn joined_rows(
    alloc: Global,
    loader: usize,
    key: Option<KeyFrom>,
    steps: &Arc<Vec<ViaLoader>>,
    children: Children,
) -> Result<ValueFrom, AllocError>
    ensures { IfOk result (λ a. value_from_seen a ≡ by_key key
        (λ k. joined_rows loader k (map step_of (arc_value steps.now).items) (children_seen children))) }
{
    match key {
        Some(key) => Ok(ValueFrom::Joined {
            loader,
            key,
            steps: Arc::try_clone(steps)?,
            children: Arc::new(alloc, children)?,
        }),
        None => Ok(ValueFrom::Known(LeafValue::Null)),
    }
}

// `each`.
fn prepare_each(
    alloc: Global,
    loader: usize,
    children: Children,
    input: Option<&Input>,
) -> Result<ValueFrom, AllocError>
    ensures { IfOk result (λ asked. value_from_seen asked ≡ each_asked loader
        (children_seen children) (option_map input_of (option_copied input.entry))) }
{
    match input {
        Some(Input::List(inputs)) => {
            let keys = keys_of(alloc, inputs)?;
            Ok(ValueFrom::Each {
                loader,
                keys,
                children: Arc::new(alloc, children)?,
            })
        }
        Some(Input::Null) => Ok(ValueFrom::Known(LeafValue::Null)),
        Some(Input::Int(_)) => Ok(ValueFrom::Known(LeafValue::Null)),
        Some(Input::Text(_)) => Ok(ValueFrom::Known(LeafValue::Null)),
        Some(Input::Bool(_)) => Ok(ValueFrom::Known(LeafValue::Null)),
        None => Ok(ValueFrom::Known(LeafValue::Null)),
    }
}

// Tells whether the later loaders of `via` are below `loaders`.
fn have_loaders(steps: &[ViaLoader], loaders: usize) -> bool
    ensures { result ≡ have_loaders
        (map step_of steps.now) loaders }
{
    steps.iter().all(|step| step.loader < loaders)
}

// The key of a load by one of the bindings' loaders; nothing where it is null or there is no such loader.
fn key_of_load(
    alloc: Global,
    plan: &Plan,
    args: &Args<'_>,
    loader: usize,
    source: &KeyOrigin,
) -> Result<Option<KeyFrom>, AllocError>
    ensures { IfOk result (λ key. IsLoadedBy (plan_of plan.now) loader
        (key_from (values_of args.now) (source_of source.now)) (option_map key_from_seen key)) }
{
    if loader < plan.loaders() {
        key_from(alloc, args, source)
    } else {
        Ok(None)
    }
}

// Returns what a binding asks for.
fn prepare_bound(
    alloc: Global,
    plan: &Plan,
    ty: &TypeRef,
    children: Children,
    args: &Args<'_>,
    binding: &Binding,
) -> Result<ValueFrom, AllocError>
    ensures { IfOk result (λ a. value_from_seen a ≡ bound_by (plan_of plan.now)
        (type_of ty.now) (children_seen children) (values_of args.now) binding.now) }
{
    match binding {
        Binding::Column(column) => Ok(ValueFrom::Cell {
            column: Text::from_str(alloc, column.as_str())?,
            ty: copy_type(alloc, ty)?,
        }),
        Binding::One { loader, key } => {
            let key = key_of_load(alloc, plan, args, *loader, key)?;
            first_row(alloc, *loader, key, children)
        }
        Binding::Many { loader, key } => {
            let key = key_of_load(alloc, plan, args, *loader, key)?;
            all_rows(alloc, *loader, key, children)
        }
        Binding::Each { loader, argument } => {
            if *loader >= plan.loaders() {
                return Ok(ValueFrom::Known(LeafValue::Null));
            }
            let input = input_named(args, argument.as_str());
            prepare_each(alloc, *loader, children, input)
        }
        Binding::Via { loader, key, steps } => {
            if !have_loaders(steps, plan.loaders()) {
                return Ok(ValueFrom::Known(LeafValue::Null));
            }
            let key = key_of_load(alloc, plan, args, *loader, key)?;
            joined_rows(alloc, *loader, key, steps, children)
        }
    }
}

// Tells whether a `!` ends the type of the items, or of the one that it is where it is no list.
fn is_item_non_null(ty: &TypeRef) -> bool
    ensures { result ≡ is_non_null
        (item_type (type_of ty.now)) }
{
    match ty {
        TypeRef::Named { non_null, .. } => *non_null,
        TypeRef::List { item, .. } => item.is_non_null(),
    }
}

// Returns what a field selects, shared.
fn set_below(field: &Field) -> Result<Option<Arc<SelectionSet>>, AllocError>
    ensures { IfOk result (λ set. below_of set ≡ (field_seen field.now).below) }
{
    match &field.selection_set {
        Some(set) => Ok(Some(Arc::try_clone(set)?)),
        None => Ok(None),
    }
}

// Returns what fields select, shared.
fn sets_below(
    alloc: Global,
    fields: &[&Field],
) -> Result<ShortList<Option<Arc<SelectionSet>>>, AllocError>
    ensures { IfOk result (λ sets.
        map below_of sets ≡ sets_below (fields_seen fields.now)) }
{
    let mut sets = ShortList::new();
    for field in fields {
        sets.push(alloc, set_below(field)?)?;
    }
    Ok(sets)
}

fn children_of(
    alloc: Global,
    ty: &TypeRef,
    place: Place,
    fields: &[&Field],
) -> Result<Children, AllocError>
    ensures { IfOk result (λ children. children_seen children
        ≡ children_of (type_of ty.now) place (fields_seen fields.now)) }
{
    Ok(Children {
        type_name: Text::from_str(alloc, ty.innermost_name())?,
        item_non_null: is_item_non_null(ty),
        place,
        below: sets_below(alloc, fields)?,
    })
}

// A type of its own.
fn copy_type(alloc: Global, ty: &TypeRef) -> Result<TypeRef, AllocError>
    ensures { IfOk result (λ copy. type_of copy ≡ type_of ty.now) }
{
    match ty {
        TypeRef::Named {
            place,
            name,
            non_null,
        } => Ok(TypeRef::Named {
            place: *place,
            name: name.clone()?,
            non_null: *non_null,
        }),
        TypeRef::List {
            place,
            item,
            non_null,
        } => {
            let item = copy_type(alloc, item)?;
            Ok(TypeRef::List {
                place: *place,
                item: Box::new(alloc, item)?,
                non_null: *non_null,
            })
        }
    }
}

// Returns what fields of one response key ask for, by the definition of the first.
fn prepare_defined(
    alloc: Global,
    plan: &Plan,
    ty: &str,
    definition: &FieldDef,
    first: &Field,
    fields: &[&Field],
) -> Result<ValueFrom, AllocError>
    ensures { IfOk result (λ a. value_from_seen a ≡ defined_by (plan_of plan.now) ty.now
        (field_seen first.now) (fields_seen fields.now) (field_of definition.now)) }
{
    let args = match coerced_arguments(alloc, plan, &first.arguments, &definition.arguments) {
        Ok(args) => args,
        Err(ArgFault::NullArgument(name)) => {
            let message = null_argument_message(alloc, name.as_str())?;
            return Ok(ValueFrom::Known(LeafValue::Fault(message)));
        }
        Err(ArgFault::NoMemory) => return Err(AllocError),
    };
    let Some(binding) = plan.bindings().binding_of(ty, first.name.as_str()) else {
        return Ok(ValueFrom::Known(LeafValue::Null));
    };
    let children = children_of(alloc, &definition.of_type, first.place, fields)?;
    prepare_bound(alloc, plan, &definition.of_type, children, &args, binding)
}

// A position that is null.
fn null_at(key: Text, place: Place) -> PreparedField
    ensures { prepared_seen result
        ≡ record { position = position_of key place false; asked = known Null } }
{
    PreparedField {
        key,
        place,
        non_null: false,
        asked: ValueFrom::Known(LeafValue::Null),
    }
}

// Tells whether a field is the name of its object's type (section 4.4).
fn is_type_name(field: &Field) -> bool
    ensures { result ≡ bytes_eq (field_seen field.now).name (codes "__typename") }
{
    field.name.as_str() == "__typename"
}

/// Returns what a group of an object type asks for.
///
/// # Errors
///
/// Only when out of memory.
pub fn prepare_group<'p>(
    alloc: Global,
    plan: &'p Plan,
    ty: &ObjectType<'p, '_>,
    group: &Group<'p>,
) -> Result<PreparedField, AllocError>
    requires { IsOf (plan_of plan.now) ty.now }
    ensures { IfOk result (λ done. prepared_seen done
        ≡ prepared (plan_of plan.now) (name_in ty.now) (group_of group.now)) }
{
    let key = Text::from_str(alloc, group.key)?;
    let Some(first) = group.fields.as_slice().first() else {
        return Ok(null_at(key, Place { line: 1, column: 1 }));
    };
    let first: &'p Field = *first;
    let place = place_of(first);
    if is_type_name(first) {
        let name = String::from_str(alloc, ty.name())?;
        return Ok(PreparedField {
            key,
            place,
            non_null: true,
            asked: ValueFrom::Known(LeafValue::Text(name)),
        });
    }
    let Some(definition) = definition_of(plan, ty, first) else {
        return Ok(null_at(key, place));
    };
    let asked = prepare_defined(
        alloc,
        plan,
        ty.name(),
        definition,
        first,
        group.fields.as_slice(),
    )?;
    Ok(PreparedField {
        key,
        place,
        non_null: definition.of_type.is_non_null(),
        asked,
    })
}
