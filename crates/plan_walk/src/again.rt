//! Members that are made again: of the same fields, asked for with other values of variables.

ghost use Rattle.std.specs.Prelude.{◌≡◌, IfOk, IfSome, option_and_then};
ghost use Rattle.std.specs.List.{slice_get};
ghost use Rattle.std.specs.Option.{option_copied};
ghost use Rattle.gq_check.specs.Plans.{plan_of};
ghost use Rattle.plan_program.specs.ObjectTypes.{name_in, IsOf};
ghost use Rattle.plan_program.specs.Prepared.{value_from_seen};
ghost use Rattle.plan_program.specs.Seen.{group_of, groups_of};
ghost use Rattle.plan_walk.specs.Groups.{AreMadeAgain, AsksAgain, AsksAt, IsMadeAgain, IsMadeInPlace, group_in};

use crate::leaf_type::LeafType;
use crate::loading_fields::{
    FieldResolver, LoadingField, Member, asks_of, child_items, position_of,
};
use gq_check::Plan;
use load_memory::Key;
use plan_program::{
    Group, KeyFrom, ObjectType, PreparedField, ValueFrom, key_by_variable, prepare_group,
};
use std::alloc::{AllocError, Global};

// The group of what a position asks for, if it has one.
fn group_of(asks: &FieldResolver) -> Option<usize>
    ensures { result ≡ group_in asks.now }
{
    match asks {
        FieldResolver::Known(_) => None,
        FieldResolver::Cell { .. } => None,
        FieldResolver::Load { group, .. } => Some(*group),
        FieldResolver::Each { group, .. } => Some(*group),
    }
}

// The member at a place, if there is one.
fn member_at(members: &[Member], place: usize) -> Option<&Member>
    ensures { option_copied result ≡ slice_get members.now place }
{
    members.get(place)
}

// The group of a member, if it has one.
fn group_before(before: Option<&Member>) -> Option<usize>
    ensures { result ≡ option_and_then
        (λ (m : Member). group_in m.asks) (option_copied before.entry) }
{
    match before {
        Some(member) => group_of(&member.asks),
        None => None,
    }
}

// Returns what is asked for, by this group where it loads.
fn asks_at(asked: ValueFrom, group: usize) -> FieldResolver
    ensures { AsksAt (value_from_seen asked) group result }
{
    match asked {
        ValueFrom::Known(leaf_value) => FieldResolver::Known(leaf_value),
        ValueFrom::Cell { column, ty } => FieldResolver::Cell {
            column,
            ty: LeafType::of(ty),
        },
        ValueFrom::First {
            loader,
            key,
            children: _children,
        } => FieldResolver::Load { loader, key, group },
        ValueFrom::All {
            loader,
            key,
            children: _children,
        } => FieldResolver::Load { loader, key, group },
        ValueFrom::Each {
            loader,
            keys,
            children,
        } => FieldResolver::Each {
            loader,
            keys,
            items: child_items(&children),
            group,
        },
        ValueFrom::Joined {
            loader,
            key,
            steps: _steps,
            children: _children,
        } => FieldResolver::Load { loader, key, group },
    }
}

// Returns what is asked for: by this group, if there is one, and else with a group more where it loads.
fn asks_again(
    groups: &mut Vec<LoadingField>,
    asked: ValueFrom,
    group: Option<usize>,
) -> Result<FieldResolver, AllocError>
    ensures { IfOk result
        (AsksAgain (value_from_seen asked) group groups.old.items groups.new.items) }
{
    match group {
        Some(group) => Ok(asks_at(asked, group)),
        None => Ok(asks_of(groups, asked)?),
    }
}

// The member that fields of an object type make, if a variable gives the key of a load that one made before: with that key.
fn keyed_again<'p>(
    alloc: Global,
    plan: &'p Plan,
    ty: &ObjectType<'p, '_>,
    fields: &Group<'p>,
    before: Option<&Member>,
) -> Result<Option<Member>, AllocError>
    requires { IsOf (plan_of plan.now) ty.now }
    ensures { IfOk result (λ made. IfSome made (IsMadeInPlace (plan_of plan.now)
        (name_in ty.now) (group_of fields.now) (option_copied before.entry))) }
{
    let Some(member) = before else {
        return Ok(None);
    };
    let FieldResolver::Load {
        loader,
        key: KeyFrom::Fixed(Key::Text(_)),
        group,
    } = &member.asks
    else {
        return Ok(None);
    };
    match key_by_variable(alloc, plan, ty, fields)? {
        Some(key) => Ok(Some(Member {
            position: member.position.copy()?,
            asks: FieldResolver::Load {
                loader: *loader,
                key: KeyFrom::Fixed(key),
                group: *group,
            },
        })),
        None => Ok(None),
    }
}

// The member that fields of an object type make, by the group of one that was made before, if that has one.
fn prepared_again<'p>(
    alloc: Global,
    plan: &'p Plan,
    groups: &mut Vec<LoadingField>,
    ty: &ObjectType<'p, '_>,
    fields: &Group<'p>,
    before: Option<&Member>,
) -> Result<Member, AllocError>
    requires { IsOf (plan_of plan.now) ty.now }
    ensures { IfOk result (IsMadeAgain (plan_of plan.now) (name_in ty.now) (group_of fields.now)
        (option_copied before.entry) groups.old.items groups.new.items) }
{
    let prepared = prepare_group(alloc, plan, ty, fields)?;
    let PreparedField {
        key,
        place,
        non_null,
        asked,
    } = prepared;
    let position = position_of(key, place, non_null);
    let had = group_before(before);
    let asks = asks_again(groups, asked, had)?;
    Ok(Member { position, asks })
}

// The member that fields of an object type make.
fn member_again<'p>(
    alloc: Global,
    plan: &'p Plan,
    groups: &mut Vec<LoadingField>,
    ty: &ObjectType<'p, '_>,
    fields: &Group<'p>,
    before: Option<&Member>,
) -> Result<Member, AllocError>
    requires { IsOf (plan_of plan.now) ty.now }
    ensures { IfOk result (IsMadeAgain (plan_of plan.now) (name_in ty.now) (group_of fields.now)
        (option_copied before.entry) groups.old.items groups.new.items) }
{
    match keyed_again(alloc, plan, ty, fields, before)? {
        Some(member) => Ok(member),
        None => prepared_again(alloc, plan, groups, ty, fields, before),
    }
}

/// The members that collected groups of an object type make. Each has the group of the member that was made in its place of the same
/// fields, asked for with other values, if that has one; so what was prepared below it stays of use. Where a variable gives its key, that
/// key is all that is made.
pub fn members_again(
    alloc: Global,
    plan: &Plan,
    groups: &mut Vec<LoadingField>,
    ty: &ObjectType<'_, '_>,
    collected: Vec<Group<'_>>,
    before: &[Member],
) -> Result<Vec<Member>, AllocError>
    requires { IsOf (plan_of plan.now) ty.now }
    ensures { IfOk result (λ members. AreMadeAgain (plan_of plan.now) (name_in ty.now) (groups_of collected.entry.items)
        before.now groups.old.items groups.new.items members.items) }
{
    let mut members = Vec::with_capacity(alloc, collected.len())?;
    for group in &collected {
        let had = member_at(before, members.len());
        let member = member_again(alloc, plan, groups, &*ty, group, had)?;
        members.push(member)?;
    }
    Ok(members)
}
