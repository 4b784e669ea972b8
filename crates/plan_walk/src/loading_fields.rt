//! Groups, which are the same for all rows: what a plan asks of the objects below each load, prepared once.

ghost use Rattle.std.specs.Prelude.{◌≡◌, ◌<◌, ◌≤◌, IfOk, IfSome, OnOk, map};
ghost use Rattle.std.specs.Arc.{arc_value};
ghost use Rattle.gq_bindings.specs.Seen.{step_of};
ghost use Rattle.gq_check.specs.Plans.{PlanOf, plan_of};
ghost use Rattle.plan_program.specs.FieldValues.{each_row};
ghost use Rattle.plan_program.specs.Prepared.{keys_seen, value_from_seen, prepared_seen, children_seen};
ghost use Rattle.plan_program.specs.ObjectTypes.{name_in, IsOf};
ghost use Rattle.plan_program.specs.Seen.{groups_of};
ghost use Rattle.plan_program.specs.FieldValues.{position_of};
ghost use Rattle.plan_walk.specs.Positions.{is_non_null, member_position};
ghost use Rattle.plan_program.specs.OtherVariables.{are_fixed};
ghost use Rattle.plan_walk.specs.Groups.{children_in, children_at, use_seen, then_at, taken_by, steps_in, GrowsByShape, IsNew, IsAsking, AreMadeOf, MakesShape, AreKept, IsBelow, AreOnly, IsShaped, Grows, GrowsAlike};

use crate::leaf_type::LeafType;
use crate::positions::{Items, MemberPosition, Nullability, Onward};
use crate::walk::Walk;
use gq_bindings::ViaLoader;
use gq_check::Plan;
use gq_lexer::Place;
use gq_parser::{Selection, SelectionSet};
use gq_schema::TypeKind;
use load_memory::{Key, Text};
use plan_program::{
    Children, Group, KeyFrom, LeafValue, ObjectType, PreparedField, ValueFrom, collect_subfields,
    is_fixed, prepare_group,
};
use short_list::ShortList;
use std::alloc::{AllocError, Global};
use std::sync::Arc;

/// Says what is done with the rows of a load. A copy shares the steps.
#[derive(Clone, Drop)]
pub enum RowUse {
    /// The first of them.
    First,
    /// All of them.
    All,
    /// For each of them the first row of each later loader in turn, by a column of the row before.
    Joined { steps: Arc<Vec<ViaLoader>> },
}

/// Says what a position of an object asks for. A load's group says what is done with its rows.
#[derive(Drop)]
pub enum FieldResolver {
    /// One value for every row.
    Known(LeafValue),
    /// A column's field, at a type.
    Cell {
        column: Text,
        ty: LeafType,
    },
    /// The rows of a key.
    Load {
        loader: usize,
        key: KeyFrom,
        group: usize,
    },
    /// For each key its rows; no key is null.
    Each {
        loader: usize,
        keys: Vec<Option<Key>>,
        items: Items,
        group: usize,
    },
}

/// A position of an object, and what it asks for.
pub struct Member {
    pub position: MemberPosition,
    pub asks: FieldResolver,
}

impl Drop for Member {
    fn drop(self) {
        let Member {
            position: _position,
            asks: _asks,
        } = self;
    }
}

/// The positions of the objects of one type below a group. A copy shares the members.
#[derive(Clone)]
pub struct TypePositions {
    pub ty: Text,
    /// Tells whether all objects below the group have this type, since the group's field is of it.
    pub only: bool,
    pub members: Arc<Vec<Member>>,
}

impl Drop for TypePositions {
    fn drop(self) {
        let TypePositions {
            ty: _ty,
            only: _,
            members: _members,
        } = self;
    }
}

/// A group of fields that loads: what is done with the rows, and the shapes of the objects that were met there. A copy shares what
/// stands below.
#[derive(Clone)]
pub struct LoadingField {
    pub then: RowUse,
    pub children: Arc<Children>,
    pub shapes: ShortList<TypePositions>,
}

impl Drop for LoadingField {
    fn drop(self) {
        let LoadingField {
            then: _then,
            children: _children,
            shapes: _shapes,
        } = self;
    }
}

/// Says how many rows of a load are taken.
#[derive(Clone, Copy, Drop)]
pub enum TakenRows {
    First,
    /// All of them, from each of which this number of later loaders go on.
    All(usize),
}

// Returns how many rows are taken where this is done with them.
fn taken_by(then: &RowUse) -> TakenRows
    ensures { result ≡ taken_by (use_seen then.now) }
{
    match then {
        RowUse::First => TakenRows::First,
        RowUse::All => TakenRows::All(0),
        RowUse::Joined { steps } => TakenRows::All(steps.len()),
    }
}

/// Returns how many rows of a group's load are taken.
pub fn taken_of(groups: &[LoadingField], group: usize) -> TakenRows
    ensures { result ≡ taken_by (then_at groups.now group) }
{
    match groups.get(group) {
        Some(group) => taken_by(&group.then),
        None => TakenRows::First,
    }
}

// The later loaders of a use of rows.
fn steps_by(then: &RowUse) -> &[ViaLoader]
    ensures { map step_of result.now ≡ steps_in (use_seen then.now) }
{
    match then {
        RowUse::First => &[],
        RowUse::All => &[],
        RowUse::Joined { steps } => steps.as_slice(),
    }
}

/// The later loaders of a group.
pub fn steps_of(groups: &[LoadingField], group: usize) -> &[ViaLoader]
    ensures { map step_of result.now
        ≡ steps_in (then_at groups.now group) }
{
    match groups.get(group) {
        Some(group) => steps_by(&group.then),
        None => &[],
    }
}

// The items of a list with these children.
pub(crate) fn child_items(children: &Children) -> Items
    ensures nullability { is_non_null result.nullability
        ≡ (children_seen children.now).item_non_null }
    ensures place { result.place
        ≡ (children_seen children.now).place }
{
    let nullability = if children.item_non_null {
        Nullability::NonNull
    } else {
        Nullability::Nullable
    };
    Items {
        nullability,
        place: children.place,
    }
}

/// The items of the list of a group.
pub fn items_of(groups: &[LoadingField], group: usize) -> Items
    ensures nullability { is_non_null result.nullability
        ≡ (children_at groups.now group).item_non_null }
    ensures place { result.place
        ≡ (children_at groups.now group).place }
{
    match groups.get(group) {
        Some(group) => child_items(&group.children),
        None => Items {
            nullability: Nullability::Nullable,
            place: Place { line: 1, column: 1 },
        },
    }
}

// A group more, which loads so.
fn new_loading_field(
    groups: &mut Vec<LoadingField>,
    then: RowUse,
    children: Arc<Children>,
) -> Result<usize, AllocError>
    ensures { IfOk result
        (IsNew groups.old.items groups.new.items (use_seen then) (children_in children)) }
{
    let number = groups.len();
    groups.push(LoadingField {
        then,
        children,
        shapes: ShortList::new(),
    })?;
    Ok(number)
}

// Returns that the first row of each key is asked for, with a group more.
fn asks_for_each(
    groups: &mut Vec<LoadingField>,
    loader: usize,
    keys: Vec<Option<Key>>,
    children: Arc<Children>,
) -> Result<FieldResolver, AllocError>
    ensures { IfOk result (IsAsking groups.old.items groups.new.items
        (each_row loader (keys_seen keys.items) (children_in children))) }
{
    let items = child_items(&children);
    let group = new_loading_field(groups, RowUse::First, children)?;
    Ok(FieldResolver::Each {
        loader,
        keys,
        items,
        group,
    })
}

// Returns what is asked for, with a group more where it loads.
pub(crate) fn asks_of(
    groups: &mut Vec<LoadingField>,
    asked: ValueFrom,
) -> Result<FieldResolver, AllocError>
    ensures { IfOk result
        (IsAsking groups.old.items groups.new.items (value_from_seen asked)) }
{
    match asked {
        ValueFrom::Known(leaf_value) => Ok(FieldResolver::Known(leaf_value)),
        ValueFrom::Cell { column, ty } => Ok(FieldResolver::Cell {
            column,
            ty: LeafType::of(ty),
        }),
        ValueFrom::First {
            loader,
            key,
            children,
        } => {
            let group = new_loading_field(groups, RowUse::First, children)?;
            Ok(FieldResolver::Load { loader, key, group })
        }
        ValueFrom::All {
            loader,
            key,
            children,
        } => {
            let group = new_loading_field(groups, RowUse::All, children)?;
            Ok(FieldResolver::Load { loader, key, group })
        }
        ValueFrom::Each {
            loader,
            keys,
            children,
        } => asks_for_each(groups, loader, keys, children),
        ValueFrom::Joined {
            loader,
            key,
            steps,
            children,
        } => {
            let group = new_loading_field(groups, RowUse::Joined { steps }, children)?;
            Ok(FieldResolver::Load { loader, key, group })
        }
    }
}

// The position of a field.
pub(crate) fn position_of(key: Text, place: Place, non_null: bool) -> MemberPosition
    ensures { member_position result
        ≡ position_of key place non_null }
{
    let nullability = if non_null {
        Nullability::NonNull
    } else {
        Nullability::Nullable
    };
    MemberPosition {
        key,
        nullability,
        place,
    }
}

/// The members that collected groups of an object type make. The groups that they need of those that load come behind `groups`.
pub fn members_of(
    walk: &Walk<'_>,
    groups: &mut Vec<LoadingField>,
    ty: &ObjectType<'_, '_>,
    collected: Vec<Group<'_>>,
) -> Result<Vec<Member>, AllocError>
    requires { IsOf (plan_of walk.now.plan.now) ty.now }
    ensures { IfOk result (λ members. AreMadeOf (plan_of walk.now.plan.now) (name_in ty.now)
        (groups_of collected.entry.items) groups.old.items groups.new.items members.items) }
{
    let mut members = Vec::with_capacity(walk.alloc, collected.len())?;
    for group in &collected {
        let prepared = prepare_group(walk.alloc, walk.plan, &*ty, group)?;
        let PreparedField {
            key,
            place,
            non_null,
            asked,
        } = prepared;
        let position = position_of(key, place, non_null);
        let asks = asks_of(groups, asked)?;
        members.push(Member { position, asks })?;
    }
    Ok(members)
}

// The members of a type that was met.
fn known_members(
    groups: &[LoadingField],
    group: usize,
    ty: &str,
) -> Result<Option<Arc<Vec<Member>>>, AllocError>
    ensures { IfOk result (λ found.
        IfSome found (λ members. AreKept groups.now group ty.now (arc_value members).items)) }
{
    if group >= groups.len() {
        return Ok(None);
    }
    for shape in groups[group].shapes.as_slice() {
        if shape.ty.as_str() == ty {
            return Ok(Some(Arc::try_clone(&shape.members)?));
        }
    }
    Ok(None)
}

/// The members of the objects below a group where all of them have one type, once it was met. No row is looked at.
pub fn only_members(
    groups: &[LoadingField],
    group: usize,
) -> Result<Option<Arc<Vec<Member>>>, AllocError>
    ensures { IfOk result (λ found.
        IfSome found (λ members. AreOnly groups.now group (arc_value members).items)) }
{
    if group >= groups.len() {
        return Ok(None);
    }
    match groups[group].shapes.as_slice().first() {
        Some(shape) if shape.only => Ok(Some(Arc::try_clone(&shape.members)?)),
        _ => Ok(None),
    }
}

// The object type of this name below a group. It is found where all objects there have it, since the group's field is of it.
fn type_below<'p, 'a>(plan: &'p Plan, children: &'p Children, name: &'a str) -> ObjectType<'p, 'a>
    ensures name { name_in result ≡ name.now }
    ensures below { IsBelow (plan_of plan.now)
        (children_seen children.now) result }
{
    let own = plan.schema().find_type(children.type_name.as_str());
    if name == own.name && matches!(own.kind(), Some(TypeKind::Object)) {
        ObjectType::Found(own)
    } else {
        ObjectType::Named(name)
    }
}

// Keeps the members of a type below a group that is one of the first `count`, fewer than `most`.
fn keep(
    alloc: Global,
    groups: &mut Vec<LoadingField>,
    count: usize,
    most: usize,
    group: usize,
    shape: TypePositions,
) -> Result<(), AllocError>
    ensures grows { OnOk result
        (GrowsByShape count group shape groups.old.items groups.new.items) }
    ensures most { OnOk result (most ≤ count
        → groups.new.items ≡ groups.old.items) }
{
    if group < count && count < most && group < groups.len() {
        groups[group].shapes.push(alloc, shape)?;
    }
    Ok(())
}

/// Returns what stands below a group.
pub fn children_of(
    alloc: Global,
    groups: &[LoadingField],
    group: usize,
) -> Result<Arc<Children>, AllocError>
    ensures { IfOk result (λ children. children_in children
        ≡ children_at groups.now group) }
{
    if let Some(group) = groups.get(group) {
        return Ok(Arc::try_clone(&group.children)?);
    }
    let nowhere = Children {
        type_name: Text::new(),
        item_non_null: false,
        place: Place { line: 1, column: 1 },
        below: ShortList::new(),
    };
    Ok(Arc::new(alloc, nowhere)?)
}

// The members that collected groups of an object type make below a group. They are kept, unless there are too many groups.
fn made_shape(
    walk: &Walk<'_>,
    groups: &mut Vec<LoadingField>,
    group: usize,
    ty: &ObjectType<'_, '_>,
    collected: Vec<Group<'_>>,
) -> Result<Arc<Vec<Member>>, AllocError>
    requires { IsBelow (plan_of walk.now.plan.now)
        (children_at groups.old.items group) ty.now }
    ensures { IfOk result (λ members. MakesShape (plan_of walk.now.plan.now) walk.now.most group (name_in ty.now)
        (groups_of collected.entry.items) groups.old.items groups.new.items (arc_value members).items) }
{
    let count = groups.len();
    let members = Arc::new(walk.alloc, members_of(walk, groups, &*ty, collected)?)?;
    let shape = TypePositions {
        ty: Text::from_str(walk.alloc, ty.name())?,
        only: ty.is_found(),
        members: Arc::try_clone(&members)?,
    };
    keep(walk.alloc, groups, count, walk.most, group, shape)?;
    Ok(members)
}

// The members of the objects of a type below a group, of which no object was met. They are kept, unless there are too many groups.
fn new_shape(
    walk: &Walk<'_>,
    groups: &mut Vec<LoadingField>,
    group: usize,
    children: &Children,
    ty: &ObjectType<'_, '_>,
) -> Result<Arc<Vec<Member>>, AllocError>
    requires children { children_seen children.now ≡ children_at groups.old.items group }
    requires below { IsBelow (plan_of walk.now.plan.now)
        (children_seen children.now) ty.now }
    ensures { IfOk result (λ members. IsShaped (plan_of walk.now.plan.now) walk.now.most
        groups.old.items groups.new.items group (name_in ty.now) (arc_value members).items) }
{
    let below = children.below.as_slice();
    let collected = collect_subfields(walk.alloc, walk.plan, ty.name(), below)?;
    made_shape(walk, groups, group, ty, collected)
}

/// The members of the objects of a type below a group.
pub fn shape_of(
    walk: &Walk<'_>,
    groups: &mut Vec<LoadingField>,
    group: usize,
    ty: &str,
) -> Result<Arc<Vec<Member>>, AllocError>
    ensures { IfOk result (λ members. IsShaped (plan_of walk.now.plan.now) walk.now.most
        groups.old.items groups.new.items group ty.now (arc_value members).items) }
{
    if let Some(members) = known_members(groups, group, ty)? {
        return Ok(members);
    }
    let children = children_of(walk.alloc, groups, group)?;
    let ty = type_below(walk.plan, &children, ty);
    new_shape(walk, groups, group, &children, &ty)
}

/// A copy of groups, which shares what stands below them.
pub fn copy_of(groups: &Vec<LoadingField>) -> Result<Vec<LoadingField>, AllocError>
    ensures { IfOk result (λ copy.
        (plan : PlanOf) → Grows plan groups.now.items copy.items) }
{
    let copy = groups.clone()?;
    Ok(copy)
}

/// Prepares what is asked of the objects below groups of one object type: below the first `most` groups, until there are as many
/// members. What is asked for by variables isn't prepared, so what is serves each plan that is this one with other variables, if it leaves
/// out the same.
pub fn prepare_below(
    walk: &Walk<'_>,
    groups: &mut Vec<LoadingField>,
    most: usize,
) -> Result<(), AllocError>
    ensures { OnOk result
        (GrowsAlike (plan_of walk.now.plan.now) groups.old.items groups.new.items) }
{
    let mut room = most;
    for group in 0..most {
        if group >= groups.len() || room == 0 {
            return Ok(());
        }
        let members = prepare_only(walk, groups, group)?;
        room = room.saturating_sub(members);
    }
    Ok(())
}

// Tells whether no argument of these groups is given by a variable.
fn are_fixed(collected: &[Group<'_>]) -> bool
    ensures { result ≡ are_fixed (groups_of collected.now) }
{
    collected.iter().all(|group| is_fixed(group))
}

// Prepares what is asked of the objects below a group, if they have one object type and nothing is asked for by variables. Returns how
// many members there are.
fn prepare_only(
    walk: &Walk<'_>,
    groups: &mut Vec<LoadingField>,
    group: usize,
) -> Result<usize, AllocError>
    ensures { OnOk result
        (GrowsAlike (plan_of walk.now.plan.now) groups.old.items groups.new.items) }
{
    let children = children_of(walk.alloc, groups, group)?;
    let name = children.type_name.as_str();
    if let Some(members) = known_members(groups, group, name)? {
        return Ok(members.len());
    }
    let ty = type_below(walk.plan, &children, name);
    if !ty.is_found() {
        return Ok(0);
    }
    let below = children.below.as_slice();
    let collected = collect_subfields(walk.alloc, walk.plan, ty.name(), below)?;
    if !are_fixed(&collected) {
        return Ok(0);
    }
    let members = made_shape(walk, groups, group, &ty, collected)?;
    Ok(members.len())
}

// Tells whether an object is selected below one that these fields select of.
fn selects_objects(below: &[Option<Arc<SelectionSet>>]) -> bool {
    below.iter().any(|set| match set {
        Some(set) => set.selections.iter().any(|selection| match selection {
            Selection::Field(children) => children.selection_set.is_some(),
            Selection::Spread(_) | Selection::Inline(_) => true,
        }),
        None => false,
    })
}

/// Tells whether there may be a load below a position that goes on so.
pub fn may_load(groups: &[LoadingField], onward: Onward) -> bool {
    let Some(group) = groups.get(onward.group) else {
        return false;
    };
    let loads_again = matches!(group.then, RowUse::Joined { .. }) && onward.later != Some(0);
    loads_again || selects_objects(group.children.below.as_slice())
}
