//! The walk over what a plan asks and what a memory says, which puts the answer into a sink. Once the sink is full, it ends
//! before the next field or item.
//!
//! Clauses of the walk are stated for every view that covers the groups at the end: a view tells for each
//! number what the group does with rows. The table of groups only grows, and so nothing has to be said again
//! when groups are added.

ghost use Rattle.std.specs.Prelude.{◌∷◌, [], OnOk, option_map};
ghost use Rattle.load_memory.specs.Keys.{key_of, borrowed_of};
ghost use Rattle.load_memory.specs.Outcomes.{outcome_of};
ghost use Rattle.plan_program.specs.Prepared.{keys_seen};
ghost use Rattle.plan_program.specs.PlanPrograms.{with_rows, read_key, read_if};
ghost use Rattle.plan_walk.specs.Groups.{AreOnly};
ghost use Rattle.plan_walk.specs.Positions.{is_non_null, onward_of};
ghost use Rattle.plan_walk.specs.Walks.{WalksMembers, WalksAsks, WalksAt, WalksLater, WalksRow, WalksTyped, LetsGo, after_load, items_after, items_read};

use crate::cells::{TypeOf, type_of_row};
use crate::following::{ViaRows, follow_steps};
use crate::keys::{KeyOver, key_over};
use crate::loading_fields::{
    FieldResolver, LoadingField, Member, TakenRows, children_of, items_of, only_members, shape_of,
    steps_of, taken_of,
};
use crate::positions::{Items, Leaf, Nullability, Onward, PositionKind};
use crate::reading::knows_nothing;
use crate::sink::Sink;
use gq_check::Plan;
use load_memory::{Key, KeyRef, Memory, Outcome, Probe, Row};
use plan_program::{LeafValue, no_column_message};
use std::alloc::{AllocError, Global};

/// Holds what a walk goes over.
#[derive(Clone, Copy, Drop)]
pub struct Walk<'w> {
    pub alloc: Global,
    pub plan: &'w Plan,
    pub memory: &'w Memory,
    /// Says how many groups are kept at most, beside those on the way to the current object.
    pub most: usize,
}

/// Progress of a walk.
#[derive(Drop)]
pub struct Progress<S> {
    /// The groups that were met.
    pub groups: Vec<LoadingField>,
    /// Holds what the memory is asked by, of one load after another.
    pub probe: Probe,
    pub out: S,
}

/// A position that loads: how it goes on, and whether it may be null.
#[derive(Clone, Copy, Drop)]
pub struct LoadingPosition {
    pub onward: Onward,
    pub nullability: Nullability,
}

impl<'w> Walk<'w> {
    /// An object over a row, at a position that may be null or not, with `levels` levels of objects below it.
    #[cycle(walk)]
    pub fn object<S: Sink>(
        &self,
        at: &mut Progress<S>,
        levels: u32,
        nullability: Nullability,
        members: &[Member],
        row: &Row,
    ) -> Result<(), AllocError>
        ensures { OnOk result (WalksMembers S.goes S.below self.now levels
            (is_non_null nullability) row.now members.now at.old at.new) }
    {
        at.out.begin(PositionKind::Object)?;
        let passed = at.out.passes(members.len());
        for member in &members[passed..] {
            if at.out.stops() {
                return Ok(());
            }
            at.out.field(&member.position)?;
            self.ask(at, levels, member.position.nullability, &member.asks, row)?;
        }
        at.out.end(PositionKind::Object, nullability)
    }

    // Returns what a position asks for over a row.
    #[cycle(walk)]
    fn ask<S: Sink>(
        &self,
        at: &mut Progress<S>,
        levels: u32,
        nullability: Nullability,
        asks: &FieldResolver,
        row: &Row,
    ) -> Result<(), AllocError>
        ensures { OnOk result (WalksAsks S.goes S.below self.now
            (is_non_null nullability) levels row.now asks.now at.old at.new) }
    {
        match asks {
            FieldResolver::Known(leaf_value) => at.out.leaf_value(leaf_value, nullability),
            FieldResolver::Cell { column, ty } => {
                let leaf = Leaf {
                    schema: self.plan.schema(),
                    column: column.as_str(),
                    ty,
                    row,
                };
                at.out.cell(leaf, nullability)
            }
            FieldResolver::Load { loader, key, group } => {
                let to = LoadingPosition {
                    onward: Onward::at(*group, levels),
                    nullability,
                };
                match key_over(key, row) {
                    KeyOver::Known(key) => self.read(at, to, *loader, key),
                    KeyOver::Null => at.out.leaf_value(&LeafValue::Null, nullability),
                    KeyOver::Lacking(column) => {
                        let fault = LeafValue::Fault(no_column_message(self.alloc, column)?);
                        at.out.leaf_value(&fault, nullability)
                    }
                }
            }
            FieldResolver::Each {
                loader,
                keys,
                items,
                group,
            } => {
                let to = LoadingPosition {
                    onward: Onward::at(*group, levels),
                    nullability,
                };
                self.each(at, to, *loader, keys, *items)
            }
        }
    }

    /// A load, and what is done with its rows. Where the memory lacks it, the position waits.
    #[cycle(walk)]
    pub fn read<S: Sink>(
        &self,
        at: &mut Progress<S>,
        to: LoadingPosition,
        loader: usize,
        key: KeyRef<'_>,
    ) -> Result<(), AllocError>
        ensures { OnOk result (WalksAt S.goes S.below self.now to (λ v.
            read_key loader (borrowed_of key.entry) (after_load to v)) at.old at.new) }
    {
        at.out.loads(1);
        if knows_nothing(self.memory, loader) {
            return at.out.wait(to.onward, loader, key);
        }
        match self.memory.look_up(self.alloc, &mut at.probe, loader, key)? {
            Some(outcome) => self.go_on(at, to, outcome),
            None => at.out.wait(to.onward, loader, key),
        }
    }

    // Returns what an outcome gives.
    #[cycle(walk)]
    fn go_on<S: Sink>(
        &self,
        at: &mut Progress<S>,
        to: LoadingPosition,
        outcome: &Outcome,
    ) -> Result<(), AllocError>
        ensures { OnOk result (WalksAt S.goes S.below self.now to (λ v.
            with_rows (after_load to v) (outcome_of outcome.now)) at.old at.new) }
    {
        match outcome {
            Outcome::Rows(rows) => self.rows(at, to, rows),
            Outcome::KeyFault(text) => at
                .out
                .leaf_value(&LeafValue::Fault(text.clone()?), to.nullability),
            Outcome::BatchFault(text) => at
                .out
                .leaf_value(&LeafValue::Fault(text.clone()?), to.nullability),
        }
    }

    // Returns what is done with the rows of a load.
    #[cycle(walk)]
    fn rows<S: Sink>(
        &self,
        at: &mut Progress<S>,
        to: LoadingPosition,
        rows: &[Row],
    ) -> Result<(), AllocError>
        ensures { OnOk result
            (WalksAt S.goes S.below self.now to (λ v. after_load to v rows.now) at.old at.new) }
    {
        if let Some(left) = to.onward.later {
            return self.first(at, to, left, rows);
        }
        match taken_of(&at.groups, to.onward.group) {
            TakenRows::First => self.first(at, to, 0, rows),
            TakenRows::All(left) => self.all(at, to, left, rows),
        }
    }

    // Returns what the last `left` later loaders come to from the first of some rows.
    #[cycle(walk)]
    fn first<S: Sink>(
        &self,
        at: &mut Progress<S>,
        to: LoadingPosition,
        left: usize,
        rows: &[Row],
    ) -> Result<(), AllocError>
        ensures { OnOk result (WalksLater S.goes S.below self.now to left rows.now at.old at.new) }
    {
        match rows {
            [] => at.out.leaf_value(&LeafValue::Null, to.nullability),
            [row, ..] => self.follow(at, to, left, row),
        }
    }

    // An item for each row, by what the last `left` later loaders come to from it.
    #[cycle(walk)]
    fn all<S: Sink>(
        &self,
        at: &mut Progress<S>,
        to: LoadingPosition,
        left: usize,
        rows: &[Row],
    ) -> Result<(), AllocError>
        ensures { OnOk result (WalksAt S.goes S.below self.now to (λ v.
            items_after v at.old.groups.items (onward_of to.onward) left rows.now) at.old at.new) }
    {
        let items = items_of(&at.groups, to.onward.group);
        let to_item = LoadingPosition {
            onward: to.onward,
            nullability: items.nullability,
        };
        at.out.begin(PositionKind::List)?;
        for number in at.out.passes(rows.len())..rows.len() {
            if at.out.stops() {
                return Ok(());
            }
            at.out.item(items, number)?;
            self.follow(at, to_item, left, &rows[number])?;
        }
        at.out.end(PositionKind::List, to.nullability)
    }

    // Returns what the last `left` later loaders come to from a row. Where the memory lacks a load on the way, the position
    // waits there.
    #[cycle(walk)]
    fn follow<S: Sink>(
        &self,
        at: &mut Progress<S>,
        to: LoadingPosition,
        left: usize,
        row: &Row,
    ) -> Result<(), AllocError>
        ensures { OnOk result
            (WalksLater S.goes S.below self.now to left (row.now ∷ []) at.old at.new) }
    {
        if left == 0 {
            return self.row_object(at, to, row);
        }
        let steps = steps_of(&at.groups, to.onward.group);
        let followed = follow_steps(self.alloc, self.memory, &mut at.probe, steps, left, row)?;
        at.out.loads(followed.loads);
        match followed.to {
            ViaRows::Row(row) => self.row_object(at, to, row),
            ViaRows::LeafValue(leaf_value) => at.out.leaf_value(&leaf_value, to.nullability),
            ViaRows::Missing { left, loader, key } => {
                let onward = Onward {
                    group: to.onward.group,
                    later: Some(left),
                    levels: to.onward.levels,
                };
                at.out.wait(onward, loader, key)
            }
        }
    }

    // An item for each key.
    #[cycle(walk)]
    fn each<S: Sink>(
        &self,
        at: &mut Progress<S>,
        to: LoadingPosition,
        loader: usize,
        keys: &[Option<Key>],
        items: Items,
    ) -> Result<(), AllocError>
        ensures { OnOk result (WalksAt S.goes S.below self.now to (λ v.
            items_read v items (onward_of to.onward) loader (keys_seen keys.now)) at.old at.new) }
    {
        let to_item = LoadingPosition {
            onward: to.onward,
            nullability: items.nullability,
        };
        at.out.begin(PositionKind::List)?;
        for number in at.out.passes(keys.len())..keys.len() {
            if at.out.stops() {
                return Ok(());
            }
            at.out.item(items, number)?;
            self.read_if(at, to_item, loader, &keys[number])?;
        }
        at.out.end(PositionKind::List, to.nullability)
    }

    // The rows of a key, if there is one.
    #[cycle(walk)]
    fn read_if<S: Sink>(
        &self,
        at: &mut Progress<S>,
        to: LoadingPosition,
        loader: usize,
        key: &Option<Key>,
    ) -> Result<(), AllocError>
        ensures { OnOk result (WalksAt S.goes S.below self.now to (λ v.
            read_if loader (after_load to v) (option_map key_of key.now)) at.old at.new) }
    {
        match key {
            Some(key) => self.read(at, to, loader, key.as_key_ref()),
            None => at.out.leaf_value(&LeafValue::Null, to.nullability),
        }
    }

    // An object over a row that may tell its type.
    #[cycle(walk)]
    fn row_object<S: Sink>(
        &self,
        at: &mut Progress<S>,
        to: LoadingPosition,
        row: &Row,
    ) -> Result<(), AllocError>
        ensures { OnOk result (WalksRow S.goes S.below self.now to row.now at.old at.new) }
    {
        if let Some(members) = only_members(&at.groups, to.onward.group)? {
            return self.only_object(at, to, &members, row);
        }
        let children = children_of(self.alloc, &at.groups, to.onward.group)?;
        let name = children.type_name.as_str();
        match type_of_row(self.alloc, self.plan.schema(), name, row)? {
            TypeOf::Object(ty) => self.typed_object(at, to, ty, row),
            TypeOf::Fault(text) => at.out.leaf_value(&LeafValue::Fault(text), to.nullability),
        }
    }

    // An object of the only type that the objects of its group have, with the members that are kept of it.
    #[cycle(walk)]
    fn only_object<S: Sink>(
        &self,
        at: &mut Progress<S>,
        to: LoadingPosition,
        members: &[Member],
        row: &Row,
    ) -> Result<(), AllocError>
        ensures { AreOnly at.old.groups.items to.onward.group members.now
            → OnOk result (WalksRow S.goes S.below self.now to row.now at.old at.new) }
    {
        let levels = to.onward.levels;
        if levels == 0 {
            return at.out.leaf_value(&LeafValue::Null, to.nullability);
        }
        self.object(at, levels - 1, to.nullability, members, row)
    }

    // An object of a type over a row.
    #[cycle(walk)]
    fn typed_object<S: Sink>(
        &self,
        at: &mut Progress<S>,
        to: LoadingPosition,
        ty: &str,
        row: &Row,
    ) -> Result<(), AllocError>
        ensures { OnOk result (WalksTyped S.goes S.below self.now to ty.now row.now at.old at.new) }
    {
        let levels = to.onward.levels;
        if levels == 0 {
            return at.out.leaf_value(&LeafValue::Null, to.nullability);
        }
        let count = at.groups.len();
        let held = at.out.waiting();
        let members = shape_of(self, &mut at.groups, to.onward.group, ty)?;
        self.object(at, levels - 1, to.nullability, &members, row)?;
        let_go(at, self.most, count, held);
        Ok(())
    }
}

// Lets the groups past the first `count` go, if there are as many as are kept and no position more waits than were held.
fn let_go<S: Sink>(at: &mut Progress<S>, most: usize, count: usize, held: usize)
    ensures { LetsGo S.waits most count held at.old at.new }
{
    if most <= count && at.out.waiting() == held {
        at.groups.truncate(count);
    }
}
