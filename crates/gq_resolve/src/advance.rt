//! Executions that begin, stop where a load is missing, and go on.

ghost use Rattle.std.specs.Prelude.{[], IfOk};
ghost use Rattle.std.specs.Arc.{arc_value};
ghost use Rattle.gq_check.specs.Plans.{PlanOf, plan_of};
ghost use Rattle.plan_program.specs.PlanPrograms.{root_prepared};
ghost use Rattle.plan_walk.specs.Groups.{AreMade};
ghost use Rattle.gq_resolve.specs.Suspended.{plan_on, IsAlike, IsReusable, IsRooted, WaitsBelow, GoesOverTour, MayGoOn, Searched, Advanced, FitsTour};

use crate::output::Output;
use gq_check::Plan;
use load_memory::{Probe, Row};
use plan_program::{ObjectType, collect};
use plan_walk::again::members_again;
use plan_walk::loading_fields::{LoadingField, Member, copy_of, members_of};
use plan_walk::positions::Nullability;
use plan_walk::sink::Sink;
use plan_walk::waiting::Waiting;
use plan_walk::walk::{LoadingPosition, Progress, Walk};
use std::alloc::{AllocError, Global};
use std::sync::Arc;

/// Says how many levels of objects a plan has at most below its root.
const MOST_LEVELS: u32 = 128;

/// The positions of the root object, its row, which has no columns, and the groups that were met.
#[derive(Drop)]
pub struct RootObject {
    pub members: Arc<Vec<Member>>,
    pub row: Row,
    pub groups: Vec<LoadingField>,
}

/// A walk over a plan that came to its end: the root, whose groups may be more than before, and what it was put into.
#[derive(Drop)]
pub struct FinishedWalk<S> {
    pub rooted: RootObject,
    pub out: S,
}

/// Says where an execution stopped: what was prepared, and the positions that wait. It begins at its root again where none are
/// kept.
#[derive(Drop)]
pub struct Suspension {
    pub rooted: RootObject,
    pub waiting: Waiting,
}

/// The root object (section 6.2.1).
pub fn prepare_root(walk: &Walk<'_>) -> Result<RootObject, AllocError>
    ensures rooted { IfOk result
        (IsRooted (plan_of walk.now.plan.now)) }
    ensures made { IfOk result (λ r. AreMade [] r.groups.items
        (root_prepared (plan_of walk.now.plan.now)) (arc_value r.members).items) }
{
    let ty = ObjectType::Found(walk.plan.schema().root_type());
    let selections = &walk.plan.operation().selection_set.selections;
    let collected = collect(walk.alloc, walk.plan, ty.name(), selections)?;
    let mut groups = Vec::new(walk.alloc);
    let members = members_of(walk, &mut groups, &ty, collected)?;
    Ok(RootObject {
        members: Arc::new(walk.alloc, members)?,
        row: Row::new(walk.alloc, &[])?,
        groups,
    })
}

impl RootObject {
    /// A copy, which shares the members and the row.
    pub fn copy(&self) -> Result<RootObject, AllocError>
        ensures { IfOk result (λ copy.
            (plan : PlanOf) → IsRooted plan self.now → IsRooted plan copy) }
    {
        Ok(RootObject {
            members: Arc::try_clone(&self.members)?,
            row: self.row.clone()?,
            groups: copy_of(&self.groups)?,
        })
    }

    /// The root of a plan that is this one's with other variables and leaves out the same. Its members are made again; what was prepared
    /// below them is shared.
    pub fn again(&self, alloc: Global, plan: &Plan) -> Result<RootObject, AllocError>
        ensures { IfOk result (λ again. (first : PlanOf) → IsAlike first (plan_of plan.now)
            → IsReusable first self.now → IsReusable (plan_of plan.now) again) }
    {
        let ty = ObjectType::Found(plan.schema().root_type());
        let selections = &plan.operation().selection_set.selections;
        let collected = collect(alloc, plan, ty.name(), selections)?;
        let mut groups = copy_of(&self.groups)?;
        let members = members_again(alloc, plan, &mut groups, &ty, collected, &self.members)?;
        let row = self.row.clone()?;
        Ok(RootObject {
            members: Arc::new(alloc, members)?,
            row,
            groups,
        })
    }
}

/// Goes over the whole plan, into a sink in which nothing waits at a later group.
pub fn go_over<S: Sink + Drop>(
    walk: &Walk<'_>,
    rooted: RootObject,
    out: S,
) -> Result<FinishedWalk<S>, AllocError>
    ensures { IsRooted (plan_on walk.now) rooted → WaitsBelow S.below rooted out
        → IfOk result (GoesOverTour S.goes walk.now out) }
{
    let mut at = Progress {
        groups: rooted.groups,
        probe: Probe::new(),
        out,
    };
    walk.object(
        &mut at,
        MOST_LEVELS,
        Nullability::Nullable,
        &rooted.members,
        &rooted.row,
    )?;
    Ok(FinishedWalk {
        rooted: RootObject {
            groups: at.groups,
            ..rooted
        },
        out: at.out,
    })
}

/// Looks for the loads of the whole plan alone, and writes nothing.
pub fn search_root(walk: &Walk<'_>, rooted: RootObject) -> Result<FinishedWalk<Output>, AllocError>
    ensures { IsRooted (plan_on walk.now) rooted
        → IfOk result (Searched (plan_on walk.now) walk.now.memory.now) }
{
    go_over(walk, rooted, Output::waiting_only(walk.alloc))
}

// Goes over the whole plan, and writes as long as nothing is missing. Over a memory that has no pair a root that loads can't be answered,
// so it looks for the loads first, and writes nothing where there are some.
fn begin(
    walk: &Walk<'_>,
    most: usize,
    rooted: RootObject,
) -> Result<FinishedWalk<Output>, AllocError>
    ensures { IsRooted (plan_on walk.now) rooted
        → IfOk result (Advanced (plan_on walk.now) walk.now.memory.now most) }
{
    let mut rooted = rooted;
    if !rooted.groups.is_empty() && walk.memory.is_empty() {
        let searched = search_root(walk, rooted)?;
        if !searched.out.blocked.is_empty() {
            return Ok(searched);
        }
        rooted = searched.rooted;
    }
    let mut at = Progress {
        groups: rooted.groups,
        probe: Probe::new(),
        out: Output::new(walk.alloc, most)?,
    };
    walk.object(
        &mut at,
        MOST_LEVELS,
        Nullability::Nullable,
        &rooted.members,
        &rooted.row,
    )?;
    Ok(FinishedWalk {
        rooted: RootObject {
            groups: at.groups,
            ..rooted
        },
        out: at.out,
    })
}

/// Goes on at the positions that wait, and looks for loads alone.
pub fn search_waiting(
    walk: &Walk<'_>,
    rooted: RootObject,
    waiting: Waiting,
) -> Result<FinishedWalk<Output>, AllocError>
    ensures { MayGoOn (plan_on walk.now) walk.now.memory.now rooted waiting
        → IfOk result (Searched (plan_on walk.now) walk.now.memory.now) }
{
    let mut at = Progress {
        groups: rooted.groups,
        probe: Probe::new(),
        out: Output::waiting_only(walk.alloc),
    };
    for position in waiting.as_slice() {
        let to = LoadingPosition {
            onward: position.onward,
            nullability: Nullability::Nullable,
        };
        walk.read(&mut at, to, position.loader, position.key.as_key_ref())?;
    }
    Ok(FinishedWalk {
        rooted: RootObject {
            groups: at.groups,
            ..rooted
        },
        out: at.out,
    })
}

// Goes on at the positions that wait, and writes where nothing is missing below them.
fn go_on(
    walk: &Walk<'_>,
    most: usize,
    rooted: RootObject,
    waiting: Waiting,
) -> Result<FinishedWalk<Output>, AllocError>
    ensures { MayGoOn (plan_on walk.now) walk.now.memory.now rooted waiting
        → IfOk result (Advanced (plan_on walk.now) walk.now.memory.now most) }
{
    let searched = search_waiting(walk, rooted, waiting)?;
    if searched.out.blocked.is_empty() {
        return begin(walk, most, searched.rooted);
    }
    Ok(searched)
}

/// Goes on with each load that the memory has, from where an execution stopped. Where nothing is missing, it comes to the end, and has
/// written the answer, up to `most` bytes.
pub fn advance(
    walk: &Walk<'_>,
    most: usize,
    stopped: Option<Suspension>,
) -> Result<FinishedWalk<Output>, AllocError>
    ensures { FitsTour walk.now stopped → IfOk result
        (Advanced (plan_on walk.now) walk.now.memory.now most) }
{
    match stopped {
        None => begin(walk, most, prepare_root(walk)?),
        Some(Suspension { rooted, waiting }) if waiting.is_empty() => begin(walk, most, rooted),
        Some(Suspension { rooted, waiting }) => go_on(walk, most, rooted, waiting),
    }
}
