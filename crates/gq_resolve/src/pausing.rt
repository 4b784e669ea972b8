//! A sink that stops a walk after so many steps, and goes on where it stopped.
//!
//! A walk that was stopped is begun anew at its root. What was put before is passed over: on each level the walk goes at once to the field
//! or item at which it was stopped. So it goes over as many levels again as it was in, and always comes back to where it was stopped.

use load_memory::KeyRef;
use plan_program::LeafValue;
use plan_walk::positions::{Items, Leaf, MemberPosition, Nullability, Onward, PositionKind};
use plan_walk::sink::Sink;
use std::alloc::{AllocError, Global};
use std::mem;

/// Says what becomes of what is put.
#[derive(Clone, Copy, Debug, Drop)]
pub enum Course {
    /// Nothing: it was put before the walk was stopped.
    Back,
    /// It is put into the sink.
    Onward,
    /// Nothing: the walk is stopped.
    Stopped,
}

/// Puts what a walk puts into a sink, for so many steps: a step is a field or an item.
#[derive(Drop)]
pub struct Pausing<S> {
    pub out: S,
    pub course: Course,
    /// Where the walk is: of each object and list that it is in, outermost first, how many fields or items it has come to.
    pub path: Vec<usize>,
    /// Says whether nothing was put yet of the last of them.
    pub is_entered: bool,
    /// Where the walk was stopped before.
    pub goal: Vec<usize>,
    /// Says how many steps are left.
    pub steps: usize,
}

impl<S> Pausing<S> {
    ghost use Rattle.std.specs.Prelude.{◌≡◌, OnOk, OnErr};
    ghost use Rattle.gq_resolve.specs.Points.{with_more, origin};
    ghost use Rattle.gq_resolve.specs.Pauses.{point_of, begun_course};
    ghost use Rattle.gq_resolve.specs.declared.pausing.Course.TheVariants as course;

    /// For a walk that isn't begun: it is stopped at its start.
    pub fn new(alloc: Global, out: S) -> Pausing<S>
        ensures out { result.out ≡ out }
        ensures course { result.course ≡ course.Stopped }
        ensures point { point_of result ≡ origin }
    {
        Pausing {
            out,
            course: Course::Stopped,
            path: Vec::new(alloc),
            is_entered: true,
            goal: Vec::new(alloc),
            steps: 0,
        }
    }

    /// For the walk that goes on where this one was stopped, for so many steps.
    pub fn go_on(&mut self, alloc: Global, steps: usize)
        ensures out { self.new.out ≡ self.old.out }
        ensures course { self.new.course ≡ begun_course self.old.is_entered }
        ensures point { point_of self.new ≡ origin }
        ensures goal { self.new.goal ≡ self.old.path }
        ensures steps { self.new.steps ≡ steps }
    {
        self.course = if self.is_entered {
            Course::Onward
        } else {
            Course::Back
        };
        self.goal = mem::replace(&mut self.path, Vec::new(alloc));
        self.is_entered = true;
        self.steps = steps;
    }

    // Comes to so many fields or items more of the innermost object or list.
    fn come_to(&mut self, more: usize) -> Result<(), AllocError>
        ensures path { OnOk result
            (self.new.path.items ≡ with_more more self.old.path.items) }
        ensures others { self.new ≡ record self.old { path = self.new.path } }
        ensures kept { OnErr result (self.new ≡ self.old) }
    {
        let Some(last) = self.path.len().checked_sub(1) else {
            return Ok(());
        };
        self.path[last] = self.path[last].checked_add(more).ok_or(AllocError)?;
        Ok(())
    }
}

impl<S> Pausing<S> {
    ghost use Rattle.std.specs.Prelude.{◌≡◌, false};
    ghost use Rattle.gq_resolve.specs.Pauses.{FallsShort, TurnsBy};

    // Returns how many positions more of the innermost object or list were put before, all of them where the walk was stopped in it.
    fn before(&self) -> usize
        ensures { FallsShort result self.now.path.items self.now.goal.items }
    {
        let depth = self.path.len();
        let Some(last) = depth.checked_sub(1) else {
            return 0;
        };
        let come = self.path[last];
        match self.goal.get(last) {
            Some(there) if depth == self.goal.len() => there.saturating_sub(come),
            Some(there) => there.saturating_sub(1).saturating_sub(come),
            None => 0,
        }
    }

    // Comes past what was entered last. A walk that is back where it was stopped goes onward.
    fn come_past(&mut self)
        ensures turned { TurnsBy self.old.course self.new }
        ensures others { self.new
            ≡ record self.old { is_entered = false; course = self.new.course } }
    {
        self.is_entered = false;
        match self.course {
            Course::Stopped => {}
            Course::Onward => {}
            Course::Back => {
                if self.path.as_slice() == self.goal.as_slice() {
                    self.course = Course::Onward;
                }
            }
        }
    }
}

impl<S: Sink> Sink for Pausing<S> {
    ghost use Rattle.gq_resolve.specs.Pauses.{Pauses, pauses-none, pauses-more, pauses-stays, pauses-as};

    ghost goes = { λ v ps old new. Pauses S.goes v ps old new };

    ghost below = { λ n s. S.below n s.out };

    ghost waits = { λ s. S.waits s.out };

    fn begin(&mut self, kind: PositionKind) -> Result<(), AllocError> {
        match self.course {
            Course::Stopped => return Ok(()),
            Course::Back => {}
            Course::Onward => self.out.begin(kind)?,
        }
        self.path.push(0)?;
        self.come_past();
        Ok(())
    }

    fn end(&mut self, kind: PositionKind, nullability: Nullability) -> Result<(), AllocError> {
        match self.course {
            Course::Stopped => return Ok(()),
            Course::Back => {}
            Course::Onward => self.out.end(kind, nullability)?,
        }
        self.path.truncate(self.path.len().saturating_sub(1));
        self.come_past();
        Ok(())
    }

    fn field(&mut self, position: &MemberPosition) -> Result<(), AllocError> {
        match self.course {
            Course::Stopped => return Ok(()),
            Course::Back => {}
            Course::Onward => {
                self.out.field(position)?;
                self.steps = self.steps.saturating_sub(1);
            }
        }
        self.come_to(1)?;
        self.is_entered = true;
        Ok(())
    }

    fn item(&mut self, items: Items, number: usize) -> Result<(), AllocError> {
        match self.course {
            Course::Stopped => return Ok(()),
            Course::Back => {}
            Course::Onward => {
                self.out.item(items, number)?;
                self.steps = self.steps.saturating_sub(1);
            }
        }
        self.come_to(1)?;
        self.is_entered = true;
        Ok(())
    }

    fn leaf_value(
        &mut self,
        leaf_value: &LeafValue,
        nullability: Nullability,
    ) -> Result<(), AllocError> {
        match self.course {
            Course::Stopped => return Ok(()),
            Course::Back => {}
            Course::Onward => self.out.leaf_value(leaf_value, nullability)?,
        }
        self.come_past();
        Ok(())
    }

    fn cell(&mut self, leaf: Leaf<'_>, nullability: Nullability) -> Result<(), AllocError> {
        match self.course {
            Course::Stopped => return Ok(()),
            Course::Back => {}
            Course::Onward => self.out.cell(leaf, nullability)?,
        }
        self.come_past();
        Ok(())
    }

    fn loads(&mut self, count: usize) {
        match self.course {
            Course::Stopped => {}
            Course::Back => {}
            Course::Onward => self.out.loads(count),
        }
    }

    fn wait(&mut self, onward: Onward, loader: usize, key: KeyRef<'_>) -> Result<(), AllocError> {
        match self.course {
            Course::Stopped => return Ok(()),
            Course::Back => {}
            Course::Onward => self.out.wait(onward, loader, key)?,
        }
        self.come_past();
        Ok(())
    }

    fn waiting(&self) -> usize {
        self.out.waiting()
    }

    fn stops(&mut self) -> bool {
        match self.course {
            Course::Stopped => true,
            Course::Back => false,
            Course::Onward => {
                if self.is_entered || self.steps > 0 {
                    return false;
                }
                self.course = Course::Stopped;
                true
            }
        }
    }

    fn passes(&mut self, count: usize) -> usize {
        match self.course {
            Course::Stopped => 0,
            Course::Onward => 0,
            Course::Back => {
                if self.is_entered {
                    return 0;
                }
                let passed = self.before().min(count);
                match self.come_to(passed) {
                    Ok(()) => self.come_past(),
                    Err(_) => return 0,
                }
                passed
            }
        }
    }

    ghost none = { pauses-none S.goes S.none };

    ghost more = { pauses-more S.goes S.more };

    ghost rises = { λ n m s. S.rises n m s.out };

    ghost stays = { pauses-stays S.goes (λ v s. S.below v.count s) S.stays };

    ghost narrow = { λ v w n ps a b le agree below same. pauses-as S.goes v w ps a b
        (λ qs. S.narrow v w n qs a.out b.out le agree below same) };
}
