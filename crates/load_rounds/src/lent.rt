//! Plans that are lent to a run.
ghost use Rattle.std.specs.Prelude.{◌≡◌};

use execution::{CountWork, Counted, Execute, ExecutionResult};
use futures::task::Poll;
use load_memory::Memory;
use load_queue::Wants;
use std::alloc::{AllocError, Global};
use std::marker::Model;

/// A plan that is lent to a run, which executes it as its own. A contract sees the plan.
#[derive(Drop)]
pub struct Lent<'p, P> {
    plan: &'p P,
}

impl<'p, P> Model for Lent<'p, P> {
    ghost Value = { P };

    ghost view = { λ lent. lent.plan.now };
}

impl<'p, P> Lent<'p, P> {
    pub(crate) fn of(plan: &'p P) -> Lent<'p, P>
        ensures { result ≡ plan.now }
    {
        Lent { plan }
    }
}

impl<'p, E, P: Execute<E>> Execute<E> for Lent<'p, P> {
    ghost program = { P.program };

    ghost text_of = { P.text_of };

    ghost loaders = { P.loaders };

    ghost fits = { P.fits };

    ghost left = { P.left };

    fn start(&self) -> E {
        self.plan.start()
    }

    fn execute(
        &self,
        progress: &mut E,
        alloc: Global,
        memory: &Memory,
        wants: &mut Wants,
    ) -> Result<Poll<ExecutionResult>, AllocError> {
        self.plan.execute(progress, alloc, memory, wants)
    }

    fn work_ahead(
        &self,
        progress: &mut E,
        alloc: Global,
        memory: &Memory,
        steps: usize,
    ) -> Result<Option<usize>, AllocError> {
        self.plan.work_ahead(progress, alloc, memory, steps)
    }
}

impl<'p, E, P: CountWork<E>> CountWork<E> for Lent<'p, P> {
    fn work_left(
        &self,
        alloc: Global,
        memory: &Memory,
        most: usize,
    ) -> Result<Option<usize>, AllocError> {
        self.plan.work_left(alloc, memory, most)
    }

    fn count_ahead(
        &self,
        progress: &mut E,
        alloc: Global,
        memory: &Memory,
        most: usize,
        steps: usize,
    ) -> Result<Option<Counted>, AllocError> {
        self.plan.count_ahead(progress, alloc, memory, most, steps)
    }
}
