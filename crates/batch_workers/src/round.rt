//! A round: its orders go through one queue to the workers, and their replies to the shelf.
//!
//! Workers are started by halves, each by the one before. After all have ended the caller looks once more
//! whether an order waits: that none does shows that each was taken.
ghost use Rattle.std.specs.Prelude.{◌≡◌, ◌≤◌, ◌<◌, ◌++◌, [], IfOk, IsOk, IsPermutation, length, All};
ghost use Rattle.std.specs.Thread.{IsSync};
ghost use Rattle.crossbeam_queue.specs.Passes.{view, IsPassOf, ruled_capacity};
ghost use Rattle.load_memory.specs.Shelves.{IsOn};
ghost use Rattle.load_queue.specs.Orders.{IsCutBy, AreCutBy};
ghost use Rattle.batch_workers.specs.Desk.{knowledge};
ghost use Rattle.batch_workers.specs.Round.{Shows, AllAnswered};
ghost use Rattle.batch_workers.specs.Work.{CanShare, Worked, WorkedAt};

use crate::desk::{Desk, Halves, Put, TakenOrder, Worker};
use load_memory::{Receipt, Shelf};
use load_queue::{Loader, Order, Source};
use std::alloc::{AllocError, Global};
use std::sync::Wait;
use std::thread::{Threads, join_mut};

/// The most workers that a round may have.
pub const MOST_WORKERS: usize = 16;

/// Holds what the workers of a round share.
#[derive(Drop)]
struct Bench<'a, S> {
    alloc: Global,
    loaders: &'a [Loader<S>],
    shelf: &'a Shelf,
    desk: &'a Desk,
}

// Runs an order and stores its reply.
fn serve<S: Source, R: Wait>(
    rt: &R,
    bench: &Bench<'_, S>,
    order: Order,
) -> Result<Receipt, AllocError>
    requires { IsCutBy bench.now.loaders.now order }
    ensures { IfOk result (λ r.
        Shows S.may_answer bench.now.loaders.now bench.now.shelf.now order r) }
{
    let reply = order.run(bench.alloc, bench.loaders)?;
    match bench.shelf.put(rt, reply) {
        Ok(receipt) => Ok(receipt),
        Err(_) => Err(AllocError),
    }
}

// Takes orders until none waits, or memory runs out.
fn work<S: Source, R: Wait>(
    rt: &R,
    bench: &Bench<'_, S>,
    worker: &mut Worker,
) -> Result<Vec<Receipt>, AllocError>
    requires desk { IsPassOf bench.now.desk.now worker.old }
    requires part { 0 < (view worker.old).parts }
    requires loaders { AreCutBy bench.now.loaders.now
        (view worker.old).all }
    ensures desk { IsPassOf bench.now.desk.now worker.new }
    ensures worked { Worked S.may_answer bench.now.loaders.now
        bench.now.shelf.now (view worker.old) (view worker.new) result }
    ensures whole { (view worker.new).parts ≡ 16
        → IfOk result (λ _. IsPermutation (view worker.new).all (view worker.new).taken) }
{
    let mut receipts = Vec::new(bench.alloc);
    for _ in rt.forever() {
        let Some(order) = bench.desk.pop_as::<TakenOrder, R>(rt, worker) else {
            return Ok(receipts);
        };
        receipts.push(serve(rt, bench, order)?)?;
    }
    unreachable!()
}

// Runs this many workers at the same time, by halves.
fn share<S: Source, R: Threads + Wait + Sync>(
    rt: &R,
    bench: &Bench<'_, S>,
    worker: &mut Worker,
    workers: usize,
) -> Result<Vec<Receipt>, AllocError>
    requires desk { IsPassOf bench.now.desk.now worker.old }
    requires part { (0 < workers)
        × (workers ≤ (view worker.old).parts) }
    requires loaders { AreCutBy bench.now.loaders.now
        (view worker.old).all }
    ensures desk { IsPassOf bench.now.desk.now worker.new }
    ensures worked { Worked S.may_answer bench.now.loaders.now
        bench.now.shelf.now (view worker.old) (view worker.new) result }
{
    if workers < 2 {
        return work(rt, bench, worker);
    }
    let half = workers / 2;
    let rest = workers - half;
    let mut other = bench.desk.another::<Halves>(worker);
    let (mine, theirs) = join_mut(
        rt,
        &mut || -> Result<Vec<Receipt>, AllocError>
            requires { IsSync R.row × IsSync S.row × IsPassOf bench.now.desk.now worker.now
                × CanShare bench.now.loaders.now (view worker.now) rest }
            ensures { WorkedAt S.may_answer bench.entry.now.loaders.now bench.entry.now.shelf.now
                bench.entry.now.desk.now worker.entry.now worker.exit.now result }
        { share(rt, bench, worker, rest) },
        &mut || -> Result<Vec<Receipt>, AllocError>
            requires { IsSync R.row × IsSync S.row × IsPassOf bench.now.desk.now other
                × CanShare bench.now.loaders.now (view other) half }
            ensures { WorkedAt S.may_answer bench.entry.now.loaders.now bench.entry.now.shelf.now
                bench.entry.now.desk.now other.entry other.exit result }
        { share(rt, bench, &mut other, half) },
    );
    bench.desk.absorb::<Halves>(worker, other);
    join_receipts(mine, theirs)
}

// The receipts of both, unless one is out of memory.
fn join_receipts(
    mine: Result<Vec<Receipt>, AllocError>,
    theirs: Result<Vec<Receipt>, AllocError>,
) -> Result<Vec<Receipt>, AllocError>
    ensures items { IfOk result (λ v.
        IfOk mine (λ a. IfOk theirs (λ b. v.items ≡ a.items ++ b.items))) }
    ensures both { IsOk result → IsOk mine × IsOk theirs }
{
    let mut all = mine?;
    let mut more = theirs?;
    all.append(&mut more)?;
    Ok(all)
}

// Puts all orders into the queue.
fn put_all<R: Wait>(rt: &R, desk: &Desk, worker: &mut Worker, orders: Vec<Order>)
    requires desk { IsPassOf desk.now worker.old
        × (view worker.old ≡ knowledge 16 [] []) }
    requires room { ruled_capacity desk.now
        ≡ length orders.items }
    ensures { IsPassOf desk.now worker.new
        × (view worker.new ≡ knowledge 16 orders.items []) }
{
    for order in orders {
        match desk.push_as::<Put, R>(rt, worker, order) {
            Ok(()) => {}
            Err(_) => unreachable!(),
        }
    }
}

/// Runs each order once, by this many workers at the same time, and gives one receipt for each, in any order. The orders go
/// through one queue: a worker that is done with one takes the next, so a slow batch holds up no other. No more workers are
/// started than there are orders, and one of them is the calling thread. A worker for which no thread can be made runs on the
/// thread that would have started it.
///
/// All workers have ended when it returns. A worker that runs out of memory, here or in a source, takes no further order. The
/// orders that are left are dropped unrun, and the round is lost.
///
/// # Errors
///
/// When out of memory, here or in a source: the orders are gone, and no receipt is returned, not even for a
/// reply that is on the shelf (`answered` and `shelved` speak of `Ok` alone).
pub fn run_round<S: Source, R: Threads + Wait + Sync>(
    rt: &R,
    alloc: Global,
    loaders: &[Loader<S>],
    shelf: &Shelf,
    orders: Vec<Order>,
    workers: usize,
) -> Result<Vec<Receipt>, AllocError>
    requires workers { (0 < workers) × (workers ≤ 16) }
    requires loaders { AreCutBy
        loaders.now orders.items }
    ensures answered { IfOk result (λ v.
        AllAnswered S.may_answer loaders.now shelf.now orders.items v.items) }
    ensures shelved { IfOk result
        (λ v. All (IsOn shelf.now) v.items) }
{
    if orders.is_empty() {
        return Ok(Vec::new(alloc));
    }
    let busy = workers.min(orders.len());
    let (desk, mut worker) = Desk::ruled(alloc, orders.len())?;
    put_all(rt, &desk, &mut worker, orders);
    let bench = Bench {
        alloc,
        loaders,
        shelf,
        desk: &desk,
    };
    let most = share(rt, &bench, &mut worker, busy)?;
    let last = work(rt, &bench, &mut worker);
    join_receipts(Ok(most), last)
}
