//! The pieces of a loader's keys, as orders and as entries of its log.
ghost use Rattle.std.specs.Prelude.{◌≡◌, ◌<◌, ◌++◌, ℕ, Some, IfOk, OnOk, OnErr, map, length, take};
ghost use Rattle.load_memory.specs.Keys.{key_of};
ghost use Rattle.load_queue.specs.Batches.{pieces, batches};
ghost use Rattle.load_queue.specs.Orders.{cut_of};
ghost use Rattle.load_queue.specs.Loaders.{entered};
ghost use Rattle.load_queue.specs.Logs.{asked_of};

use crate::identity::Identity;
use crate::loader::LogEntry;
use crate::order::Order;
use load_memory::{Key, Keys};
use std::alloc::{AllocError, Global};

/// The most keys that one piece may have.
pub(crate) fn piece_length(limit: Option<u32>, keys: &[Key]) -> usize
    requires { (n : ℕ) → limit ≡ Some n → 0 < n }
    ensures positive { 0 < result }
    ensures pieces { pieces (length keys.now) result (map key_of keys.now)
        ≡ batches limit (map key_of keys.now) }
{
    match limit {
        Some(limit) => limit as usize,
        None => keys.len().max(1),
    }
}

/// An order of each piece. All of them share one list of keys, which is the one that was handed over.
pub(crate) fn cut_orders(
    alloc: Global,
    identity: &Identity,
    loader: usize,
    keys: Vec<Key>,
    most: usize,
) -> Result<Vec<Order>, AllocError>
    requires { 0 < most }
    ensures { IfOk result (λ orders. orders.items ≡ map (cut_of identity.now loader)
        (pieces (length keys.items) most (map key_of keys.items))) }
{
    let mut rest = Keys::from_vec(keys)?;
    let mut orders = Vec::new(alloc);
    while rest.len() > most {
        let piece = rest.split_to(most)?;
        orders.push(Order::new(identity, loader, piece))?;
    }
    if !rest.is_empty() {
        orders.push(Order::new(identity, loader, rest))?;
    }
    Ok(orders)
}

/// Enters each order in a log as asked in this round. The entries share the orders' keys. When out of memory, the log is
/// as it was.
pub(crate) fn enter(log: &mut Vec<LogEntry>, round: u32, orders: &[Order]) -> Result<(), AllocError>
    ensures entered { OnOk result (map asked_of log.new.items ≡ map asked_of log.old.items
        ++ map (entered round) (map (λ o. o.keys) orders.now)) }
    ensures kept { OnErr result (log.new.items ≡ log.old.items) }
{
    let earlier = log.len();
    let added = add_entries(log, round, orders);
    if added.is_err() {
        log.truncate(earlier);
    }
    added
}

// Adds an entry for each order. When out of memory, it has added some of them.
fn add_entries(log: &mut Vec<LogEntry>, round: u32, orders: &[Order]) -> Result<(), AllocError>
    ensures entered { OnOk result (map asked_of log.new.items ≡ map asked_of log.old.items
        ++ map (entered round) (map (λ o. o.keys) orders.now)) }
    ensures earlier { take (length log.old.items) log.new.items
        ≡ log.old.items }
{
    log.reserve(orders.len())?;
    for order in orders {
        log.push(LogEntry {
            round,
            keys: order.shared_keys()?,
            stored: false,
        })?;
    }
    Ok(())
}

/// Returns the same keys once more.
pub(crate) fn copy_of(alloc: Global, keys: &[Key]) -> Result<Vec<Key>, AllocError>
    ensures { IfOk result (λ copy.
        map key_of copy.items ≡ map key_of keys.now) }
{
    let mut copy = Vec::with_capacity(alloc, keys.len())?;
    for key in keys {
        copy.push(key.clone()?)?;
    }
    Ok(copy)
}
