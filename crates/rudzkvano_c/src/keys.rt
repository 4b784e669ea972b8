//! Keys of a client, and what its loaders were asked.
ghost use Rattle.std.specs.Prelude.{◌≡◌, Ok, IfOk};
ghost use Rattle.load_memory.specs.Cells.{cut};
ghost use Rattle.load_rounds.specs.Histories.{ClearingAll};
ghost use Rattle.flat_orders.specs.Written.{lists_said};
ghost use Rattle.host_clients.specs.Known.{Calls};
ghost use Rattle.host_clients.specs.Laid.{texts_at};
ghost use Rattle.host_clients.specs.Refused.{LoaderFault};
ghost use Rattle.rudzkvano_c.specs.Held.{Becomes, Copies, Makes, Primes, TellsCleared, one_in};
ghost use Rattle.rudzkvano_c.specs.Logged.{AreSizesTold, CopiesLog, TellsLogSizes};
ghost use Rattle.rudzkvano_c.specs.Told.{IsTold};

use crate::codes::code_of;
use crate::handle::Handle;
use host_clients::{Fault, FlatReply, HostClient};
use std::alloc::Global;

/// Numbers of elements that the buffers of `rz_log` have to hold.
#[repr(C)]
#[derive(Drop)]
pub struct LogSizes {
    pub batches: usize,
    pub keys: usize,
    pub texts: usize,
    pub bytes: usize,
}

// Writes what a call tells.
fn tell(tells: Result<bool, Fault>, to: &mut u32) -> Result<(), Fault>
    ensures { IsTold tells to.old to.new result }
{
    *to = u32::from(tells?);
    Ok(())
}

/// Adds an item for a loader's key, unless the key is known.
///
/// # Promise
///
/// As `rz_limit_answers` says
#[unsafe(no_mangle)]
pub extern "C" fn rz_prime(
    alloc: Global,
    client: &mut Handle,
    loader: usize,
    key_ends: &[u32],
    key_bytes: &[u8],
    columns: usize,
    rows: u32,
    ends: &[u32],
    bytes: &[u8],
    primed: &mut u32,
) -> i32
    ensures { Makes (Primes loader (texts_at key_ends.now key_bytes.now) (one_in columns
        rows ends.now bytes.now) primed.new) client.old.held client.new.held result }
{
    let rows = [rows];
    let item = FlatReply {
        columns,
        rows: &rows[..],
        ends,
        bytes,
    };
    let added = client.on_client(
        alloc,
        &mut |client| client.prime_flat(alloc, loader, key_ends, key_bytes, &item),
    );
    code_of(tell(added, primed))
}

/// Forgets a loader's key.
///
/// # Promise
///
/// As `rz_limit_answers` says
#[unsafe(no_mangle)]
pub extern "C" fn rz_clear(
    alloc: Global,
    client: &mut Handle,
    loader: usize,
    key_ends: &[u32],
    key_bytes: &[u8],
    was_known: &mut u32,
) -> i32
    ensures { let key = texts_at key_ends.now key_bytes.now in
        Makes (TellsCleared loader key was_known.new) client.old.held client.new.held result }
{
    let there = client.on_client(
        alloc,
        &mut |client| client.clear_flat(alloc, loader, key_ends, key_bytes),
    );
    code_of(tell(there, was_known))
}

/// Forgets all keys of a loader.
///
/// # Promise
///
/// As `rz_limit_answers` says
#[unsafe(no_mangle)]
pub extern "C" fn rz_clear_all(alloc: Global, client: &mut Handle, loader: usize) -> i32
    ensures { Makes (Becomes (Calls (ClearingAll loader)) (LoaderFault loader))
        client.old.held client.new.held result }
{
    code_of(client.on_client(alloc, &mut |client| client.clear_all(loader)))
}

// The sizes of a loader's log.
fn log_sizes(alloc: Global, client: &HostClient, loader: usize) -> Result<LogSizes, Fault>
    ensures { IfOk result
        (λ sizes. TellsLogSizes loader sizes client.now (Ok tt)) }
{
    let log = client.log(alloc, loader)?.sizes();
    Ok(LogSizes {
        batches: log.lists,
        keys: log.keys,
        texts: log.texts,
        bytes: log.bytes,
    })
}

// Writes the sizes of a log.
fn tell_sizes(tells: Result<LogSizes, Fault>, to: &mut LogSizes) -> Result<(), Fault>
    ensures { AreSizesTold tells to.old to.new result }
{
    *to = tells?;
    Ok(())
}

/// Returns how many elements the buffers of `rz_log` have to hold.
///
/// # Promise
///
/// Where it gives 0, it tells how much there is to copy (`TellsSizes`, `TellsLoadSizes`, `TellsLoaderSizes`,
/// `TellsLogSizes`)
#[unsafe(no_mangle)]
pub extern "C" fn rz_log_sizes(
    alloc: Global,
    client: &mut Handle,
    loader: usize,
    sizes: &mut LogSizes,
) -> i32
    ensures sizes { Copies (TellsLogSizes loader sizes.new)
        client.old.held result }
    ensures kept { client.new.held ≡ client.old.held }
{
    let told = client.on_client(alloc, &mut |client| log_sizes(alloc, client, loader));
    code_of(tell_sizes(told, sizes))
}

/// Copies the batches that a loader was asked for.
///
/// # Promise
///
/// Where it gives 0, what the buffers say are the loaders of the bindings, or the batches of the loader's log
/// (`CopiesLoaders`, `CopiesLog`)
#[unsafe(no_mangle)]
pub extern "C" fn rz_log(
    alloc: Global,
    client: &mut Handle,
    loader: usize,
    rounds: &mut [u32],
    stored: &mut [u32],
    keys: &mut [u32],
    texts: &mut [u32],
    ends: &mut [u32],
    bytes: &mut [u8],
) -> i32
    ensures copied { Copies (CopiesLog loader rounds.new stored.new
        (lists_said keys.new texts.new (cut bytes.new 0 ends.new))) client.old.held result }
    ensures kept { client.new.held ≡ client.old.held }
{
    let log = match client.on_client(alloc, &mut |client| client.log(alloc, loader)) {
        Ok(log) => log,
        Err(fault) => return fault.code(),
    };
    if !log.has_rounds(rounds.len(), stored.len()) {
        return Fault::BadSize.code();
    }
    if let Err(fault) = log.copy_keys(keys, texts, ends, bytes) {
        return fault.code();
    }
    code_of(log.copy_rounds(rounds, stored))
}
