//! Keys that a client loads.
ghost use Rattle.std.specs.Prelude.{◌≡◌, IfOk, IfErr};
ghost use Rattle.load_memory.specs.Cells.{cut};
ghost use Rattle.flat_outcomes.specs.Said.{outcomes_said};
ghost use Rattle.rudzkvano_c.specs.Held.{BeginsLoad, Copies, CopiesOutcomes, Makes, keys_of_loader};
ghost use Rattle.rudzkvano_c.specs.Loads.{CopiesFaultsAfter, CopiesRows, HasOutcomes, LacksOutcomes};
ghost use Rattle.rudzkvano_c.specs.Sizes.{TellsLoadSizes, load_sizes};

use crate::codes::code_of;
use crate::handle::Handle;
use host_clients::{Fault, FlatKeys, FlatOutcomes, HostClient};
use std::alloc::Global;

/// Numbers of elements that the buffers of `rz_loaded` have to hold.
#[repr(C)]
#[derive(Drop)]
pub struct LoadSizes {
    pub keys: usize,
    pub rows: usize,
    pub texts: usize,
    pub bytes: usize,
    pub faults: usize,
    pub fault_bytes: usize,
}

/// Begins to load keys of a loader.
///
/// # Promise
///
/// The keys that the buffers say (`keys_said`) are well formed, each as wide as its loader's keys (`AreKeys`), and are
/// to be loaded, and nothing is done yet (`IsBegunLoad`); or, refused, nothing has changed, and the code says why
/// (`LoadFault`)
#[unsafe(no_mangle)]
pub extern "C" fn rz_begin_load(
    alloc: Global,
    client: &mut Handle,
    loader: usize,
    texts: &[u32],
    ends: &[u32],
    bytes: &[u8],
) -> i32
    ensures { Makes (BeginsLoad (keys_of_loader loader texts.now ends.now bytes.now))
        client.old.held client.new.held result }
{
    let keys = FlatKeys {
        loader,
        shapes: texts,
        ends,
        bytes,
    };
    code_of(client.on_client(alloc, &mut |client| client.begin_load(alloc, &keys)))
}

fn sizes_of(outcomes: &FlatOutcomes) -> LoadSizes
    ensures { result ≡ load_sizes outcomes.now }
{
    let sizes = outcomes.sizes();
    LoadSizes {
        keys: sizes.keys,
        rows: sizes.rows,
        texts: sizes.texts,
        bytes: sizes.bytes,
        faults: sizes.faults,
        fault_bytes: sizes.fault_bytes,
    }
}

/// Returns how many elements the buffers of `rz_loaded` have to hold.
///
/// # Promise
///
/// As `rz_log_sizes` says
#[unsafe(no_mangle)]
pub extern "C" fn rz_load_sizes(alloc: Global, client: &mut Handle, sizes: &mut LoadSizes) -> i32
    ensures sizes { Copies (TellsLoadSizes sizes.new)
        client.old.held result }
    ensures kept { client.new.held ≡ client.old.held }
{
    code_of(client.on_client(
        alloc,
        &mut |client| {
            let HostClient::Loaded(loaded) = client else {
                return Err(Fault::Idle);
            };
            *sizes = sizes_of(loaded.outcomes());
            Ok(())
        },
    ))
}

// The outcomes of the keys that a client loaded last.
fn outcomes_of(client: &HostClient) -> Result<&FlatOutcomes, Fault>
    ensures outcomes { IfOk result (λ outcomes. HasOutcomes outcomes.now client.now) }
    ensures none { IfErr result (LacksOutcomes client.now) }
{
    match client {
        HostClient::Loaded(loaded) => Ok(loaded.outcomes()),
        _ => Err(Fault::Idle),
    }
}

// Copies the rows of outcomes, where there is also just the room that their faults take: `faults`
// says their number and their bytes.
fn copy_rows(
    client: &HostClient,
    faults: (usize, usize),
    counts: &mut [u32],
    widths: &mut [u32],
    ends: &mut [u32],
    bytes: &mut [u8],
) -> Result<(), Fault>
    ensures { CopiesRows counts.new widths.new (cut bytes.new 0 ends.new) client.now result }
{
    let outcomes = outcomes_of(client)?;
    let sizes = outcomes.sizes();
    if faults.0 != sizes.faults || faults.1 != sizes.fault_bytes {
        return Err(Fault::BadSize);
    }
    Ok(outcomes.copy_rows_to(counts, widths, ends, bytes)?)
}

// Copies the faults of outcomes, if the rows were copied.
fn copy_faults(
    client: &HostClient,
    rows: Result<(), Fault>,
    ends: &mut [u32],
    bytes: &mut [u8],
) -> Result<(), Fault>
    ensures { CopiesFaultsAfter rows
        (cut bytes.new 0 ends.new) client.now result }
{
    rows?;
    Ok(outcomes_of(client)?.copy_faults_to(ends, bytes)?)
}

/// Copies the outcomes of the keys that were loaded last.
///
/// # Promise
///
/// Where it gives 0, what the buffers say (`outcomes_said`) are the outcomes that the handle holds, one for each
/// key that was asked for; and they are those of a call of `load_many` with these keys in a session of a client of
/// its server (`AreOutcomesOf`)
#[unsafe(no_mangle)]
pub extern "C" fn rz_loaded(
    alloc: Global,
    client: &mut Handle,
    counts: &mut [u32],
    widths: &mut [u32],
    ends: &mut [u32],
    bytes: &mut [u8],
    fault_ends: &mut [u32],
    fault_bytes: &mut [u8],
) -> i32
    // The buffers say the outcomes of what was begun, where it gives 0.
    ensures copied { Copies (CopiesOutcomes (outcomes_said counts.new widths.new
        (cut bytes.new 0 ends.new) (cut fault_bytes.new 0 fault_ends.new))) client.old.held result }
    ensures kept { client.new.held ≡ client.old.held }
{
    let faults = (fault_ends.len(), fault_bytes.len());
    code_of(client.on_client(
        alloc,
        &mut |client| {
            let rows = copy_rows(client, faults, counts, widths, ends, bytes);
            copy_faults(client, rows, fault_ends, fault_bytes)
        },
    ))
}
