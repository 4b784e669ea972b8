//! Servers.
ghost use Rattle.std.specs.Prelude.{◌≡◌};
ghost use Rattle.load_memory.specs.Cells.{cut};
ghost use Rattle.host_clients.specs.Objects.{Shares};
ghost use Rattle.rudzkvano_c.specs.Held.{CopiesOfServer, CopiesServer, Gives, Opens, OpensAs};
ghost use Rattle.rudzkvano_c.specs.Loaders.{CopiesLoaders, TellsLoaderSizes};
ghost use Rattle.fault_sentences.specs.Told.{Tells};
ghost use Rattle.rudzkvano_c.specs.Told.{fault_told, fault_at};

use crate::codes::code_of;
use crate::handle::Handle;
use fault_sentences::{FaultAt, copy_sentence};
use host_clients::{Fault, FaultPlace, LoaderTexts, Object, OpenFault, open_server};
use std::alloc::Global;

/// Reason why a schema or its bindings are refused, and the place.
#[repr(C)]
#[derive(Drop)]
pub struct SchemaFault {
    pub line: u64,
    pub column: u64,
    pub number: u32,
    pub in_bindings: u32,
}

/// Numbers of elements that the buffers of `rz_loaders` have to hold.
#[repr(C)]
#[derive(Drop)]
pub struct LoaderSizes {
    pub loaders: usize,
    pub bytes: usize,
}

fn fault_of(place: FaultPlace) -> SchemaFault
    ensures { result ≡ fault_told place }
{
    SchemaFault {
        line: place.line,
        column: place.column,
        number: place.number,
        in_bindings: u32::from(place.in_bindings),
    }
}

// The server of two texts. What is wrong with them goes to `fault`.
fn server_object(
    alloc: Global,
    schema: &[u8],
    bindings: &[u8],
    fault: &mut SchemaFault,
) -> Result<Object, Fault>
    ensures { OpensAs schema.now bindings.now
        fault.old fault.new result }
{
    match open_server(alloc, schema, bindings) {
        Ok(opened) => Ok(Object::Server(opened)),
        Err(OpenFault::NotUtf8) => Err(Fault::NotUtf8),
        Err(OpenFault::NoMemory) => Err(Fault::NoMemory),
        Err(OpenFault::Refused(place)) => {
            *fault = fault_of(place);
            Err(Fault::BadSchema)
        }
    }
}

/// Reads a schema and its bindings. The handle then holds their server.
///
/// # Promise
///
/// The server that the texts say; the same server; a client that knows nothing, within its limits, of which there
/// are none or one for each loader. Refused, the handle holds what it held, and the code says why: for texts that are
/// no server `fault` has their first fault with its place (`OpensAs`)
#[unsafe(no_mangle)]
pub extern "C" fn rz_open(
    alloc: Global,
    server: &mut Handle,
    schema: &[u8],
    bindings: &[u8],
    fault: &mut SchemaFault,
) -> i32
    ensures { Opens schema.now bindings.now fault.old fault.new
        server.old.held server.new.held result }
{
    let opened = server_object(alloc, schema, bindings, fault);
    code_of(server.put_made(alloc, opened))
}

fn fault_at(fault: &SchemaFault) -> FaultAt
    ensures { result ≡ fault_at fault.now }
{
    FaultAt {
        number: fault.number,
        line: fault.line,
        column: fault.column,
        in_bindings: fault.in_bindings != 0,
    }
}

/// Copies what is wrong with a schema or its bindings, in a sentence.
///
/// # Promise
///
/// Nothing where it gives 0; else the buffer begins with the sentence, as far as there is room, of a complaint
/// that is true of the texts (`Says`): it is one of the fault's number, on the token or the character at the fault's place; or on words of
/// the fault's line, and no complaint that looks less far into that line is true; or, where no line is bad, on the version, or on the first
/// field that lacks a line. It says no more than that the schema is refused only where the number has no complaint on what stands there,
/// the text is too long to be read, or the fault is of bindings over a text that is no schema; and no more than that the bindings are only
/// where no line is bad or missing. That it is the fault of these texts isn't asked: `clients/schema_faults.txt` tests both together
#[unsafe(no_mangle)]
pub extern "C" fn rz_fault_text(
    alloc: Global,
    fault: &SchemaFault,
    schema: &[u8],
    bindings: &[u8],
    bytes: &mut [u8],
) -> usize
    ensures { Tells (fault_at fault.now) schema.now bindings.now
        bytes.old bytes.new result }
{
    copy_sentence(alloc, &fault_at(fault), schema, bindings, bytes)
}

/// Holds the same server in another handle too.
///
/// # Promise
///
/// As `rz_open` says
#[unsafe(no_mangle)]
pub extern "C" fn rz_share(alloc: Global, server: &mut Handle, other: &mut Handle) -> i32
    ensures shared { Gives Shares server.old.held
        other.old.held other.new.held result }
    ensures kept { server.new.held ≡ server.old.held }
{
    let shared = server.on_object(alloc, &mut |object| object.share());
    code_of(other.put_made(alloc, shared))
}

/// Returns how many elements the buffers of `rz_loaders` have to hold.
///
/// # Promise
///
/// As `rz_log_sizes` says
#[unsafe(no_mangle)]
pub extern "C" fn rz_loaders_sizes(
    alloc: Global,
    server: &mut Handle,
    sizes: &mut LoaderSizes,
) -> i32
    ensures sizes { CopiesOfServer (TellsLoaderSizes sizes.new) server.old.held result }
    ensures kept { server.new.held ≡ server.old.held }
{
    code_of(server.on_object(
        alloc,
        &mut |object| {
            let Object::Server(server) = object else {
                return Err(Fault::BadHandle);
            };
            let texts = LoaderTexts::of(alloc, server)?;
            *sizes = LoaderSizes {
                loaders: texts.len(),
                bytes: texts.byte_len(),
            };
            Ok(())
        },
    ))
}

fn copy_loaders(
    alloc: Global,
    object: &Object,
    kinds: &mut [u32],
    ends: &mut [u32],
    bytes: &mut [u8],
) -> Result<(), Fault>
    ensures { CopiesServer (CopiesLoaders kinds.new (cut bytes.new 0 ends.new)) object.now result }
{
    match object {
        Object::Server(server) => LoaderTexts::of(alloc, server)?.copy_to(kinds, ends, bytes),
        Object::Client(_) | Object::Queries(_) => Err(Fault::BadHandle),
    }
}

/// Copies the loaders of the bindings.
///
/// # Promise
///
/// As `rz_log` says
#[unsafe(no_mangle)]
pub extern "C" fn rz_loaders(
    alloc: Global,
    server: &mut Handle,
    kinds: &mut [u32],
    ends: &mut [u32],
    bytes: &mut [u8],
) -> i32
    ensures copied { CopiesOfServer
        (CopiesLoaders kinds.new (cut bytes.new 0 ends.new)) server.old.held result }
    ensures kept { server.new.held ≡ server.old.held }
{
    code_of(server.on_object(
        alloc,
        &mut |object| copy_loaders(alloc, object, kinds, ends, bytes),
    ))
}
