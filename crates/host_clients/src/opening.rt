//! Servers from texts, and new clients.
ghost use Rattle.std.specs.Prelude.{◌≡◌, IfOk, IfErr, OnOk, map, option_map};
ghost use Rattle.gq_bindings.specs.Seen.{by_of, loader_of};
ghost use Rattle.plan_requests.specs.Servers.{IsServer};
ghost use Rattle.server.specs.Opening.{mode_of};
ghost use Rattle.host_clients.specs.Opening.{AreLimitsFor, AreNewLoaders, ClientFault, IsNewClient, LimitsFault, RefusesOpening, fault_at, fault_without, handed_in, limit_at, limits_after, place_of};

use crate::client::HostClient;
use crate::fault::Fault;
use crate::idle::IdleClient;
use gq_bindings::{By, LoaderLine};
use gq_lexer::Place;
use load_memory::KeyMode;
use load_queue::Loader;
use load_rounds::Session;
use rounds_by_hand::HandedIn;
use server::{ClientSession, SchemaFault, Server};
use std::alloc::Global;
use std::str;

/// Reason why a schema or its bindings are refused, and the place.
#[derive(Clone, Copy, Debug, PartialEq, Eq)]
pub struct FaultPlace {
    /// The fault Sn has the number n.
    pub number: u32,
    /// From 1; 0 where the fault has none.
    pub line: u64,
    /// From 1, in characters; 0 where the fault has none.
    pub column: u64,
    /// Tells whether it is a line of the bindings.
    pub in_bindings: bool,
}

/// Reason why no server was made.
#[derive(Clone, Copy, Debug, PartialEq, Eq)]
pub enum OpenFault {
    /// A text isn't UTF-8.
    NotUtf8,
    /// The schema or the bindings are refused.
    Refused(FaultPlace),
    /// Out of memory.
    NoMemory,
}

fn fault_at(number: u32, at: &Place) -> FaultPlace
    ensures { result ≡ fault_at number at.now }
{
    FaultPlace {
        number,
        line: u64::from(at.line),
        column: u64::from(at.column),
        in_bindings: false,
    }
}

fn fault_without(number: u32) -> FaultPlace
    ensures { result ≡ fault_without number }
{
    FaultPlace {
        number,
        line: 0,
        column: 0,
        in_bindings: false,
    }
}

fn place_of(fault: &SchemaFault) -> FaultPlace
    ensures { result ≡ place_of fault.now }
{
    match fault {
        SchemaFault::Syntax(at) => fault_at(1, at),
        SchemaFault::Duplicate(at) => fault_at(2, at),
        SchemaFault::UnknownType(at) => fault_at(3, at),
        SchemaFault::BadImplements(at) => fault_at(4, at),
        SchemaFault::NoQueryRoot => fault_without(5),
        SchemaFault::ReservedName(at) => fault_at(6, at),
        SchemaFault::NotServed(at) => fault_at(7, at),
        SchemaFault::BadBinding(line) => FaultPlace {
            number: 8,
            line: *line,
            column: 0,
            in_bindings: true,
        },
        SchemaFault::NoMemory => fault_without(9),
        SchemaFault::BadKind(at) => fault_at(10, at),
        SchemaFault::BadDefault(at) => fault_at(11, at),
    }
}

/// Reads a schema and its bindings.
///
/// # Errors
///
/// [`NotUtf8`](OpenFault::NotUtf8); then the first fault, as [`Server::read`] finds it, with its place.
pub fn open_server(alloc: Global, schema: &[u8], bindings: &[u8]) -> Result<Server, OpenFault>
    ensures made { IfOk result
        (IsServer schema.now bindings.now) }
    ensures refused { IfErr result
        (RefusesOpening schema.now bindings.now) }
{
    let Ok(schema) = str::from_utf8(schema) else {
        return Err(OpenFault::NotUtf8);
    };
    let Ok(bindings) = str::from_utf8(bindings) else {
        return Err(OpenFault::NotUtf8);
    };
    match Server::read(alloc, schema, bindings) {
        Ok(server) => Ok(server),
        Err(SchemaFault::NoMemory) => Err(OpenFault::NoMemory),
        Err(fault) => Err(OpenFault::Refused(place_of(&fault))),
    }
}

/// Returns how the keys of a line's loader are compared.
pub(crate) fn mode_of(line: &LoaderLine) -> KeyMode
    ensures { result ≡ mode_of
        (option_map by_of line.now.by) }
{
    match &line.by {
        Some(By { fold: true, .. }) => KeyMode::FoldAscii,
        _ => KeyMode::Exact,
    }
}

// The limit of the first loader, and the limits of those after it.
fn first_limit(limits: &[u32]) -> (Option<u32>, &[u32])
    ensures limit { result.0 ≡ limit_at limits.entry.now }
    ensures after { result.1.now
        ≡ limits_after limits.entry.now }
{
    match limits.split_first() {
        None => (None, limits),
        Some((0, more)) => (None, more),
        Some((limit, more)) => (Some(*limit), more),
    }
}

// A new loader for each line, with its limit.
fn new_loaders(
    alloc: Global,
    lines: &[LoaderLine],
    limits: &[u32],
) -> Result<Vec<Loader<HandedIn>>, Fault>
    ensures made { IfOk result (λ loaders.
        AreNewLoaders handed_in limits.now (map loader_of lines.now) loaders.items) }
    ensures fault { IfErr result
        (LimitsFault limits.now) }
{
    let mut loaders = Vec::with_capacity(alloc, lines.len())?;
    let mut left = limits;
    for line in lines {
        let (limit, more) = first_limit(left);
        let loader = Loader::new(alloc, line.name.as_str(), HandedIn, mode_of(line), limit)?;
        if loaders.push(loader).is_err() {
            return Err(Fault::NoMemory);
        }
        left = more;
    }
    Ok(loaders)
}

/// A client of a server, which knows nothing. `limits` has for each loader how many keys one order may have, and 0 for no limit; or it has
/// no element, and then there is none.
///
/// # Errors
///
/// [`BadSize`](Fault::BadSize) where `limits` has another length; [`BadLimit`](Fault::BadLimit) where one is over 65,535;
/// [`NoMemory`](Fault::NoMemory).
pub fn open_client(alloc: Global, server: &Server, limits: &[u32]) -> Result<HostClient, Fault>
    ensures made { IfOk result
        (IsNewClient server.now limits.now) }
    ensures limits { OnOk result
        (AreLimitsFor server.now limits.now) }
    ensures fault { IfErr result
        (ClientFault server.now limits.now) }
{
    let lines = server.bindings().loaders();
    if !limits.is_empty() && limits.len() != lines.len() {
        return Err(Fault::BadSize);
    }
    let loaders = new_loaders(alloc, lines, limits)?;
    let session = Session::new(alloc, loaders)?;
    let client = ClientSession::new(alloc, server.clone()?, session);
    Ok(HostClient::Idle(IdleClient::new(alloc, client)))
}
