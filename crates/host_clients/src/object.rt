//! Objects that handles hold.
ghost use Rattle.host_clients.specs.Objects.{MakesClient, MakesQueries, Shares};

use crate::client::HostClient;
use crate::fault::Fault;
use crate::opening::open_client;
use server::{Queries, Server};
use std::alloc::Global;

/// Object that a handle holds.
#[derive(Drop)]
pub enum Object {
    /// A schema with its bindings.
    Server(Server),
    /// A client of a server.
    Client(HostClient),
    /// What requests ask of a server, kept for those that come again.
    Queries(Queries),
}

// Returns the same server once more.
fn share_server(server: &Server) -> Result<Object, Fault>
    ensures { Shares (Object.Server server.now) result }
{
    Ok(Object::Server(server.clone()?))
}

// What requests ask of a server: nothing yet.
fn queries_of(server: &Server) -> Result<Object, Fault>
    ensures { MakesQueries (Object.Server server.now) result }
{
    Ok(Object::Queries(Queries::new(server.clone()?)))
}

// A client of a server, which knows nothing.
fn client_of(alloc: Global, server: &Server, limits: &[u32]) -> Result<Object, Fault>
    ensures { MakesClient limits.now
        (Object.Server server.now) result }
{
    Ok(Object::Client(open_client(alloc, server, limits)?))
}

impl Object {
    /// Returns the same server once more, which shares its schema and its bindings.
    ///
    /// # Errors
    ///
    /// [`BadHandle`](Fault::BadHandle) where it is no server; [`NoMemory`](Fault::NoMemory).
    pub fn share(&self) -> Result<Object, Fault>
        ensures { Shares self.now result }
    {
        match self {
            Object::Server(server) => share_server(server),
            Object::Client(_) | Object::Queries(_) => Err(Fault::BadHandle),
        }
    }

    /// What requests ask of the server: nothing yet.
    ///
    /// # Errors
    ///
    /// [`BadHandle`](Fault::BadHandle) where it is no server; [`NoMemory`](Fault::NoMemory).
    pub fn queries(&self) -> Result<Object, Fault>
        ensures { MakesQueries self.now result }
    {
        match self {
            Object::Server(server) => queries_of(server),
            Object::Client(_) | Object::Queries(_) => Err(Fault::BadHandle),
        }
    }

    /// A client of the server, as [`open_client`] makes it.
    ///
    /// # Errors
    ///
    /// [`BadHandle`](Fault::BadHandle) where it is no server; those of [`open_client`].
    pub fn client(&self, alloc: Global, limits: &[u32]) -> Result<Object, Fault>
        ensures { MakesClient limits.now self.now result }
    {
        match self {
            Object::Server(server) => client_of(alloc, server, limits),
            Object::Client(_) | Object::Queries(_) => Err(Fault::BadHandle),
        }
    }
}
