//! The session of a world, and its clients.

ghost use Rattle.std.specs.Prelude.{◌≡◌, ◌<◌, IfOk, OnOk, get_or, length};
ghost use Rattle.csv_source.specs.Tables.{SourceOf};
ghost use Rattle.world_answers.specs.Lines.{IsClientOf};
ghost use Rattle.world_answers.specs.Services.{service_of};
ghost use Rattle.world_answers.specs.Sessions.{loader_over, session_over, over_whichever};

use crate::service::Service;
use csv_source::CsvSource;
use load_queue::{Loader, PerKey, QueueFault};
use load_rounds::Session;
use server::ClientSession;
use std::alloc::{AllocError, Global};
use world::World;

// A new session of the world.
fn session_over_world<'w>(
    alloc: Global,
    world: &'w World,
) -> Result<Session<CsvSource<'w>>, AllocError>
    ensures opened { IfOk result
        (λ session. over_whichever session ≡ session_over world.now) }
    // Each loader of the bindings is there.
    ensures each { OnOk result (length world.now.sources
        ≡ length world.now.bindings.loaders) }
{
    let mut loaders = Vec::with_capacity(alloc, world.loaders())?;
    for (number, line) in world.bindings().loaders().iter().enumerate() {
        loaders.push(loader_of(alloc, world, number, line.name.as_str())?)?;
    }
    Session::new(alloc, loaders)
}

// The loader of this number, under its name.
fn loader_of<'w>(
    alloc: Global,
    world: &'w World,
    number: usize,
    name: &str,
) -> Result<Loader<CsvSource<'w>>, AllocError>
    requires { number < length world.now.sources }
    ensures { (d : SourceOf) → IfOk result (λ l. l ≡ loader_over l.identity
        world.now.limit name.now (get_or world.now.sources number d)) }
{
    let source = world.source(number);
    let mode = source.mode();
    match Loader::new(alloc, name, source, mode, world.limit()) {
        Ok(loader) => Ok(loader),
        Err(QueueFault::NoMemory) => Err(AllocError),
        Err(QueueFault::BadLimit) => unreachable!(),
    }
}

impl<'w> Service<'w> {
    /// A new client of the service: the loaders of the bindings, in order, over the world's sources and with its limit; nothing is read or
    /// indexed anew. It has the limits of the service, and none on its rounds.
    ///
    /// # Errors
    ///
    /// Only when out of memory.
    pub fn client(&self, alloc: Global) -> Result<ClientSession<CsvSource<'w>>, AllocError>
        ensures { IfOk result
            (IsClientOf (service_of self.now)) }
    {
        let session = session_over_world(alloc, self.world)?;
        let server = self.world.server().clone()?;
        let mut client = ClientSession::new(alloc, server, session);
        client.limit_answers(self.max_answer);
        client.limit_work(self.max_work);
        Ok(client)
    }
}
