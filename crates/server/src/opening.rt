//! New sessions of clients.

ghost use Rattle.std.specs.Prelude.{◌≡◌, [], None, IfOk, option_map};
ghost use Rattle.gq_bindings.specs.Seen.{by_of};
ghost use Rattle.load_rounds.specs.Limits.{no_limits};
ghost use Rattle.server.specs.Opening.{AreOpened, mode_of};

use crate::client::ClientSession;
use gq_bindings::{By, LoaderLine};
use load_memory::KeyMode;
use load_queue::{Loader, QueueFault};
use load_rounds::Session;
use plan_requests::Server;
use std::alloc::Global;

/// Makes sessions of clients.
///
/// It is a trait since `Server` is a type of `plan_requests`: a method of its own would put that crate, and
/// `world` with it, on top of `load_rounds`. A client takes its server by value; a clone of a server is two
/// counts, and the caller makes it.
pub trait Sessions {
    /// A new session for one client: a loader for each `loader` line, in order, under its name, and nothing is known of any key. `source`
    /// gives the source of a line. The keys of a line that ends in `fold` are compared without the case of `A` to `Z`. A batch has at
    /// most `max_batch` keys; `None` is no limit. Answers have no limit at first ([`ClientSession::limit_answers`]), nor have their work
    /// ([`ClientSession::limit_work`]), their rounds ([`ClientSession::limit_rounds`]) and the steps of a call
    /// ([`ClientSession::limit_steps`]).
    ///
    /// # Errors
    ///
    /// [`BadLimit`](QueueFault::BadLimit) if the limit is 0 or over 65,535 and there is a loader; [`NoMemory`](QueueFault::NoMemory).
    fn session<S: Drop, F: FnMut(&LoaderLine) -> S>(
        &self,
        alloc: Global,
        max_batch: Option<u32>,
        source: F,
    ) -> Result<ClientSession<S>, QueueFault>
        requires { F.IsAlwaysCallable source };
}

// Returns how the keys of a line's loader are compared.
fn mode_of(line: &LoaderLine) -> KeyMode
    ensures { result ≡ mode_of
        (option_map by_of line.now.by) }
{
    match &line.by {
        Some(By { fold: true, .. }) => KeyMode::FoldAscii,
        _ => KeyMode::Exact,
    }
}

impl Sessions for Server {
    fn session<S: Drop, F: FnMut(&LoaderLine) -> S>(
        &self,
        alloc: Global,
        max_batch: Option<u32>,
        mut source: F,
    ) -> Result<ClientSession<S>, QueueFault>
        requires { F.IsAlwaysCallable source }
        ensures server { IfOk result
            (λ client. client.server ≡ self.now) }
        ensures unlimited { IfOk result
            (λ client. client.most ≡ None) }
        ensures limits { IfOk result
            (λ client. client.limits ≡ no_limits) }
        ensures empty { IfOk result (λ client.
            (client.session.pairs ≡ []) × (client.session.rounds ≡ 0)) }
        ensures loaders { IfOk result (λ client.
            AreOpened F.FnMut source max_batch self.now.bindings.loaders client.session.loaders) }
    {
        let lines = self.bindings().loaders();
        let mut loaders = Vec::with_capacity(alloc, lines.len())?;
        for line in lines {
            let source = source(line);
            let loader = Loader::new(alloc, line.name.as_str(), source, mode_of(line), max_batch)?;
            if loaders.push(loader).is_err() {
                return Err(QueueFault::NoMemory);
            }
        }
        let server = self.clone()?;
        match Session::new(alloc, loaders) {
            Ok(session) => Ok(ClientSession::new(alloc, server, session)),
            Err(_) => Err(QueueFault::NoMemory),
        }
    }
}
