//! Clients.
ghost use Rattle.std.specs.Prelude.{◌≡◌, None};
ghost use Rattle.server.specs.Clients.{begun};
ghost use Rattle.host_clients.specs.Known.{LimitsAnswers, LimitsRounds, LimitsWork};
ghost use Rattle.host_clients.specs.Objects.{MakesClient};
ghost use Rattle.host_clients.specs.Opening.{limit_of};
ghost use Rattle.host_clients.specs.Refused.{BeginFault, BusyFault};
ghost use Rattle.rudzkvano_c.specs.Held.{Becomes, Gives, Makes};

use crate::codes::code_of;
use crate::handle::Handle;
use std::alloc::Global;

/// Holds a client of a server in a handle of its own. It knows nothing.
///
/// # Promise
///
/// As `rz_open` says
#[unsafe(no_mangle)]
pub extern "C" fn rz_client(
    alloc: Global,
    server: &mut Handle,
    client: &mut Handle,
    limits: &[u32],
) -> i32
    ensures made { Gives (MakesClient limits.now)
        server.old.held client.old.held client.new.held result }
    ensures kept { server.new.held ≡ server.old.held }
{
    let opened = server.on_object(alloc, &mut |object| object.client(alloc, limits));
    code_of(client.put_made(alloc, opened))
}

// 0 is no limit.
fn limit_of(most: usize) -> Option<usize>
    ensures { result ≡ limit_of most }
{
    if most == 0 { None } else { Some(most) }
}

/// Limits the answers of a client to `most` bytes; 0 is no limit.
///
/// # Promise
///
/// The client as these calls of `server` make it (`Becomes`, `Tells`); what is under way stays as it is. Refused,
/// nothing has changed; but where memory ran out, an answer or outcomes may be let go, and in `rz_prime` or `rz_clear`
/// failed batches be forgotten (`KeepsOrForgets`). The code says why (`specs/Refused.antt` of `host_clients`)
#[unsafe(no_mangle)]
pub extern "C" fn rz_limit_answers(alloc: Global, client: &mut Handle, most: usize) -> i32
    ensures { Makes (Becomes (LimitsAnswers (limit_of most)) BusyFault)
        client.old.held client.new.held result }
{
    let most = limit_of(most);
    code_of(client.on_client(alloc, &mut |client| client.limit_answers(most)))
}

/// Limits what is asked of a client together to `most` work; 0 is no limit.
///
/// # Promise
///
/// As `rz_limit_answers` says
#[unsafe(no_mangle)]
pub extern "C" fn rz_limit_work(alloc: Global, client: &mut Handle, most: usize) -> i32
    ensures { Makes (Becomes (LimitsWork (limit_of most)) BusyFault)
        client.old.held client.new.held result }
{
    let limit = limit_of(most);
    code_of(client.on_client(alloc, &mut |client| client.limit_work(limit)))
}

// 0 is no limit.
fn rounds_limit(rounds: u32) -> Option<u32>
    ensures { result ≡ limit_of rounds }
{
    if rounds == 0 { None } else { Some(rounds) }
}

/// Limits what is asked of a client together to `rounds` rounds; 0 is no limit.
///
/// # Promise
///
/// As `rz_limit_answers` says
#[unsafe(no_mangle)]
pub extern "C" fn rz_limit_rounds(alloc: Global, client: &mut Handle, rounds: u32) -> i32
    ensures { Makes (Becomes (LimitsRounds (limit_of rounds)) BusyFault)
        client.old.held client.new.held result }
{
    let limit = rounds_limit(rounds);
    code_of(client.on_client(alloc, &mut |client| client.limit_rounds(limit)))
}

/// Forgets all keys, logs and rounds.
///
/// # Promise
///
/// As `rz_limit_answers` says
#[unsafe(no_mangle)]
pub extern "C" fn rz_restart(alloc: Global, client: &mut Handle) -> i32
    ensures { Makes (Becomes (λ c d. d ≡ begun c) BeginFault)
        client.old.held client.new.held result }
{
    code_of(client.on_client(alloc, &mut |client| client.restart()))
}

/// Frees what a handle holds.
///
/// # Promise
///
/// The handle holds nothing
#[unsafe(no_mangle)]
pub extern "C" fn rz_close(alloc: Global, handle: &mut Handle)
    ensures { handle.new.held ≡ None }
{
    let _ = handle.take(alloc);
}
