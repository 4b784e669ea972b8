//! What requests ask of servers, kept for those that come again.
ghost use Rattle.std.specs.Prelude.{◌≡◌};
ghost use Rattle.host_clients.specs.Objects.{MakesQueries};
ghost use Rattle.rudzkvano_c.specs.Held.{Gives};

use crate::codes::code_of;
use crate::handle::Handle;
use std::alloc::Global;

/// Holds what requests ask of a server in a handle of its own, for those that come again. It is lent to each client that begins a request.
///
/// # Promise
///
/// What requests ask of that server, of which nothing is kept yet; refused, the handle holds what it held, and the code
/// says why. No clause says what is kept, and no answer depends on it
#[unsafe(no_mangle)]
pub extern "C" fn rz_queries(alloc: Global, server: &mut Handle, queries: &mut Handle) -> i32
    ensures made { Gives MakesQueries server.old.held
        queries.old.held queries.new.held result }
    ensures kept { server.new.held ≡ server.old.held }
{
    let made = server.on_object(alloc, &mut |object| object.queries());
    code_of(queries.put_made(alloc, made))
}
