//! A server with a source of its own, behind sessions: what a command does that embeds the executor.
//!
//! Standard input is one client's session, line by line: `prime ID NAME`, `clear ID`, `log`, or a query. Each line is answered
//! by a line on standard output.
//!
//! It has no specs and no proof files, as an author of a server should need none.
#![tactic(auto)]

mod client;
mod directory;

use client::reply;
use directory::Directory;
use server::{Server, Sessions, Workers};

const SCHEMA: &str = "type Query { person(id: ID!): Person people(ids: [ID!]!): [Person]! }
type Person { id: ID! name: String! manager: Person }";

/// The table in a loader's line is just a name, and the server decides what it means: here it is the directory.
const BINDINGS: &str = "bindings 1
loader personById directory by id
field Query.person one personById arg id
field Query.people each personById arg ids
field Person.manager one personById column manager";

/// At most how many ids the directory takes in one call. A longer list makes several calls, which workers make at the same time.
const MOST_IDS: u32 = 2;

/// Number of threads that ask the directory at the same time. The one that answers the client is among them.
const WORKERS: usize = 4;

fn main(rt: HostRuntime) -> anyhow::Result<()> {
    let alloc = rt.alloc();
    let server = Server::read(alloc, SCHEMA, BINDINGS)?;
    let mut session = server.session(alloc, Some(MOST_IDS), |_line| Directory)?;
    let workers = Workers::new(&rt, WORKERS)?;
    for line in rt.lines(alloc) {
        let text = reply(alloc, &workers, &mut session, line?.as_str())?;
        println!(rt; "{text}")?;
    }
    Ok(())
}
