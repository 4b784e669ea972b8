//! The sample world: users with their best friends, posts and likes.

ghost use Rattle.std.specs.Prelude.{List, IfOk, IfErr, None};
ghost use Rattle.world.specs.Sources.{TableOf};
ghost use Rattle.world.specs.Worlds.{IsWorld};
ghost use Rattle.world_files.specs.Opening.{IsTableRefused, IsUnmade};

use crate::fault::FileFault;
use csv_source::Table;
use std::alloc::Global;
use world::World;

const SCHEMA: &str = "type Query { user(id: ID!): User usersByIds(ids: [ID!]!): [User]!
  users: [User!]! named(id: ID!): Named }
interface Named { name: String! }
type User implements Named { id: ID! name: String! best: User
  posts: [Post!]! liked: [Post]! }
type Bot implements Named { id: ID! name: String! model: String }
type Post { id: ID! author: User! title: String! }
";

const BINDINGS: &str = "bindings 1
loader userById users by id
loader allUsers users
loader postsByAuthor posts by author
loader namedById named by id
loader likesByUser likes by user
loader postById posts by id
field Query.user one userById arg id
field Query.usersByIds each userById arg ids
field Query.users many allUsers all
field Query.named one namedById arg id
field User.best one userById column best
field User.posts many postsByAuthor column id
field User.liked via likesByUser column id postById post
field Post.author one userById column author
";

const TABLES: [(&str, &[u8]); 4] = [
    ("users", b"id,name,best\n1,Ada,2\n2,Bob,1\n3,Cy,\n4,,1\n"),
    (
        "posts",
        b"id,author,title\n10,1,Loops\n11,1,Maps\n12,2,Trees\n",
    ),
    (
        "named",
        b"id,__typename,name,model\n1,User,Ada,\n2,Bot,Rob,M5\n3,Cat,Tom,\n",
    ),
    ("likes", b"user,post\n1,12\n1,10\n3,99\n"),
];

// The tables, read.
fn sample_tables(alloc: Global) -> Result<Vec<(String, Table)>, FileFault>
    ensures err { IfErr result IsTableRefused }
{
    let mut tables = Vec::new(alloc);
    for (place, (name, text)) in TABLES.into_iter().enumerate() {
        let table = match Table::read(alloc, text) {
            Ok(table) => table,
            Err(fault) => {
                return Err(FileFault::Table {
                    place,
                    fault,
                    reason: None,
                });
            }
        };
        tables.push((String::from_str(alloc, name)?, table))?;
    }
    Ok(tables)
}

/// The sample world, with no bound on the keys of a batch.
///
/// # Errors
///
/// Only when out of memory, since its parts are accepted.
pub fn sample_world(alloc: Global) -> Result<World, FileFault>
    ensures ok { IfOk result (λ world.
        (tables : List TableOf) × IsWorld SCHEMA.now BINDINGS.now tables None world) }
    ensures err { IfErr result (IsUnmade None) }
{
    let tables = match sample_tables(alloc) {
        Ok(tables) => tables,
        Err(fault) => return Err(fault),
    };
    match World::new(alloc, SCHEMA, BINDINGS, tables, None) {
        Ok(world) => Ok(world),
        Err(fault) => Err(FileFault::World(fault)),
    }
}
