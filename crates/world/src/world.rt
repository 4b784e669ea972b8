//! Worlds.

ghost use Rattle.std.specs.Prelude.{◌≡◌, ◌<◌, IfOk, IfErr, get_or, length, map};
ghost use Rattle.csv_source.specs.Tables.{SourceOf};
ghost use Rattle.world.specs.Sources.{table_of};
ghost use Rattle.world.specs.Worlds.{WorldOf, IsLimit, IsWorldOf, LacksTables, IsWorld, IsRefusal, MakesWorld, server_of};

use crate::fault::WorldFault;
use crate::sources::{SourceBasis, all_source_parts};
use crate::tables::by_name;
use csv_source::{CsvSource, Table};
use gq_bindings::Bindings;
use load_queue::MAX_LIMIT;
use plan_requests::Server;
use std::alloc::Global;
use std::marker::Model;

/// A server, the batch limit, and for each loader of the bindings the table or the index that its source uses.
///
/// A contract sees it as these four: the definitions of the schema, the bindings, the limit, and the
/// sources in the order of their loaders.
pub struct World {
    server: Server,
    limit: Option<u32>,
    sources: Vec<SourceBasis>,
}

impl Model for World {
    ghost use Rattle.std.specs.Prelude.{map};
    ghost use Rattle.std.specs.Coded.{codes};
    ghost use Rattle.gq_parser.specs.contracts.tree.TypeRef as type_ref;
    ghost use Rattle.gq_parser.specs.contracts.tree.Literal as literal;
    ghost use Rattle.world.specs.IndexedColumns.{source_of};
    ghost use Rattle.world.specs.Worlds.{WorldOf, HasSources};

    ghost Value = { WorldOf };

    ghost coded = { Prim.hlevel (codes, type_ref.the_row.coded, literal.the_row.coded) };

    ghost view = { λ w. record { definitions = w.server.definitions; bindings = w.server.bindings; limit = w.limit; sources = map source_of w.sources.items } };

    ghost invariant = { λ w. HasSources (record { definitions = w.server.definitions; bindings = w.server.bindings; limit = w.limit; sources = map source_of w.sources.items }) };
}

impl Drop for World {
    fn drop(self) {
        let World {
            server: _server,
            limit: _limit,
            sources: _sources,
        } = self;
    }
}

// A limit that may be set, if there is one.
fn batch_limit(max: Option<u32>) -> Result<Option<u32>, WorldFault>
    ensures ok { IfOk result
        (λ limit. (limit ≡ max) × IsLimit max) }
    ensures err { IfErr result
        (λ e. (e ≡ WorldFault.BadLimit) × ¬ (IsLimit max)) }
{
    match max {
        None => Ok(None),
        Some(limit) => {
            if limit == 0 || limit > MAX_LIMIT {
                return Err(WorldFault::BadLimit);
            }
            Ok(Some(limit))
        }
    }
}

impl World {
    /// Makes the world of a schema text, a bindings text and tables with their names. A batch has at
    /// most `max` keys; `None` is no limit. Tables that no loader uses are dropped. Loaders of the
    /// same column that compare keys alike share one index; each loader of two columns has its own.
    ///
    /// # Errors
    ///
    /// The first of these: [`BadLimit`](WorldFault::BadLimit);
    /// [`Schema`](WorldFault::Schema) with the schema's fault, and then with `BadBinding`;
    /// [`DuplicateTable`](WorldFault::DuplicateTable); and for the loaders in order
    /// [`NoSuchTable`](WorldFault::NoSuchTable) or [`NoSuchColumn`](WorldFault::NoSuchColumn).
    /// [`NoMemory`](WorldFault::NoMemory) comes when out of memory, before any fault that would
    /// have been found later.
    pub fn new(
        alloc: Global,
        schema: &str,
        bindings: &str,
        tables: Vec<(String, Table)>,
        max: Option<u32>,
    ) -> Result<World, WorldFault>
        // The result is the world that the texts and the tables say.
        ensures made { IfOk result
            (IsWorld schema.now bindings.now (map table_of tables.items) max) }

        // A world that they say is made.
        ensures only { (w : WorldOf) → IsWorld schema.now bindings.now
            (map table_of tables.items) max w → MakesWorld w result }

        // Otherwise the first refusal is reported.
        ensures fault { IfErr result
            (IsRefusal schema.now bindings.now (map table_of tables.items) max) }
    {
        let limit = batch_limit(max)?;
        let server = Server::read(alloc, schema, bindings)?;
        World::over(alloc, server, tables, limit)
    }

    // The world of a server.
    fn over(
        alloc: Global,
        server: Server,
        tables: Vec<(String, Table)>,
        limit: Option<u32>,
    ) -> Result<World, WorldFault>
        requires { IsLimit limit }
        ensures ok { IfOk result (IsWorldOf server limit (map table_of tables.items)) }
        ensures err { IfErr result (LacksTables server.bindings (map table_of tables.items)) }
    {
        let tables = by_name(alloc, tables)?;
        let sources = all_source_parts(alloc, tables, server.bindings().loaders())?;
        Ok(World {
            server,
            limit,
            sources,
        })
    }

    /// The schema, and how its fields are answered.
    pub fn server(&self) -> &Server
        ensures { result.now ≡ server_of self.now }
    {
        &self.server
    }

    /// Returns how the fields of the schema are answered.
    pub fn bindings(&self) -> &Bindings
        ensures { result.now ≡ self.now.bindings }
    {
        self.server.bindings()
    }

    /// The batch limit, from 1 to [`MAX_LIMIT`]; `None` is no limit.
    pub fn limit(&self) -> Option<u32>
        ensures value { result ≡ self.now.limit }
        ensures fits { IsLimit self.now.limit }
    {
        self.limit
    }

    /// Returns how many loaders there are. They are numbered from 0 in the order of their lines.
    pub fn loaders(&self) -> usize
        ensures sources { result ≡ length self.now.sources }
        ensures bindings { result ≡ length
            self.now.bindings.loaders }
    {
        self.sources.len()
    }

    /// The source of the loader of this number. It takes no memory, and indexes nothing.
    pub fn source(&self, loader: usize) -> CsvSource<'_>
        requires { loader < length self.now.sources }
        ensures { (d : SourceOf)
            → result ≡ get_or self.now.sources loader d }
    {
        self.sources[loader].source()
    }
}
