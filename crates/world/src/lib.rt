//! A world: a server, which is a schema with how its fields are answered, and the tables that they are answered from.
//!
//! The layer above may rely on this: [`World::new`] makes a world exactly where each part accepts,
//! and names the first refusal otherwise; each loader of the bindings has its source, which is made
//! without memory. What requests ask of it is planned over [`World::server`] (`plan_requests`), which has no tables.
#![tactic(auto)]

mod fault;
mod sources;
mod tables;
mod world;

pub use fault::WorldFault;
pub use load_queue::MAX_LIMIT;
pub use world::World;
