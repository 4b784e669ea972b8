//! Bindings, by which the fields of a schema are answered, from a bindings text.
//!
//! [`Bindings`] has, over a [`Schema`](gq_schema::Schema), the loaders in the order of their lines, and how each field is
//! answered. What is read of a text keeps the rules on them, so the layer above may rely on it: each loader has a name of its own,
//! each field of an object type has a binding, and a binding fits its field and names only loaders that are there. Another text is
//! refused at its first bad line. Look-ups go by hash and take no memory.
//!
//! The root type may be the type of a field. Its object has a row there, which the root's own bindings can't
//! use.
#![tactic(auto)]

mod binding;
mod fields;
mod forms;
mod loaders;
mod read;
mod types;

pub use binding::{Binding, By, KeyOrigin, KeyPart, LoaderLine, ViaLoader};
pub use read::Bindings;
