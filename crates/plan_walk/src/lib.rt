//! The walk over what a plan asks: from the positions of the root to the leaves, and through a memory wherever something is loaded.
//!
//! The layer above may rely on this: a [`Walk`](walk::Walk) puts a program over a memory
//! (`plan_program::specs::PlanPrograms`) into a [`Sink`](sink::Sink), depth first: objects and lists begin and end, leaves have
//! cells, and positions whose load the memory lacks wait. What a sink makes of them is its own: a text, a tree, a number. The
//! positions that wait go on later, over a larger memory ([`Walk::read`](walk::Walk::read)); [`Waiting`](waiting::Waiting)
//! keeps each of them once.
#![tactic(auto)]

pub mod again;
pub mod cells;
mod following;
mod keys;
pub mod leaf_type;
pub mod loading_fields;
pub mod positions;
pub mod reading;
pub mod sink;
pub mod waiting;
pub mod walk;
