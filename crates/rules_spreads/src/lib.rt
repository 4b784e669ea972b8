//! Reach of operations and fragments by spreads, and the rules that rest on it alone (GraphQL specification of October 2021,
//! section 5.5.2.2).
//!
//! The layer above may rely on this: a [`Graph`] has, of each operation and each fragment, what it spreads (`specs/Graphs.antt`); a
//! [`SpreadReach`] finds exactly what one of them reaches (`specs/Reach.antt`), and takes time as what is reached has spreads; a
//! [`OperationSpan`] has, of each fragment, which of up to 64 operations reach it. The order of the fragments is found once, with the
//! graph. [`fragment_spreads_must_not_form_cycles`] tells the earliest fragment that reaches itself, and [`too_deep`] the earliest
//! operation with too many fields one inside another.
#![tactic(auto)]

mod components;
mod edges;
mod graph;
mod law;
mod levels;
mod missing;
mod operation_set;
mod operation_span;
mod owner_lists;
mod reaching;
mod rules;
mod spread_reach;

pub use graph::Graph;
pub use law::reached_by_spreads;
pub use levels::too_deep;
pub use missing::{note_missing_in_fragments, note_missing_in_operations, set_of};
pub use operation_set::OperationSet;
pub use operation_span::OperationSpan;
pub use owner_lists::{OwnerLists, list_at, put};
pub use rules::fragment_spreads_must_not_form_cycles::fragment_spreads_must_not_form_cycles;
pub use spread_reach::SpreadReach;
