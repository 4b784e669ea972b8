//! Limits of what a walk keeps on its way, and of what is prepared ahead of it.
//!
//! Groups are prepared once for each place of a plan and each way of object types down to it, of which a
//! document can have a million over a few fields. So beyond this limit the groups below an object are prepared
//! for that object alone, and let go unless a position more waits.

use gq_check::Plan;
use gq_parser::{Selection, SelectionSet};

/// Says how many groups are kept prepared at most, beside two for each field of the document.
const MOST_BESIDE: usize = 4096;

/// Says how many groups and members are prepared ahead of a short document, if it has so many.
const LEAST_AHEAD: usize = 256;

// Returns how many fields a selection set has at any depth, without those of fragments.
fn fields_in(set: &SelectionSet) -> usize {
    let mut fields: usize = 0;
    for selection in &set.selections {
        let more = match selection {
            Selection::Field(field) => match &field.selection_set {
                Some(below) => fields_in(below).saturating_add(1),
                None => 1,
            },
            Selection::Spread(_) => 0,
            Selection::Inline(inline) => fields_in(&inline.selection_set),
        };
        fields = fields.saturating_add(more);
    }
    fields
}

// Returns how many fields a plan's operation and the fragments of its document have.
fn fields_of(plan: &Plan) -> usize {
    let mut fields = fields_in(&plan.operation().selection_set);
    for fragment in plan.fragments() {
        fields = fields.saturating_add(fields_in(&fragment.selection_set));
    }
    fields
}

/// Returns how many groups are kept prepared at most.
pub fn most_groups_of(plan: &Plan) -> usize {
    fields_of(plan)
        .saturating_mul(2)
        .saturating_add(MOST_BESIDE)
}

/// Returns below how many groups, and how many members, are prepared ahead at most: as many as the document has fields, so that what is
/// kept of a plan grows with its text, however often its fragments are spread.
pub fn most_ahead_of(plan: &Plan) -> usize {
    fields_of(plan).max(LEAST_AHEAD)
}
