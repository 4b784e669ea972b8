//! Field Selection Merging (section 5.3.2 of the GraphQL specification of October 2021) over the parts of a document.
//!
//! The layer above may rely on this: the rule is defined over documents (`specs/FieldSelectionMerging.antt`), and reports at most one set
//! ([`one_set_is_reported`]), which [`field_selection_merging`] returns. Fields go into the table of pairs as numbers: equal numbers stand
//! for equal things, and the fields of a field's own set come before the field. What the table says of the document is proved
//! (`proofs/Joining.antt`).
#![tactic(auto)]

mod agreeing;
mod attributes;
mod clashing;
mod fields;
mod grounds;
mod known;
mod law;
mod ranks;
mod rules;

pub use law::{
    all_levels_are_counted, all_members_are_entered, fields_are_listed_as_written,
    numbers_name_fields, one_set_is_reported,
};
pub use rules::field_selection_merging::field_selection_merging;
