//! Field selection merging (section 5.3.2) over fields that are already numbered, at most 1,024.
//!
//! The layer above may rely on this: [`failing_pairs`] finds every pair of fields that conflict in
//! one selection set, by the two recursions of the specification (`specs/Merging.antt`).
//! [`ReachedFields`] gathers what a selection set has, and says whether two of its fields conflict;
//! [`failing_keys`] then says which response keys have a conflict. Fields are numbered so that those
//! of a field's selection set come before the field. It takes some `n² / 4` word steps for `n` fields.
//!
//! Row b of the table has each earlier field that conflicts with b, as sixteen words. A search over pairs of
//! pairs would be far larger, and to join groups by key is exponential on hostile documents. A pair is decided
//! by the pairs of members, and so a field comes after its members.
#![tactic(auto)]

mod field;
mod field_set;
mod keys;
mod merge;
mod recursion;
mod sets;
mod table;

pub use field::Field;
pub use field_set::FieldSet;
pub use keys::failing_keys;
pub use merge::failing_pairs;
pub use sets::ReachedFields;
