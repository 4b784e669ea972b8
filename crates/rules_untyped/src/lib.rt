//! The rules of validation that need no types, and what isn't served (GraphQL specification of October 2021, section 5).
//!
//! The layer above may rely on this: a rule is defined as the list of everything in a document that breaks it, in a file of
//! `specs/` for each rule. The call of the rule's name returns the earliest of that list ([`Violation`](rules_parts::Violation)),
//! or nothing if the document keeps the rule. No rule needs places to differ, nor another rule to be kept.
//!
//! Of several arguments, variables or fragments with one name, all rules but the one on that name look at the
//! first.
#![tactic(auto)]

mod defined_directives;
mod names;
mod rules;
mod served;
mod spans;
mod variable_use_index;
mod variable_uses;

pub use rules::all_variable_uses_defined::all_variable_uses_defined;
pub use rules::all_variables_used::all_variables_used;
pub use rules::argument_uniqueness::argument_uniqueness;
pub use rules::directives_are_defined::directives_are_defined;
pub use rules::directives_are_in_valid_locations::directives_are_in_valid_locations;
pub use rules::directives_are_unique_per_location::directives_are_unique_per_location;
pub use rules::fragment_name_uniqueness::fragment_name_uniqueness;
pub use rules::fragment_spread_target_defined::fragment_spread_target_defined;
pub use rules::fragments_must_be_used::fragments_must_be_used;
pub use rules::lone_anonymous_operation::lone_anonymous_operation;
pub use rules::operation_name_uniqueness::operation_name_uniqueness;
pub use rules::variable_uniqueness::variable_uniqueness;
pub use served::{MOST_FIELDS, is_too_complex, not_served};
pub use variable_uses::VariableUses;
