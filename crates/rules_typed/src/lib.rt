//! The rules of validation that speak of types, fields, arguments, values and the types of variables (GraphQL
//! specification of October 2021, section 5).
//!
//! The layer above may rely on this: each rule's function returns what breaks the rule at the earliest place, of the list that
//! its definition in `specs/` gives. No rule needs another one to be kept: one that needs something unknown skips it.
#![tactic(auto)]

mod allowed_uses;
mod compatible_types;
mod rules;
mod use_kinds;
mod use_places;

pub use rules::all_variable_usages_are_allowed::all_variable_usages_are_allowed;
pub use rules::argument_names::argument_names;
pub use rules::field_selections::field_selections;
pub use rules::fragment_spread_is_possible::fragment_spread_is_possible;
pub use rules::fragment_spread_type_existence::fragment_spread_type_existence;
pub use rules::fragments_on_composite_types::fragments_on_composite_types;
pub use rules::leaf_field_selections::leaf_field_selections;
pub use rules::required_arguments::required_arguments;
pub use rules::values_of_correct_type::values_of_correct_type;
pub use rules::variables_are_input_types::variables_are_input_types;
