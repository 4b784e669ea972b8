//! Modules of `rules`, named by the titles in the GraphQL specification.
pub mod all_variable_usages_are_allowed;
pub mod argument_names;
pub mod field_selections;
pub mod fragment_spread_is_possible;
pub mod fragment_spread_type_existence;
pub mod fragments_on_composite_types;
pub mod leaf_field_selections;
pub mod required_arguments;
pub mod values_of_correct_type;
pub mod variables_are_input_types;
