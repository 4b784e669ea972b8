//! Modules of `rules`, named by the titles in the GraphQL specification.
pub mod all_variable_uses_defined;
pub mod all_variables_used;
pub mod argument_uniqueness;
pub mod directives_are_defined;
pub mod directives_are_in_valid_locations;
pub mod directives_are_unique_per_location;
pub mod fragment_name_uniqueness;
pub mod fragment_spread_target_defined;
pub mod fragments_must_be_used;
pub mod lone_anonymous_operation;
pub mod operation_name_uniqueness;
pub mod variable_uniqueness;
