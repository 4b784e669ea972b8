//! Modules of `rules`, named by the titles in the GraphQL specification.
pub mod fragment_spreads_must_not_form_cycles;
