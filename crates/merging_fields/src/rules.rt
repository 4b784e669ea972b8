//! Modules of `rules`, named by the titles in the GraphQL specification.
pub mod field_selection_merging;
