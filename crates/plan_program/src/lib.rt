//! Programs of plans: the fields that are collected of an object type, their arguments, and the loads of their
//! bindings (sections 6.3 and 6.4.1 of the GraphQL specification of October 2021).
//!
//! `specs/PlanPrograms.antt` gives each plan its program in the words of `execution`. The layer above executes it, and may
//! rely on this: [`collect`], [`arguments_of`] and [`prepare_group`] give exactly the parts of that definition.
//! [`agrees_on_directives`] and [`is_fixed`] tell which of these parts stay the same with other values of the variables, and
//! [`key_by_variable`] where only a key changes.
#![tactic(auto)]

mod arguments;
mod chosen;
mod collected;
mod collection;
mod fields;
mod finding;
mod group;
mod object_type;
mod other_variables;
mod preparation;
mod prepared;
mod texts;
mod variable_keys;

pub use arguments::{ArgFault, Args, arguments_of};
pub use collection::{collect, collect_subfields};
pub use group::Group;
pub use object_type::ObjectType;
pub use other_variables::{agrees_on_directives, is_fixed};
pub use preparation::prepare_group;
pub use prepared::{
    Children, KeyFrom, KeyPairFrom, KeyPartFrom, LeafValue, PreparedField, ValueFrom,
};
pub use texts::{bad_value_message, no_column_message, no_type_message, not_type_message};
pub use variable_keys::key_by_variable;
