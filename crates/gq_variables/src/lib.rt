//! The values of variables: what a request gives for the variables of an operation, coerced to their types (GraphQL
//! specification of October 2021, section 6.1.2).
//!
//! The layer above may rely on this: [`coerce_variables`] gives each variable that has a value, in the order of the
//! definitions, or names the first that has none and needs one (`specs/Values.antt`). A value comes as JSON and is coerced as
//! `specs/JsonCoercion.antt` says; a default is coerced as every literal is.
#![tactic(auto)]

mod coerced;
mod fault;
mod json;
mod variable;

pub use coerced::coerce_variables;
pub use fault::VariableFault;
pub use variable::Variable;
