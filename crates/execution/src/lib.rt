//! Program of a plan, and all that follows from it: definitions and their laws, with no code that runs.
//!
//! A program is what is left of a plan once its operation, fragments and bindings are read: at each position it has an own
//! value, or reads a load and goes on by its outcome, or has positions below it. The execution tree, the loads that are
//! needed, the answer by *Completion*, the front and the load chain are folds of it over a memory; lawful logs and sparing
//! runs say how a memory grows until nothing is missing (sections 6.2 to 6.4 of the GraphQL specification of October 2021,
//! and rounds of batches, which are this project's own).
//!
//! The layers above state their contracts in these words (`specs/`) and may rely on the laws ([`law`]), each carried by a
//! function that does nothing. No plan, binding or fragment appears here.
#![tactic(auto)]

pub mod count_work;
pub mod examples;
pub mod execute;
pub mod execution_result;
pub mod law;

pub use count_work::{CountWork, Counted};
pub use execute::Execute;
pub use execution_result::ExecutionResult;
