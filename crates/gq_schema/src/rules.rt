//! The rules that a schema keeps beyond its grammar, in the order in which their faults are reported.
pub mod defaults;
pub mod implements;
pub mod repeated;
pub mod reserved;
pub mod uses;
