//! What an execution gives once it is ready.

/// The text of an execution that is ready, and how many loads it reads.
#[derive(Drop)]
pub struct ExecutionResult {
    /// The text of the response with its errors.
    pub text: String,
    /// How many loads the execution reads, each as often as it is read: as many calls as an executor makes that asks for one
    /// key at a time and remembers nothing. It stays at `u64::MAX`.
    pub loads: u64,
}
