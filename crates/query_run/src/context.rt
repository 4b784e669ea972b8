//! Context of a run: what the words of a command go by.

use query_command::CommandWords;

/// Holds what a run of words goes by: what starts its threads, and its words.
#[derive(Drop)]
pub struct RunContext<'r, R> {
    pub rt: &'r R,
    pub words: &'r CommandWords,
}
