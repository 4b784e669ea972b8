//! Counts of the rounds in logs.

ghost use Rattle.std.specs.Prelude.{◌≡◌, map, max};
ghost use Rattle.load_queue.specs.Logs.{asked_of};
ghost use Rattle.load_trace.specs.Traces.{last_in, last_round};

use load_queue::{Loader, LogEntry};

// The latest round of the entries, or one that is later.
fn later(last: u32, log: &[LogEntry]) -> u32
    ensures { result ≡ max last
        (last_in (map asked_of log.now)) }
{
    let mut latest = last;
    for entry in log {
        latest = latest.max(entry.round);
    }
    latest
}

/// The latest round of the loaders' logs, 0 where nothing was asked.
pub fn last_round<S>(loaders: &[Loader<S>]) -> u32
    ensures { result ≡ last_round loaders.now }
{
    let mut last = 0;
    for loader in loaders {
        last = later(last, loader.log());
    }
    last
}
