//! A client whose lines are traced.

ghost use Rattle.std.specs.Prelude.{◌≡◌, IfOk, IfErr, OnOk, string_bytes};
ghost use Rattle.server_traces.specs.Tracing.{FailsText, HasCut, HasTraced, session_line, trace_device};

use load_rounds::{Answer, Session};
use load_trace::write_trace;
use server::ClientSession;
use server_lines::{CountedDevice, LineFault};
use std::alloc::Global;
use std::io::Write;

// The trace of a session whose last answer read so many loads, with its line feed.
fn trace_line<S>(alloc: Global, session: &Session<S>, loads: u64) -> Result<String, LineFault>
    ensures ok { IfOk result (λ text. string_bytes text
        ≡ session_line session.now loads) }
    ensures err { IfErr result
        (λ fault. fault ≡ LineFault.NoMemory) }
{
    match write_trace(alloc, session, Some(loads)) {
        Ok(mut text) => {
            text.push('\n')?;
            Ok(text)
        }
        Err(_) => Err(LineFault::NoMemory),
    }
}

// Writes a text and flushes.
fn put_text<T: Write>(trace: &mut CountedDevice<T>, line: &str) -> Result<(), LineFault>
    ensures ok { OnOk result (HasTraced line.now
        (trace_device T.contents trace.old) (trace_device T.contents trace.new)) }
    ensures err { IfErr result (λ fault. (fault ≡ LineFault.TraceFault)
        × HasCut line.now (trace_device T.contents trace.old) (trace_device T.contents trace.new)) }
{
    match trace.write_whole(line.as_bytes()) {
        Ok(()) => match trace.flush() {
            Ok(()) => Ok(()),
            Err(_) => Err(LineFault::TraceFault),
        },
        Err(_) => Err(LineFault::TraceFault),
    }
}

// Writes the trace of a session whose last answer read so many loads, and flushes.
fn put_trace<S, T: Write>(
    alloc: Global,
    session: &Session<S>,
    loads: u64,
    trace: &mut CountedDevice<T>,
) -> Result<(), LineFault>
    ensures ok { OnOk result (HasTraced (session_line session.now loads)
        (trace_device T.contents trace.old) (trace_device T.contents trace.new)) }
    ensures err { IfErr result (λ fault. FailsText fault (session_line session.now loads)
        (trace_device T.contents trace.old) (trace_device T.contents trace.new)) }
{
    match trace_line(alloc, session, loads) {
        Ok(text) => match put_text(trace, text.as_str()) {
            Ok(()) => Ok(()),
            Err(_) => Err(LineFault::TraceFault),
        },
        Err(_) => Err(LineFault::NoMemory),
    }
}

/// A client whose lines are traced, and the device of their trace. The client answers a line
/// ([`answer_line`](ClientSession::answer_line)), and then its trace is written ([`trace_answer`](TracedClient::trace_answer)).
pub struct TracedClient<S, T> {
    alloc: Global,
    /// The client, whose session has what its last line asked.
    pub client: ClientSession<S>,
    trace: CountedDevice<T>,
}

impl<S: Drop, T: Drop> Drop for TracedClient<S, T> {
    fn drop(self) {
        let TracedClient {
            alloc: _,
            client: _client,
            trace: _trace,
        } = self;
    }
}

impl<S, T> TracedClient<S, T> {
    /// The client's lines are traced to this device from now on.
    pub fn new(
        alloc: Global,
        client: ClientSession<S>,
        trace: CountedDevice<T>,
    ) -> TracedClient<S, T>
        ensures client { result.client ≡ client }
        ensures trace { result.trace ≡ trace }
    {
        TracedClient {
            alloc,
            client,
            trace,
        }
    }

    /// The client, whose session has what its last line asked, and the device.
    pub fn into_parts(self) -> (ClientSession<S>, CountedDevice<T>)
        ensures client { result.0 ≡ self.client }
        ensures trace { result.1 ≡ self.trace }
    {
        let TracedClient {
            alloc: _,
            client,
            trace,
        } = self;
        (client, trace)
    }
}

impl<S, T: Write> TracedClient<S, T> {
    /// The text of what the client answered to its last line, once the trace of it is written and flushed.
    ///
    /// # Errors
    ///
    /// `NoMemory`, with nothing written; `TraceFault`, with a front of the trace written.
    pub fn trace_answer(&mut self, answer: Answer) -> Result<String, LineFault>
        ensures text { IfOk result
            (λ text. text ≡ answer.text) }
        ensures traced { OnOk result (HasTraced (session_line self.old.client.session answer.loads)
            (trace_device T.contents self.old.trace) (trace_device T.contents self.new.trace)) }
        ensures untraced { IfErr result (λ fault. FailsText fault (session_line self.old.client.session answer.loads)
            (trace_device T.contents self.old.trace) (trace_device T.contents self.new.trace)) }
        ensures client { self.new.client ≡ self.old.client }
    {
        put_trace(
            self.alloc,
            self.client.session(),
            answer.loads,
            &mut self.trace,
        )?;
        Ok(answer.text)
    }
}
