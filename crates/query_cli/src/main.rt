//! The command: it answers GraphQL requests over tables, a request line by an answer line.
//!
//! Without words it serves the built-in sample world from standard input; with words it serves the files that they name. What
//! it wrote is the output of the lines that it read (`query_run`), and how it ends is an [`End`]: one line on standard
//! error at most, or two where `--explain` asks for that, and the exit status.
//!
//! A line on standard error that can't be written is dropped; the status still shows that the run failed. The
//! stored run has no words.
#![tactic(auto)]

use query_command::End;
use query_run::{program_words, run};
use server_lines::CountedDevice;
use std::io;
use std::process::ExitCode;
use world_files::System;

fn main(rt: HostRuntime) -> ExitCode {
    let mut input = CountedDevice::new(rt.reader());
    let mut output = CountedDevice::new(io::writer(&rt));
    let end = match program_words(&rt) {
        Ok(words) => run(&rt, &mut System::new(&rt), &words, &mut input, &mut output),
        Err(stop) => End::from(stop),
    };
    let line = end.stop.line();
    if !line.is_empty() {
        let _ = eprintln!(rt; "{line}");
    }
    if let Some(explanation) = &end.explanation {
        let _ = eprintln!(rt; "{explanation}");
    }
    ExitCode::from(end.stop.status())
}
