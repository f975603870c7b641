//! `microsys`: verifies system images, and runs what it accepts.
#![tactic(auto)]

use runner::{WriterSink, command_line};
use std::io::Lock;
use std::process::ExitCode;

fn main(rt: HostRuntime) -> ExitCode {
    let mut output = WriterSink::new(rt.stdout().lock());
    let mut errors = WriterSink::new(rt.stderr().lock());
    ExitCode::from(command_line(&rt, &mut output, &mut errors))
}
