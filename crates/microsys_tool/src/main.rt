//! `microsys_tool`: writes the certificates of system images.
#![tactic(auto)]

use std::io::Lock;
use std::process::ExitCode;
use tool::{WriterSink, command_line};

fn main(rt: HostRuntime) -> ExitCode {
    let mut output = WriterSink::new(rt.stdout().lock());
    let mut errors = WriterSink::new(rt.stderr().lock());
    ExitCode::from(command_line(&rt, &mut output, &mut errors))
}
