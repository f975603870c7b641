//! The program for makers: what it answers to the words of its command line.
#![tactic(auto)]

mod budgets;
mod certificate_files;
mod certification;
mod commands;
mod debugging_sessions;
mod described_parts;
mod expected;
mod explanations;
mod images;
mod included;
mod making;
mod messages;
mod report_changes;
mod report_files;
mod reports;
mod responding;
mod runs;
mod safe_runs;
mod sources;
mod systems;
mod trials;
mod views;

pub use certification::{CertifiedText, NotCertified, Why, certified};
pub use commands::{command, command_line};
pub use making::{MadeImage, made};
pub use report_files::{WrittenReport, reported};
pub use response_lines::{Kept, KeptWithin, NotTold, Told, keep, tell};
pub use safe_runs::{NotRun, live_by_names, run_by_names};
pub use sinks::{MemorySink, Sink, SinkFault, WriterSink};
