//! Runs of system images: an image is verified and booted, and each event puts a line in a sink. The
//! commands of the program are built on it.
#![tactic(auto)]

mod building;
mod causes;
mod commands;
mod device_pages;
mod live_runs;
mod running;
mod unverified;

pub use commands::{boot_line, command, command_line, outside_line, refusal_line};
pub use device_pages::{DevicePages, first_outside};
pub use live_runs::{LiveFault, live, live_unverified};
pub use running::{RunFault, run};
pub use sinks::{
    EventLine, EventLines, EventsFault, LineFault, ListedLines, MemorySink, ReaderLines, Sink,
    SinkFault, WriterSink, events, put_all,
};
pub use unverified::run_unverified;
