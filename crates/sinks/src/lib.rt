//! What a run reads and writes beside its image: lists of events, and sinks for its lines.
#![tactic(auto)]

mod event_lines;
mod event_lists;
mod line_inputs;
mod sink;

pub use event_lines::{EventLine, event_line};
pub use event_lists::{EventsFault, events};
pub use line_inputs::{EventLines, LineFault, ListedLines, ReaderLines};
pub use sink::{MemorySink, Sink, SinkFault, WriterSink, put_all};
