//! Sources and sinks of bytes that count their faults, and lines read from a source.
#![tactic(auto)]

mod errors;
mod judging;
mod laws;
mod line_reader;
mod memory_sink;
mod memory_source;
mod reading;
mod sharing;
mod std_sink;
mod std_source;
mod sure_sink;
mod sure_source;
mod text_line;
mod traits;
mod unread;
mod writing;

pub use errors::{Failed, LineFault};
pub use laws::line_laws;
pub use line_reader::LineReader;
pub use memory_sink::MemSink;
pub use memory_source::MemSource;
pub use sharing::shared_types;
pub use std_sink::StdSink;
pub use std_source::StdSource;
pub use sure_sink::SureSink;
pub use sure_source::SureSource;
pub use text_line::Line;
pub use traits::{Sink, Source};
pub use writing::put;
