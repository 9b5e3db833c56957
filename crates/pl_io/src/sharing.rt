//! Types that threads may share.

use crate::errors::{Failed, LineFault};
use crate::line_reader::LineReader;
use crate::memory_sink::MemSink;
use crate::memory_source::MemSource;
use crate::std_sink::StdSink;
use crate::std_source::StdSource;
use crate::sure_sink::SureSink;
use crate::sure_source::SureSource;
use crate::text_line::Line;

fn may_be_shared<T: Send + Sync>() {}

/// Readers, lines, faults and the sources and sinks over memory may be sent to other threads and
/// shared with them. So may those over std's readers and writers that may be so themselves.
pub fn shared_types<R: Send + Sync, W: Send + Sync>() {
    may_be_shared::<LineReader>();
    may_be_shared::<Line>();
    may_be_shared::<LineFault>();
    may_be_shared::<Failed>();
    may_be_shared::<MemSource>();
    may_be_shared::<MemSink>();
    may_be_shared::<SureSource>();
    may_be_shared::<SureSink>();
    may_be_shared::<StdSource<R>>();
    may_be_shared::<StdSink<W>>();
}
