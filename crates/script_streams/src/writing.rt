//! Texts written to a sink.

ghost use Rattle.script_streams.specs.Streams.{IsWritten, sink_use};
ghost use Rattle.script_streams.specs.Texts.{with_newline};

use io_edges::{Sink, SinkFailed, Status, write_all};
use rec_id::Text;
use std::alloc::AllocError;

/// Writes a text by one write, where the sink takes it whole.
pub fn write_text<K: Sink>(sink: &mut K, text: &[u8]) -> Result<(), Status>
    ensures { IsWritten text.now (sink_use K.written K.faults sink.old sink.new) result }
{
    match write_all(sink, text) {
        Ok(()) => Ok(()),
        Err(SinkFailed::Failed) => Err(Status::WriteFault),
        Err(SinkFailed::Memory) => Err(Status::Memory),
    }
}

/// Writes a text and a newline behind it by one write, where the sink takes it whole.
pub fn write_ended<K: Sink>(sink: &mut K, mut text: Text) -> Result<(), Status>
    ensures { IsWritten (with_newline text) (sink_use K.written K.faults sink.old sink.new) result }
{
    match text.push(b'\n') {
        Ok(()) => write_text(sink, text.as_slice()),
        Err(AllocError) => Err(Status::Memory),
    }
}
