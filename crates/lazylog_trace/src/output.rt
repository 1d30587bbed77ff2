//! Texts written to a sink.

ghost use Rattle.script_streams.specs.Texts.{printed};
ghost use Rattle.lazylog_trace.specs.Output.{closing_of};
ghost use Rattle.script_streams.specs.Streams.{IsWritten, sink_use};
ghost use Rattle.std.specs.Prelude.{◌≡◌, None, IsOk};

use io_edges::{Sink, Status};
use rec_id::{Text, TextList};
use script_streams::{write_ended, write_text};

/// Writes texts, each as it stands.
pub fn write_texts<K: Sink>(sink: &mut K, texts: &TextList) -> Result<(), Status>
    ensures { IsWritten (printed texts.now) (sink_use K.written K.faults sink.old sink.new) result }
{
    for text in texts.as_slice() {
        match write_text(sink, text.as_slice()) {
            Ok(()) => {}
            Err(status) => return Err(status),
        }
    }
    Ok(())
}

/// Writes the last text, where there is one, and a newline behind it.
pub fn write_last<K: Sink>(sink: &mut K, last: Option<Text>) -> Result<(), Status>
    ensures written { IsWritten (closing_of last) (sink_use K.written K.faults sink.old sink.new) result }
    ensures none { last ≡ None → (K.written sink.new ≡ K.written sink.old) × IsOk result }
{
    match last {
        Some(text) => write_ended(sink, text),
        None => Ok(()),
    }
}
