//! A whole script of frames, over any source and sink.

ghost use Rattle.std.specs.Prelude.{◌≡◌, ◌≢◌, None, Err, IsOk, IfOk};
ghost use Rattle.io_edges.specs.declared.status.Status.TheVariants.{Done, Usage};
ghost use Rattle.script_streams.specs.Streams.{AnswersFaults, ClosesFaults, HasFaults, sink_use, source_use};
ghost use Rattle.recode_top.specs.Output.{closing_of, end_text, last_of, start, status_of};
ghost use Rattle.recode_top.specs.Recoding.{Closed, IsRecoding, RanOf, WritesTexts};

use crate::counts::{Counts, LINE_LIMIT};
use io_edges::{Sink, Source, Status};
use plain_lists::Sequence;
use rec_id::Text;
use script_streams::{LineError, LineReader, Next, write_ended};
use std::alloc::{AllocError, Global};
use trace_script::{print_bad_line, print_limit, print_read_fault};

/// Reads the script to its end, or up to what stops it.
fn run_lines<S: Source, K: Sink>(
    alloc: Global,
    counts: &mut Counts,
    source: &mut S,
    sink: &mut K,
) -> Result<(), Status>
    requires { counts.old ≡ start }
    ensures faults { HasFaults (source_use S.left S.faults source.old source.new) (sink_use K.written K.faults sink.old sink.new) result }
    ensures not_done { result ≢ Err Done }
    ensures ran { RanOf (source_use S.left S.faults source.old source.new) (K.written sink.old) (K.written sink.new) counts.new result }
{
    let Ok(mut reader) = LineReader::new(alloc, LINE_LIMIT) else {
        return Err(Status::Memory);
    };
    loop {
        match reader.next_line(source) {
            Ok(Next::Line) => match counts.add_line(alloc, reader.line(), sink) {
                Ok(()) => {}
                Err(status) => return Err(status),
            },
            Ok(Next::Last) => return counts.add_line(alloc, reader.line(), sink),
            Ok(Next::End) => return Ok(()),
            Err(LineError::TooLong) => return Err(counts.long_line()),
            Err(LineError::Failed) => return Err(Status::ReadFault),
            Err(LineError::Memory) => return Err(Status::Memory),
        }
    }
}

fn print_end(alloc: Global, counts: Counts) -> Result<Text, AllocError>
    ensures { IfOk result (λ text. text ≡ end_text counts) }
{
    let Counts {
        frames,
        refused,
        ..
    } = counts;
    let text = format!(in alloc; "end: {frames} frames, {refused} refused")?;
    Ok(Text::from_vec(text.into_bytes()))
}

/// The last text, where the script has one.
fn last_text(
    alloc: Global,
    counts: Counts,
    ended: Result<(), Status>,
) -> Result<Option<Text>, AllocError>
    ensures { IfOk result (λ last. last ≡ last_of counts ended) }
{
    let mut text = Sequence::new(alloc);
    match ended {
        Ok(()) => return Ok(Some(print_end(alloc, counts)?)),
        Err(Status::BadLine(number)) => print_bad_line(alloc, number, &mut text)?,
        Err(Status::Limit(number)) => print_limit(alloc, number, &mut text)?,
        Err(Status::ReadFault) => print_read_fault(alloc, &mut text)?,
        Err(_) => return Ok(None),
    }
    Ok(Some(text))
}

/// Writes the last text, where there is one.
fn write_last<K: Sink>(sink: &mut K, last: Option<Text>) -> Result<(), Status>
    ensures written { WritesTexts (closing_of last) (sink_use K.written K.faults sink.old sink.new) result }
    ensures none { last ≡ None → (K.written sink.new ≡ K.written sink.old) × IsOk result }
{
    match last {
        Some(text) => write_ended(sink, text),
        None => Ok(()),
    }
}

/// Writes the last text, and answers what the script ends with.
fn close<K: Sink>(alloc: Global, counts: Counts, ended: Result<(), Status>, sink: &mut K) -> Status
    ensures closed { Closed (last_of counts ended) (status_of ended) (K.written sink.old) (K.written sink.new) result }
    ensures faults { ClosesFaults ended (K.faults sink.old) (K.faults sink.new) result }
{
    let last = match last_text(alloc, counts, ended) {
        Ok(last) => last,
        Err(AllocError) => return Status::Memory,
    };
    match write_last(sink, last) {
        Ok(()) => match ended {
            Ok(()) => Status::Done,
            Err(status) => status,
        },
        Err(status) => status,
    }
}

/// Brings the frames over that `source` has, a line each, and writes to `sink` what they become.
///
/// The texts, and what it ends with, are the definitions `out` and `end_of` of `specs/Output.antt`.
/// `BadLine(n)` is answered where line n is the first that is too long or neither empty nor hexadecimal,
/// and `Limit(100,001)` where there is a line of that number.
pub fn recode_top<S: Source, K: Sink>(alloc: Global, source: &mut S, sink: &mut K) -> Status
    ensures no_usage { result ≢ Usage }

    // Of the bytes that the source had, where it tells them: all texts are written, and the status is their end;
    // where the source failed, the texts of the lines that were read, and that it failed; where a write failed, the
    // texts before it and not all of its own.
    ensures recoding { IsRecoding (source_use S.left S.faults source.old source.new) (sink_use K.written K.faults sink.old sink.new) result }

    // A fault is answered only where one was counted in this call, and one that was counted is answered, unless
    // there was no memory, or, for the source's, the text of it couldn't be written.
    ensures faults { AnswersFaults (source_use S.left S.faults source.old source.new) (sink_use K.written K.faults sink.old sink.new) result }
{
    let mut counts = Counts::start();
    let ended = run_lines(alloc, &mut counts, source, sink);
    close(alloc, counts, ended, sink)
}

#[cfg(test)]
mod tests;
