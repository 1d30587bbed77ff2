//! The whole program, over any source and sink.

ghost use Rattle.std.specs.Prelude.{◌≡◌, ◌≢◌, ℕ, IfOk};
ghost use Rattle.view_config.specs.Shape.{Dimensions, IsShape};
ghost use Rattle.io_edges.specs.declared.status.Status.TheVariants.{Usage, Memory};
ghost use Rattle.lazy_core.specs.Filled.{IsFilled};
ghost use Rattle.lazylog_trace.specs.Output.{last_text, status_of};
ghost use Rattle.script_streams.specs.Streams.{AnswersFaults, ClosesFaults, HasFaults, sink_use, source_use};
ghost use Rattle.lazylog_trace.specs.Trace.{IsUnderWay, progress_of};
ghost use Rattle.lazylog_trace.specs.Calls.{Closed, RanOf};
ghost use Rattle.lazylog_trace.specs.Traced.{AnswersUsage, IsTrace, IsTraceOf};
ghost use Rattle.lazylog_trace.specs.LoadOutput.{IsLoad, IsLoadOf};
ghost use Rattle.lazylog_trace.specs.declared.words.Task.TheVariants.{Load as LoadTask, Recode as RecodeTask, Trace as TraceTask};
ghost use Rattle.lazylog_trace.specs.Words.{AskFor, IsAsked, IsTask};
ghost use Rattle.recode_top.specs.Recoding.{IsRecoding};

use crate::load::load_shape;
use crate::output::write_last;
use crate::trace::Trace;
use crate::words::{Task, read_words};
use io_edges::{Sink, Source, Status};
use lazy_core::{Trail, World};
use plain_lists::Sequence;
use rec_id::{Text, TextList};
use recode_top::recode_top;
use script_streams::write_text;
use std::alloc::{AllocError, Global};
use trace_script::{print_bad_line, print_end, print_limit, print_read_fault};
use view_config::Shape;

/// How many bytes are asked for in one read.
const PIECE: usize = 4_096;

/// Reads the script to its end, or up to what stops it.
fn run_script<S: Source, K: Sink>(
    alloc: Global,
    trace: &mut Trace,
    source: &mut S,
    sink: &mut K,
) -> Result<(), Status>
    requires { IsUnderWay trace.old }
    ensures faults { HasFaults (source_use S.left S.faults source.old source.new) (sink_use K.written K.faults sink.old sink.new) result }
    ensures ran { RanOf (source_use S.left S.faults source.old source.new) (progress_of trace.old) (K.written sink.old) (K.written sink.new) (progress_of trace.new) result }
{
    let mut piece = [0u8; PIECE];
    loop {
        let Ok(count) = source.read(&mut piece) else {
            return Err(Status::ReadFault);
        };
        if count == 0 {
            return trace.feed_end(alloc, sink);
        }
        match trace.feed(alloc, &piece[..count], sink) {
            Ok(()) => {}
            Err(status) => return Err(status),
        }
    }
}

/// The last text, where the trace has one.
fn last_text(
    alloc: Global,
    world: &World,
    ended: Result<(), Status>,
) -> Result<Option<Text>, AllocError>
    ensures { IfOk result (λ last. last ≡ last_text world.now ended) }
{
    let mut text = Sequence::new(alloc);
    match ended {
        Ok(()) => print_end(alloc, world.events(), world.sent(), &mut text)?,
        Err(Status::BadLine(number)) => print_bad_line(alloc, number, &mut text)?,
        Err(Status::Limit(number)) => print_limit(alloc, number, &mut text)?,
        Err(Status::ReadFault) => print_read_fault(alloc, &mut text)?,
        Err(_) => return Ok(None),
    }
    Ok(Some(text))
}

/// Writes the last text, and answers what the trace ends with.
fn write_end<K: Sink>(
    alloc: Global,
    world: &World,
    ended: Result<(), Status>,
    sink: &mut K,
) -> Status
    ensures closed { Closed (last_text world.now ended) (status_of ended) (K.written sink.old) (K.written sink.new) result }
    ensures faults { ClosesFaults ended (K.faults sink.old) (K.faults sink.new) result }
{
    let last = match last_text(alloc, world, ended) {
        Ok(last) => last,
        Err(AllocError) => return Status::Memory,
    };
    match write_last(sink, last) {
        Ok(()) => match ended {
            Ok(()) => Status::Done,
            Err(status) => status,
        },
        Err(status) => status,
    }
}

/// Writes the last text, and fills in the trail, unless there is no memory. What the trail needs is there before
/// the text is written.
fn close<K: Sink>(
    alloc: Global,
    world: World,
    ended: Result<(), Status>,
    sink: &mut K,
    trail: &mut Trail,
) -> Status
    ensures closed { Closed (last_text world ended) (status_of ended) (K.written sink.old) (K.written sink.new) result }
    ensures faults { ClosesFaults ended (K.faults sink.old) (K.faults sink.new) result }
    ensures filled { result ≢ Memory → IsFilled world trail.old trail.new }
    ensures unfilled { result ≡ Memory → trail.new ≡ trail.old }
{
    let Ok(lines) = world.lines(alloc) else {
        return Status::Memory;
    };
    let status = write_end(alloc, &world, ended, sink);
    if status != Status::Memory {
        trail.fill(world, lines);
    }
    status
}

fn trace_shape<S: Source, K: Sink>(
    alloc: Global,
    shape: &Shape,
    source: &mut S,
    sink: &mut K,
    trail: &mut Trail,
) -> Status
    requires { IsShape shape.now }
    ensures no_usage { result ≢ Usage }
    ensures faults { AnswersFaults (source_use S.left S.faults source.old source.new) (sink_use K.written K.faults sink.old sink.new) result }
    ensures traced { IsTrace shape.now (source_use S.left S.faults source.old source.new) (sink_use K.written K.faults sink.old sink.new) trail.old trail.new result }
    ensures unfilled { result ≡ Memory → trail.new ≡ trail.old }
{
    let Ok(world) = World::new(alloc, shape) else {
        return Status::Memory;
    };
    let mut trace = Trace::new(alloc, world);
    let ended = run_script(alloc, &mut trace, source, sink);
    close(alloc, trace.into_world(), ended, sink, trail)
}

/// Does what the words ask for.
fn perform<S: Source, K: Sink>(
    alloc: Global,
    task: &Task,
    source: &mut S,
    sink: &mut K,
    trail: &mut Trail,
) -> Status
    requires { IsTask task.now }
    ensures no_usage { result ≢ Usage }
    ensures faults { AnswersFaults (source_use S.left S.faults source.old source.new) (sink_use K.written K.faults sink.old sink.new) result }
    ensures traced { (shape : Dimensions) → task.now ≡ TraceTask shape → IsTrace shape (source_use S.left S.faults source.old source.new) (sink_use K.written K.faults sink.old sink.new) trail.old trail.new result }
    ensures loaded { (shape : Dimensions) (seed : ℕ) → task.now ≡ LoadTask shape seed → IsLoad shape seed (sink_use K.written K.faults sink.old sink.new) trail.old trail.new result }
    ensures load_unread { (shape : Dimensions) (seed : ℕ) → task.now ≡ LoadTask shape seed → source.new ≡ source.old }
    ensures recoded { task.now ≡ RecodeTask → IsRecoding (source_use S.left S.faults source.old source.new) (sink_use K.written K.faults sink.old sink.new) result }
    ensures recode_trail { task.now ≡ RecodeTask → trail.new ≡ trail.old }
    ensures unfilled { result ≡ Memory → trail.new ≡ trail.old }
{
    match task {
        Task::Trace(shape) => trace_shape(alloc, shape, source, sink, trail),
        Task::Load(shape, seed) => load_shape(alloc, shape, *seed, sink, trail),
        Task::Recode => recode_top(alloc, source, sink),
    }
}

/// Does what the words ask for: traces the script that `source` has, and writes what happens to `sink`; or puts a
/// load on a log; or brings the frames over that `source` has.
///
/// The text that is written, and what the trace ends with, are the definitions `out` and `end_of` of
/// `specs/Output.antt`, which read the script byte by byte. `Usage` is answered for words that ask for
/// nothing, `BadLine(n)` where script line n is the first that is outside the grammar or too long,
/// `Limit(n)` where script line n is one too many, or an event of it would send more than a world may.
/// Those of a load are in `specs/LoadOutput.antt`, and those of frames in `specs/Output.antt` of `recode_top`.
///
/// The trail is filled whatever a trace or a load ended with, but for want of memory: it has the history of the events
/// that were applied, and the lines of those holders whose line isn't lost.
pub fn trace_top<S: Source, K: Sink>(
    alloc: Global,
    words: &TextList,
    source: &mut S,
    sink: &mut K,
    trail: &mut Trail,
) -> Status
    // Faulty words are answered by `usage`, where it can be written, and then no input is read.
    ensures usage { result ≡ Usage → ¬ IsAsked words.now }
    ensures faulty { ¬ IsAsked words.now → AnswersUsage (sink_use K.written K.faults sink.old sink.new) result }
    ensures unread { ¬ IsAsked words.now → source.new ≡ source.old }

    // Where the words ask for a trace, it is that of the bytes that the source had, where it tells them.
    // It ends as these bytes say, and what they say is written; where the source failed, what the script lines say
    // that were read whole, and that it failed; where a write failed, a front of that. The trail has the history
    // of the run of the events that were applied, and the line of each holder whose line isn't lost, which is
    // lawful for that history. What was printed is that history, each event once and in order, or a front of it
    // where a write failed.
    ensures traced { IsTraceOf words.now (source_use S.left S.faults source.old source.new) (sink_use K.written K.faults sink.old sink.new) trail.old trail.new result }

    // Where the words ask for a load, its line is what the steps of the schedule come to, made from the first world of
    // the shape; no input is read. The trail is filled as that of a trace.
    ensures loaded { IsLoadOf words.now (sink_use K.written K.faults sink.old sink.new) trail.old trail.new result }
    ensures load_unread { (shape : Dimensions) (seed : ℕ) → AskFor words.now (LoadTask shape seed) → source.new ≡ source.old }

    // Where the word is `recode`, the frames are brought over that the source has, a line each: it ends as its lines
    // say, and what becomes of each is written; where the source failed, what became of the lines that were read
    // whole, and that it failed; where a write failed, a front of that. No log belongs to it, and the trail stays as
    // it was.
    ensures recoded { AskFor words.now RecodeTask → IsRecoding (source_use S.left S.faults source.old source.new) (sink_use K.written K.faults sink.old sink.new) result }
    ensures recode_trail { AskFor words.now RecodeTask → trail.new ≡ trail.old }

    // Faulty words and want of memory leave the trail as it was.
    ensures faulty_trail { ¬ IsAsked words.now → trail.new ≡ trail.old }
    ensures memory_trail { result ≡ Memory → trail.new ≡ trail.old }

    // A fault is answered only where one was counted in this call, and one that was counted is answered, unless
    // there was no memory, or, for the source's, the text of it couldn't be written.
    ensures faults { AnswersFaults (source_use S.left S.faults source.old source.new) (sink_use K.written K.faults sink.old sink.new) result }
{
    let Some(task) = read_words(words) else {
        return match write_text(sink, b"usage\n") {
            Ok(()) => Status::Usage,
            Err(status) => status,
        };
    };
    perform(alloc, &task, source, sink, trail)
}

#[cfg(test)]
mod tests {
    use super::*;
    use io_edges::{MemSink, MemSource};
    use std::process::Abort;
    use std::test::Fail;

    const SCRIPT: &[u8] = b"append c0 a\nflow 1 6\n";

    const WHOLE: &[u8] = b"c0#1 invoked\nc0#1 acked\nend: 7 events, 6 messages\n";

    fn words_of(alloc: Global, line: &[u8]) -> Result<TextList, Fail> {
        let mut words = Sequence::new(alloc);
        let mut word = Vec::new(alloc);
        for byte in line {
            if *byte == b' ' {
                words.push(Text::from_vec(word))?;
                word = Vec::new(alloc);
            } else {
                word.push(*byte)?;
            }
        }
        words.push(Text::from_vec(word))?;
        Ok(words)
    }

    /// Traces the script with these words, and compares what it ended with and what was written.
    fn traces(
        rt: &impl Abort,
        alloc: Global,
        words: &[u8],
        script: &[u8],
        reads: &[u64],
        writes: &[u64],
        want: (u8, &[u8]),
    ) -> Result<(), Fail> {
        let words = words_of(alloc, words)?;
        let mut source = MemSource::new(alloc, script, reads)?;
        let mut sink = MemSink::new(alloc, writes)?;
        let mut trail = Trail::new(alloc);
        let status = trace_top(alloc, &words, &mut source, &mut sink, &mut trail);
        assert_eq!(rt; status.code(), want.0);
        assert_eq!(rt; sink.written(), want.1);
        Ok(())
    }

    #[test]
    fn streams_fail(rt: HostRuntime) -> Result<(), Fail> {
        let words = b"trace m 3 0 1 1 1".as_slice();
        for (reads, writes, status, written) in [
            ([].as_slice(), [].as_slice(), 0, WHOLE),
            ([].as_slice(), [1].as_slice(), 5, b"".as_slice()),
            (
                [].as_slice(),
                [2].as_slice(),
                5,
                b"c0#1 invoked\n".as_slice(),
            ),
            (
                [].as_slice(),
                [3].as_slice(),
                5,
                b"c0#1 invoked\nc0#1 acked\n".as_slice(),
            ),
            (
                [1].as_slice(),
                [].as_slice(),
                4,
                b"stopped: read fault\n".as_slice(),
            ),
            (
                [2].as_slice(),
                [].as_slice(),
                4,
                b"c0#1 invoked\nc0#1 acked\nstopped: read fault\n".as_slice(),
            ),
            (
                [2].as_slice(),
                [3].as_slice(),
                5,
                b"c0#1 invoked\nc0#1 acked\n".as_slice(),
            ),
        ] {
            traces(
                &rt,
                rt.alloc(),
                words,
                SCRIPT,
                reads,
                writes,
                (status, written),
            )?;
        }
        Ok(())
    }

    /// Traces the script with these words, and compares how many events and lines of holders the trail
    /// has, and how many entries the first of these lines.
    fn leaves(
        rt: &impl Abort,
        alloc: Global,
        words: &[u8],
        reads: &[u64],
        writes: &[u64],
        want: (usize, usize, usize),
    ) -> Result<(), Fail> {
        let words = words_of(alloc, words)?;
        let mut source = MemSource::new(alloc, SCRIPT, reads)?;
        let mut sink = MemSink::new(alloc, writes)?;
        let mut trail = Trail::new(alloc);
        trace_top(alloc, &words, &mut source, &mut sink, &mut trail);
        assert_eq!(rt; trail.history.len(), want.0);
        assert_eq!(rt; trail.lines.len(), want.1);
        let entries = match trail.lines.as_slice().first() {
            Some(held) => held.line.len(),
            None => 0,
        };
        assert_eq!(rt; entries, want.2);
        Ok(())
    }

    #[test]
    fn trails_are_left(rt: HostRuntime) -> Result<(), Fail> {
        let words = b"trace m 3 0 1 1 1".as_slice();
        let none = [].as_slice();
        for (words, reads, writes, want) in [
            (words, none, none, (2, 3, 1)),
            // The append is applied, though its text isn't written.
            (words, none, [1].as_slice(), (1, 3, 0)),
            (words, none, [3].as_slice(), (2, 3, 1)),
            (words, [1].as_slice(), none, (0, 3, 0)),
            (words, [2].as_slice(), none, (2, 3, 1)),
            (b"trace m 3 0 1 1".as_slice(), none, none, (0, 0, 0)),
            (b"recode".as_slice(), none, none, (0, 0, 0)),
        ] {
            leaves(&rt, rt.alloc(), words, reads, writes, want)?;
        }
        Ok(())
    }

    #[test]
    fn scripts_stop(rt: HostRuntime) -> Result<(), Fail> {
        let empty = Vec::from_elem(rt.alloc(), b'\n', 100_001)?;
        let words = b"trace m 3 0 1 1 1".as_slice();
        for (words, script, status, written) in [
            (
                words,
                b"hello".as_slice(),
                3,
                b"stopped: bad line 1\n".as_slice(),
            ),
            (
                words,
                b"#\n\ndeliver 01\nlines\n".as_slice(),
                3,
                b"stopped: bad line 3\n".as_slice(),
            ),
            (
                words,
                b"append c0 a b\n".as_slice(),
                3,
                b"stopped: bad line 1\n".as_slice(),
            ),
            (
                b"trace m 0 0 1 1 1".as_slice(),
                SCRIPT,
                2,
                b"usage\n".as_slice(),
            ),
            (
                b"trace m 3 0 1 1".as_slice(),
                SCRIPT,
                2,
                b"usage\n".as_slice(),
            ),
            (
                words,
                empty.as_slice(),
                7,
                b"stopped: limit at 100001\n".as_slice(),
            ),
            (
                b"recode".as_slice(),
                b"01\n#\n".as_slice(),
                3,
                b"refused: short\nstopped: bad line 2\n".as_slice(),
            ),
            (
                b"recode m".as_slice(),
                b"01\n".as_slice(),
                2,
                b"usage\n".as_slice(),
            ),
        ] {
            traces(&rt, rt.alloc(), words, script, &[], &[], (status, written))?;
        }
        Ok(())
    }
}
