//! The whole program, over any source and sink.

ghost use Rattle.std.specs.Prelude.{◌≡◌, ◌≢◌, Err, IfOk};
ghost use Rattle.io_edges.specs.declared.status.Status.TheVariants.{Done, Usage};
ghost use Rattle.script_streams.specs.Streams.{AnswersFaults, ClosesFaults, HasFaults, sink_use, source_use};
ghost use Rattle.journal_top.specs.Output.{last_text, status_of};
ghost use Rattle.journal_top.specs.Telling.{AnswersUsage, Closed, IsJournal, IsJournalOf, RanOf};
ghost use Rattle.journal_top.specs.declared.words.Shard.{Shard as AnyShard};
ghost use Rattle.journal_top.specs.Outlives.{LosesNothing};
ghost use Rattle.journal_top.specs.Words.{AskFor, IsAsked, IsShard};

use crate::tool::{Tool, write_told};
use crate::words::{Shard, read_words};
use io_edges::{Sink, Source, Status};
use journal_script::end_text;
use plain_lists::Sequence;
use rec_id::{Text, TextList};
use script_streams::{LineError, LineReader, Next, write_text};
use std::alloc::{AllocError, Global};
use trace_script::{print_bad_line, print_limit, print_read_fault};
use view_config::Edition;

/// Reads the script to its end, or up to what stops it.
fn run_lines<S: Source, K: Sink>(
    alloc: Global,
    shard: Shard,
    source: &mut S,
    sink: &mut K,
) -> Result<Tool, Status>
    requires { IsShard shard }
    ensures faults { HasFaults (source_use S.left S.faults source.old source.new) (sink_use K.written K.faults sink.old sink.new) result }
    ensures not_done { result ≢ Err Done }
    ensures ran { RanOf (source_use S.left S.faults source.old source.new) shard (K.written sink.old) (K.written sink.new) result }
{
    let Ok(mut reader) = LineReader::new(alloc, Edition::One.line_limit()) else {
        return Err(Status::Memory);
    };
    let Ok(mut tool) = Tool::new(alloc, shard) else {
        return Err(Status::Memory);
    };
    loop {
        match reader.next_line(source) {
            Ok(Next::Line) => match tool.take_line(alloc, reader.line(), sink) {
                Ok(next) => tool = next,
                Err(status) => return Err(status),
            },
            Ok(Next::Last) => return tool.take_line(alloc, reader.line(), sink),
            Ok(Next::End) => return Ok(tool),
            Err(LineError::TooLong) => return Err(tool.long_line()),
            Err(LineError::Failed) => return Err(Status::ReadFault),
            Err(LineError::Memory) => return Err(Status::Memory),
        }
    }
}

/// The last text, where the script has one.
fn last_text(alloc: Global, ended: &Result<Tool, Status>) -> Result<Option<Text>, AllocError>
    ensures { IfOk result (λ last. last ≡ last_text ended.now) }
{
    let mut text = Sequence::new(alloc);
    match ended {
        Ok(tool) => return Ok(Some(end_text(alloc, tool.kept())?)),
        Err(Status::BadLine(number)) => print_bad_line(alloc, *number, &mut text)?,
        Err(Status::Limit(number)) => print_limit(alloc, *number, &mut text)?,
        Err(Status::ReadFault) => print_read_fault(alloc, &mut text)?,
        Err(_) => return Ok(None),
    }
    Ok(Some(text))
}

/// Writes the last text, and answers what the script ends with.
fn close<K: Sink>(alloc: Global, ended: Result<Tool, Status>, sink: &mut K) -> Status
    ensures closed { Closed (last_text ended) (status_of ended) (K.written sink.old) (K.written sink.new) result }
    ensures faults { ClosesFaults ended (K.faults sink.old) (K.faults sink.new) result }
{
    let last = match last_text(alloc, &ended) {
        Ok(last) => last,
        Err(AllocError) => return Status::Memory,
    };
    match write_told(sink, last) {
        Ok(()) => match ended {
            Ok(_) => Status::Done,
            Err(status) => status,
        },
        Err(status) => status,
    }
}

/// Follows the script with the journal of a shard.
fn run_journal<S: Source, K: Sink>(
    alloc: Global,
    shard: Shard,
    source: &mut S,
    sink: &mut K,
) -> Status
    requires { IsShard shard }
    ensures no_usage { result ≢ Usage }
    ensures journal { IsJournal shard (source_use S.left S.faults source.old source.new) (sink_use K.written K.faults sink.old sink.new) result }
    ensures faults { AnswersFaults (source_use S.left S.faults source.old source.new) (sink_use K.written K.faults sink.old sink.new) result }
{
    let ended = run_lines(alloc, shard, source, sink);
    close(alloc, ended, sink)
}

/// Follows the script that `source` has with the journal that the words ask for, `journal MODE SHARD SHARDS`, and
/// writes what happens to `sink`.
///
/// The texts, and what it ends with, are the definitions `out` and `end_of` of `specs/Output.antt`; what a line
/// does is the rule `follow` of `specs/Rules.antt`. `Usage` is answered for words that ask for no journal,
/// `BadLine(n)` where line n is the first that is outside the grammar or too long, and `Limit(n)` where line n is
/// one too many, or is to add an entry and no place is left.
pub fn journal_top<S: Source, K: Sink>(
    alloc: Global,
    words: &TextList,
    source: &mut S,
    sink: &mut K,
) -> Status
    // Faulty words are answered by `usage`, where it can be written, and then no input is read.
    ensures usage { result ≡ Usage → ¬ IsAsked words.now }
    ensures faulty { ¬ IsAsked words.now → AnswersUsage (sink_use K.written K.faults sink.old sink.new) result }
    ensures unread { ¬ IsAsked words.now → source.new ≡ source.old }

    // Of the bytes that the source had, where it tells them: all texts are written, and the status is their end;
    // where the source failed, the texts of the lines that were read, and that it failed; where a write failed, the
    // texts before it and not all of its own.
    ensures journal { IsJournalOf words.now (source_use S.left S.faults source.old source.new) (sink_use K.written K.faults sink.old sink.new) result }

    // What was kept outlives the power, whatever lines a script has, and no line loses any of it.
    ensures lasting { (shard : AnyShard) → AskFor words.now shard → LosesNothing shard }

    // A fault is answered only where one was counted in this call, and one that was counted is answered, unless
    // there was no memory, or, for the source's, the text of it couldn't be written.
    ensures faults { AnswersFaults (source_use S.left S.faults source.old source.new) (sink_use K.written K.faults sink.old sink.new) result }
{
    let Some(shard) = read_words(words) else {
        return match write_text(sink, b"usage\n") {
            Ok(()) => Status::Usage,
            Err(status) => status,
        };
    };
    run_journal(alloc, shard, source, sink)
}

#[cfg(test)]
mod tests;
