//! How far a script of frames is, and a line of it brought over and written.

ghost use Rattle.std.specs.Prelude.{◌≡◌, ◌≢◌, ◌+◌, ◌<◌, ◌≤◌, ◌^◌, Err, OnOk};
ghost use Rattle.io_edges.specs.declared.status.Status.TheVariants.{Done};
ghost use Rattle.script_streams.specs.Streams.{sink_use};
ghost use Rattle.recode_top.specs.Output.{IsStop, IsUnderWay, line_output, long_output, made_output, start, stops};
ghost use Rattle.recode_top.specs.Recoding.{Writes};

use frame_recode::{RecodeError, Recoded, recode_line};
use io_edges::{Sink, Status};
use script_streams::write_ended;
use std::alloc::Global;

/// How many bytes a line has at most, its newline not counted.
pub const LINE_LIMIT: usize = 140_000;

/// How many lines a script has at most.
pub const LINES_LIMIT: u32 = 100_000;

/// How many lines were read, how many of them weren't empty, and how many of those were refused.
#[derive(Clone, Copy, Debug, PartialEq, Eq)]
pub struct Counts {
    pub lines: u32,
    pub frames: u32,
    pub refused: u32,
}

impl Counts {
    /// No line was read.
    pub fn start() -> Counts
        ensures { result ≡ start }
    {
        Counts {
            lines: 0,
            frames: 0,
            refused: 0,
        }
    }

    /// Why the script stops at the next line, which is too long.
    pub fn long_line(self) -> Status
        requires { self.lines ≤ LINES_LIMIT }
        ensures stops { long_output self ≡ stops result }
        ensures at_line { IsStop result }
    {
        if self.lines == LINES_LIMIT {
            return Status::Limit(LINES_LIMIT + 1);
        }
        Status::BadLine(self.lines + 1)
    }

    /// Writes what a line became, and counts it.
    fn write_made<K: Sink>(&mut self, made: Recoded, sink: &mut K) -> Result<(), Status>
        requires few { self.old.frames + 1 < 2 ^ 32 }
        requires fewer { self.old.refused + 1 < 2 ^ 32 }
        ensures writes { Writes (made_output self.old made) (sink_use K.written K.faults sink.old sink.new) self.new result }
        ensures counted { (self.new.lines ≡ self.old.lines) × (self.new.frames ≡ self.old.frames + 1) }
        ensures refused { (self.old.refused ≤ self.new.refused) × (self.new.refused ≤ self.old.refused + 1) }
        ensures not_done { result ≢ Err Done }
    {
        self.frames += 1;
        match made {
            Recoded::Brought(text) => write_ended(sink, text),
            Recoded::Refused(text) => {
                self.refused += 1;
                write_ended(sink, text)
            }
        }
    }

    /// Brings the line over, which was read to its end, and writes what it became. An empty line does
    /// nothing.
    pub fn add_line<K: Sink>(
        &mut self,
        alloc: Global,
        line: &[u8],
        sink: &mut K,
    ) -> Result<(), Status>
        requires { IsUnderWay self.old }
        ensures kept { OnOk result (IsUnderWay self.new) }
        ensures nearer { OnOk result (self.new.lines ≡ self.old.lines + 1) }
        ensures writes { Writes (line_output self.old line.now) (sink_use K.written K.faults sink.old sink.new) self.new result }
        ensures not_done { result ≢ Err Done }
    {
        if self.lines == LINES_LIMIT {
            return Err(Status::Limit(LINES_LIMIT + 1));
        }
        self.lines += 1;
        if line.is_empty() {
            return Ok(());
        }
        match recode_line(alloc, line) {
            Ok(made) => self.write_made(made, sink),
            Err(RecodeError::BadLine) => Err(Status::BadLine(self.lines)),
            Err(RecodeError::Memory) => Err(Status::Memory),
        }
    }
}
