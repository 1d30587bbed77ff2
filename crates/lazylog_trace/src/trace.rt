//! A running trace: the world so far, and the script line that isn't read to its end.
//!
//! Bytes of the script are fed to it. Each script line is parsed, applied and printed as soon as it ends.

ghost use Rattle.std.specs.Prelude.{◌≡◌, [], ◌<◌, ◌+◌, ◌^◌, ◌≤◌, ℕ, List, Option, length, Err, IsErr, IfOk, OnOk, OnErr};
ghost use Rattle.io_edges.specs.declared.status.Status.TheVariants.{Limit, WriteFault};
ghost use Rattle.trace_script.specs.Spelling.{IsSayable};
ghost use Rattle.lazylog_trace.specs.Apply.{Advances, Applies, applied, events_of};
ghost use Rattle.lazylog_trace.specs.Output.{lines_limit, command_text, line_output, long_output, byte_output, bytes_output, end_output};
ghost use Rattle.script_streams.specs.Streams.{IsWritten, Stopped, sink_use};
ghost use Rattle.lazylog_trace.specs.Trace.{IsUnderWay, bytes_left, progress_of};
ghost use Rattle.lazylog_trace.specs.Calls.{FailsIn, Led, LedToStop, Writes};

use crate::apply::{Outcome, apply};
use crate::output::write_texts;
use io_edges::{Sink, Status};
use lazy_core::World;
use plain_lists::Sequence;
use std::alloc::{AllocError, Global};
use trace_script::{Command, ScriptError, read_line};

/// How many lines a script has at most.
const LINES_LIMIT: u32 = 100_000;

/// The world, how many script lines were read whole, and what was read of the next one.
#[derive(Drop)]
pub struct Trace {
    world: World,
    lines: u32,
    part: Vec<u8>,
}

/// Applies a command, and writes what is printed of it.
fn apply_command<K: Sink>(
    alloc: Global,
    world: &mut World,
    command: Command,
    sink: &mut K,
) -> Result<Outcome, Status>
    requires countable { world.old.events + 128 < 2 ^ 31 }
    requires sayable { IsSayable command }
    ensures applied { IfOk result (Applies (events_of command) world.old world.new) }
    ensures written { IsWritten (command_text world.old command) (sink_use K.written K.faults sink.old sink.new) result }
    ensures failed { result ≡ Err WriteFault → world.new ≡ (applied world.old (events_of command)).world }
    ensures advances { Advances 128 world.old world.new }
{
    let mut texts = Sequence::new(alloc);
    let outcome = match apply(alloc, world, command, &mut texts) {
        Ok(outcome) => outcome,
        Err(AllocError) => return Err(Status::Memory),
    };
    match write_texts(sink, &texts) {
        Ok(()) => Ok(outcome),
        Err(status) => Err(status),
    }
}

impl Trace {
    /// A trace of which no script was read yet, in this world.
    pub fn new(alloc: Global, world: World) -> Trace
        requires { world.events ≡ 0 }
        ensures under_way { IsUnderWay result }
        ensures progress { progress_of result ≡ record { world = world; lines = 0; part = [] } }
    {
        Trace {
            world,
            lines: 0,
            part: Vec::new(alloc),
        }
    }

    pub fn world(&self) -> &World
        ensures { result.now ≡ self.now.world }
    {
        &self.world
    }

    /// The world, which is over.
    pub fn into_world(self) -> World
        ensures { result ≡ self.world }
    {
        self.world
    }

    /// Counts one more script line, if there may be one.
    fn count_line(&mut self) -> Result<u32, Status>
        requires { self.old.lines ≤ lines_limit }
        ensures ok { OnOk result ((self.new ≡ record self.old { lines = self.old.lines + 1 }) × (self.old.lines < lines_limit)) }
        ensures number { IfOk result (λ number. number ≡ self.old.lines + 1) }
        ensures limit { OnErr result ((self.old.lines ≡ lines_limit) × (self.new ≡ self.old) × (result ≡ Err (Limit (lines_limit + 1)))) }
        ensures stopped { Stopped 0 0 result }
    {
        if self.lines == LINES_LIMIT {
            return Err(Status::Limit(LINES_LIMIT + 1));
        }
        self.lines += 1;
        Ok(self.lines)
    }

    /// Stops at the script line, which is too long.
    fn refuse_line(&mut self) -> Result<(), Status>
        requires { self.old.lines ≤ lines_limit }
        ensures writes { (known : Option (List ℕ)) → Writes (long_output (progress_of self.old)) known known (progress_of self.new) result }
        ensures led { Led (long_output (progress_of self.old)).events self.old.world self.new.world result }
        ensures stops { IsErr result }
        ensures stopped { Stopped 0 0 result }
    {
        let number = self.count_line()?;
        Err(Status::BadLine(number))
    }

    /// Parses the script line, which was read to its end, and applies it.
    fn apply_line<K: Sink>(&mut self, alloc: Global, sink: &mut K) -> Result<(), Status>
        requires { IsUnderWay self.old }
        ensures kept { OnOk result (IsUnderWay self.new) }
        ensures nearer { OnOk result (bytes_left self.new < bytes_left self.old) }
        ensures writes { Writes (line_output (progress_of self.old)) (K.written sink.old) (K.written sink.new) (progress_of self.new) result }
        ensures led { Led (line_output (progress_of self.old)).events self.old.world self.new.world result }
        ensures stopped { Stopped (K.faults sink.old) (K.faults sink.new) result }
    {
        let number = self.count_line()?;
        let command = match read_line(alloc, self.part.as_slice()) {
            Ok(command) => command,
            Err(ScriptError::BadLine) => return Err(Status::BadLine(number)),
            Err(ScriptError::Memory) => return Err(Status::Memory),
        };
        self.part.clear();
        match apply_command(alloc, &mut self.world, command, sink) {
            Ok(Outcome::Through) => Ok(()),
            Ok(Outcome::Spent) => Err(Status::Limit(number)),
            Err(status) => Err(status),
        }
    }

    /// Goes on by the next byte of the script.
    #[tactic(auto, using(crate::proofs::Limits::line_limit_most))]
    fn feed_byte<K: Sink>(&mut self, alloc: Global, byte: u8, sink: &mut K) -> Result<(), Status>
        requires { IsUnderWay self.old }
        ensures kept { OnOk result (IsUnderWay self.new) }
        ensures nearer { OnOk result (bytes_left self.new < bytes_left self.old) }
        ensures writes { Writes (byte_output (progress_of self.old) byte) (K.written sink.old) (K.written sink.new) (progress_of self.new) result }
        ensures led { Led (byte_output (progress_of self.old) byte).events self.old.world self.new.world result }
        ensures newline { result ≡ Err WriteFault → byte ≡ 10 }
        ensures stopped { Stopped (K.faults sink.old) (K.faults sink.new) result }
    {
        if byte == b'\n' {
            return self.apply_line(alloc, sink);
        }
        if self.part.len() >= self.world.shape().edition.line_limit() {
            return self.refuse_line();
        }
        match self.part.push(byte) {
            Ok(()) => Ok(()),
            Err(_) => Err(Status::Memory),
        }
    }

    /// Goes on by the next bytes of the script.
    pub fn feed<K: Sink>(&mut self, alloc: Global, bytes: &[u8], sink: &mut K) -> Result<(), Status>
        requires { IsUnderWay self.old }
        ensures kept { OnOk result (IsUnderWay self.new) }
        ensures nearer { OnOk result (bytes_left self.new + length bytes.now ≤ bytes_left self.old) }
        ensures writes { Writes (bytes_output (progress_of self.old) bytes.now) (K.written sink.old) (K.written sink.new) (progress_of self.new) result }
        ensures led { LedToStop (bytes_output (progress_of self.old) bytes.now).events self.old.world self.new.world result }
        ensures failed { FailsIn (progress_of self.old) bytes.now (K.written sink.old) (K.written sink.new) self.new.world result }
        ensures stopped { Stopped (K.faults sink.old) (K.faults sink.new) result }
    {
        for byte in bytes {
            match self.feed_byte(alloc, *byte, sink) {
                Ok(()) => {}
                Err(status) => return Err(status),
            }
        }
        Ok(())
    }

    /// Goes on by the end of the script, which ends its last line too.
    pub fn feed_end<K: Sink>(&mut self, alloc: Global, sink: &mut K) -> Result<(), Status>
        requires { IsUnderWay self.old }
        ensures writes { Writes (end_output (progress_of self.old)) (K.written sink.old) (K.written sink.new) (progress_of self.new) result }
        ensures led { Led (end_output (progress_of self.old)).events self.old.world self.new.world result }
        ensures line { OnErr result (end_output (progress_of self.old) ≡ line_output (progress_of self.old)) }
        ensures stopped { Stopped (K.faults sink.old) (K.faults sink.new) result }
    {
        if self.part.len() == 0 {
            return Ok(());
        }
        self.apply_line(alloc, sink)
    }
}
