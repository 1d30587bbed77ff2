//! Lines out of the pieces in which a source gives its bytes.

ghost use Rattle.std.specs.Prelude.{◌≡◌, ◌≢◌, ◌+◌, ◌<◌, ◌≤◌, [], length, drop, position, true, false, Ok, Err, IfOk, IfErr, OnOk, OnErr};
ghost use Rattle.std.specs.Io.KnownBytes.{prepend_known, IsAtEnd};
ghost use Rattle.io_edges.specs.Faults.{Rose};
ghost use Rattle.script_streams.specs.Lines.{is_newline};
ghost use Rattle.script_streams.specs.Reading.{Gives, StopsSo, TakesPart, coming, with_part};
ghost use Rattle.script_streams.specs.declared.line_reader.Next.TheVariants.{End, Last, Line};
ghost use Rattle.script_streams.specs.declared.line_reader.LineError.TheVariants.{Failed, TooLong};

use io_edges::Source;
use std::alloc::{AllocError, Global};
use std::marker::Model;

/// How many bytes are asked for in one read.
pub const PIECE: usize = 4_096;

/// What comes next.
#[derive(Clone, Copy, Debug, PartialEq, Eq)]
pub enum Next {
    /// A line that ended with a newline.
    Line,
    /// The input ended behind a line that isn't empty and has no newline.
    Last,
    /// The input ended, and no line is left.
    End,
}

/// Why no line came.
#[derive(Clone, Copy, Debug, PartialEq, Eq)]
pub enum LineError {
    /// The line has more bytes than a line may have.
    TooLong,
    /// The source failed.
    Failed,
    /// There was no memory.
    Memory,
}

/// Where the first newline is.
fn newline_in(bytes: &[u8]) -> Option<usize>
    ensures { result ≡ position is_newline bytes.now }
{
    bytes.iter().position(|byte| *byte == b'\n')
}

/// The line that was read last, and what was read behind it.
#[derive(Drop)]
pub struct LineReader {
    most: usize,
    line: Vec<u8>,
    buffer: Vec<u8>,
    from: usize,
    to: usize,
}

impl Model for LineReader {
    ghost use Rattle.std.specs.Prelude.{◌≡◌, ◌≤◌, ◌-◌, take, drop, vec_len};
    ghost use Rattle.script_streams.specs.Reading.{Reading};
    ghost use Rattle.script_streams.specs.declared.line_reader.TheConstants.{PIECE};

    ghost Value = { Reading };

    ghost view = { λ r. record { most = r.most; line = r.line.items; ahead = take (r.to - r.from) (drop r.from r.buffer.items) } };

    ghost invariant = { λ r. (r.from ≤ r.to) × (r.to ≤ vec_len r.buffer) × (vec_len r.buffer ≡ PIECE) };
}

impl LineReader {
    /// A reader of lines of at most so many bytes, their newline not counted.
    pub fn new(alloc: Global, most: usize) -> Result<LineReader, AllocError>
        ensures { IfOk result (λ made. made ≡ record { most = most; line = []; ahead = [] }) }
    {
        Ok(LineReader {
            most,
            line: Vec::new(alloc),
            buffer: Vec::from_elem(alloc, 0, PIECE)?,
            from: 0,
            to: 0,
        })
    }

    /// The line that was read last, without its newline.
    pub fn line(&self) -> &[u8]
        ensures { result.now ≡ self.now.line }
    {
        self.line.as_slice()
    }

    /// What was read behind the line.
    fn ahead(&self) -> &[u8]
        ensures { result.now ≡ self.now.ahead }
    {
        &self.buffer[self.from..self.to]
    }

    /// Leaves out so many bytes.
    fn skip(&mut self, count: usize)
        requires { count ≤ length self.old.ahead }
        ensures { self.new ≡ record self.old { ahead = drop count self.old.ahead } }
    {
        self.from += count;
    }

    /// Takes so many bytes into the line, if a line may have them.
    fn take(&mut self, count: usize) -> Result<(), LineError>
        requires { count ≤ length self.old.ahead }
        ensures taken { OnOk result (self.new ≡ with_part self.old count) }
        ensures short { OnOk result (length self.new.line ≤ self.old.most) }
        ensures long { result ≡ Err TooLong → (self.old.most < length self.old.line + count) × (self.new ≡ record self.old { ahead = drop count self.old.ahead }) }
        ensures most { self.new.most ≡ self.old.most }
        ensures no_fault { result ≢ Err Failed }
    {
        if self.line.len() + count > self.most {
            self.skip(count);
            return Err(LineError::TooLong);
        }
        let part = &self.buffer[self.from..self.from + count];
        if self.line.extend_from_slice(part).is_err() {
            return Err(LineError::Memory);
        }
        self.skip(count);
        Ok(())
    }

    /// Takes what was read ahead up to the end of the line, and says whether that is there.
    fn take_part(&mut self) -> Result<bool, LineError>
        ensures taken { TakesPart self.old self.new result }
        ensures most { self.new.most ≡ self.old.most }
        ensures no_fault { result ≢ Err Failed }
    {
        match newline_in(self.ahead()) {
            Some(count) => {
                match self.take(count) {
                    Ok(()) => {}
                    Err(error) => return Err(error),
                }
                self.skip(1);
                Ok(true)
            }
            None => {
                let count = self.ahead().len();
                match self.take(count) {
                    Ok(()) => Ok(false),
                    Err(error) => Err(error),
                }
            }
        }
    }

    /// Reads a piece, and says whether there was one.
    fn read_piece<S: Source>(&mut self, source: &mut S) -> Result<bool, LineError>
        requires { self.old.ahead ≡ [] }
        ensures piece { OnOk result (S.left source.old ≡ prepend_known self.new.ahead (S.left source.new)) }
        ensures some { result ≡ Ok true → self.new.ahead ≢ [] }
        ensures end { result ≡ Ok false → (self.new.ahead ≡ []) × IsAtEnd (S.left source.new) }
        ensures unread { OnErr result ((self.new ≡ self.old) × (S.left source.new ≡ S.left source.old)) }
        ensures kept { (self.new.most ≡ self.old.most) × (self.new.line ≡ self.old.line) }
        ensures failed { IfErr result (λ e. (e ≡ Failed) × Rose (S.faults source.old) (S.faults source.new)) }
        ensures faultless { OnOk result (S.faults source.new ≡ S.faults source.old) }
        ensures grows { S.faults source.old ≤ S.faults source.new }
    {
        let Ok(count) = source.read(self.buffer.as_mut_slice()) else {
            return Err(LineError::Failed);
        };
        self.from = 0;
        self.to = count;
        Ok(count > 0)
    }

    /// What comes where the input ended.
    fn last(&self) -> Next
        ensures last { result ≡ Last → self.now.line ≢ [] }
        ensures end { result ≡ End → self.now.line ≡ [] }
        ensures no_more { result ≢ Line }
    {
        if self.line.is_empty() {
            Next::End
        } else {
            Next::Last
        }
    }

    /// Takes the next line, which `line` then gives.
    ///
    /// It reads on only where what was read before has no end of the line, a piece of 4,096 bytes a read,
    /// and stops as soon as the line is over its length. Where the source failed, what was read of the line
    /// stands in `line`; a further call begins behind it.
    pub fn next_line<S: Source>(&mut self, source: &mut S) -> Result<Next, LineError>
        ensures gives { IfOk result (λ next. Gives next self.old.most (coming self.old (S.left source.old)) self.new (S.left source.new)) }
        ensures stops { IfErr result (λ e. StopsSo e self.old.most (coming self.old (S.left source.old)) self.new (S.left source.new)) }
        ensures most { self.new.most ≡ self.old.most }
        // A fault is told exactly where the source had one.
        ensures failed { result ≡ Err Failed → Rose (S.faults source.old) (S.faults source.new) }
        ensures faultless { result ≢ Err Failed → S.faults source.new ≡ S.faults source.old }
        ensures grows { S.faults source.old ≤ S.faults source.new }
    {
        self.line.clear();
        loop {
            match self.take_part() {
                Ok(true) => return Ok(Next::Line),
                Ok(false) => {}
                Err(error) => return Err(error),
            }
            match self.read_piece(source) {
                Ok(true) => {}
                Ok(false) => return Ok(self.last()),
                Err(error) => return Err(error),
            }
        }
    }
}
