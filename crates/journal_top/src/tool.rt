//! The tool: a store, and its journal on a disk in memory.
//!
//! Each command makes a tool of a tool, and gives the text that it prints.

ghost use Rattle.std.specs.Prelude.{◌≡◌, ◌≢◌, ◌+◌, ◌≤◌, ℕ, List, false, Err, None, Some, IfOk, IsOk};
ghost use Rattle.io_edges.specs.declared.status.Status.TheVariants.{Done};
ghost use Rattle.shard_store.specs.Settling.{owns};
ghost use Rattle.script_streams.specs.Streams.{sink_use};
ghost use Rattle.journal_script.specs.Script.{IsSayable, command_of};
ghost use Rattle.journal_disk.specs.Past.{file_of};
ghost use Rattle.shard_journal.specs.declared.block.Block.{Block as BlockValue};
ghost use Rattle.shard_journal.specs.Blocks.{IsFile};
ghost use Rattle.journal_top.specs.Rules.{keep_says};
ghost use Rattle.journal_top.specs.Sound.{GoesOn, IsOpened};
ghost use Rattle.journal_top.specs.Output.{IsStop, closing_of, command_output, line_output, long_output, parsed_output, stops};
ghost use Rattle.journal_top.specs.Telling.{Writes, WritesTexts};
ghost use Rattle.journal_top.specs.Words.{IsShard};

use crate::words::Shard;
use io_edges::{Sink, Status};
use journal_script::{
    Command, Refusal, bytes_text, kept_text, opened_text, read_line, refused_text,
};
use plain_lists::Sequence;
use rec_id::{Body, Cell, PlacedList, RecordId, Text, shard_of};
use script_streams::write_ended;
use shard_journal::{Journal, JournalRefused, MemDisk};
use shard_store::ShardStore;
use std::alloc::{AllocError, Global};
use std::marker::Model;
use trace_script::ScriptError;
use view_config::Mode;

/// How many lines a script has at most.
pub const LINES_LIMIT: u32 = 100_000;

/// How many places the store has at most.
pub const PLACES_LIMIT: u32 = 65_536;

/// A store, its journal, and how many lines were read.
#[derive(Drop)]
pub struct Tool {
    store: ShardStore,
    journal: Journal<MemDisk>,
    shard: Shard,
    lines: u32,
}

impl Model for Tool {
    ghost use Rattle.journal_top.specs.Rules.{ToolState};
    ghost use Rattle.journal_top.specs.Sound.{IsTool, tool_of};

    ghost Value = { ToolState };

    ghost view = { λ tool. tool_of tool.store tool.journal tool.lines };

    ghost invariant = { λ tool. IsTool tool.store tool.journal tool.shard tool.lines };
}

/// Whether a place with this record is of the shard.
fn owns(shard: Shard, place: u32, id: RecordId) -> bool
    requires { IsShard shard }
    ensures { result ≡ owns shard.mode shard.number shard.shards place id }
{
    match shard.mode {
        Mode::M => place % shard.shards == shard.number,
        Mode::St => shard_of(id, shard.shards) == shard.number,
    }
}

/// Writes a text and a newline behind it, where there is one.
pub(crate) fn write_told<K: Sink>(sink: &mut K, text: Option<Text>) -> Result<(), Status>
    ensures written { WritesTexts (closing_of text) (sink_use K.written K.faults sink.old sink.new) result }
    ensures none { text ≡ None → (K.written sink.new ≡ K.written sink.old) × IsOk result }
{
    match text {
        Some(text) => write_ended(sink, text),
        None => Ok(()),
    }
}

/// The journal of a disk that isn't to fail, and the entries of its file.
fn open_disk(alloc: Global, disk: MemDisk) -> Result<(Journal<MemDisk>, PlacedList), AllocError>
    requires { GoesOn disk }
    ensures { (blocks : List BlockValue) (kept : ℕ) → IsFile (file_of disk.tape.past) blocks kept → IfOk result (λ opened. IsOpened (file_of disk.tape.past) blocks kept opened.0 opened.1) }
{
    match Journal::open(alloc, disk) {
        Ok((journal, entries)) => {
            // What is known of a journal that is open.
            let _kept = journal.kept();
            Ok((journal, entries))
        }
        Err(_) => Err(AllocError),
    }
}

/// What the answer of a keep is told by.
fn keep_text(alloc: Global, kept: Result<u32, JournalRefused>) -> Result<Text, AllocError>
    ensures { IfOk result (λ text. keep_says kept ≡ Some text) }
{
    match kept {
        Ok(kept) => kept_text(alloc, kept),
        Err(JournalRefused::Closed) => refused_text(alloc, Refusal::Closed),
        Err(JournalRefused::Full) => refused_text(alloc, Refusal::Full),
        Err(JournalRefused::DiskFault) => refused_text(alloc, Refusal::DiskFault),
        Err(JournalRefused::Memory) | Err(JournalRefused::Damaged(_)) => Err(AllocError),
    }
}

impl Tool {
    ghost use Rattle.journal_top.specs.Rules.{add, follow, is_elsewhere, is_in_place, is_over, keep, make_stable, open_again, start};

    /// A tool with an empty store and the file of an empty disk.
    pub(crate) fn new(alloc: Global, shard: Shard) -> Result<Tool, AllocError>
        requires { IsShard shard }
        ensures { IfOk result (λ tool. tool ≡ start shard) }
    {
        let store = ShardStore::new(alloc, shard.mode, shard.number, shard.shards);
        let (journal, _) = open_disk(alloc, MemDisk::new(alloc, &[])?)?;
        Ok(Tool {
            store,
            journal,
            shard,
            lines: 0,
        })
    }

    /// Up to where all is kept.
    pub(crate) fn kept(&self) -> u32
        ensures { result ≡ self.now.kept }
    {
        self.journal.kept()
    }

    /// Whether the next place may get this cell.
    fn is_in_place(&self, cell: &Cell) -> bool
        ensures { result ≡ is_in_place self.now.store cell.now }
    {
        let is_elsewhere = match &cell.body {
            Body::Elsewhere => true,
            Body::Kept(_) | Body::Noop | Body::Open | Body::Gone => false,
        };
        owns(self.shard, self.store.len(), cell.id) != is_elsewhere
    }

    /// Gives the next place a cell.
    fn add(self, alloc: Global, cell: Cell) -> Result<(Tool, Option<Text>), AllocError>
        requires over { is_over self (Command.Add cell) ≡ false }
        requires said { IsSayable (Command.Add cell) }
        ensures { IfOk result (λ told. told ≡ add self cell) }
    {
        let mut tool = self;
        if !tool.is_in_place(&cell) {
            return Ok((tool, Some(refused_text(alloc, Refusal::Place)?)));
        }
        let mut cells = Sequence::new(alloc);
        cells.push(cell)?;
        tool.store.extend_cells(&cells)?;
        Ok((tool, None))
    }

    /// Makes the places below `to` final.
    fn make_stable(self, alloc: Global, to: u32) -> Result<(Tool, Option<Text>), AllocError>
        ensures { IfOk result (λ told. told ≡ make_stable self to) }
    {
        let mut tool = self;
        if to < tool.store.stable() || to > tool.store.len() {
            return Ok((tool, Some(refused_text(alloc, Refusal::Stable)?)));
        }
        tool.store.raise_stable(to);
        Ok((tool, None))
    }

    /// Keeps the next final places.
    fn keep(self, alloc: Global) -> Result<(Tool, Option<Text>), AllocError>
        ensures { IfOk result (λ told. told ≡ keep self) }
    {
        let mut tool = self;
        let kept = tool.journal.keep(&tool.store);
        let text = keep_text(alloc, kept)?;
        Ok((tool, Some(text)))
    }

    /// Lets the power of the disk go off and come on again, and opens its file.
    fn open_again(self, alloc: Global) -> Result<(Tool, Option<Text>), AllocError>
        ensures { IfOk result (λ told. told ≡ open_again self) }
    {
        let Tool {
            store,
            journal,
            shard,
            lines,
        } = self;
        let (journal, entries) = open_disk(alloc, journal.power_off())?;
        let text = opened_text(alloc, journal.kept(), &entries)?;
        let tool = Tool {
            store,
            journal,
            shard,
            lines,
        };
        Ok((tool, Some(text)))
    }

    /// The bytes that the disk reads, in hexadecimal.
    fn show(self, alloc: Global) -> Result<(Tool, Option<Text>), AllocError>
        ensures { IfOk result (λ told. told ≡ follow self Command.Show) }
    {
        let text = bytes_text(alloc, self.journal.bytes())?;
        Ok((self, Some(text)))
    }

    /// Lets the device call of this number and all later ones fail.
    fn stop(self, number: u32) -> Tool
        requires { 1 ≤ number }
        ensures { (result, None) ≡ follow self (Command.Stop number) }
    {
        let mut tool = self;
        tool.journal.stop_after(number);
        tool
    }

    /// Whether the command adds an entry and no place is left.
    fn is_over(&self, command: &Command) -> bool
        ensures { result ≡ is_over self.now command.now }
    {
        match command {
            Command::Add(_) => self.store.len() >= PLACES_LIMIT,
            Command::Nothing
            | Command::Stable(_)
            | Command::Keep
            | Command::Show
            | Command::Stop(_)
            | Command::Open => false,
        }
    }

    /// Does what a command says. The text that it prints, where there is one, stands beside the tool.
    fn follow(self, alloc: Global, command: Command) -> Result<(Tool, Option<Text>), AllocError>
        requires over { is_over self command ≡ false }
        requires said { IsSayable command }
        ensures { IfOk result (λ told. told ≡ follow self command) }
    {
        match command {
            Command::Nothing => Ok((self, None)),
            Command::Add(cell) => self.add(alloc, cell),
            Command::Stable(to) => self.make_stable(alloc, to),
            Command::Keep => self.keep(alloc),
            Command::Show => self.show(alloc),
            Command::Stop(number) => Ok((self.stop(number), None)),
            Command::Open => self.open_again(alloc),
        }
    }

    /// Does what a command says, and writes what it prints.
    fn perform<K: Sink>(self, alloc: Global, command: Command, sink: &mut K) -> Result<Tool, Status>
        requires said { IsSayable command }
        ensures writes { Writes (command_output self command) (sink_use K.written K.faults sink.old sink.new) result }
        ensures lines { IfOk result (λ tool. tool.lines ≡ self.lines) }
        ensures not_done { result ≢ Err Done }
    {
        if self.is_over(&command) {
            return Err(Status::Limit(self.lines));
        }
        match self.follow(alloc, command) {
            Ok((tool, text)) => match write_told(sink, text) {
                Ok(()) => Ok(tool),
                Err(status) => Err(status),
            },
            Err(AllocError) => Err(Status::Memory),
        }
    }

    /// Parses a line that was counted, and does what it says.
    fn take_counted<K: Sink>(self, alloc: Global, line: &[u8], sink: &mut K) -> Result<Tool, Status>
        ensures writes { Writes (parsed_output self (command_of line.now)) (sink_use K.written K.faults sink.old sink.new) result }
        ensures lines { IfOk result (λ tool. tool.lines ≡ self.lines) }
        ensures not_done { result ≢ Err Done }
    {
        match read_line(alloc, line) {
            Ok(command) => self.perform(alloc, command, sink),
            Err(ScriptError::BadLine) => Err(Status::BadLine(self.lines)),
            Err(ScriptError::Memory) => Err(Status::Memory),
        }
    }

    /// Takes a line, which was read to its end: does what it says, and writes what that prints.
    pub(crate) fn take_line<K: Sink>(
        self,
        alloc: Global,
        line: &[u8],
        sink: &mut K,
    ) -> Result<Tool, Status>
        ensures nearer { IfOk result (λ tool. (tool.lines ≡ self.lines + 1) × (tool.lines ≤ LINES_LIMIT)) }
        ensures writes { Writes (line_output self line.now) (sink_use K.written K.faults sink.old sink.new) result }
        ensures not_done { result ≢ Err Done }
    {
        let mut tool = self;
        if tool.lines == LINES_LIMIT {
            return Err(Status::Limit(LINES_LIMIT + 1));
        }
        tool.lines += 1;
        tool.take_counted(alloc, line, sink)
    }

    /// Why the script stops at the next line, which is too long.
    pub(crate) fn long_line(&self) -> Status
        ensures stops { long_output self.now ≡ stops result }
        ensures at_line { IsStop result }
    {
        if self.lines == LINES_LIMIT {
            return Status::Limit(LINES_LIMIT + 1);
        }
        Status::BadLine(self.lines + 1)
    }
}
