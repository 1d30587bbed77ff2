//! A script line, read into its command.

ghost use Rattle.std.specs.Prelude.{◌≡◌, Err, None, Some, IfOk, IfSome};
ghost use Rattle.view_config.specs.declared.edition.Edition.TheVariants.{One};
ghost use Rattle.lazy_msgs.specs.FrameLimits.{CellFits};
ghost use Rattle.trace_script.specs.declared.command.ScriptError.{ScriptError};
ghost use Rattle.trace_script.specs.Words.{cut_by};
ghost use Rattle.journal_script.specs.Script.{IsSayable, alone, bare_of, cell_of, command_of, is_short_data, kept_of, numbered, said_by, said_with, stop_of};

use crate::Command;
use crate::words::{cut_by, is_data, read_id};
use rec_id::{Body, Bytes, Cell};
use std::alloc::Global;
use trace_script::{ScriptError, read_number};
use view_config::Edition;

/// Whether these bytes may be the data of a record here.
fn is_short_data(bytes: &[u8]) -> bool
    ensures { result ≡ is_short_data bytes.now }
{
    bytes.len() <= Edition::One.record_limit() && is_data(bytes)
}

/// The record of this word with this data.
fn read_kept(alloc: Global, word: &[u8], data: &[u8]) -> Result<Cell, ScriptError>
    ensures sayable { IfOk result (CellFits One) }
    ensures said { IfOk result (λ cell. kept_of word.now data.now ≡ Some cell) }
    ensures bad { result ≡ Err ScriptError.BadLine → kept_of word.now data.now ≡ None }
{
    let Some(id) = read_id(word) else {
        return Err(ScriptError::BadLine);
    };
    if !is_short_data(data) {
        return Err(ScriptError::BadLine);
    }
    Ok(Cell {
        id,
        body: Body::Kept(Bytes::copy(alloc, data)?),
    })
}

/// `ID!` or `ID`.
fn read_bare(word: &[u8]) -> Option<Cell>
    ensures said { result ≡ bare_of word.now }
    ensures sayable { IfSome result (CellFits One) }
{
    let (word, mark) = cut_by(word, b'!');
    match mark {
        None => Some(Cell {
            id: read_id(word)?,
            body: Body::Elsewhere,
        }),
        Some(rest) if rest.is_empty() => Some(Cell {
            id: read_id(word)?,
            body: Body::Noop,
        }),
        Some(_) => None,
    }
}

/// `ID=DATA`, `ID!` or `ID`.
fn read_cell(alloc: Global, words: &[u8]) -> Result<Cell, ScriptError>
    ensures sayable { IfOk result (CellFits One) }
    ensures said { IfOk result (λ cell. cell_of words.now ≡ Some cell) }
    ensures bad { result ≡ Err ScriptError.BadLine → cell_of words.now ≡ None }
{
    let (word, data) = cut_by(words, b'=');
    match data {
        Some(data) => read_kept(alloc, word, data),
        None => read_bare(word).ok_or(ScriptError::BadLine),
    }
}

/// A number of at least 1.
fn read_stop(word: &[u8]) -> Option<Command>
    ensures said { result ≡ stop_of word.now }
    ensures sayable { IfSome result IsSayable }
{
    let call = read_number(word)?;
    if call == 0 {
        return None;
    }
    Some(Command::Stop(call))
}

/// A keyword with a number behind it.
fn read_numbered(word: &[u8], number: &[u8]) -> Option<Command>
    ensures said { result ≡ numbered word.now number.now }
    ensures sayable { IfSome result IsSayable }
{
    if word == b"stable".as_slice() {
        return Some(Command::Stable(read_number(number)?));
    }
    if word == b"stop".as_slice() {
        return read_stop(number);
    }
    None
}

/// A line of one word.
fn read_alone(word: &[u8]) -> Option<Command>
    ensures said { result ≡ alone word.now }
    ensures sayable { IfSome result IsSayable }
{
    if word == b"keep".as_slice() {
        return Some(Command::Keep);
    }
    if word == b"show".as_slice() {
        return Some(Command::Show);
    }
    if word == b"open".as_slice() {
        return Some(Command::Open);
    }
    None
}

/// A keyword and what stands behind it.
fn read_by(alloc: Global, word: &[u8], words: &[u8]) -> Result<Command, ScriptError>
    ensures sayable { IfOk result IsSayable }
    ensures said { IfOk result (λ command. said_by word.now words.now ≡ Some command) }
    ensures bad { result ≡ Err ScriptError.BadLine → said_by word.now words.now ≡ None }
{
    if word == b"add".as_slice() {
        return match read_cell(alloc, words) {
            Ok(cell) => Ok(Command::Add(cell)),
            Err(error) => Err(error),
        };
    }
    read_numbered(word, words).ok_or(ScriptError::BadLine)
}

/// What a line says that isn't idle.
fn read_said(alloc: Global, line: &[u8]) -> Result<Command, ScriptError>
    ensures sayable { IfOk result IsSayable }
    ensures said { IfOk result (λ command. said_with (cut_by 32 line.now).0 (cut_by 32 line.now).1 ≡ Some command) }
    ensures bad { result ≡ Err ScriptError.BadLine → said_with (cut_by 32 line.now).0 (cut_by 32 line.now).1 ≡ None }
{
    let (word, words) = cut_by(line, b' ');
    match words {
        None => read_alone(word).ok_or(ScriptError::BadLine),
        Some(words) => read_by(alloc, word, words),
    }
}

/// The command that a script line says, whose newline isn't among `line`. It is `BadLine` exactly where
/// the line is outside the grammar.
pub fn read_line(alloc: Global, line: &[u8]) -> Result<Command, ScriptError>
    ensures sayable { IfOk result IsSayable }
    ensures said { IfOk result (λ command. command_of line.now ≡ Some command) }
    ensures bad { result ≡ Err ScriptError.BadLine → command_of line.now ≡ None }
{
    if line.is_empty() || line[0] == b'#' {
        return Ok(Command::Nothing);
    }
    read_said(alloc, line)
}
