//! A script line, read into its command.
//!
//! A client, or another node, that no log has is still named by a command.

ghost use Rattle.std.specs.Prelude.{◌≡◌, ◌≢◌, Err, None, Some, IfOk};
ghost use Rattle.std.specs.List.{list_all};
ghost use Rattle.trace_script.specs.declared.command.ScriptError.{ScriptError};
ghost use Rattle.trace_script.specs.declared.keyword.Keyword.TheVariants.{Append as AppendWord};
ghost use Rattle.trace_script.specs.Script.{alone, append_of, append_with, command_of, flow_between, flow_of, is_data, is_visible, peek_of, read_of, said_by, said_with, tail_of, trim_of};
ghost use Rattle.trace_script.specs.Spelling.{IsSayable};
ghost use Rattle.trace_script.specs.Words.{client_of, cut_by, two_numbers};

use crate::keyword::Keyword;
use crate::numbers::read_number;
use crate::words::{
    cut, read_client, read_client_and_number, read_client_and_three, read_client_and_two,
    read_node, read_replica, read_two,
};
use crate::{Command, ScriptError};
use rec_id::Bytes;
use std::alloc::{AllocError, Global};

/// The most messages that one line delivers.
const FLOW_LIMIT: u32 = 128;

fn is_visible(byte: u8) -> bool
    ensures { result ≡ is_visible byte }
{
    b'!' <= byte && byte <= b'~'
}

fn all_visible(bytes: &[u8]) -> bool
    ensures { result ≡ list_all is_visible bytes.now }
{
    bytes.iter().all(|byte| is_visible(*byte))
}

/// Whether these bytes may stand in a script as the data of a record: at least one, each a visible
/// one of ASCII.
fn is_data(bytes: &[u8]) -> bool
    ensures { result ≡ is_data bytes.now }
{
    bytes.len() > 0 && all_visible(bytes)
}

/// `CLIENT` or `CLIENT DATA`.
fn read_append(alloc: Global, words: &[u8]) -> Result<Command, ScriptError>
    ensures said { IfOk result (λ command. append_of words.now ≡ Some command) }
    ensures bad { result ≡ Err ScriptError.BadLine → append_of words.now ≡ None }
{
    let (client, data) = cut(words);
    let Some(client) = read_client(client) else {
        return Err(ScriptError::BadLine);
    };
    match data {
        None => Ok(Command::Append(client, Bytes::new(alloc))),
        Some(data) if is_data(data) => Ok(Command::Append(client, Bytes::copy(alloc, data)?)),
        Some(_) => Err(ScriptError::BadLine),
    }
}

/// `CLIENT NUM NUM`.
fn read_read(words: &[u8]) -> Option<Command>
    ensures { result ≡ read_of words.now }
{
    let (client, (from, to)) = read_client_and_two(words)?;
    Some(Command::Read(client, from, to))
}

/// `CLIENT NUM`.
fn read_tail(words: &[u8]) -> Option<Command>
    ensures { result ≡ tail_of words.now }
{
    let (client, from) = read_client_and_number(words)?;
    Some(Command::Tail(client, from))
}

/// `CLIENT NUM`.
fn read_trim(words: &[u8]) -> Option<Command>
    ensures { result ≡ trim_of words.now }
{
    let (client, floor) = read_client_and_number(words)?;
    Some(Command::Trim(client, floor))
}

/// `CLIENT NUM NUM NUM`.
fn read_peek(words: &[u8]) -> Option<Command>
    ensures { result ≡ peek_of words.now }
{
    let (client, (claim, (from, to))) = read_client_and_three(words)?;
    Some(Command::Peek(client, claim, from, to))
}

/// `NUM NUM`, the second at least the first and less than 128 above it.
fn read_flow(words: &[u8]) -> Option<Command>
    ensures { result ≡ flow_of words.now }
{
    let (first, last) = read_two(words)?;
    if first > last || last - first >= FLOW_LIMIT {
        return None;
    }
    Some(Command::Flow(first, last))
}

/// What stands behind a keyword, where that takes no memory.
fn read_plain(keyword: Keyword, words: &[u8]) -> Option<Command>
    requires { keyword ≢ AppendWord }
    ensures { result ≡ said_by keyword words.now }
{
    match keyword {
        Keyword::Append => None,
        Keyword::Read => read_read(words),
        Keyword::Tail => read_tail(words),
        Keyword::Trim => read_trim(words),
        Keyword::Peek => read_peek(words),
        Keyword::Deliver => Some(Command::Deliver(read_number(words)?)),
        Keyword::Flow => read_flow(words),
        Keyword::Tick => Some(Command::Tick(read_node(words)?)),
        Keyword::Grace => Some(Command::Grace(read_node(words)?)),
        Keyword::Crash => Some(Command::Crash(read_replica(words)?)),
        Keyword::Suspect => Some(Command::Suspect(read_node(words)?)),
        Keyword::Show => Some(Command::Show(read_number(words)?)),
    }
}

/// What a keyword and the words behind it say.
fn read_by(alloc: Global, keyword: Keyword, words: &[u8]) -> Result<Command, ScriptError>
    ensures said { IfOk result (λ command. said_by keyword words.now ≡ Some command) }
    ensures bad { result ≡ Err ScriptError.BadLine → said_by keyword words.now ≡ None }
{
    if keyword == Keyword::Append {
        return read_append(alloc, words);
    }
    read_plain(keyword, words).ok_or(ScriptError::BadLine)
}

/// A line of one word.
fn read_alone(word: &[u8]) -> Option<Command>
    ensures { result ≡ alone word.now }
{
    if word == b"lines".as_slice() {
        return Some(Command::Lines);
    }
    if word == b"law".as_slice() {
        return Some(Command::Law);
    }
    None
}

/// What a line says that isn't idle.
fn read_said(alloc: Global, line: &[u8]) -> Result<Command, ScriptError>
    ensures said { IfOk result (λ command. said_with (cut_by 32 line.now).0 (cut_by 32 line.now).1 ≡ Some command) }
    ensures bad { result ≡ Err ScriptError.BadLine → said_with (cut_by 32 line.now).0 (cut_by 32 line.now).1 ≡ None }
{
    let (word, words) = cut(line);
    let Some(words) = words else {
        return read_alone(word).ok_or(ScriptError::BadLine);
    };
    let Some(keyword) = Keyword::of(word) else {
        return Err(ScriptError::BadLine);
    };
    read_by(alloc, keyword, words)
}

/// The command that a script line says, whose newline isn't among `line`. It is `BadLine` exactly where
/// the line is outside the grammar.
pub fn read_line(alloc: Global, line: &[u8]) -> Result<Command, ScriptError>
    ensures sayable { IfOk result IsSayable }
    ensures said { IfOk result (λ command. command_of line.now ≡ Some command) }
    ensures bad { result ≡ Err ScriptError.BadLine → command_of line.now ≡ None }
{
    if line.is_empty() || line[0] == b'#' {
        return Ok(Command::Nothing);
    }
    read_said(alloc, line)
}
