//! The texts that the tool prints.

ghost use Rattle.std.specs.Prelude.{◌≡◌, IfOk, string_bytes};
ghost use Rattle.journal_script.specs.Texts.{bytes_text, end_text, kept_text, opened_text, reason, refused_text};

use crate::entries::put_entries;
use rec_id::{PlacedList, Text};
use std::alloc::{AllocError, Global};

/// Why nothing was done.
#[derive(Clone, Copy, Debug, PartialEq, Eq)]
pub enum Refusal {
    /// The place isn't of the shard that the line gives it to.
    Place,
    /// No places up to there can become final.
    Stable,
    /// A call of the disk failed.
    DiskFault,
    /// An earlier keep met a fault of the disk.
    Closed,
    /// The file would have more bytes than it may.
    Full,
}

fn text_of(text: String) -> Text
    ensures { result ≡ string_bytes text }
{
    Text::from_vec(text.into_bytes())
}

/// Up to where all is kept.
pub fn kept_text(alloc: Global, kept: u32) -> Result<Text, AllocError>
    ensures { IfOk result (λ text. text ≡ kept_text kept) }
{
    Ok(text_of(format!(in alloc; "kept to {kept}")?))
}

/// What an opened file has, and up to where.
pub fn opened_text(alloc: Global, kept: u32, entries: &PlacedList) -> Result<Text, AllocError>
    ensures { IfOk result (λ text. text ≡ opened_text kept entries.now) }
{
    let mut out = format!(in alloc; "opened: kept to {kept}: ")?.into_bytes();
    put_entries(&mut out, entries.as_slice())?;
    Ok(Text::from_vec(out))
}

fn reason(refusal: Refusal) -> &'static str
    ensures { result.now ≡ reason refusal }
{
    match refusal {
        Refusal::Place => "place",
        Refusal::Stable => "stable",
        Refusal::DiskFault => "disk fault",
        Refusal::Closed => "closed",
        Refusal::Full => "full",
    }
}

/// A refusal.
pub fn refused_text(alloc: Global, refusal: Refusal) -> Result<Text, AllocError>
    ensures { IfOk result (λ text. text ≡ refused_text refusal) }
{
    let reason = reason(refusal);
    Ok(text_of(format!(in alloc; "refused: {reason}")?))
}

/// Bytes in hexadecimal.
pub fn bytes_text(alloc: Global, bytes: &[u8]) -> Result<Text, AllocError>
    ensures { IfOk result (λ text. text ≡ bytes_text bytes.now) }
{
    Ok(text_of(hex::encode(alloc, bytes)?))
}

/// The last text of a script that was read to its end.
pub fn end_text(alloc: Global, kept: u32) -> Result<Text, AllocError>
    ensures { IfOk result (λ text. text ≡ end_text kept) }
{
    Ok(text_of(format!(in alloc; "end: {kept} kept")?))
}
