//! How identities and entries are printed, and lists of them.

ghost use Rattle.std.specs.Prelude.{◌≡◌, ◌++◌, OnOk};
ghost use Rattle.trace_script.specs.EntryTexts.{id_text, entry_text, spaced, parted};

use rec_id::{Entry, RecordId};
use std::alloc::AllocError;

fn put(out: &mut Vec<u8>, text: &str) -> Result<(), AllocError>
    ensures { OnOk result (out.new.items ≡ out.old.items ++ text.now) }
{
    out.extend_from_slice(text.as_bytes())
}

fn put_id(out: &mut Vec<u8>, id: RecordId) -> Result<(), AllocError>
    ensures { OnOk result (out.new.items ≡ out.old.items ++ id_text id) }
{
    let alloc = *out.allocator();
    let client = id.client();
    let number = id.number();
    let text = format!(in alloc; "c{client}#{number}")?;
    put(out, text.as_str())
}

fn put_entry(out: &mut Vec<u8>, entry: &Entry) -> Result<(), AllocError>
    ensures { OnOk result (out.new.items ≡ out.old.items ++ entry_text entry.now) }
{
    match entry {
        Entry::Kept(id, bytes) => {
            put_id(out, *id)?;
            put(out, "=")?;
            out.extend_from_slice(bytes.as_slice())
        }
        Entry::Noop(id) => {
            put_id(out, *id)?;
            put(out, "!")
        }
        Entry::Gone(id) => {
            put_id(out, *id)?;
            put(out, "~")
        }
    }
}

/// The entries, each behind a space.
fn put_more_entries(out: &mut Vec<u8>, entries: &[Entry]) -> Result<(), AllocError>
    ensures { OnOk result (out.new.items ≡ out.old.items ++ spaced entry_text entries.now) }
{
    for entry in entries {
        put(out, " ")?;
        put_entry(out, entry)?;
    }
    Ok(())
}

pub fn put_entries(out: &mut Vec<u8>, entries: &[Entry]) -> Result<(), AllocError>
    ensures { OnOk result (out.new.items ≡ out.old.items ++ parted entry_text entries.now) }
{
    match entries.split_first() {
        None => put(out, "-"),
        Some((first, rest)) => {
            put_entry(out, first)?;
            put_more_entries(out, rest)
        }
    }
}

/// The identities, each behind a space.
fn put_more_ids(out: &mut Vec<u8>, ids: &[RecordId]) -> Result<(), AllocError>
    ensures { OnOk result (out.new.items ≡ out.old.items ++ spaced id_text ids.now) }
{
    for id in ids {
        put(out, " ")?;
        put_id(out, *id)?;
    }
    Ok(())
}

pub fn put_ids(out: &mut Vec<u8>, ids: &[RecordId]) -> Result<(), AllocError>
    ensures { OnOk result (out.new.items ≡ out.old.items ++ parted id_text ids.now) }
{
    match ids.split_first() {
        None => put(out, "-"),
        Some((first, rest)) => {
            put_id(out, *first)?;
            put_more_ids(out, rest)
        }
    }
}
