//! How the entries of places are printed.

ghost use Rattle.std.specs.Prelude.{◌≡◌, ◌++◌, OnOk};
ghost use Rattle.trace_script.specs.EntryTexts.{entry_text, id_text, parted, spaced};
ghost use Rattle.journal_script.specs.Texts.{placed_text};

use rec_id::{Entry, RecordId};
use std::alloc::AllocError;

fn put(out: &mut Vec<u8>, text: &str) -> Result<(), AllocError>
    ensures { OnOk result (out.new.items ≡ out.old.items ++ text.now) }
{
    out.extend_from_slice(text.as_bytes())
}

fn put_id(out: &mut Vec<u8>, id: RecordId) -> Result<(), AllocError>
    ensures { OnOk result (out.new.items ≡ out.old.items ++ id_text id) }
{
    let alloc = *out.allocator();
    let client = id.client();
    let number = id.number();
    let text = format!(in alloc; "c{client}#{number}")?;
    put(out, text.as_str())
}

fn put_entry(out: &mut Vec<u8>, entry: &Entry) -> Result<(), AllocError>
    ensures { OnOk result (out.new.items ≡ out.old.items ++ entry_text entry.now) }
{
    match entry {
        Entry::Kept(id, bytes) => {
            put_id(out, *id)?;
            put(out, "=")?;
            out.extend_from_slice(bytes.as_slice())
        }
        Entry::Noop(id) => {
            put_id(out, *id)?;
            put(out, "!")
        }
        Entry::Gone(id) => {
            put_id(out, *id)?;
            put(out, "~")
        }
    }
}

/// An entry, without its place.
fn put_placed(out: &mut Vec<u8>, placed: &(u32, Entry)) -> Result<(), AllocError>
    ensures { OnOk result (out.new.items ≡ out.old.items ++ placed_text placed.now) }
{
    put_entry(out, &placed.1)
}

/// The entries, each behind a space.
fn put_more_entries(out: &mut Vec<u8>, entries: &[(u32, Entry)]) -> Result<(), AllocError>
    ensures { OnOk result (out.new.items ≡ out.old.items ++ spaced placed_text entries.now) }
{
    for placed in entries {
        put(out, " ")?;
        put_placed(out, placed)?;
    }
    Ok(())
}

/// The entries, parted by spaces, or `-`.
pub(crate) fn put_entries(out: &mut Vec<u8>, entries: &[(u32, Entry)]) -> Result<(), AllocError>
    ensures { OnOk result (out.new.items ≡ out.old.items ++ parted placed_text entries.now) }
{
    match entries.split_first() {
        None => put(out, "-"),
        Some((first, rest)) => {
            put_placed(out, first)?;
            put_more_entries(out, rest)
        }
    }
}
