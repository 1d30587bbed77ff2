//! The words of a script line: identities and data, and what stands behind a byte.

ghost use Rattle.std.specs.Prelude.{◌≡◌, ◌==◌, position, option_copied, IfSome};
ghost use Rattle.rec_id.specs.Identity.{IsIdentity};
ghost use Rattle.std.specs.List.{list_all};
ghost use Rattle.trace_script.specs.Script.{is_data, is_visible};
ghost use Rattle.trace_script.specs.Words.{cut_by, rest_after};
ghost use Rattle.journal_script.specs.Script.{id_in, id_of};

use rec_id::RecordId;
use trace_script::read_number;

/// What of `text` comes after `front`, `None` where it begins otherwise.
fn rest_after<'a>(text: &'a [u8], front: &[u8]) -> Option<&'a [u8]>
    ensures { option_copied result ≡ rest_after front.now text.now }
{
    text.strip_prefix(front)
}

/// Where the first such byte is.
fn place_in(text: &[u8], mark: u8) -> Option<usize>
    ensures { result ≡ position (λ byte. byte == mark) text.now }
{
    text.iter().position(|byte| *byte == mark)
}

/// The front of `text` up to its first such byte, and what comes behind that, if there is one.
pub(crate) fn cut_by(text: &[u8], mark: u8) -> (&[u8], Option<&[u8]>)
    ensures first { result.0.now ≡ (cut_by mark text.now).0 }
    ensures rest { option_copied result.1 ≡ (cut_by mark text.now).1 }
{
    match place_in(text, mark) {
        Some(i) => (&text[..i], Some(&text[i + 1..])),
        None => (text, None),
    }
}

fn is_visible(byte: u8) -> bool
    ensures { result ≡ is_visible byte }
{
    b'!' <= byte && byte <= b'~'
}

fn all_visible(bytes: &[u8]) -> bool
    ensures { result ≡ list_all is_visible bytes.now }
{
    bytes.iter().all(|byte| is_visible(*byte))
}

/// Whether these bytes may stand in a script as the data of a record: at least one, each a visible
/// one of ASCII.
pub(crate) fn is_data(bytes: &[u8]) -> bool
    ensures { result ≡ is_data bytes.now }
{
    bytes.len() > 0 && all_visible(bytes)
}

/// The identity of these numbers, if they are in its limits.
fn id_in(client: u32, number: u32) -> Option<RecordId>
    ensures id { result ≡ id_in (client, number) }
    ensures within { IfSome result IsIdentity }
{
    RecordId::new(client, number).ok()
}

/// `c`, a number, `#` and a number.
pub(crate) fn read_id(word: &[u8]) -> Option<RecordId>
    ensures id { result ≡ id_of word.now }
    ensures within { IfSome result IsIdentity }
{
    let (client, number) = cut_by(rest_after(word, b"c")?, b'#');
    let client = read_number(client)?;
    let number = read_number(number?)?;
    id_in(client, number)
}
