//! The words of a script line: numbers, names of nodes, and words behind each other.

ghost use Rattle.std.specs.Prelude.{◌≡◌, ◌==◌, position, option_copied};
ghost use Rattle.trace_script.specs.Words.{client_of, cut_by, node_of, number_of, replica_of, rest_after, seq_of, shard_of, three_numbers, two_numbers, parted_by, word_with};

use crate::NodeWord;
use crate::numbers::read_number;

/// What of `text` comes after `front`, `None` where it begins otherwise.
pub(crate) fn rest_after<'a>(text: &'a [u8], front: &[u8]) -> Option<&'a [u8]>
    ensures { option_copied result ≡ rest_after front.now text.now }
{
    text.strip_prefix(front)
}

/// Where the first such byte is.
fn place_in(text: &[u8], mark: u8) -> Option<usize>
    ensures { result ≡ position (λ byte. byte == mark) text.now }
{
    text.iter().position(|byte| *byte == mark)
}

/// The front of `text` up to its first such byte, and what comes behind that, if there is one.
pub(crate) fn cut_by(text: &[u8], mark: u8) -> (&[u8], Option<&[u8]>)
    ensures first { result.0.now ≡ (cut_by mark text.now).0 }
    ensures rest { option_copied result.1 ≡ (cut_by mark text.now).1 }
{
    match place_in(text, mark) {
        Some(i) => (&text[..i], Some(&text[i + 1..])),
        None => (text, None),
    }
}

/// The front of `text` up to its first space, and what comes behind that, if there is a space.
pub(crate) fn cut(text: &[u8]) -> (&[u8], Option<&[u8]>)
    ensures first { result.0.now ≡ (cut_by 32 text.now).0 }
    ensures rest { option_copied result.1 ≡ (cut_by 32 text.now).1 }
{
    cut_by(text, b' ')
}

/// Two numbers, parted by such a byte.
fn numbers_parted_by(text: &[u8], mark: u8) -> Option<(u32, u32)>
    ensures { result ≡ parted_by mark number_of number_of text.now }
{
    let (first, next) = cut_by(text, mark);
    let first = read_number(first)?;
    let next = read_number(next?)?;
    Some((first, next))
}

/// `NUM NUM`.
pub(crate) fn read_two(text: &[u8]) -> Option<(u32, u32)>
    ensures { result ≡ two_numbers text.now }
{
    numbers_parted_by(text, b' ')
}

/// `NUM NUM NUM`.
pub(crate) fn read_three(text: &[u8]) -> Option<(u32, (u32, u32))>
    ensures { result ≡ three_numbers text.now }
{
    let (first, next) = cut(text);
    let first = read_number(first)?;
    let next = read_two(next?)?;
    Some((first, next))
}

/// `c` and a number.
pub(crate) fn read_client(word: &[u8]) -> Option<NodeWord>
    ensures { result ≡ client_of word.now }
{
    let number = read_number(rest_after(word, b"c")?)?;
    Some(NodeWord::Client(number))
}

/// `s` and a number.
fn read_seq(word: &[u8]) -> Option<NodeWord>
    ensures { result ≡ seq_of word.now }
{
    let number = read_number(rest_after(word, b"s")?)?;
    Some(NodeWord::Seq(number))
}

/// `d`, a number, a dot and a number.
fn read_shard(word: &[u8]) -> Option<NodeWord>
    ensures { result ≡ shard_of word.now }
{
    let (shard, copy) = numbers_parted_by(rest_after(word, b"d")?, b'.')?;
    Some(NodeWord::Shard(shard, copy))
}

/// A node other than the controller.
pub(crate) fn read_replica(word: &[u8]) -> Option<NodeWord>
    ensures { result ≡ replica_of word.now }
{
    if let Some(client) = read_client(word) {
        return Some(client);
    }
    if let Some(seq) = read_seq(word) {
        return Some(seq);
    }
    read_shard(word)
}

/// Any node.
pub(crate) fn read_node(word: &[u8]) -> Option<NodeWord>
    ensures { result ≡ node_of word.now }
{
    if word == b"k".as_slice() {
        return Some(NodeWord::Controller);
    }
    read_replica(word)
}

/// `CLIENT NUM`.
pub(crate) fn read_client_and_number(words: &[u8]) -> Option<(NodeWord, u32)>
    ensures { result ≡ word_with client_of number_of words.now }
{
    let (client, number) = cut(words);
    let client = read_client(client)?;
    let number = read_number(number?)?;
    Some((client, number))
}

/// `CLIENT NUM NUM`.
pub(crate) fn read_client_and_two(words: &[u8]) -> Option<(NodeWord, (u32, u32))>
    ensures { result ≡ word_with client_of two_numbers words.now }
{
    let (client, numbers) = cut(words);
    let client = read_client(client)?;
    let numbers = read_two(numbers?)?;
    Some((client, numbers))
}

/// `CLIENT NUM NUM NUM`.
pub(crate) fn read_client_and_three(words: &[u8]) -> Option<(NodeWord, (u32, (u32, u32)))>
    ensures { result ≡ word_with client_of three_numbers words.now }
{
    let (client, numbers) = cut(words);
    let client = read_client(client)?;
    let numbers = read_three(numbers?)?;
    Some((client, numbers))
}
