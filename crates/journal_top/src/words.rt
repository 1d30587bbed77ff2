//! The words that the program is called with.

ghost use Rattle.std.specs.Prelude.{◌≡◌, ◌≢◌, ◌↔◌, ◌<◌, ◌^◌, ℕ, length, slice_get, Some, IfSome, IfNone, IsTrue, decimal};
ghost use Rattle.journal_top.specs.declared.words.Shard.{Shard as ShardValue};
ghost use Rattle.journal_top.specs.Words.{AskFor, IsAsked, IsNoMode, IsShard, NameShard, mode_word};

use rec_id::TextList;
use trace_script::read_number;
use view_config::{MAX_SHARDS, Mode};

/// A shard, of so many: where its data goes, by whole records or by their parts, and its number.
#[derive(Clone, Copy, Debug, PartialEq, Eq)]
pub struct Shard {
    pub mode: Mode,
    pub number: u32,
    pub shards: u32,
}

/// The number that word `i` is the decimal text of.
fn number_at(words: &TextList, i: usize) -> Option<u32>
    requires { i < length words.now }
    ensures some { IfSome result (λ number. slice_get words.now i ≡ Some (decimal number)) }
    ensures none { IfNone result ((number : ℕ) → number < 2 ^ 32 → slice_get words.now i ≢ Some (decimal number)) }
{
    read_number(words.at(i).as_slice())
}

/// Whether word `i` is this one.
fn is_word(words: &TextList, i: usize, word: &[u8]) -> bool
    requires { i < length words.now }
    ensures { IsTrue result ↔ (slice_get words.now i ≡ Some word.now) }
{
    words.at(i).as_slice() == word
}

/// The mode that a word names.
fn mode_of(word: &[u8]) -> Option<Mode>
    ensures some { IfSome result (λ mode. word.now ≡ mode_word mode) }
    ensures none { IfNone result (IsNoMode word.now) }
{
    if word == b"m".as_slice() {
        return Some(Mode::M);
    }
    if word == b"st".as_slice() {
        return Some(Mode::St);
    }
    None
}

/// The shard with these numbers, if they are within their limits.
fn shard_in(mode: Mode, number: u32, shards: u32) -> Option<Shard>
    ensures some { IfSome result (λ shard. (shard ≡ record { mode = mode; number = number; shards = shards }) × IsShard shard) }
    ensures none { IfNone result (¬ IsShard (record { mode = mode; number = number; shards = shards })) }
{
    if number >= shards {
        return None;
    }
    if shards > MAX_SHARDS {
        return None;
    }
    Some(Shard {
        mode,
        number,
        shards,
    })
}

/// The shard that the words `MODE SHARD SHARDS` name, which are those behind the first.
fn shard_named(words: &TextList) -> Option<Shard>
    requires { length words.now ≡ 4 }
    ensures some { IfSome result (NameShard words.now) }
    ensures none { IfNone result ((shard : ShardValue) → ¬ NameShard words.now shard) }
{
    let mode = mode_of(words.at(1).as_slice())?;
    shard_in(mode, number_at(words, 2)?, number_at(words, 3)?)
}

/// The shard whose journal the words ask for: they are `journal` and those of a shard. `None` for any others,
/// and for numbers outside their limits.
pub(crate) fn read_words(words: &TextList) -> Option<Shard>
    ensures some { IfSome result (AskFor words.now) }
    ensures none { IfNone result (¬ IsAsked words.now) }
{
    if words.len() != 4 {
        return None;
    }
    if !is_word(words, 0, b"journal") {
        return None;
    }
    shard_named(words)
}
