//! Where a word of a kind stands first.

ghost use Rattle.std.specs.Prelude.{◌≡◌, ◌+◌, ◌-◌, ◌^◌, ◌≤◌, ◌==◌, length, not, position};
ghost use Rattle.std.specs.List.{position_or_len};
ghost use Rattle.std.specs.Simd.Lanes.{chunk};

use std::simd::prelude::*;

/// How many words are looked at in one step.
const LANES: usize = 8;

/// How many of the words from `at` on come before the first that is `word`; `LANES` where none is.
#[inline(always)]
fn others_before(words: &[u64], at: usize, word: u64) -> usize
    requires { at + LANES ≤ length words.now }
    ensures { result ≡ position_or_len (λ other. other == word) (chunk at LANES words.now) }
{
    let lanes = u64x8::from_slice(&words[at..]);
    let hits = lanes.simd_eq(u64x8::splat(word)).to_bitmask();
    if hits == 0 {
        LANES
    } else {
        hits.trailing_zeros() as usize
    }
}

/// How many of the words from `at` on come before the first that isn't `word`; `LANES` where each
/// is.
#[inline(always)]
fn same_before(words: &[u64], at: usize, word: u64) -> usize
    requires { at + LANES ≤ length words.now }
    ensures { result ≡ position_or_len (λ other. not (other == word)) (chunk at LANES words.now) }
{
    let lanes = u64x8::from_slice(&words[at..]);
    let hits = lanes.simd_ne(u64x8::splat(word)).to_bitmask();
    if hits == 0 {
        LANES
    } else {
        hits.trailing_zeros() as usize
    }
}

/// The first index of `word`.
pub fn find_word(words: &[u64], word: u64) -> Option<usize>
    ensures { result ≡ position (λ other. other == word) words.now }
{
    let mut at = 0;
    'lanes: while words.len() - at >= LANES {
        let before = others_before(words, at, word);
        if before < LANES {
            return Some(at + before);
        }
        at += LANES;
    }
    'rest: while at < words.len() {
        if words[at] == word {
            return Some(at);
        }
        at += 1;
    }
    None
}

/// The first index of a word that has a bit 0.
pub fn first_not_full(words: &[u64]) -> Option<usize>
    ensures { result ≡ position (λ word. not (word == 2 ^ 64 - 1)) words.now }
{
    let mut at = 0;
    'lanes: while words.len() - at >= LANES {
        let before = same_before(words, at, u64::MAX);
        if before < LANES {
            return Some(at + before);
        }
        at += LANES;
    }
    'rest: while at < words.len() {
        if words[at] != u64::MAX {
            return Some(at);
        }
        at += 1;
    }
    None
}
