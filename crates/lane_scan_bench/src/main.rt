//! Scans over 4,096 words, as often as it is told, for a look at the time that they take. It prints
//! a checksum of the answers and no times. Its words are a mode (`find`, `full` or `count`) and a
//! number of rounds. `bench/run` compares it with the same work in Rust.
#![tactic(auto)]

ghost use Rattle.std.specs.Prelude.{◌≡◌, length, IfOk, vec_len, ◌<◌};

use lane_scan::{count_bits, find_word, first_not_full};
use std::alloc::{AllocError, Global};
use std::io;

const WORDS: usize = 4096;

/// So many words, each even and none full.
fn some_words(alloc: Global) -> Result<Vec<u64>, AllocError>
    ensures { IfOk result (λ words. vec_len words ≡ WORDS) }
{
    let mut words = Vec::with_capacity(alloc, WORDS)?;
    for i in 0..WORDS {
        words.push((i as u64).wrapping_mul(0x9e37_79b9_7f4a_7c16))?;
    }
    Ok(words)
}

fn place_or_all(place: Option<usize>) -> u64 {
    match place {
        Some(i) => i as u64,
        None => WORDS as u64,
    }
}

/// The place of one of the last 64 words, which changes with the round.
fn late_place(round: u64) -> usize
    ensures { result < WORDS }
{
    WORDS - 1 - (round % 64) as usize
}

/// Looks in each round for a word that isn't there and for one near the end.
fn find(words: &[u64], rounds: u64) -> u64
    requires { length words.now ≡ WORDS }
{
    let mut sum = 0u64;
    for round in 0..rounds {
        sum = sum.wrapping_add(place_or_all(find_word(words, round | 1)));
        sum = sum.wrapping_add(place_or_all(find_word(words, words[late_place(round)])));
    }
    sum
}

/// Looks in each round for the one word that isn't full, near the end.
fn full(words: &mut [u64], rounds: u64) -> u64
    requires { length words.old ≡ WORDS }
{
    words.fill(u64::MAX);
    let mut sum = 0u64;
    for round in 0..rounds {
        let place = late_place(round);
        words[place] = round;
        sum = sum.wrapping_add(place_or_all(first_not_full(words)));
        words[place] = u64::MAX;
    }
    sum
}

/// Counts in each round the bits of words of which one changed.
fn count(words: &mut [u64], rounds: u64) -> u64
    requires { length words.old ≡ WORDS }
{
    let mut sum = 0u64;
    for round in 0..rounds {
        words[late_place(round)] = round;
        sum = sum.wrapping_add(count_bits(words));
    }
    sum
}

fn checksum(words: &mut [u64], mode: &str, rounds: u64) -> u64
    requires { length words.old ≡ WORDS }
{
    match mode {
        "find" => find(words, rounds),
        "full" => full(words, rounds),
        "count" => count(words, rounds),
        _ => 0,
    }
}

fn main(rt: HostRuntime) -> io::Result<()> {
    let mut arguments = std::env::args(&rt)?;
    let _program = arguments.next();
    if let (Some(mode), Some(rounds)) = (arguments.next(), arguments.next()) {
        let mut words = some_words(rt.alloc())?;
        let rounds = rounds.as_str().parse::<u64>().unwrap_or(0);
        let sum = checksum(&mut words, mode.as_str(), rounds);
        println!(rt; "{sum}")?;
    }
    Ok(())
}
