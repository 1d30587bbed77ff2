//! The short histories and lines that `law_cases` says the law forbids, and what the check tells of them.
//!
//! A word is an event, by its first letter:
//! - `Iax` invokes append a with the bytes x, `Aa` acknowledges it, `Ra0` rejects it at place 0;
//! - `B01r02` begins read 1 of client 0 for the places from 0 to 2, `B01t0` one for the tail from place 0;
//! - `W010-ax` answers read 1 of client 0 from place 0, not forced, and `W0101ax` with the tail 1;
//! - `S00ab` shows client 0 the order from place 0 on;
//! - `T011` asks for trim 1 of client 0 with the floor 1, `D011` tells that it is done, and `G011` that
//!   read 1 of client 0 was trimmed below 1.
//!
//! An entry is an append and its bytes, or `-` for a no-op and `.` for one that is gone. Appends a and
//! c are of client 0, b is of client 1.

use log_law::{Verdict, check};
use plain_lists::Sequence;
use rec_id::{Ask, Bytes, Entry, Event, IdList, Line, RecordId};
use std::alloc::Global;
use std::test::Fail;

const UNIQUE: &[(&str, &str)] = &[
    ("Iax", "axax"),
    ("Iax", "axa-"),
    ("Iax T011", "a.ax"),
    ("Iax Iby", "axbyax"),
];

const INVOKED: &[(&str, &str)] = &[
    ("", "ax"),
    ("Iax", "ay"),
    ("Iax Iby", "ay"),
    ("", "a-"),
    ("T011", "a."),
    ("Iax", "a."),
    ("Iax Iby T011", "axb."),
];

const FINISHED: &[(&str, &str)] = &[
    ("Iax Iax", ""),
    ("Iax Iby Iay", ""),
    ("Iax Aa", ""),
    ("Iax Aa", "a-"),
    ("Iax Iby Aa", "by"),
    ("Iax Aa Aa", "ax"),
    ("Iax Ra0", "ax"),
    ("Iax Iby Ra1", "a-b-"),
    ("Iax Ra0", ""),
    ("Iax Ra0 Ra0", "a-"),
    ("Aa", ""),
];

const ORDERED: &[(&str, &str)] = &[
    ("Iax Aa Iby", "byax"),
    ("Iax Ra1 Iby", "bya-"),
    ("Iax Aa Iby", "b-ax"),
    ("Iax Aa Icy", "cyax"),
    ("Iax Aa Icx Iby", "byaxcx"),
];

const SLICES: &[(&str, &str)] = &[
    ("W010-", ""),
    ("B11r00 W010-", ""),
    ("B02r00 W010-", ""),
    ("W010- B01r00", ""),
    ("B01r00 B01r00 W010-", ""),
    ("B01r12 B01r00 W010-", ""),
    ("B01r00 W010- W010-", ""),
    ("Iax T111 B01r01 G011 W010-ax", "ax"),
    ("B01r01 W011-", ""),
    ("B01t0 W010-", ""),
    ("Iax B01t0 W0101", "ax"),
    ("Iax Iby B01r01 W0102axby", "axby"),
    ("Iax B01r01 W0100ax", "ax"),
    ("B01t5 W0151", ""),
    ("Iax B01r01 W010-", "ax"),
    ("Iax Iby B01r01 W010-axby", "axby"),
    ("B01r10 W011-", ""),
    ("Iax Iby B01r01 W010-by", "axby"),
    ("Iax Iby B01r12 W011-ax", "axby"),
    ("Iax Iby B01r02 W010-axax", "axby"),
    ("Iax B01r01 W010-ay", "ax"),
    ("Iax B01r01 W010-a-", "ax"),
    ("Iax B01r01 W010-ax", "a-"),
    ("Iax B01r01 W010-ax", ""),
    ("Iax T111 B01r01 W010-a.", "a."),
    ("Iax T111 B01r01 W010-a.", "ax"),
    ("Iax T111 B01r01 W010-a-", "a."),
    ("Iax T111 B01r01 W010-ay", "a."),
    ("Iax Iby T111 B01r01 W010-by", "a."),
    ("Iax Iby T111 B01r01 W010-ay", "a."),
    ("Iax Iby S00b", "axby"),
    ("Iax Iby S01a", "axby"),
    ("Iax Iby S00ba", "axby"),
    ("Iax S00a", ""),
];

const COVERED: &[(&str, &str)] = &[
    ("Iax Aa B11t0 W1100", "ax"),
    ("Iax Ra0 B11t0 W1100", "a-"),
    ("Iax Aa B01t0 W0100", "ax"),
    ("Iax Aa B11r01 W1100", "ax"),
    ("Iax Iby Ab B11t0 W1101ax", "axby"),
];

const TAILS: &[(&str, &str)] = &[
    ("Iax B01r01 W010-ax B11t0 W1100", "ax"),
    ("Iax B01t1 W0111 B11t0 W1100", "ax"),
    ("Iax S00a B11t0 W1100", "ax"),
    ("Iax Iby S01b B11t0 W1101ax", "axby"),
    ("Iax B01r01 W010-ax B02r01 W0200", "ax"),
];

const BEHIND: &[(&str, &str)] = &[
    ("B01r01 W010-by Iby", "by"),
    ("B01t1 W0111 Iby", "by"),
    ("S00b Iby", "by"),
    ("T011 D011 Iby", "by"),
    ("T111 B01r01 G011 Iby", "by"),
    ("Iax B01t2 W0122 Iby", "axb-"),
];

const TRIMS: &[(&str, &str)] = &[
    ("T111 G011", ""),
    ("T111 B11r01 G011", ""),
    ("T111 G011 B01r01", ""),
    ("T111 B01r01 B01r01 G011", ""),
    ("T111 B01t0 W0100 G011", ""),
    ("T111 B01r01 G011 G011", ""),
    ("T111 B01r12 G011", ""),
    ("B01r01 G011", ""),
    ("B01r01 G011 T111", ""),
    ("T111 B01r02 G012", ""),
    ("D011", ""),
    ("D011 T011", ""),
    ("T111 D011", ""),
    ("T021 D011", ""),
    ("T012 D011", ""),
    ("T011 T011 D011", ""),
    ("T011 D011 D011", ""),
    ("T011 T012 D011 D012", ""),
];

/// Those with the clause that is told, and its first pair.
const FIRST: &[(&str, &str, (u8, u32, u32))] = &[
    ("Iax Iby", "byaxaxby", (1, 0, 3)),
    ("Iax", "axbyc-", (2, 1, 0)),
    ("Iax Iby Iax Iby", "", (3, 2, 0)),
    ("Iax Aa Aa", "ax", (3, 2, 0)),
    ("Iax Aa Icx Iby", "byaxcx", (4, 1, 3)),
    ("B01r00 W010- W010- W010-", "", (5, 2, 0)),
    ("Iax Aa B11t0 W1101ax B12t0 W1200", "ax", (6, 1, 4)),
    ("Iax S01 S00a B11t0 W1100", "ax", (7, 2, 4)),
    ("S00 S00b Iax Iby", "byax", (8, 1, 3)),
    ("T011 D011 D011 D011", "", (9, 2, 0)),
    ("Aa Iax", "ax", (3, 0, 0)),
    ("Ra0 Iax", "a-", (3, 0, 0)),
    ("Iax Aa", "", (3, 1, 0)),
    ("Iax", "a.", (2, 0, 0)),
    ("Iax B01r01 G011", "ax", (9, 2, 0)),
];

/// A letter of a word, and `?` past its end.
fn letter(word: &[u8], i: usize) -> u8 {
    if i < word.len() { word[i] } else { b'?' }
}

fn number(word: &[u8], i: usize) -> u32 {
    u32::from(letter(word, i).saturating_sub(b'0'))
}

fn rest(word: &[u8], from: usize) -> &[u8] {
    if from < word.len() {
        &word[from..]
    } else {
        &[]
    }
}

fn append(name: u8) -> Result<RecordId, Fail> {
    let (client, number) = match name {
        b'a' => (0, 1),
        b'b' => (1, 1),
        _ => (0, 2),
    };
    match RecordId::new(client, number) {
        Ok(id) => Ok(id),
        Err(_) => Err("an identity")?,
    }
}

fn entry(alloc: Global, name: u8, body: u8) -> Result<Entry, Fail> {
    let id = append(name)?;
    match body {
        b'-' => Ok(Entry::Noop(id)),
        b'.' => Ok(Entry::Gone(id)),
        _ => Ok(Entry::Kept(id, Bytes::copy(alloc, &[body])?)),
    }
}

fn line(alloc: Global, word: &[u8]) -> Result<Line, Fail> {
    let mut made = Sequence::new(alloc);
    let mut name = None;
    for letter in word {
        name = match name {
            None => Some(*letter),
            Some(name) => {
                made.push(entry(alloc, name, *letter)?)?;
                None
            }
        };
    }
    Ok(made)
}

fn ids(alloc: Global, word: &[u8]) -> Result<IdList, Fail> {
    let mut made = Sequence::new(alloc);
    for name in word {
        made.push(append(*name)?)?;
    }
    Ok(made)
}

fn ask(word: &[u8]) -> Ask {
    let from = number(word, 4);
    match letter(word, 3) {
        b'r' => Ask::Range {
            from,
            to: number(word, 5),
        },
        _ => Ask::Tail { from },
    }
}

fn tail(word: &[u8]) -> Option<u32> {
    match letter(word, 4) {
        b'-' => None,
        _ => Some(number(word, 4)),
    }
}

fn answer(alloc: Global, word: &[u8]) -> Result<Event, Fail> {
    Ok(Event::Answer {
        client: number(word, 1),
        read: number(word, 2),
        from: number(word, 3),
        entries: line(alloc, rest(word, 5))?,
        tail: tail(word),
    })
}

fn seen(alloc: Global, word: &[u8]) -> Result<Event, Fail> {
    Ok(Event::Seen {
        client: number(word, 1),
        from: number(word, 2),
        ids: ids(alloc, rest(word, 3))?,
    })
}

fn invoke(alloc: Global, word: &[u8]) -> Result<Event, Fail> {
    let bytes = Bytes::copy(alloc, rest(word, 2))?;
    Ok(Event::Invoke(append(letter(word, 1))?, bytes))
}

fn event(alloc: Global, word: &[u8]) -> Result<Event, Fail> {
    let (client, read, floor) = (number(word, 1), number(word, 2), number(word, 3));
    match letter(word, 0) {
        b'I' => invoke(alloc, word),
        b'A' => Ok(Event::Acked(append(letter(word, 1))?)),
        b'R' => Ok(Event::Rejected(append(letter(word, 1))?, read)),
        b'B' => Ok(Event::Begin(client, read, ask(word))),
        b'W' => answer(alloc, word),
        b'S' => seen(alloc, word),
        b'T' => Ok(Event::TrimAsk {
            client,
            read,
            floor,
        }),
        b'D' => Ok(Event::TrimDone {
            client,
            read,
            floor,
        }),
        _ => Ok(Event::Trimmed {
            client,
            read,
            floor,
        }),
    }
}

fn events(alloc: Global, words: &str) -> Result<Vec<Event>, Fail> {
    let mut made = Vec::new(alloc);
    for word in words.split_whitespace() {
        made.push(event(alloc, word.as_bytes())?)?;
    }
    Ok(made)
}

/// The clause that is told to be broken first, with its pair.
fn told(alloc: Global, history: &str, entries: &str) -> Result<(u8, u32, u32), Fail> {
    let history = events(alloc, history)?;
    let line = line(alloc, entries.as_bytes())?;
    if history.len() > 8 || line.len() > 8 {
        return Err("a short history and line")?;
    }
    match check(alloc, &history, &line)? {
        Verdict::Lawful => Err("a lawful line")?,
        Verdict::Broken {
            clause,
            first,
            second,
        } => Ok((clause, first, second)),
    }
}

/// Each of the cases breaks this clause.
fn each_breaks(alloc: Global, clause: u8, cases: &[(&str, &str)]) -> Result<(), Fail> {
    for (history, entries) in cases {
        if told(alloc, history, entries)?.0 != clause {
            return Err("another clause")?;
        }
    }
    Ok(())
}

#[test]
fn each_clause_is_told(rt: HostRuntime) -> Result<(), Fail> {
    each_breaks(rt.alloc(), 1, UNIQUE)?;
    each_breaks(rt.alloc(), 2, INVOKED)?;
    each_breaks(rt.alloc(), 3, FINISHED)?;
    each_breaks(rt.alloc(), 4, ORDERED)?;
    each_breaks(rt.alloc(), 5, SLICES)?;
    each_breaks(rt.alloc(), 6, COVERED)?;
    each_breaks(rt.alloc(), 7, TAILS)?;
    each_breaks(rt.alloc(), 8, BEHIND)?;
    each_breaks(rt.alloc(), 9, TRIMS)?;
    Ok(())
}

#[test]
fn the_first_pair_is_told(rt: HostRuntime) -> Result<(), Fail> {
    for (history, entries, pair) in FIRST {
        assert_eq!(rt; told(rt.alloc(), history, entries)?, *pair);
    }
    Ok(())
}
