//! The journal program: the stable entries of a shard on a disk in memory, driven by a script that says
//! what is added, kept and lost.
//!
//! Here the words and the standard streams are handed over, and nothing else. The program is
//! `journal_top`.
#![tactic(auto)]

use io_edges::{StdSink, StdSource};
use journal_top::journal_top;
use plain_lists::Sequence;
use rec_id::{Text, TextList};
use std::process::ExitCode;
use std::{env, io};

/// The words after the program's name. A word that isn't UTF-8 belongs to no journal, and neither do no words,
/// which stand for it.
fn words_of(rt: &HostRuntime) -> io::Result<TextList> {
    let mut words = Sequence::new(rt.alloc());
    let given = match env::args(rt) {
        Ok(given) => given,
        Err(error) if error.kind() == io::ErrorKind::InvalidData => return Ok(words),
        Err(error) => return Err(error),
    };
    for word in given.skip(1) {
        words.push(Text::from_vec(word.into_bytes()))?;
    }
    Ok(words)
}

/// The whole program; its status is what the script ended with.
fn program(rt: &HostRuntime) -> ExitCode {
    let Ok(words) = words_of(rt) else {
        return ExitCode::from(6);
    };
    let mut source = StdSource::new(rt.stdin());
    let mut sink = StdSink::new(rt.stdout());
    let status = journal_top(rt.alloc(), &words, &mut source, &mut sink);
    ExitCode::from(status.code())
}

fn main(rt: HostRuntime) -> ExitCode {
    program(&rt)
}
