//! The trace program: a whole log in one process, driven by a script that says which event happens
//! next.
//!
//! Here the words and the standard streams are handed over, and nothing else. `top.rt` is the
//! program.
#![tactic(auto)]

mod action;
mod apply;
mod load;
mod output;
mod show;
mod top;
mod trace;
mod words;

use io_edges::{StdSink, StdSource};
use lazy_core::Trail;
use plain_lists::Sequence;
use rec_id::{Text, TextList};
use std::process::ExitCode;
use std::{env, io};

/// The words after the program's name. A word that isn't UTF-8 belongs to no trace, and neither do no words,
/// which stand for it.
fn words_of(rt: &HostRuntime) -> io::Result<TextList> {
    let mut words = Sequence::new(rt.alloc());
    let given = match env::args(rt) {
        Ok(given) => given,
        Err(error) if error.kind() == io::ErrorKind::InvalidData => return Ok(words),
        Err(error) => return Err(error),
    };
    for word in given.skip(1) {
        words.push(Text::from_vec(word.into_bytes()))?;
    }
    Ok(words)
}

/// The whole program; its status is what the trace ended with.
fn program(rt: &HostRuntime) -> ExitCode {
    let Ok(words) = words_of(rt) else {
        return ExitCode::from(6);
    };
    let mut source = StdSource::new(rt.stdin());
    let mut sink = StdSink::new(rt.stdout());
    let mut trail = Trail::new(rt.alloc());
    let status = top::trace_top(rt.alloc(), &words, &mut source, &mut sink, &mut trail);
    ExitCode::from(status.code())
}

fn main(rt: HostRuntime) -> ExitCode {
    program(&rt)
}

#[cfg(test)]
mod tests {
    use super::*;
    use std::test::Fail;

    /// A test's only word is its own name, and that is no trace.
    #[test]
    fn faulty_words_end_with_2(rt: HostRuntime) -> Result<(), Fail> {
        let ended = format!(in rt.alloc(); "{:?}", program(&rt))?;
        assert_eq!(rt; ended.as_str(), "ExitCode(unix_exit_status(2))");
        Ok(())
    }
}
