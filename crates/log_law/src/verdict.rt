//! The verdict on a history and a line.

ghost use Rattle.std.specs.Prelude.{◌≡◌, ◌↔◌, ◌^◌, ◌<◌, length, IfOk, IfSome};
ghost use Rattle.std.specs.Option.{MatchOption};
ghost use Rattle.rec_id.specs.Lawful.{Lawful};
ghost use Rattle.rec_id.specs.Verdict.{IsMetAt};
ghost use Rattle.log_law.specs.Pairs.{IsFound};
ghost use Rattle.log_law.specs.Verdicts.{clause_of, IsBrokenAs, IsVerdict};

use crate::behind::behind_breach;
use crate::covered::covered_breach;
use crate::fallen::tails_breach;
use crate::finished::finished_breach;
use crate::invoked::invoked_breach;
use crate::ordered::ordered_breach;
use crate::slices::slices_breach;
use crate::trims::trims_breach;
use crate::unique::unique_breach;
use rec_id::{Entry, Event, Line};
use std::alloc::{AllocError, Global};

/// What a check of the law tells.
#[derive(Clone, Copy, Debug, PartialEq, Eq)]
pub enum Verdict {
    /// The line is one that the log may have after the history.
    Lawful,
    /// The first clause that is broken, (a) being 1 and (i) being 9, and the first pair that breaks
    /// it: of indices of the history or places of the line, counted from 0. A clause that speaks
    /// of one index or place alone has 0 as the second.
    Broken { clause: u8, first: u32, second: u32 },
}

/// The first pair that breaks the clause of this number.
fn clause_breach(
    alloc: Global,
    clause: u8,
    history: &[Event],
    line: &[Entry],
) -> Result<Option<(usize, usize)>, AllocError>
    requires { length line.now < 2 ^ 32 }
    ensures { IfOk result (IsFound (IsMetAt (clause_of clause) history.now line.now)) }
{
    if clause == 1 {
        return unique_breach(alloc, line);
    }
    if clause == 2 {
        return invoked_breach(alloc, history, line);
    }
    if clause == 3 {
        return finished_breach(alloc, history, line);
    }
    if clause == 4 {
        return ordered_breach(alloc, history, line);
    }
    if clause == 5 {
        return slices_breach(alloc, history, line);
    }
    if clause == 6 {
        return covered_breach(alloc, history, line);
    }
    if clause == 7 {
        return tails_breach(alloc, history);
    }
    if clause == 8 {
        return behind_breach(alloc, history, line);
    }
    trims_breach(alloc, history)
}

/// The first clause that is broken, with the first pair that breaks it.
fn first_breach(
    alloc: Global,
    history: &[Event],
    line: &[Entry],
) -> Result<Option<(u8, (usize, usize))>, AllocError>
    requires line { length line.now < 2 ^ 32 }
    requires history { length history.now < 2 ^ 32 }
    ensures told { IfOk result (λ told. MatchOption told (Lawful history.now line.now) (λ b. IsBrokenAs history.now line.now b.0 b.1.0 b.1.1)) }
    ensures within { IfOk result (λ told. IfSome told (λ b. b.1.0 < 2 ^ 32 × (b.1.1 < 2 ^ 32))) }
{
    for clause in 1..10 {
        if let Some(pair) = clause_breach(alloc, clause, history, line)? {
            return Ok(Some((clause, pair)));
        }
    }
    Ok(None)
}

/// Whether the line is one that the log may have after the history, and what breaks the law first
/// where it is not. It takes n log n steps in events, places and what answers have together.
pub fn check(alloc: Global, history: &[Event], line: &Line) -> Result<Verdict, AllocError>
    requires history { length history.now < 2 ^ 32 }
    requires line { length line.now < 2 ^ 32 }
    ensures verdict { IfOk result (IsVerdict history.now line.now) }
    ensures lawful { IfOk result (λ told. (told ≡ Verdict.Lawful) ↔ Lawful history.now line.now) }
{
    match first_breach(alloc, history, line.as_slice())? {
        Some((clause, (first, second))) => Ok(Verdict::Broken {
            clause,
            first: first as u32,
            second: second as u32,
        }),
        None => Ok(Verdict::Lawful),
    }
}
