//! Histories of one append, and what is told of them, and those of `law_cases` that the law forbids.

mod broken;

use log_law::{Verdict, check};
use plain_lists::Sequence;
use rec_id::{Ask, Bytes, Entry, Event, Line, RecordId};
use std::alloc::Global;
use std::test::Fail;

fn record() -> Result<RecordId, Fail> {
    match RecordId::new(0, 1) {
        Ok(id) => Ok(id),
        Err(_) => Err("an identity")?,
    }
}

/// What is told of a history that begins with an append of the record.
fn told(alloc: Global, then: Vec<Event>, entry: Option<Entry>) -> Result<Verdict, Fail> {
    let mut history = Vec::new(alloc);
    history.push(Event::Invoke(record()?, Bytes::copy(alloc, b"a")?))?;
    for event in then {
        history.push(event)?;
    }
    let mut line: Line = Sequence::new(alloc);
    if let Some(entry) = entry {
        line.push(entry)?;
    }
    if history.len() > 8 || line.len() > 8 {
        return Err("a short history and line")?;
    }
    Ok(check(alloc, &history, &line)?)
}

#[test]
fn the_first_broken_clause_is_told(rt: HostRuntime) -> Result<(), Fail> {
    let alloc = rt.alloc();
    let id = record()?;
    let kept = Entry::Kept(id, Bytes::copy(alloc, b"a")?);
    let asked = Event::TrimAsk {
        client: 0,
        read: 1,
        floor: 1,
    };
    let begun = Event::Begin(0, 1, Ask::Range { from: 0, to: 1 });
    let trimmed = Event::Trimmed {
        client: 0,
        read: 1,
        floor: 1,
    };
    let broken = |clause: u8, first: u32| Verdict::Broken {
        clause,
        first,
        second: 0,
    };
    let acked = vec![in alloc; Event::Acked(id)]?;
    assert_eq!(rt; told(alloc, acked, None)?, broken(3, 1));
    let acked = vec![in alloc; Event::Acked(id)]?;
    assert_eq!(rt; told(alloc, acked, Some(kept.copy()?))?, Verdict::Lawful);
    assert_eq!(rt;
        told(alloc, vec![in alloc; asked]?, Some(Entry::Gone(id)))?,
        Verdict::Lawful
    );
    assert_eq!(rt;
        told(alloc, Vec::new(alloc), Some(Entry::Gone(id)))?,
        broken(2, 0)
    );
    assert_eq!(rt;
        told(alloc, vec![in alloc; begun, trimmed]?, Some(kept))?,
        broken(9, 2)
    );
    Ok(())
}
