//! What an outbox takes, refuses and gives back.

use lazy_msgs::{Input, Msg, Outbox, OutboxRefused, WorldEvent};
use plain_lists::Sequence;
use rec_id::{Bytes, Event, RecordId};
use std::test::Fail;

#[test]
fn sends_and_tells_within_its_room(rt: HostRuntime) -> Result<(), Fail> {
    let id = RecordId::new(0, 1).ok().ok_or("an identity")?;
    let bytes = Some(Bytes::copy(rt.alloc(), b"a")?);
    let append = Msg::Append { view: 1, id, bytes };
    let mut out = Outbox::new(rt.alloc(), 2, 129);
    assert_eq!(rt; out.send(257, append.copy()?), Ok(()));
    assert_eq!(rt; out.send(258, append), Err(OutboxRefused::Over));
    out.tell(Event::Acked(id).copy()?)?;
    let mut sends = Sequence::new(rt.alloc());
    sends.push((0, Msg::AppendAck { view: 1, id }))?;
    assert_eq!(rt; out.put(sends, Sequence::new(rt.alloc())), Ok(()));
    assert_eq!(rt; out.weight(), 129);
    out.cut_back(1, 0);
    assert_eq!(rt; (out.sends().len(), out.events().len()), (1, 0));
    out.clear();
    assert_eq!(rt; out.weight(), 0);
    assert!(rt; matches!(Input::Grace.copy()?, Input::Grace));
    assert!(rt; matches!(WorldEvent::Tick(7).copy()?, WorldEvent::Tick(7)));
    Ok(())
}
