ghost use Rattle.std.specs.Prelude.{◌≡◌, ◌≤◌, ◌<◌, [], length, IfOk};

use super::*;
use std::alloc::{AllocError, Global};
use std::sync::Wait;
use std::test::Fail;
use std::thread;

/// The frame of this number, low byte first.
fn numbered(alloc: Global, number: u32) -> Result<Frame, AllocError> {
    let mut bytes = Vec::with_capacity(alloc, 4)?;
    bytes.extend_from_slice(&number.to_le_bytes())?;
    Ok(Frame::from_vec(bytes))
}

#[test]
fn a_link_of_two_hands_the_third_frame_back(rt: HostRuntime) -> Result<(), Fail> {
    let alloc = rt.alloc();
    let (mut send, mut take) = link(alloc, 7, 2)?;
    assert!(rt; send.put(&rt, numbered(alloc, 10)?).is_ok(), "x is put");
    assert!(rt; send.put(&rt, numbered(alloc, 11)?).is_ok(), "y is put");
    match send.put(&rt, numbered(alloc, 12)?) {
        Ok(()) => assert!(rt; false, "z doesn't fit"),
        Err(back) => assert_eq!(rt; back.as_slice(), [12, 0, 0, 0].as_slice()),
    }
    let first = take.take(&rt);
    assert_eq!(rt; first.map(|frame| frame.len()), Some(4));
    assert_eq!(rt; take.asked(), 1);
    assert_eq!(rt; close(&rt, send, take), 1);
    Ok(())
}

const MILLION: u32 = 1_000_000;

/// Puts the frames of the numbers below `count`, in their order.
fn put_all<R: Wait>(
    rt: &R,
    alloc: Global,
    mut send: SendEnd,
    count: u32,
) -> Result<SendEnd, AllocError>
    requires { send.sent ≡ [] }
    ensures { IfOk result (λ end. (end.link ≡ send.link) × (length end.sent ≡ count)) }
{
    let mut next = 0;
    let mut frame = numbered(alloc, next)?;
    for _ in rt.forever() {
        if next >= count {
            break;
        }
        match send.put(rt, frame) {
            Ok(()) => {
                next += 1;
                frame = numbered(alloc, next)?;
            }
            Err(back) => {
                frame = back;
                thread::yield_now();
            }
        }
    }
    Ok(send)
}

/// Takes frames until it has `count`, and counts those that came in their place.
fn take_all<R: Wait>(rt: &R, mut take: TakeEnd, count: u32) -> (TakeEnd, u32)
    requires { take.taken ≡ [] }
    ensures { (result.0.link ≡ take.link) × (length result.0.taken ≡ count) }
{
    let mut next = 0;
    let mut in_place = 0;
    for _ in rt.forever() {
        if next >= count {
            break;
        }
        match take.take(rt) {
            Some(frame) => {
                if frame.as_slice() == next.to_le_bytes().as_slice() {
                    in_place += 1;
                }
                next += 1;
            }
            None => thread::yield_now(),
        }
    }
    (take, in_place)
}

#[test]
fn a_million_frames_pass_between_two_threads(rt: HostRuntime) -> Result<(), Fail> {
    let alloc = rt.alloc();
    let (send, take) = link(alloc, 7, 64)?;
    let (sent, (take, in_place)) = thread::join(
        &rt,
        move ||
            requires { send.sent ≡ [] }
            ensures { IfOk result (λ end. end.link ≡ send.link) }
        { put_all(&rt, alloc, send, MILLION) },
        move ||
            requires { take.taken ≡ [] }
            ensures { result.0.link ≡ take.link }
        { take_all(&rt, take, MILLION) },
    );
    let send = sent?;
    assert_eq!(rt; in_place, MILLION);
    assert!(rt; take.asked() >= u64::from(MILLION), "each take is counted");
    assert_eq!(rt; close(&rt, send, take), 0);
    Ok(())
}
