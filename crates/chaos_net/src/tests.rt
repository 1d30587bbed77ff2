use super::*;
use link_queue::Frame;
use std::alloc::{AllocError, Global};
use std::test::Fail;

/// A frame of one byte.
fn frame(alloc: Global, byte: u8) -> Result<Frame, AllocError> {
    let mut frame = Frame::new(alloc);
    frame.push(byte)?;
    Ok(frame)
}

/// Stands for no frame.
const NONE: u8 = 255;

fn byte_of(out: &Option<Frame>) -> u8 {
    match out {
        Some(frame) => frame.as_slice().first().copied().unwrap_or(NONE),
        None => NONE,
    }
}

#[test]
fn without_loss_each_frame_is_handed_back(rt: HostRuntime) -> Result<(), Fail> {
    let alloc = rt.alloc();
    let mut chaos = Chaos::new(alloc, 7, 256, 0)?;
    for byte in 0..40u8 {
        let out = chaos.pass(frame(alloc, byte)?)?;
        assert_eq!(rt; byte_of(&out), byte);
        assert!(rt; chaos.again().is_none(), "nothing is held");
    }
    Ok(())
}

/// What becomes of forty frames at the greatest loss, by the words that a reference generator gave.
/// Sixteen are held before the last dozen comes.
const PASSED: [u8; 40] = [
    NONE, NONE, 2, NONE, 4, NONE, 6, 7, NONE, 9, NONE, NONE, 12, NONE, NONE, 15, NONE, NONE, 18,
    19, NONE, 21, 22, NONE, NONE, NONE, 26, 27, 28, 29, 30, 31, 32, 33, 34, 35, 36, 37, 38, 39,
];

const AGAIN: [u8; 17] = [
    1, 2, 4, 6, 7, 8, 9, 12, 13, 15, 17, 18, 19, 21, 22, 23, NONE,
];

#[test]
fn forty_frames_at_the_greatest_loss(rt: HostRuntime) -> Result<(), Fail> {
    let alloc = rt.alloc();
    let mut chaos = Chaos::new(alloc, 7, 256, 300)?;
    let mut passed = Vec::new(alloc);
    for byte in 0..40u8 {
        let out = chaos.pass(frame(alloc, byte)?)?;
        passed.push(byte_of(&out))?;
    }
    assert_eq!(rt; passed.as_slice(), PASSED.as_slice());
    let mut again = Vec::new(alloc);
    for _ in 0..17u8 {
        let out = chaos.again();
        again.push(byte_of(&out))?;
    }
    assert_eq!(rt; again.as_slice(), AGAIN.as_slice());
    Ok(())
}
