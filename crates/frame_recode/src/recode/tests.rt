//! Lines worked out by hand: frames of edition One, and what they become.

use super::*;
use std::process::Abort;
use std::test::Fail;

/// Frames of edition One without a window, and the same envelopes in edition Two.
const FRAMES: [(&[u8], &[u8]); 9] = [
    (
        b"010100000101000000000000000100000001000000000101000161",
        b"0201000001010000000000000001000000010000000001010000000161",
    ),
    (
        b"01010101010800000001020304050a0b0c0d07000001090100026162",
        b"02010101010800000001020304050a0b0c0d070000010901000000026162",
    ),
    (
        b"0103010101080000000102030405070000010900026162",
        b"02030101010800000001020304050700000109000000026162",
    ),
    (
        b"01060101010800000001020304050a0b0c0d000000050002070000010900000000000101000163",
        b"02060101010800000001020304050a0b0c0d0000000500020700000109000000000001010000000163",
    ),
    (
        b"01080101010800000001020304050a0b0c0d000000050003070000010900000000000101000163070000010902",
        b"02080101010800000001020304050a0b0c0d0000000500030700000109000000000001010000000163070000010902",
    ),
    (
        b"011101010108000000010203040501020304000000051122334400020000000500000000010100016300000006070000010902",
        b"0211010101080000000102030405010203040000000511223344000200000005000000000101000000016300000006070000010902",
    ),
    (
        b"01120101010800000001020304050a0b0c0d02010101020201010802010c010d000000050001070000010900",
        b"02120101010800000001020304050a0b0c0d02010101020201010802010c010d000000050001070000010900",
    ),
    (
        b"01130101010800000001020304050a0b0c0d000000050001070000010902",
        b"02130101010800000001020304050a0b0c0d000000050001070000010902",
    ),
    (
        b"011a010101080000000102030405",
        b"021a010101080000000102030405",
    ),
];

fn becomes(
    rt: &impl Abort,
    alloc: Global,
    line: &[u8],
    brought: bool,
    want: &[u8],
) -> Result<(), Fail> {
    let (is_brought, text) = match recode_line(alloc, line) {
        Ok(Recoded::Brought(text)) => (true, text),
        Ok(Recoded::Refused(text)) => (false, text),
        Err(_) => return Err("a line in hexadecimal")?,
    };
    assert_eq!(rt; is_brought, brought);
    assert_eq!(rt; text.as_slice(), want);
    Ok(())
}

/// Each becomes the other, which stays as it is.
#[test]
fn frames_are_brought_over(rt: HostRuntime) -> Result<(), Fail> {
    for (line, text) in FRAMES {
        becomes(&rt, rt.alloc(), line, true, text)?;
        becomes(&rt, rt.alloc(), text, true, text)?;
    }
    Ok(())
}

fn put_zeros(out: &mut Vec<u8>, count: usize) -> Result<(), AllocError> {
    for _ in 0..count {
        out.push(b'0')?;
    }
    Ok(())
}

/// Of the numbers up to 258 these are marked: 258, 257, 249 and 194; and 1 and 2 are below the window, and seen.
#[test]
fn windows_are_widened(rt: HostRuntime) -> Result<(), Fail> {
    for (one, two, behind) in [
        (
            b"01160101010800000001020304050a0b0c0d11223344000100000102030200000000000001".as_slice(),
            b"02160101010800000001020304050a0b0c0d11223344000100000102030200000000000001".as_slice(),
            b"0001070000010900".as_slice(),
        ),
        (
            b"01180101010800000001020304050a0b0c0d02010101020201010802010c010d00000005000100000102030200000000000001".as_slice(),
            b"02180101010800000001020304050a0b0c0d02010101020201010802010c010d00000005000100000102030200000000000001".as_slice(),
            b"".as_slice(),
        ),
    ] {
        let mut line = Vec::from_slice(rt.alloc(), one)?;
        put_zeros(&mut line, 46)?;
        line.extend_from_slice(behind)?;
        let mut text = Vec::from_slice(rt.alloc(), two)?;
        put_zeros(&mut text, 46)?;
        text.extend_from_slice(b"03")?;
        put_zeros(&mut text, 958)?;
        text.extend_from_slice(behind)?;
        becomes(&rt, rt.alloc(), line.as_slice(), true, text.as_slice())?;
        becomes(&rt, rt.alloc(), text.as_slice(), true, text.as_slice())?;
    }
    Ok(())
}

#[test]
fn others_are_refused(rt: HostRuntime) -> Result<(), Fail> {
    for (line, text) in [
        (
            b"01010000010100000000000000010000000100000000010100016100".as_slice(),
            b"refused: trailing 27".as_slice(),
        ),
        (
            b"011d00000101000000000000000100000001000000000101000161".as_slice(),
            b"refused: kind 29".as_slice(),
        ),
        (
            b"010100000101000000000000000100000001000000000001000161".as_slice(),
            b"refused: field 19".as_slice(),
        ),
        (
            b"010100000101000000000000000100000001000000000101100161".as_slice(),
            b"refused: over 4096".as_slice(),
        ),
        (
            b"030100000101000000000000000100000001000000000101000161".as_slice(),
            b"refused: field 0".as_slice(),
        ),
    ] {
        becomes(&rt, rt.alloc(), line, false, text)?;
    }
    let (frame, _) = FRAMES[0];
    for count in 0..27 {
        let front = frame.get(..2 * count).ok_or("27 bytes")?;
        becomes(&rt, rt.alloc(), front, false, b"refused: short")?;
    }
    for line in [
        b"0".as_slice(),
        b"0g".as_slice(),
        b"0A".as_slice(),
        b"01 0".as_slice(),
    ] {
        let is_bad = matches!(recode_line(rt.alloc(), line), Err(RecodeError::BadLine));
        assert!(rt; is_bad);
    }
    Ok(())
}
