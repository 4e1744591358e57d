use artifact_codec::{decode, encode, spells};
use std::alloc::{AllocError, Global};
use std::test::Fail;

fn digit(byte: u8) -> u8 {
    match byte {
        b'0'..=b'9' => byte - b'0',
        b'a'..=b'f' => byte - b'a' + 10,
        _ => 0,
    }
}

// The bytes that pairs of hexadecimal digits name; spaces are passed over.
fn bytes_of(alloc: Global, text: &[u8]) -> Result<Vec<u8>, AllocError> {
    let mut bytes = Vec::new(alloc);
    let mut high = None;
    for byte in text {
        if *byte == b' ' {
            continue;
        }
        high = match high {
            None => Some(digit(*byte)),
            Some(first) => {
                bytes.push(first % 16 * 16 + digit(*byte) % 16)?;
                None
            }
        };
    }
    Ok(bytes)
}

// Whether the bytes spell something, by both calls, and are what is written of it.
fn is_kept(alloc: Global, text: &[u8]) -> Result<bool, Fail> {
    let bytes = bytes_of(alloc, text)?;
    match decode(alloc, &bytes)? {
        None => Ok(false),
        Some(stored) => {
            let written = encode(alloc, &stored)?;
            Ok(
                written.as_slice() == bytes.as_slice()
                    && spells(bytes.first().copied().unwrap_or(0), &bytes),
            )
        }
    }
}

// Whether the bytes spell nothing, by both calls.
fn is_refused(alloc: Global, text: &[u8]) -> Result<bool, Fail> {
    let bytes = bytes_of(alloc, text)?;
    let kind = bytes.first().copied().unwrap_or(0);
    Ok(!spells(kind, &bytes) && decode(alloc, &bytes)?.is_none())
}

const KEPT: &[u8] = b"01 00000000
01 00000001 01 00000005 00000002 00000000
01 00000003 01 00000005 00000002 00000000 01 00000005 80000000 00000000 07 00000000 00000001 00000003
02 00000003 00000001 00000007 00000001 00000007 00000000
03 00000002 00000002 00000000 00000005 00000001 00000003
04 00 00 00 00000000 00000000
04 01 01 00000001 01 00 01 ffffffffffffffffffffffffffffffff 00 00000001 00000002 00000000 00000001 00000004 fffffffffffffffffffffffffffffffe 00000000000000000000000000000003
05 00000001 00000000 01
05 00000003 00000000 00 00000002 03 00000007 02";

const REFUSED: &[u8] = b"
06
01
01 00000002 01 00000005 00000002 00000000 01 00000005 00000002 00000000
01 00000002 02 00000005 00000002 00000000 01 00000005 00000002 00000000
01 00000001 01 00000005 00000002 00000001
01 00000001 09 00000005 00000002 00000000
01 00000001 00 00000005 00000002 00000000
01 00000000 00
02 00000001 00000002 00000007 00000007
02 00000002 00000001 00000007
03 00000001 00000000
03 00000002 00000001 00000003 00000001 00000000
03 00000002 00000002 00000000 00000003 00000002 00000001 00000003
03 00000001 00000011 00000000 00000001 00000002 00000003 00000004 00000005 00000006 00000007 00000008 00000009 0000000a 0000000b 0000000c 0000000d 0000000e 0000000f 00000010
03 00000002 00000002 00000000 00001000 00000002 00000001 00001000
04 02 00 00 00000000 00000000
04 00 00 00 00000000 00000001 00000004 00000000000000000000000000000003 00000000000000000000000000000002
04 00 01 00000001 00 00 00000000 00000000
04 00 01 00000001 01 00 01 00000000000200000000000000000001 00 00000000 00000000
04 00 00 00 00000002 00000001 00000000 00000001 00000000 00000000
05 00000001 00000000 04
05 00000002 00000001 01 00000001 01
05 00000001 00000000 01 00";

#[test]
fn spellings_are_read_and_written_again(rt: HostRuntime) -> Result<(), Fail> {
    for line in KEPT.split(|byte| *byte == b'\n') {
        assert!(rt; is_kept(rt.alloc(), line)?);
    }
    Ok(())
}

#[test]
fn other_bytes_are_refused(rt: HostRuntime) -> Result<(), Fail> {
    for line in REFUSED.split(|byte| *byte == b'\n') {
        assert!(rt; is_refused(rt.alloc(), line)?);
    }
    Ok(())
}
