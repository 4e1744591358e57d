use hex::decode;
use std::alloc::{AllocError, Global};
use std::test::Fail;

pub(crate) const GREEN: &str = "int a[4]; int main(void){ a[3]=1; return 0; }";

pub(crate) const RED: &str = "int a[4]; int main(void){ a[4]=1; return 0; }";

pub(crate) const GREEN_REPORT: &str = "\
t.c:1:28 main green
sites 1 green 1 orange 0 red 0 unreachable 0
";

pub(crate) const USAGE: &str = "usage: surveyor check|alone|trial\n";

// The finished database of `GREEN`, made by another program.
const FINISHED: &str = "\
0143475355525632e3dec322f10a1f37710d24427b52af224eb4537794ce7161272304703cd1984601000000000000000000\
00001f010000000201000000010000000000000000020000000200000001000000000100000001000000000000001d020000\
0004000000000000000100000000000000010000000000000000010000000200000000000000190300000002000000010000\
00000000000200000001000000020100000003000000000000005b0401010000000001000000010101000000000000000000\
0000000000000001000000000000000000000000000000000000000000000001000000000000000000000000000000000000\
0001000000000000000000000000000000010100000004000000000000005b04000100000000010000000101010000000000\
0000000000000000000000010000000000000000000000000000000000000000000000010000000000000000000000000000\
0000000000010000000000000000000000000000000101000000050000000000000001060100000006000000000000000106\
010000000700000000000000010601000000080000000000000001060100000009000000000000000106010000000a000000\
000000000a0500000001000000000100";

// The digest of `GREEN` in version 1.
const OLD_DIGEST: &str = "634677a8ac8898148f9becf1d0750c70b9784420564ba183b013e891b506b27c";

/// The words between the spaces of a line, behind the program's name.
pub(crate) fn words_of(alloc: Global, line: &str) -> Result<Vec<String>, AllocError> {
    let mut words = Vec::new(alloc);
    words.push(String::from_str(alloc, "surveyor")?)?;
    for word in line.split(' ') {
        words.push(String::from_str(alloc, word)?)?;
    }
    Ok(words)
}

/// The file `t.c` with this text.
pub(crate) fn files(alloc: Global, text: &str) -> Result<Vec<(String, Vec<u8>)>, AllocError> {
    let mut files = Vec::new(alloc);
    let name = String::from_str(alloc, "t.c")?;
    files.push((name, Vec::from_slice(alloc, text.as_bytes())?))?;
    Ok(files)
}

/// The finished database of `GREEN`.
pub(crate) fn finished(alloc: Global) -> Result<Vec<u8>, Fail> {
    Ok(decode(alloc, FINISHED).map_err(|_| "no hexadecimal digits")?)
}

// The same of version 1.
fn finished_before(alloc: Global) -> Result<Vec<u8>, Fail> {
    let digest = decode(alloc, OLD_DIGEST).map_err(|_| "no hexadecimal digits")?;
    let now = finished(alloc)?;
    let mut image = Vec::from_slice(alloc, b"\x01CGSURV1")?;
    image.extend_from_slice(&digest)?;
    for byte in now.iter().skip(40) {
        image.push(*byte)?;
    }
    Ok(image)
}

// The same with another first byte of its first body.
fn damaged(alloc: Global) -> Result<Vec<u8>, Fail> {
    let mut image = finished(alloc)?;
    if let Some(kind) = image.get_mut(53) {
        *kind = 9;
    }
    Ok(image)
}

// So many bytes of this value.
fn filled(alloc: Global, count: usize, byte: u8) -> Result<Vec<u8>, Fail> {
    let mut image = Vec::new(alloc);
    for _ in 0..count {
        image.push(byte)?;
    }
    Ok(image)
}

/// The image of that name.
pub(crate) fn image_of(alloc: Global, name: &str) -> Result<Vec<u8>, Fail> {
    match name {
        "finished" => finished(alloc),
        "before" => finished_before(alloc),
        "damaged" => damaged(alloc),
        "zeros" => filled(alloc, 20, 0),
        "foreign" => filled(alloc, 100, b'x'),
        _ => Ok(Vec::new(alloc)),
    }
}
