use crate::calls::stored;
use crate::texts::{GREEN, GREEN_REPORT, RED, finished, image_of};
use disk_memory::{MemoryDisk, SureDisk};
use journal::{Digests, look};
use std::alloc::Global;
use std::test::Fail;

const FAILED: &str = "surveyor: disk failed\n";

const LINE: &str = "alone --db b t.c";

// Words, the source, the image of the disk, the length of what then reads, the status, and what is told.
const ROWS: &str = "\
alone --db b t.c`green`none`466`0`@\
alone --db b t.c`green`finished`466`0`@\
alone --db b t.c`green`zeros`466`0`@\
alone --db b t.c`green`before`511`0`@\
alone --db b --workers 2 t.c`green`none`0`2`usage: surveyor check|alone|trial@\
alone --db b t.c`green`damaged`466`6`surveyor: database damaged at 40@\
alone --db b t.c`green`foreign`100`6`surveyor: not a database@\
alone --db b t.c`red`finished`466`6`surveyor: database of another source \
e3dec322f10a1f37710d24427b52af224eb4537794ce7161272304703cd19846 wanted \
49f592b98f5ca6d955cf1d2279243253b290fa97a3cec3c64ae9015fd08cd45d@\
alone --db b --entry main,main t.c`green`before`466`6`surveyor: database of another source \
634677a8ac8898148f9becf1d0750c70b9784420564ba183b013e891b506b27c wanted \
73061abc5da43f9fa43f6052fbda705e46342e93dab92da2abbfa1365228b7ac";

fn honest(alloc: Global, image: &[u8]) -> Result<MemoryDisk, Fail> {
    let image = image.to_vec(alloc)?;
    Ok(MemoryDisk::new(alloc, image, Vec::new(alloc), None)?)
}

fn text_of(name: &str) -> &str {
    if name == "red" { RED } else { GREEN }
}

// Whether the call of a row leaves what is said.
fn is_row(alloc: Global, row: &str) -> Result<bool, Fail> {
    let mut parts = row.split('`');
    let (Some(line), Some(text), Some(image), Some(length), Some(status), Some(told)) = (
        parts.next(),
        parts.next(),
        parts.next(),
        parts.next(),
        parts.next(),
        parts.next(),
    ) else {
        return Ok(false);
    };
    let (Ok(length), Ok(status)) = (length.parse::<usize>(), status.parse::<u8>()) else {
        return Ok(false);
    };
    let disk = honest(alloc, &image_of(alloc, image)?)?;
    let left = stored(alloc, line, text_of(text), disk)?;
    let mut err = String::from_str(alloc, told)?;
    if status != 0 {
        err.push_str("\n")?;
    }
    let out = if status == 0 { GREEN_REPORT } else { "" };
    let found = match left.images.first() {
        Some(image) => image.len(),
        None => 0,
    };
    Ok(left.is(status, out, err.as_str()) && found == length)
}

#[test]
fn rows(rt: HostRuntime) -> Result<(), Fail> {
    for row in ROWS.split('@') {
        assert!(rt; is_row(rt.alloc(), row)?, "at {row}");
    }
    Ok(())
}

// Whether the whole report and database come of this image.
fn goes_on(alloc: Global, image: &[u8], wanted: &[u8]) -> Result<bool, Fail> {
    let left = stored(alloc, LINE, GREEN, honest(alloc, image)?)?;
    Ok(left.is(0, GREEN_REPORT, "") && left.stands(wanted))
}

// Whether a run over this disk is told as failed and can go on from each of its images. Where no call failed it is over.
fn is_failed(alloc: Global, disk: MemoryDisk, wanted: &[u8]) -> Result<Option<bool>, Fail> {
    let left = stored(alloc, LINE, GREEN, disk)?;
    if left.status == 0 {
        return Ok(None);
    }
    for image in &left.images {
        if !goes_on(alloc, image, wanted)? {
            return Ok(Some(false));
        }
    }
    Ok(Some(left.is(5, "", FAILED)))
}

// Eleven records are written by two writes and two syncs each.
#[test]
fn a_stop_at_some_calls(rt: HostRuntime) -> Result<(), Fail> {
    let alloc = rt.alloc();
    let wanted = finished(alloc)?;
    for turn in 0..100 {
        let number = 7 * turn;
        let disk = MemoryDisk::new(alloc, Vec::new(alloc), Vec::new(alloc), Some(number))?;
        match is_failed(alloc, disk, &wanted)? {
            Some(is_told) => assert!(rt; is_told, "stopped at {number}"),
            None => {
                assert!(rt; number > 44);
                return Ok(());
            }
        }
    }
    Err("it never ends")?
}

#[test]
fn a_failure_of_some_calls(rt: HostRuntime) -> Result<(), Fail> {
    let alloc = rt.alloc();
    let wanted = finished(alloc)?;
    for turn in 0..100 {
        let number = 5 * turn;
        let mut failing = Vec::new(alloc);
        failing.push(number)?;
        let disk = MemoryDisk::new(alloc, Vec::new(alloc), failing, None)?;
        match is_failed(alloc, disk, &wanted)? {
            Some(is_told) => assert!(rt; is_told, "failed at {number}"),
            None => {
                assert!(rt; number > 44);
                return Ok(());
            }
        }
    }
    Err("it never ends")?
}

// What is made of nothing is the other program's, and rounds 5 to 9 take 14 bytes each.
#[test]
fn an_image_byte_for_byte(rt: HostRuntime) -> Result<(), Fail> {
    let alloc = rt.alloc();
    let wanted = finished(alloc)?;
    assert!(rt; goes_on(alloc, &[], &wanted)?);
    assert!(rt; goes_on(alloc, &wanted, &wanted)?);
    let Some(digest) = wanted.get(8..40) else {
        return Err("no digest")?;
    };
    let mut current = [0; 32];
    current.copy_from_slice(digest);
    let digests = Digests { current, old: None };
    let records = look(alloc, &mut SureDisk::new(alloc, wanted)?, &digests).map_err(
        |_| "no database",
    )?;
    assert_eq!(rt; records.len(), 11);
    for round in 5..10usize {
        let (Some(record), Some(next)) = (records.get(round), records.get(round.saturating_add(1)))
        else {
            return Err("a round without a record")?;
        };
        assert_eq!(rt; record.round as usize, round);
        assert_eq!(rt; next.at, record.at.saturating_add(14));
    }
    Ok(())
}
