use crate::{append_one, open_whole};
use disk_memory::SureDisk;
use journal::{Digests, Kept, NoRoom, OpenFault, look};
use std::alloc::Global;
use std::test::Fail;

// A journal of version 2 with one record, whose body has 10 bytes.
const SMALL: [u8; 64] =
    *b"\x01CGSURV277777777777777777777777777777777\x01\0\0\0\0\0\0\0\0\0\0\0\x0a\x05\0\0\0\x01\0\0\0\0\x01\0";
// The same of version 1.
const OLD: [u8; 64] =
    *b"\x01CGSURV133333333333333333333333333333333\x01\0\0\0\0\0\0\0\0\0\0\0\x0a\x05\0\0\0\x01\0\0\0\0\x01\0";
// A version record and the gate behind it.
const VERSION: [u8; 46] =
    *b"\x01\xff\xff\xff\xff\0\0\0\x02\0\0\0\x2077777777777777777777777777777777\0";

const BODY: [u8; 10] = *b"\x05\0\0\0\x01\0\0\0\0\x01";

pub(crate) fn digests() -> Digests {
    Digests {
        current: [b'7'; 32],
        old: Some([b'3'; 32]),
    }
}

// What opening an image answers, and what stands then.
fn opened(alloc: Global, image: &[u8]) -> Result<(Result<Vec<Kept>, OpenFault>, Vec<u8>), Fail> {
    let disk = SureDisk::new(alloc, image.to_vec(alloc)?)?;
    let (answer, disk) = match open_whole(alloc, disk, &digests()) {
        Ok((journal, records)) => (Ok(records), journal.into_disk()),
        Err((disk, fault)) => (Err(fault), disk),
    };
    let images = disk.images(alloc)?;
    Ok((answer, images[0].to_vec(alloc)?))
}

// The same with the number of records in place of them.
fn counted(alloc: Global, image: &[u8]) -> Result<(Result<usize, OpenFault>, usize), Fail> {
    let (answer, now) = opened(alloc, image)?;
    Ok((answer.map(|records| records.len()), now.len()))
}

fn joined(alloc: Global, parts: &[&[u8]]) -> Result<Vec<u8>, Fail> {
    let mut all = Vec::new(alloc);
    for part in parts {
        all.extend_from_slice(part)?;
    }
    Ok(all)
}

#[test]
fn one_record_has_64_bytes(rt: HostRuntime) -> Result<(), Fail> {
    let alloc = rt.alloc();
    let disk = SureDisk::new(alloc, Vec::new(alloc))?;
    match open_whole(alloc, disk, &digests()) {
        Ok((mut journal, records)) => {
            assert_eq!(rt; records.len(), 0);
            let full = NoRoom::Full { size: 2147483649 };
            assert_eq!(rt; journal.reserve(2147483595), Err(full));
            assert_eq!(rt; append_one(alloc, &mut journal, 0, 0, &BODY), Ok(()));
            let images = journal.into_disk().images(alloc)?;
            assert_eq!(rt; images.len(), 1);
            assert_eq!(rt; images[0].as_slice(), SMALL.as_slice());
        }
        Err((_, fault)) => panic!(rt; "{fault:?}"),
    }
    Ok(())
}

#[test]
fn a_record_is_read_back(rt: HostRuntime) -> Result<(), Fail> {
    let alloc = rt.alloc();
    let (answer, now) = opened(alloc, &SMALL)?;
    assert_eq!(rt; now.as_slice(), SMALL.as_slice());
    match answer {
        Ok(records) => {
            assert_eq!(rt; records.len(), 1);
            assert_eq!(rt;
                (records[0].round, records[0].task, records[0].at),
                (0, 0, 40)
            );
            assert_eq!(rt; records[0].body.as_slice(), BODY.as_slice());
        }
        Err(fault) => panic!(rt; "{fault:?}"),
    }
    Ok(())
}

#[test]
fn each_front_of_a_small_journal(rt: HostRuntime) -> Result<(), Fail> {
    let alloc = rt.alloc();
    for size in 0..=64 {
        let wanted = match size {
            0..=1 | 41 => (Ok(0), 41),
            2..=40 => (Err(OpenFault::NotDatabase), size),
            42..=63 => (Err(OpenFault::Damaged { at: 40 }), size),
            _ => (Ok(1), 64),
        };
        assert_eq!(rt; counted(alloc, &SMALL[..size])?, wanted, "{size} bytes");
    }
    Ok(())
}

#[test]
fn each_case_of_opening(rt: HostRuntime) -> Result<(), Fail> {
    let alloc = rt.alloc();
    let other = OpenFault::OtherSource {
        stored: [b'8'; 32],
        wanted: [b'7'; 32],
    };
    let eights = joined(alloc, &[&SMALL[..8], &[b'8'; 32], &SMALL[40..]])?;
    let old_eights = joined(alloc, &[&OLD[..8], &[b'8'; 32], &OLD[40..]])?;
    let closed = joined(alloc, &[&SMALL[..40], &[7], &SMALL[41..]])?;
    let versioned = joined(alloc, &[&OLD[..63], &VERSION])?;
    let twice = joined(alloc, &[&OLD[..63], &VERSION[..45], &VERSION])?;
    let misplaced = joined(alloc, &[&SMALL[..63], &VERSION])?;
    assert_eq!(rt; counted(alloc, &[0; 20])?, (Ok(0), 41));
    assert_eq!(rt;
        counted(alloc, &[0; 42])?,
        (Err(OpenFault::NotDatabase), 42)
    );
    assert_eq!(rt;
        counted(alloc, &[b'x'; 100])?,
        (Err(OpenFault::NotDatabase), 100)
    );
    assert_eq!(rt; counted(alloc, &eights)?, (Err(other), 64));
    assert_eq!(rt; counted(alloc, &old_eights)?, (Err(other), 64));
    assert_eq!(rt; counted(alloc, &closed)?, (Ok(0), 41));
    assert_eq!(rt; counted(alloc, &OLD)?, (Ok(1), 109));
    assert_eq!(rt; counted(alloc, &versioned)?, (Ok(1), 109));
    assert_eq!(rt;
        counted(alloc, &twice)?,
        (Err(OpenFault::Damaged { at: 108 }), 154)
    );
    assert_eq!(rt;
        counted(alloc, &misplaced)?,
        (Err(OpenFault::Damaged { at: 63 }), 109)
    );
    Ok(())
}

#[test]
fn what_stands_after_opening(rt: HostRuntime) -> Result<(), Fail> {
    let alloc = rt.alloc();
    let fresh = joined(alloc, &[&SMALL[..40], &[0]])?;
    let versioned = joined(alloc, &[&OLD[..63], &VERSION])?;
    let closed = joined(alloc, &[&SMALL[..40], &[7]])?;
    let table: [(&[u8], &[u8]); 4] = [
        (&[], &fresh),
        (&SMALL[..41], &fresh),
        (&OLD, &versioned),
        (&closed, &closed),
    ];
    for (image, wanted) in table {
        let (_, now) = opened(alloc, image)?;
        assert_eq!(rt; now.as_slice(), wanted);
    }
    Ok(())
}

// Each record's round, task, first byte and offset, as looking gives them.
fn looked(
    alloc: Global,
    image: &[u8],
) -> Result<Result<Vec<(u32, u32, Option<u8>, u64)>, OpenFault>, Fail> {
    let mut disk = SureDisk::new(alloc, image.to_vec(alloc)?)?;
    match look(alloc, &mut disk, &digests()) {
        Ok(records) => {
            let mut rows = Vec::new(alloc);
            for kept in &records {
                let first = kept.body.first().copied();
                rows.push((kept.round, kept.task, first, kept.at))?;
            }
            Ok(Ok(rows))
        }
        Err(fault) => Ok(Err(fault)),
    }
}

#[test]
fn looking_fills_short_bodies(rt: HostRuntime) -> Result<(), Fail> {
    let alloc = rt.alloc();
    let first = joined(
        alloc,
        &[&SMALL[..63], b"\x01\0\0\0\x01\0\0\0\0\0\0\0\x01\x06"],
    )?;
    let second = joined(alloc, &[&first, b"\x01\0\0\0\x02\0\0\0\0\0\0\0\x01\x06"])?;
    let other = joined(
        alloc,
        &[&second, b"\x01\0\0\0\x02\0\0\0\x01\0\0\0\x01\x06", b"\0"],
    )?;
    let wanted = [
        (0, 0, Some(5), 40),
        (1, 0, Some(5), 63),
        (2, 0, Some(5), 77),
        (2, 1, Some(6), 91),
    ];
    match looked(alloc, &other)? {
        Ok(rows) => assert_eq!(rt; rows.as_slice(), wanted.as_slice()),
        Err(fault) => panic!(rt; "{fault:?}"),
    }
    Ok(())
}

#[test]
fn looking_passes_version_records_over(rt: HostRuntime) -> Result<(), Fail> {
    let alloc = rt.alloc();
    let versioned = joined(alloc, &[&OLD[..63], &VERSION])?;
    let wanted = [(0, 0, Some(5), 40)];
    match looked(alloc, &versioned)? {
        Ok(rows) => assert_eq!(rt; rows.as_slice(), wanted.as_slice()),
        Err(fault) => panic!(rt; "{fault:?}"),
    }
    assert!(rt; looked(alloc, &[0; 20])?.is_ok_and(|rows| rows.is_empty()));
    assert!(rt;
        looked(alloc, &SMALL[..50])?.is_err_and(|fault| fault == OpenFault::Damaged { at: 40 })
    );
    assert!(rt; looked(alloc, &[b'x'; 100])?.is_err_and(|fault| fault == OpenFault::NotDatabase));
    Ok(())
}
