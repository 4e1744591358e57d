use disk_file::{HostClock, HostDisk, HostDisks, HostSources};
use std::fs;
use std::test::Fail;
use sv_base::DiskFailed;
use sv_outside::{Clock, Disk, Disks, Loaded, Sources};

const FOLDER: &str = "disk_file_test";

const NAME: &str = "disk_file_test/a.db";

// What is read of a disk before and after a further write, which then is cut.
fn writes_again(disk: &mut HostDisk) -> Result<[u8; 4], DiskFailed> {
    let mut back = [0; 4];
    disk.write_at(0, b"abcd")?;
    disk.read_at(1, &mut back[..2])?;
    disk.write_at(2, b"xyz")?;
    disk.read_at(1, &mut back[2..])?;
    disk.cut(4)?;
    disk.sync()?;
    Ok(back)
}

// A clock that threads share.
fn now_of<C: Clock + Sync>(clock: &C) -> u64 {
    clock.now()
}

#[test]
fn real_files(rt: HostRuntime) -> Result<(), Fail> {
    let _ = fs::remove_dir_all(&rt, FOLDER);
    fs::create_dir(&rt, FOLDER)?;
    let mut disks = HostDisks::new(&rt, rt.alloc());
    match disks.open(NAME) {
        Ok(mut disk) => {
            disk.reserve(8, 4, 7)?;
            assert_eq!(rt; writes_again(&mut disk), Ok(*b"bcbx"));
            assert_eq!(rt; disk.read_at(3, &mut [0; 2]), Err(DiskFailed));
            assert!(rt; disks.open(NAME).is_err(), "the file is locked");
        }
        Err(_) => assert!(rt; false),
    }
    match disks.open(NAME) {
        Ok(mut disk) => assert_eq!(rt; disk.length(), Ok(4)),
        Err(_) => assert!(rt; false),
    }
    assert!(rt; disks.open("disk_file_test/absent/a.db").is_err());

    let mut sources = HostSources::new(&rt);
    let mut bytes = Vec::new(rt.alloc());
    assert_eq!(rt; sources.load(NAME, 4, &mut bytes), Loaded::Ok);
    assert_eq!(rt; bytes.as_slice(), b"abxy".as_slice());
    assert_eq!(rt; sources.load(NAME, 3, &mut bytes), Loaded::TooLarge);
    assert_eq!(rt; bytes.as_slice(), b"abxyabx".as_slice());
    assert_eq!(rt;
        sources.load("disk_file_test/absent", 3, &mut bytes),
        Loaded::Failed
    );
    fs::remove_dir_all(&rt, FOLDER)?;
    Ok(())
}

#[test]
fn no_name(rt: HostRuntime) -> Result<(), Fail> {
    let mut disks = HostDisks::new(&rt, rt.alloc());
    match disks.open("") {
        Ok(mut disk) => {
            disk.reserve(8, 4, 7)?;
            assert_eq!(rt; writes_again(&mut disk), Ok(*b"bcbx"));
            assert_eq!(rt; disk.length(), Ok(4));
            assert_eq!(rt; disk.write_at(5, b"e"), Err(DiskFailed));
        }
        Err(_) => assert!(rt; false),
    }
    let clock = HostClock::new(&rt);
    assert!(rt; now_of(&clock) < 60_000);
    Ok(())
}
