use disk_memory::{MemoryDisk, MemoryDisks, SureDisk, SureDisks};
use std::test::Fail;
use sv_base::DiskFailed;
use sv_outside::{Disk, Disks};

// Whether these are the images, in this order.
fn are(images: &[Vec<u8>], wanted: &[&[u8]]) -> bool {
    for (image, bytes) in images.iter().zip(wanted.iter()) {
        if image.as_slice() != *bytes {
            return false;
        }
    }
    images.len() == wanted.len()
}

#[test]
fn each_call_once(rt: HostRuntime) -> Result<(), Fail> {
    let image = [7, 8, 9].to_vec(rt.alloc())?;
    let mut disk = SureDisk::new(rt.alloc(), image)?;
    assert_eq!(rt; disk.length(), Ok(3));
    disk.reserve(5, 3, 2)?;
    assert_eq!(rt; disk.write_at(3, &[1, 2]), Ok(()));
    assert_eq!(rt; disk.sync(), Ok(()));
    let mut bytes = [0; 3];
    assert_eq!(rt; disk.read_at(2, &mut bytes), Ok(()));
    assert_eq!(rt; bytes, [9, 1, 2]);
    assert_eq!(rt; disk.cut(4), Ok(()));
    assert_eq!(rt; disk.length(), Ok(4));
    Ok(())
}

#[test]
fn calls_fail_as_told(rt: HostRuntime) -> Result<(), Fail> {
    let alloc = rt.alloc();
    let mut disk = MemoryDisk::new(alloc, Vec::new(alloc), [1].to_vec(alloc)?, Some(3))?;
    assert_eq!(rt; disk.length(), Ok(0));
    disk.reserve(1, 4, 4)?;
    assert_eq!(rt; disk.sync(), Err(DiskFailed));
    assert_eq!(rt; disk.sync(), Ok(()));
    assert_eq!(rt; disk.length(), Err(DiskFailed));
    assert_eq!(rt; disk.sync(), Err(DiskFailed));
    Ok(())
}

#[test]
fn images_of_calls_that_were_done(rt: HostRuntime) -> Result<(), Fail> {
    let alloc = rt.alloc();
    let mut disk = SureDisk::new(alloc, [7, 8].to_vec(alloc)?)?;
    disk.reserve(4, 3, 2)?;
    assert!(rt; disk.write_at(2, &[5, 6]).is_ok());
    let written = disk.images(alloc)?;
    assert!(rt; are(&written, &[&[7, 8], &[7, 8, 1, 1], &[7, 8, 5, 6]]));
    assert!(rt; disk.cut(3).is_ok());
    let cut = disk.images(alloc)?;
    assert!(rt; are(&cut, &[&[7, 8], &[7, 8, 1, 1], &[7, 8, 5, 6], &[7, 8, 5]]));
    assert!(rt; disk.sync().is_ok());
    let synced = disk.images(alloc)?;
    assert!(rt; are(&synced, &[&[7, 8, 5]]));
    Ok(())
}

#[test]
fn images_of_calls_that_failed(rt: HostRuntime) -> Result<(), Fail> {
    let alloc = rt.alloc();
    let mut disk = MemoryDisk::new(alloc, [7, 8, 9].to_vec(alloc)?, Vec::new(alloc), Some(1))?;
    disk.reserve(3, 3, 2)?;
    assert_eq!(rt; disk.write_at(1, &[4]), Ok(()));
    assert_eq!(rt; disk.sync(), Err(DiskFailed));
    assert_eq!(rt; disk.write_at(0, &[5]), Err(DiskFailed));
    let images = disk.images(alloc)?;
    assert!(rt;
        are(
            &images,
            &[&[7, 8, 9], &[7, 1, 9], &[7, 4, 9], &[1, 4, 9], &[7, 4, 9]]
        )
    );
    Ok(())
}

#[test]
fn disks_by_name(rt: HostRuntime) -> Result<(), Fail> {
    let alloc = rt.alloc();
    let disk = MemoryDisk::new(alloc, [7].to_vec(alloc)?, Vec::new(alloc), None)?;
    let named = vec![in alloc; (String::from_str(alloc, "a")?, disk)]?;
    let mut disks = MemoryDisks::new(alloc, named, [1].to_vec(alloc)?);
    match disks.open("b") {
        Ok(mut other) => assert_eq!(rt; other.length(), Ok(0)),
        Err(_) => assert!(rt; false),
    }
    assert!(rt; disks.open("a").is_err());
    match disks.open("a") {
        Ok(mut first) => assert_eq!(rt; first.length(), Ok(1)),
        Err(_) => assert!(rt; false),
    }
    match disks.open("a") {
        Ok(mut gone) => assert_eq!(rt; gone.length(), Ok(0)),
        Err(_) => assert!(rt; false),
    }
    Ok(())
}

#[test]
fn sure_disks_by_name(rt: HostRuntime) -> Result<(), Fail> {
    let alloc = rt.alloc();
    let disk = SureDisk::new(alloc, [7].to_vec(alloc)?)?;
    let named = vec![in alloc; (String::from_str(alloc, "")?, disk)]?;
    let mut disks = SureDisks::new(alloc, named);
    match disks.open("") {
        Ok(mut empty) => assert_eq!(rt; empty.length(), Ok(0)),
        Err(_) => assert!(rt; false),
    }
    Ok(())
}
