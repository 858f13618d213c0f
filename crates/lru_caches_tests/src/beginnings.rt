//! The values with which the examples of the docs begin, and tests of error texts.
use crate::disk::Disk;
use lru_caches::{CountedMap, Counts, FileError, OrderedMap, PageCache, PageError};
use schnellru::ByLength;
use std::test::Fail;
use test_helpers::check;

pub type Map = OrderedMap<u64, u64>;

pub type Counted = CountedMap<u64, u64, ByLength>;

pub type Cache<'a> = PageCache<u64, Disk<'a>>;

pub fn refill(map: &mut Map) -> bool {
    map.clear();
    (map.insert(1, 11), map.insert(2, 20)) == (Ok(None), Ok(None))
}

pub fn recount(counted: &mut Counted) -> bool {
    counted.remove(&4);
    let inserted = (
        counted.insert(1, 10),
        counted.insert(2, 20),
        counted.insert(3, 30),
    );
    counted.take_counts();
    inserted == (Ok(true), Ok(true), Ok(true)) && counted.counts() == Counts::default()
}

pub fn rewrite(cache: &mut Cache<'_>) -> bool {
    (cache.write(1, 11), cache.flush(), cache.write(1, 20)) == (Ok(()), Ok(()), Ok(()))
}

#[test]
fn of_the_errors(rt: HostRuntime) -> Result<(), Fail> {
    let alloc = rt.alloc();
    let (failed, damaged): (PageError<FileError>, PageError<FileError>) = (
        PageError::Device(FileError::File),
        PageError::Device(FileError::Damaged),
    );
    let text = format!(in alloc; "{failed}; {damaged}")?;
    check!(rt; text.as_str() == "the device failed: the file failed; the device failed: a damaged block");
    let others: [PageError<FileError>; 4] = [
        PageError::Memory,
        PageError::NoBlock,
        PageError::Full,
        PageError::Broken,
    ];
    let text = format!(in alloc;
        "{}; {}; {}; {}",
        others[0], others[1], others[2], others[3]
    )?;
    check!(rt; text.as_str() == "out of memory; no such block; no page may be evicted; a sync of the device has failed");
    Ok(())
}
