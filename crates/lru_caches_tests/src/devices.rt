//! Random calls on file devices, compared with a plain list of blocks.
use lru_caches::{BlockDevice, FileDevice, FileError, HashedFileDevice};
use std::alloc::Global;
use std::io::Cursor;
use test_helpers::{Random, check};

const CALLS: u64 = 100_000;

const BLOCKS: u64 = 10_000;

fn file(alloc: Global) -> Cursor<Vec<u8>> {
    Cursor::new(vec![in alloc; 0u8; 160_000].unwrap_or(Vec::new(alloc)))
}

fn read<D: BlockDevice<[u8; 16], Error = FileError>>(device: &mut D, n: u64) -> Option<[u8; 16]> {
    if device.has(n) && device.is_usable() {
        device.read(n).ok()
    } else {
        None
    }
}

fn writes<D: BlockDevice<[u8; 16], Error = FileError>>(
    device: &mut D,
    n: u64,
    block: &[u8; 16],
) -> bool {
    device.has(n) && device.is_usable() && device.write(n, block).is_ok()
}

// Returns how many writes and reads agree with a list of blocks, or 0 if the plain file differs from the list in the
// end. A block of the hashed device differs from the list only in its checksum.
fn calls_that_agree(alloc: Global) -> u64 {
    let mut plain: FileDevice<_, 16> = FileDevice::new(file(alloc), BLOCKS);
    let mut hashed: HashedFileDevice<_, 16> = HashedFileDevice::new(file(alloc), BLOCKS);
    let (mut model, mut random, mut count) = ([[0u8; 16]; BLOCKS as usize], Random::new(5), 0u64);
    for n in 0..BLOCKS {
        count = count.saturating_add(writes(&mut hashed, n, &[0; 16]) as u64);
    }
    for _ in 0..CALLS {
        let (n, mut block) = (random.below(BLOCKS), [0u8; 16]);
        block[..8].copy_from_slice(&random.next().to_le_bytes());
        let is_written = writes(&mut plain, n, &block) & writes(&mut hashed, n, &block);
        model[n as usize] = block;
        let n = random.below(BLOCKS);
        let (shown, checked) = (read(&mut plain, n), read(&mut hashed, n));
        let expected = model[n as usize];
        let is_right = is_written
            & (shown == Some(expected))
            & checked.is_some_and(|block| block[..8] == expected[..8]);
        count = count.saturating_add(is_right as u64);
    }
    let is_synced = plain.is_usable() && plain.sync().is_ok();
    let bytes = plain.into_file().into_inner();
    if is_synced && contains(bytes.as_slice(), &model) {
        count
    } else {
        0
    }
}

fn contains(bytes: &[u8], model: &[[u8; 16]; BLOCKS as usize]) -> bool {
    let mut right = bytes.len() == 160_000;
    for (block, expected) in bytes.chunks(16).zip(model) {
        right = right & (block == expected.as_slice());
    }
    right
}

#[test]
fn files_contain_what_was_written(rt: HostRuntime) {
    check!(rt; calls_that_agree(rt.alloc()) == BLOCKS + CALLS);
}
