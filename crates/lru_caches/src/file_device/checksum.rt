ghost use Rattle.std.specs.Prelude.{◌≡◌, ◌≤◌, length, IfOk};
ghost use Rattle.lru_caches.specs.Checksums.{hash_of as hash_of_bytes, with_tail, with_checksum as checked_block};

use crate::file_device::FileError;
use lru_limits::RandomState;
use std::hash::{BuildHasher, Hasher};

fn put_at_end(block: &mut [u8], number: u64)
    requires { 8 ≤ length block.old }
    ensures { block.new ≡ with_tail block.old number }
{
    let at = block.len() - 8;
    block[at..].copy_from_slice(&number.to_le_bytes());
}

fn hash_of(bytes: &[u8]) -> u64
    ensures { result ≡ hash_of_bytes bytes.now }
{
    let mut hasher = RandomState::with_seeds([1, 2, 3, 4]).build_hasher();
    hasher.write(bytes);
    hasher.finish()
}

pub(super) fn with_checksum<const N: usize>(block: &[u8; N], n: u64) -> [u8; N]
    requires { 8 ≤ N }
    ensures { result ≡ checked_block n block.now }
{
    let mut copy = *block;
    put_at_end(&mut copy, n);
    let hash = hash_of(&copy);
    put_at_end(&mut copy, hash);
    copy
}

pub(super) fn checked<const N: usize>(
    read: Result<[u8; N], FileError>,
    n: u64,
) -> Result<[u8; N], FileError>
    requires { 8 ≤ N }
    ensures { IfOk result (λ block. block ≡ checked_block n block) }
{
    let block = read?;
    if with_checksum(&block, n) == block {
        Ok(block)
    } else {
        Err(FileError::Damaged)
    }
}
