ghost use Rattle.std.specs.Prelude.{◌≡◌, ℕ, Bool, List, [], ◌∷◌, ◌-◌, ◌≤◌, take, nat_lt, if◌then◌else◌, IsTrue, IfOk, option_map};
ghost use Rattle.lru_caches.specs.Checksums.{with_checksums, with_checksum as checked_block};
ghost use Rattle.lru_caches.specs.Files.{known, left, IsLeft, failures, IsHonest as AnsweredAsRecorded};
ghost use Rattle.lru_caches.specs.Files.{written, unwritten, synced, unsynced};
ghost use Rattle.lru_caches.specs.LeftLemma.{left_is_seen};

use crate::device::BlockDevice;
use crate::file_device::FileError;
use crate::file_device::checksum::with_checksum;
use crate::file_device::durable::Durable;
use crate::file_device::recorded::{RecordedFile, blocks_of};
use std::io::{Read, Seek, Write};

/// A device like `FileDevice`, whose blocks of `N` bytes contain checksums.
///
/// A write replaces the last 8 bytes of the block by the hash of the other bytes and of the block's number. Contracts
/// do not see this checksum. A read returns `Ok` only if the checksum is right, so it detects a torn, damaged or
/// misplaced block, unless the hashes happen to be equal.
///
/// ```
/// let file = Cursor::new([0u8; 48]);
/// let mut hashed: HashedFileDevice<_, 16> = HashedFileDevice::new(file, 3);
/// assert_eq!(rt; hashed.write(1, b"uno.....checksum"), Ok(()));
/// assert!(rt; hashed.read(1)?.starts_with(b"uno....."));
/// assert_eq!(rt; hashed.read(2), Err(FileError::Damaged));
/// ```
#[derive(Drop)]
pub struct HashedFileDevice<F, const N: usize> {
    file: RecordedFile<F>,
    count: u64,
    is_usable: bool,
    ghost wide: { 8 ≤ N },
    ghost checked: { file.log.events ≡ with_checksums file.log.events },
}

impl<F: Read + Write + Seek, const N: usize> HashedFileDevice<F, N> {
    /// Makes a device of the first `count` blocks of a file, which may be shorter (see `FileDevice::new`).
    ///
    /// ```
    /// let mut hashed: HashedFileDevice<_, 16> = HashedFileDevice::new(file, 3);
    /// ```
    ///
    /// Cost: `O(1)`, and no call on the file.
    pub fn new(file: F, count: u64) -> Self
        requires { 8 ≤ N }
        ensures count { result.count ≡ count }
        ensures usable { IsTrue result.is_usable }
        ensures fresh { result.file.log.events ≡ [] }
    {
        HashedFileDevice {
            file: RecordedFile::new(file),
            count,
            is_usable: true,
        }
    }

    /// Makes a device of all whole blocks of the file, as `FileDevice::open` does.
    ///
    /// ```
    /// assert_eq!(rt; HashedFileDevice::<_, 16>::open(Cursor::new([0u8; 48]))?.len(), 3);
    /// ```
    ///
    /// Cost and `# Errors`: as `FileDevice::open`.
    pub fn open(mut file: F) -> Result<Self, FileError>
    where
        F: Drop,
        requires { 8 ≤ N }
        ensures usable { IfOk result (λ device. IsTrue device.is_usable) }
        ensures fresh { IfOk result (λ device. device.file.log.events ≡ []) }
    {
        let count = blocks_of(&mut file, N)?;
        Ok(HashedFileDevice::new(file, count))
    }

    /// Returns the number of blocks.
    ///
    /// Cost: `O(1)`.
    ///
    /// ```
    /// assert_eq!(rt; hashed.len(), 3);
    /// ```
    pub fn len(&self) -> u64
        ensures { result ≡ self.now.count }
    {
        self.count
    }

    /// Lends the file.
    ///
    /// ```
    /// assert_eq!(rt; hashed.file().position(), 48);
    /// ```
    ///
    /// Cost: `O(1)`.
    pub fn file(&self) -> &F {
        &self.file.file
    }

    /// Returns the file. Call `sync` first.
    ///
    /// ```
    /// let bytes = hashed.into_file().into_inner();
    /// assert!(rt; bytes[16..].starts_with(b"uno....."));
    /// ```
    ///
    /// Cost: `O(1)`.
    pub fn into_file(self) -> F {
        let HashedFileDevice {
            file,
            count: _,
            is_usable: _,
        } = self;
        file.into_inner()
    }
}

impl<F: Read + Write + Seek + Durable, const N: usize> BlockDevice<[u8; N]>
    for HashedFileDevice<F, N> {
    type Error = FileError;

    type Seen = [u8; N];

    ghost seen = { take (N - 8) };

    ghost has = { λ device n. nat_lt n device.count };

    ghost blocks = { λ device n. option_map (take (N - 8)) (known device.file.log.events n) };

    ghost may_leave = { λ device n. IsLeft (take (N - 8)) (left device.file.log.events n) };

    ghost is_usable = { λ device. device.is_usable };

    ghost faults = { λ device. failures device.file.log.events };

    ghost IsHonest = { λ device. AnsweredAsRecorded device.file.log.events };

    ghost write_gives = { λ old n block new. (ok : Bool) × (bytes : List ℕ) × (take (N - 8) bytes ≡ block)
        × (new.file.log.events ≡ (if ok then written n (checked_block n bytes) else unwritten n (checked_block n bytes))
        ∷ old.file.log.events) };

    ghost sync_gives = { λ old new. (ok : Bool) × (new.file.log.events
        ≡ (if ok then synced else unsynced) ∷ old.file.log.events) };

    ghost stays = { λ device n. left_is_seen (take (N - 8)) device.file.log.events n };

    fn has(&self, n: u64) -> bool {
        n < self.count
    }

    fn is_usable(&self) -> bool {
        self.is_usable
    }

    fn read(&mut self, n: u64) -> Result<[u8; N], FileError> {
        self.file.read_checked(n)
    }

    fn write(&mut self, n: u64, block: &[u8; N]) -> Result<(), FileError> {
        let stamped = with_checksum(block, n);
        self.file.write_block(n, &stamped)
    }

    fn sync(&mut self) -> Result<(), FileError> {
        let synced = self.file.sync();
        self.is_usable = synced.is_ok();
        synced
    }
}
