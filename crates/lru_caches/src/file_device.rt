ghost use Rattle.std.specs.Prelude.{◌≡◌, ℕ, Bool, ◌∷◌, [], nat_lt, if◌then◌else◌, IsTrue, IfOk, ◌^◌, ◌<◌};
ghost use Rattle.lru_caches.specs.Files.{known, left, IsLeft, failures, IsHonest as AnsweredAsRecorded};
ghost use Rattle.lru_caches.specs.Files.{written, unwritten, synced, unsynced};
ghost use Rattle.lru_caches.specs.LeftLemma.{left_is_known};

use crate::device::BlockDevice;
use crate::file_device::durable::Durable;
use crate::file_device::recorded::{RecordedFile, blocks_of};
use std::io::{Read, Seek, Write};
use thiserror::Error;

pub(crate) mod checksum;
pub(crate) mod durable;
pub(crate) mod hashed;
pub(crate) mod record;
pub(crate) mod recorded;

/// Why a call on a file device failed.
///
/// ```
/// assert_eq!(rt; hashed.read(2), Err(FileError::Damaged));
/// ```
#[derive(Clone, Copy, Debug, PartialEq, Error)]
pub enum FileError {
    /// A seek, a read, a write or a sync of the file failed.
    #[error("the file failed")]
    File,
    /// The checksum of the block is wrong.
    #[error("a damaged block")]
    Damaged,
}

/// A device whose blocks are parts of a file. Each block has `N` bytes.
///
/// Contracts see a record of the calls on the file (`specs/Files`), because nothing is proved about the bytes that an
/// operating system returns or keeps. The record takes no memory.
///
/// [`HashedFileDevice`] also detects torn and damaged blocks.
///
/// [`HashedFileDevice`]: crate::HashedFileDevice
///
/// ```
/// let file = Cursor::new(*b"zeroone.two.");
/// let mut device: FileDevice<_, 4> = FileDevice::new(file, 3);
/// assert_eq!(rt; device.write(1, b"uno."), Ok(()));
/// assert_eq!(rt; device.read(1), Ok(*b"uno."));
/// ```
#[derive(Drop)]
pub struct FileDevice<F, const N: usize> {
    file: RecordedFile<F>,
    count: u64,
    is_usable: bool,
}

impl<F: Read + Write + Seek, const N: usize> FileDevice<F, N> {
    /// Makes a device of the first `count` blocks of a file. The file may be shorter: past its end, a read fails, and a
    /// write makes the file longer.
    ///
    /// ```
    /// let mut device: FileDevice<_, 4> = FileDevice::new(file, 3);
    /// ```
    ///
    /// Cost: `O(1)`, and no call on the file.
    pub fn new(file: F, count: u64) -> Self
        ensures count { result.count ≡ count }
        ensures usable { IsTrue result.is_usable }
        ensures fresh { result.file.log.events ≡ [] }
    {
        FileDevice {
            file: RecordedFile::new(file),
            count,
            is_usable: true,
        }
    }

    /// Makes a device of all whole blocks of the file. Nothing is proved about the number of blocks.
    ///
    /// ```
    /// assert_eq!(rt; FileDevice::<_, 4>::open(Cursor::new(*b"zeroone.two.thr"))?.len(), 3);
    /// ```
    ///
    /// Cost: a seek to the end of the file.
    ///
    /// # Errors
    ///
    /// `File`: the seek failed, or N is 0.
    pub fn open(mut file: F) -> Result<Self, FileError>
    where
        F: Drop,
        ensures usable { IfOk result (λ device. IsTrue device.is_usable) }
        ensures fresh { IfOk result (λ device. device.file.log.events ≡ []) }
    {
        let count = blocks_of(&mut file, N)?;
        Ok(FileDevice::new(file, count))
    }

    /// Returns the number of blocks.
    ///
    /// Cost: `O(1)`.
    ///
    /// ```
    /// assert_eq!(rt; device.len(), 3);
    /// ```
    pub fn len(&self) -> u64
        ensures { result ≡ self.now.count }
    {
        self.count
    }

    /// Lends the file.
    ///
    /// ```
    /// assert_eq!(rt; device.file().position(), 8);
    /// ```
    ///
    /// Cost: `O(1)`.
    pub fn file(&self) -> &F {
        &self.file.file
    }

    /// Returns the file. Call `sync` first.
    ///
    /// ```
    /// let bytes = device.into_file().into_inner();
    /// assert!(rt; bytes.starts_with(b"zerouno."));
    /// ```
    ///
    /// Cost: `O(1)`.
    pub fn into_file(self) -> F {
        let FileDevice {
            file,
            count: _,
            is_usable: _,
        } = self;
        file.into_inner()
    }
}

impl<F: Read + Write + Seek + Durable, const N: usize> BlockDevice<[u8; N]> for FileDevice<F, N> {
    type Error = FileError;

    type Seen = [u8; N];

    ghost seen = { λ block. block };

    ghost has = { λ device n. nat_lt n device.count };

    ghost blocks = { λ device. known device.file.log.events };

    ghost may_leave = { λ device n. IsLeft (λ block. block) (left device.file.log.events n) };

    ghost is_usable = { λ device. device.is_usable };

    ghost faults = { λ device. failures device.file.log.events };

    ghost IsHonest = { λ device. AnsweredAsRecorded device.file.log.events };

    ghost write_gives = { λ old n block new. (ok : Bool) × (new.file.log.events
        ≡ (if ok then written n block else unwritten n block) ∷ old.file.log.events) };

    ghost sync_gives = { λ old new. (ok : Bool) × (new.file.log.events
        ≡ (if ok then synced else unsynced) ∷ old.file.log.events) };

    ghost stays = { λ device n block is. left_is_known (λ block. block) device.file.log.events n block is };

    fn has(&self, n: u64) -> bool {
        n < self.count
    }

    fn is_usable(&self) -> bool {
        self.is_usable
    }

    fn read(&mut self, n: u64) -> Result<[u8; N], FileError> {
        self.file.read_block(n)
    }

    fn write(&mut self, n: u64, block: &[u8; N]) -> Result<(), FileError> {
        self.file.write_block(n, block)
    }

    fn sync(&mut self) -> Result<(), FileError> {
        let synced = self.file.sync();
        self.is_usable = synced.is_ok();
        synced
    }
}
