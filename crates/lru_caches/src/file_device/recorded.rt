ghost use Rattle.std.specs.Prelude.{◌≡◌, ◌≤◌, [], ◌∷◌, is_ok, if◌then◌else◌, MatchResult, IfOk};
ghost use Rattle.lru_caches.specs.Checksums.{with_checksum};
ghost use Rattle.lru_caches.specs.Files.{was_read, unread, written, unwritten, synced, unsynced};

use crate::file_device::FileError;
use crate::file_device::checksum::checked;
use crate::file_device::durable::Durable;
use crate::file_device::record::Record;
use std::io::{self, Read, Seek, SeekFrom, Write};

const UNREAD: u64 = 0;

const READ: u64 = 1;

const UNWRITTEN: u64 = 2;

const WRITTEN: u64 = 3;

const UNSYNCED: u64 = 4;

const SYNCED: u64 = 5;

#[derive(Drop)]
pub struct RecordedFile<F> {
    pub(super) file: F,
    log: Record,
}

impl<F> RecordedFile<F> {
    pub(super) fn new(file: F) -> Self
        ensures { result.log.events ≡ [] }
    {
        RecordedFile {
            file,
            log: Record::new(),
        }
    }

    pub(super) fn into_inner(self) -> F {
        let RecordedFile { file, log: _ } = self;
        file
    }
}

impl<F: Read + Write + Seek> RecordedFile<F> {
    pub(super) fn read_block<const N: usize>(&mut self, n: u64) -> Result<[u8; N], FileError>
        ensures { MatchResult result
            (λ block. self.new.log.events ≡ was_read n block ∷ self.old.log.events)
            (λ _. self.new.log.events ≡ unread n ∷ self.old.log.events) }
    {
        let read = read_at(&mut self.file, n);
        self.note_read(n, read)
    }

    pub(super) fn read_checked<const N: usize>(&mut self, n: u64) -> Result<[u8; N], FileError>
        requires { 8 ≤ N }
        ensures noted { MatchResult result
            (λ block. self.new.log.events ≡ was_read n block ∷ self.old.log.events)
            (λ _. self.new.log.events ≡ unread n ∷ self.old.log.events) }
        ensures fits { IfOk result (λ block. block ≡ with_checksum n block) }
    {
        let read = checked(read_at(&mut self.file, n), n);
        self.note_read(n, read)
    }

    fn note_read<const N: usize>(
        &mut self,
        n: u64,
        read: Result<[u8; N], FileError>,
    ) -> Result<[u8; N], FileError>
        ensures same { result ≡ read.entry }
        ensures noted { MatchResult result
            (λ block. self.new.log.events ≡ was_read n block ∷ self.old.log.events)
            (λ _. self.new.log.events ≡ unread n ∷ self.old.log.events) }
    {
        match &read {
            Ok(block) => self.log.note(&[READ, n], block),
            Err(_) => self.log.note(&[UNREAD, n], &[]),
        }
        read
    }

    pub(super) fn write_block<const N: usize>(
        &mut self,
        n: u64,
        block: &[u8; N],
    ) -> Result<(), FileError>
        ensures { self.new.log.events
            ≡ (if is_ok result then written n block.now else unwritten n block.now) ∷ self.old.log.events }
    {
        match write_at(&mut self.file, n, block) {
            Ok(()) => {
                self.log.note(&[WRITTEN, n], block);
                Ok(())
            }
            Err(_) => {
                self.log.note(&[UNWRITTEN, n], block);
                Err(FileError::File)
            }
        }
    }
}

impl<F: Write + Durable> RecordedFile<F> {
    pub(super) fn sync(&mut self) -> Result<(), FileError>
        ensures { self.new.log.events ≡ (if is_ok result then synced else unsynced) ∷ self.old.log.events }
    {
        match sync_file(&mut self.file) {
            Ok(()) => {
                self.log.note(&[SYNCED, 0], &[]);
                Ok(())
            }
            Err(_) => {
                self.log.note(&[UNSYNCED, 0], &[]);
                Err(FileError::File)
            }
        }
    }
}

fn seek_to<F: Seek>(file: &mut F, n: u64, size: usize) -> io::Result<()> {
    match n.checked_mul(size as u64) {
        Some(at) => {
            file.seek(SeekFrom::Start(at))?;
            Ok(())
        }
        None => Err(io::ErrorKind::InvalidInput.into()),
    }
}

// Returns how many whole blocks of this size the file contains.
pub(super) fn blocks_of<F: Seek>(file: &mut F, size: usize) -> Result<u64, FileError> {
    match file.seek(SeekFrom::End(0)) {
        Ok(len) => len.checked_div(size as u64).ok_or(FileError::File),
        Err(_) => Err(FileError::File),
    }
}

fn read_at<F: Read + Seek, const N: usize>(file: &mut F, n: u64) -> Result<[u8; N], FileError> {
    let mut block = [0u8; N];
    match seek_to(file, n, N) {
        Ok(()) => match file.read_exact(&mut block) {
            Ok(()) => Ok(block),
            Err(_) => Err(FileError::File),
        },
        Err(_) => Err(FileError::File),
    }
}

fn write_at<F: Write + Seek>(file: &mut F, n: u64, block: &[u8]) -> io::Result<()> {
    seek_to(file, n, block.len())?;
    file.write_all(block)
}

fn sync_file<F: Write + Durable>(file: &mut F) -> io::Result<()> {
    file.flush()?;
    file.make_durable()
}
