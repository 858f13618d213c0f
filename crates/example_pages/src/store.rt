//! A store of records. A transaction survives a crash whole or not at all.
//!
//! A transaction writes its pages to the log, syncs the log, and then writes the pages into the page cache. So the file
//! of pages never contains a page of a transaction that may still be lost. The log contains each page that a crash may
//! tear.
use crate::counted::Counted;
use crate::disk::Disk;
use crate::log::Log;
use crate::page::{
    Header, PAGE, Page, RECORDS, Record, header_of, put_header, put_record, record_at,
};
use lru_caches::{FileError, HashedFileDevice, PageCache, PageError};
use std::alloc::{AllocError, Global};

#[derive(Debug, Drop)]
pub enum StoreError {
    Pages(PageError<FileError>),
    Log(FileError),
    NoRecord,
    /// The transaction has more pages than the log.
    TooLarge,
    /// A commit failed half way. Only a recovery shows whether the commit took place.
    Interrupted,
    Memory,
}

impl From<PageError<FileError>> for StoreError {
    fn from(error: PageError<FileError>) -> StoreError {
        StoreError::Pages(error)
    }
}

impl From<FileError> for StoreError {
    fn from(error: FileError) -> StoreError {
        StoreError::Log(error)
    }
}

impl From<AllocError> for StoreError {
    fn from(_: AllocError) -> StoreError {
        StoreError::Memory
    }
}

#[derive(Clone, Copy)]
pub struct Sizes {
    pub pages: u64,
    pub log: u64,
    pub cache: usize,
}

#[derive(Clone, Copy, Default)]
pub struct Recovered {
    pub transactions: u64,
    /// How many torn pages were restored.
    pub torn: u64,
}

pub type Pages<'a> = PageCache<Page, Counted<HashedFileDevice<Disk<'a>, PAGE>>>;

pub struct Store<'a> {
    pages: Pages<'a>,
    log: Log<'a>,
    len: u64,
    /// The number of the next transaction.
    transaction: u64,
    is_interrupted: bool,
}

impl<'a> Store<'a> {
    pub fn new(alloc: Global, pages: Disk<'a>, log: Disk<'a>, sizes: Sizes) -> Self {
        let device = Counted::new(HashedFileDevice::new(pages, sizes.pages));
        Store {
            pages: PageCache::new(alloc, device, sizes.cache),
            log: Log::new(log, sizes.log),
            len: sizes.pages,
            transaction: 1,
            is_interrupted: false,
        }
    }

    pub fn format(&mut self) -> Result<(), StoreError> {
        self.log.format()?;
        for n in 0..self.len {
            self.pages.write(n, [0; PAGE])?;
        }
        self.checkpoint()
    }

    /// Writes all changed pages to their file. After that, the log is written from its front again.
    pub fn checkpoint(&mut self) -> Result<(), StoreError> {
        self.admit()?;
        self.pages.flush()?;
        self.log.restart();
        Ok(())
    }

    pub fn len(&self) -> u64 {
        self.len.saturating_mul(RECORDS)
    }

    fn admit(&self) -> Result<(), StoreError> {
        if self.is_interrupted {
            return Err(StoreError::Interrupted);
        }
        Ok(())
    }

    fn place_of(&self, id: u64) -> Result<(u64, u64), StoreError> {
        let page = id.checked_div(RECORDS).unwrap_or(self.len);
        let slot = id.checked_rem(RECORDS).unwrap_or(0);
        if page < self.len {
            Ok((page, slot))
        } else {
            Err(StoreError::NoRecord)
        }
    }

    pub fn get(&mut self, id: u64) -> Result<Record, StoreError> {
        self.admit()?;
        let (page, slot) = self.place_of(id)?;
        let page = self.pages.read(page)?;
        Ok(record_at(&page, slot))
    }

    /// Replaces these records. After an error, either no record is replaced, or the store is interrupted.
    pub fn commit(&mut self, alloc: Global, changes: &[(u64, Record)]) -> Result<(), StoreError> {
        self.admit()?;
        let mut pages: Vec<Page> = Vec::new(alloc);
        for (id, record) in changes {
            self.change(&mut pages, *id, record)?;
        }
        let count = pages.len() as u64;
        for (place, page) in pages.iter_mut().enumerate() {
            let header = Header {
                transaction: self.transaction,
                number: header_of(page).number,
                place: place as u64,
                count,
            };
            put_header(page, header);
        }
        self.make_room(pages.len())?;
        self.is_interrupted = true;
        self.write_pages(pages.as_slice())?;
        self.is_interrupted = false;
        Ok(())
    }

    fn make_room(&mut self, pages: usize) -> Result<(), StoreError> {
        if !self.log.has_room_for(pages) {
            self.checkpoint()?;
        }
        if self.log.has_room_for(pages) {
            Ok(())
        } else {
            Err(StoreError::TooLarge)
        }
    }

    fn write_pages(&mut self, pages: &[Page]) -> Result<(), StoreError> {
        self.log.append(pages)?;
        self.transaction = self.transaction.saturating_add(1);
        for page in pages {
            self.pages.write(header_of(page).number, *page)?;
        }
        Ok(())
    }

    /// Puts a record into its page. If the page is not among the changed pages, reads it first.
    fn change(
        &mut self,
        pages: &mut Vec<Page>,
        id: u64,
        record: &Record,
    ) -> Result<(), StoreError> {
        let (number, slot) = self.place_of(id)?;
        for page in pages.iter_mut() {
            if header_of(page).number == number {
                put_record(page, slot, record);
                return Ok(());
            }
        }
        let mut page = self.pages.read(number)?;
        put_record(&mut page, slot, record);
        let header = Header {
            number,
            ..header_of(&page)
        };
        put_header(&mut page, header);
        pages.push(page).map_err(|_| StoreError::Memory)
    }

    /// Makes the store whole after a crash. The store then has each transaction whose `commit` returned `Ok`, and may
    /// have the interrupted transaction.
    pub fn recover(&mut self) -> Result<Recovered, StoreError> {
        let mut recovered = Recovered::default();
        let mut next = 0u64;
        for _ in 0..self.log.len() {
            let Some(count) = self.log.transaction_at(next)? else {
                break;
            };
            for place in 0..count {
                self.redo(next.saturating_add(place), &mut recovered)?;
            }
            recovered.transactions = recovered.transactions.saturating_add(1);
            next = next.saturating_add(count);
        }
        self.transaction = self.newest()?.saturating_add(1);
        self.checkpoint()?;
        Ok(recovered)
    }

    /// Copies page n of the log to its place in the file, if the page in this place is torn or belongs to an earlier
    /// transaction.
    fn redo(&mut self, n: u64, recovered: &mut Recovered) -> Result<(), StoreError> {
        let Some(page) = self.log.read(n)? else {
            return Ok(());
        };
        let header = header_of(&page);
        match self.pages.read(header.number) {
            Ok(old) => {
                if header_of(&old).transaction < header.transaction {
                    self.pages.write(header.number, page)?;
                }
            }
            Err(PageError::Device(FileError::Damaged)) => {
                recovered.torn = recovered.torn.saturating_add(1);
                self.pages.write(header.number, page)?;
            }
            Err(error) => return Err(StoreError::Pages(error)),
        }
        Ok(())
    }

    /// Returns the greatest transaction number on the pages of the log and the file. Fails if a page of the file is
    /// torn.
    fn newest(&mut self) -> Result<u64, StoreError> {
        let mut newest = self.log.newest()?;
        for n in 0..self.len {
            let page = self.pages.read(n)?;
            newest = header_of(&page).transaction.max(newest);
        }
        Ok(newest)
    }

    pub fn cache(&self) -> &Pages<'a> {
        &self.pages
    }

    /// Returns the file of pages and the log. Changes that were not written to these files are lost.
    pub fn into_files(self) -> (Disk<'a>, Disk<'a>) {
        let Store {
            pages,
            log,
            len: _,
            transaction: _,
            is_interrupted: _,
        } = self;
        (pages.discard().into_inner().into_file(), log.into_file())
    }
}
