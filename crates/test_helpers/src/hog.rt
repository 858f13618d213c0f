//! Memory that a test takes for itself, so that `Global` refuses the requests of others.
//!
//! No contract can say what memory is left, so these calls are only proved safe.
use std::alloc::{AllocError, Global};

// The first request has the size `LARGEST`. A failed request halves the size if it is above `SMALL`, and otherwise
// lowers it by `STEP`.
const LARGEST: usize = 1 << 46;

const SMALL: usize = 2048;

const STEP: usize = 8;

const MOST: usize = 1 << 17;

pub struct Hog {
    held: Vec<Vec<u8>>,
    spare: Vec<Vec<u8>>,
}

impl Drop for Hog {
    fn drop(self) {
        let Hog { held, spare } = self;
        drop(held);
        drop(spare);
    }
}

fn smaller(size: usize) -> usize {
    if size > SMALL {
        size / 2
    } else {
        size.saturating_sub(STEP)
    }
}

impl Hog {
    pub fn new(alloc: Global, requests: &[usize]) -> Result<Hog, AllocError> {
        let mut spare = Vec::with_capacity(alloc, requests.len())?;
        for size in requests.iter().rev() {
            spare.push(Vec::with_capacity(alloc, *size)?)?;
        }
        let mut held = Vec::with_capacity(alloc, MOST)?;
        let mut size = LARGEST;
        for _ in 0..1_000_000u32 {
            if size == 0 || held.len() == MOST {
                break;
            }
            match Vec::with_capacity(alloc, size) {
                Ok(block) => held.push(block)?,
                Err(_) => size = smaller(size),
            }
        }
        Ok(Hog { held, spare })
    }

    /// Takes all memory except `blocks` blocks of 8,192 bytes, so that `blocks` small requests succeed.
    pub fn but(alloc: Global, blocks: usize) -> Result<Hog, AllocError> {
        let sizes = vec![in alloc; 8192; blocks]?;
        let mut hog = Hog::new(alloc, sizes.as_slice())?;
        for _ in 0..blocks {
            hog.release();
        }
        Ok(hog)
    }

    pub fn release(&mut self) {
        drop(self.spare.pop());
    }

    /// Returns whether all memory was taken. An allocator with its own checks may never give all memory.
    pub fn took_all(&self) -> bool {
        self.held.len() < MOST
    }
}
