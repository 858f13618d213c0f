//! The figures of a table of at most 16 buckets, by the rules of `docs/TABLE.md`. A table of this size has no deleted
//! buckets, so the calls determine its figures.
use lru_model::ReserveError;

/// The greatest number of buckets for links of 32 bits.
const MOST_BUCKETS: u64 = 1 << 31;

#[derive(Clone, Copy, Default)]
pub(crate) struct Table {
    pub(crate) buckets: u64,
    pub(crate) moved: u64,
    pub(crate) placed: u64,
    pub(crate) shrunk: u64,
}

/// Returns the number of buckets for `pairs` pairs: 0 for none, and otherwise the first of 4, 8, 16, .. that can hold
/// the pairs.
fn buckets_for(pairs: u64) -> u64 {
    match pairs {
        0 => 0,
        1..=3 => 4,
        4..=7 => 8,
        _ => (pairs.saturating_mul(8) / 7)
            .checked_next_power_of_two()
            .unwrap_or(u64::MAX),
    }
}

fn bytes(buckets: u64, entry_bytes: u64) -> u64 {
    if buckets == 0 {
        return 0;
    }
    let entries = buckets.saturating_mul(entry_bytes).saturating_add(15) / 16;
    entries
        .saturating_mul(16)
        .saturating_add(buckets)
        .saturating_add(16)
}

impl Table {
    pub(crate) fn capacity(&self) -> u64 {
        match self.buckets {
            0 => 0,
            16 => 14,
            _ => self.buckets.saturating_sub(1),
        }
    }

    pub(crate) fn bytes(&self, entry_bytes: u64) -> u64 {
        bytes(self.buckets, entry_bytes)
    }

    pub(crate) fn grow(&mut self, len: u64, most: u64, entry_bytes: u64) -> bool {
        let buckets = buckets_for(len.saturating_add(1));
        if bytes(buckets, entry_bytes) > most {
            return false;
        }
        self.buckets = buckets;
        self.moved = self.moved.saturating_add(len);
        true
    }

    pub(crate) fn reserve(
        &mut self,
        pairs: u64,
        most: u64,
        entry_bytes: u64,
    ) -> Result<(), ReserveError> {
        if pairs <= self.capacity() {
            return Ok(());
        }
        let buckets = buckets_for(pairs);
        if buckets > MOST_BUCKETS {
            return Err(ReserveError::TooLarge);
        }
        if bytes(buckets, entry_bytes) > most {
            return Err(ReserveError::Refused);
        }
        self.buckets = buckets;
        Ok(())
    }

    pub(crate) fn shrink(&mut self, len: u64) {
        let buckets = buckets_for(len);
        if buckets < self.buckets {
            self.buckets = buckets;
            self.shrunk = self.shrunk.saturating_add(len);
        }
    }
}
