//! A disk in memory that can fail and crash.
ghost use Rattle.std.specs.Prelude.{◌≡◌, ◌⊎◌, ◌↔◌, ℕ, Some, nat_lt, slice_index, IsTrue};
ghost use Rattle.std.proofs.Common.{inl, sym, ap, unwrap_or};

use lru_caches::BlockDevice;
use std::cell::Cell;

#[derive(Clone, Copy, Debug, PartialEq)]
pub struct DiskError;

/// What a failed write leaves in its block.
pub const TORN: u64 = 99;

/// A disk of four blocks. A written block stays in a volatile cache until a sync.
///
/// After `calls_left` calls, the next call fails. A failed write leaves its block torn. A crash or a failed `sync`
/// undoes the writes to the blocks of `dropped` since the last sync, and keeps all other writes.
#[derive(Drop)]
pub struct Disk<'a> {
    pub blocks: [u64; 4],
    synced: [u64; 4],
    dropped: [bool; 4],
    pub calls_left: &'a Cell<u64>,
    faults: u64,
    is_usable: bool,
}

impl<'a> Disk<'a> {
    pub fn new(blocks: [u64; 4], dropped: [bool; 4], calls_left: &'a Cell<u64>) -> Self
        ensures usable { IsTrue result.is_usable }
    {
        Disk {
            blocks,
            synced: blocks,
            dropped,
            calls_left,
            faults: 0,
            is_usable: true,
        }
    }

    fn works(&mut self) -> bool
        ensures same { self.new ≡ record self.old { faults = self.new.faults } }
        ensures faults { self.new.faults ≡ self.old.faults ↔ IsTrue result }
    {
        let left = self.calls_left.get();
        self.calls_left.set(left.wrapping_sub(1));
        if left == 0 {
            self.faults = self.faults.wrapping_add(1);
        }
        left > 0
    }

    fn lose(&mut self)
        ensures same { self.new ≡ record self.old { blocks = self.new.blocks; synced = self.new.synced } }
        ensures blocks { (n : ℕ) → (slice_index self.new.blocks n ≡ slice_index self.old.blocks n)
            ⊎ (slice_index self.new.blocks n ≡ slice_index self.old.synced n) }
        ensures synced { self.new.synced ≡ self.new.blocks }
    {
        for n in 0..4usize {
            if self.dropped[n] {
                self.blocks[n] = self.synced[n];
            }
        }
        self.synced = self.blocks;
    }

    pub fn crash(&mut self)
        ensures left { (n : ℕ) → (slice_index self.new.blocks n ≡ slice_index self.old.blocks n)
            ⊎ (slice_index self.new.blocks n ≡ slice_index self.old.synced n) }
        ensures usable { IsTrue self.new.is_usable }
    {
        self.lose();
        self.is_usable = true;
    }
}

impl BlockDevice<u64> for Disk<'_> {
    type Error = DiskError;

    type Seen = u64;

    ghost seen = { λ block. block };

    ghost has = { λ disk n. nat_lt n 4 };

    ghost blocks = { λ disk n. Some (slice_index disk.blocks n) };

    ghost may_leave = { λ disk n block. (block ≡ slice_index disk.blocks n) ⊎ (block ≡ slice_index disk.synced n) };

    ghost is_usable = { λ disk. disk.is_usable };

    ghost faults = { λ disk. disk.faults };

    ghost IsTorn = { λ block. block ≡ 99 };

    ghost stays = { λ disk n block is. inl (ap (λ o. unwrap_or o block) (sym is)) };

    fn has(&self, n: u64) -> bool {
        n < 4
    }

    fn is_usable(&self) -> bool {
        self.is_usable
    }

    fn read(&mut self, n: u64) -> Result<u64, DiskError> {
        if self.works() {
            Ok(self.blocks[n as usize])
        } else {
            Err(DiskError)
        }
    }

    fn write(&mut self, n: u64, block: &u64) -> Result<(), DiskError> {
        if self.works() {
            self.blocks[n as usize] = *block;
            Ok(())
        } else {
            self.blocks[n as usize] = TORN;
            Err(DiskError)
        }
    }

    fn sync(&mut self) -> Result<(), DiskError> {
        if self.works() {
            self.synced = self.blocks;
            Ok(())
        } else {
            self.lose();
            self.is_usable = false;
            Err(DiskError)
        }
    }
}
