ghost use Rattle.std.specs.Prelude.{◌≡◌, ◌≢◌, ◌⊎◌, ℕ, Bool, Option, Some, IsTrue, ◌↔◌, is_ok, IfOk, OnOk, IsOk};

/// A device of numbered blocks, such as a disk or a file. Each `read`, `write` or `sync` may fail.
///
/// After a crash, each block may be the block of the last `sync`, a block that was written later, or a torn block. A
/// write changes only its own block, even if the write fails or the machine stops in the middle. After a failed `sync`,
/// no clause says what the blocks are, and no `read`, `write` or `sync` may be called.
///
/// For most devices, contracts see the block itself: `ghost seen = { λ block. block };`.
///
/// ```
/// let calls_left = Cell::new(2);           // the third call fails
/// let mut disk = Disk::new([10, 11, 12, 13], [false; 4], &calls_left);
/// assert_eq!(rt; disk.write(1, &20), Ok(()));
/// assert_eq!(rt; disk.read(1), Ok(20));
/// assert_eq!(rt; disk.read(1), Err(DiskError));
/// assert_eq!(rt; disk.sync(), Ok(()));
/// ```
pub trait BlockDevice<B> {
    /// Why a call fails.
    type Error;

    /// The type of a block, as contracts see it.
    type Seen;

    /// A block, as contracts see it.
    ghost seen: { B → Self.Seen };

    /// Whether the device has a block with this number. No call changes this.
    ghost has: { Self → ℕ → Bool };

    /// The block with each number, or `None` if the block is not known.
    ghost blocks: { Self → ℕ → Option Self.Seen };

    /// Says that a crash at this moment may leave this block at this number.
    ghost may_leave: { Self → ℕ → Self.Seen → Type 0 };

    /// True unless a `sync` has failed.
    ghost is_usable: { Self → Bool };

    /// A number that changes exactly when a call fails, such as the number of failed calls.
    ghost faults: { Self → ℕ };

    /// The blocks that a crash during a write may leave, besides the old and the new block. By default, a crash may
    /// leave any block. A device that never tears a block defines `λ _. ⊥` (none).
    ghost IsTorn: { Self.Seen → Type 0 } = { λ _. Unit {0} };

    /// Says that every read of a known block so far returned this block. For a file, `IsHonest` is a premise.
    ghost IsHonest: { Self → Type 0 } = { λ _. Unit {0} };

    /// Says that a `write` of this block to this number may change the first state into the second state. By default,
    /// `write_gives` holds for any two states.
    ghost write_gives: { Self → ℕ → Self.Seen → Self → Type 0 } = { λ _ _ _ _. Unit {0} };

    /// Says that a `sync` may change the first state into the second state.
    ghost sync_gives: { Self → Self → Type 0 } = { λ _ _. Unit {0} };

    /// Returns whether the device has a block with this number.
    fn has(&self, n: u64) -> bool
        ensures { result ≡ has self.now n };

    /// Returns true unless a `sync` has failed.
    fn is_usable(&self) -> bool
        ensures { result ≡ is_usable self.now };

    /// Returns a block. A block that was not known may become known.
    ///
    /// # Errors
    ///
    /// The device failed. No block has changed.
    fn read(&mut self, n: u64) -> Result<B, Self::Error>
        requires there { IsTrue (has self.old n) }
        requires usable { IsTrue (is_usable self.old) }
        ensures block { IfOk result (λ block. IsHonest self.new → blocks self.new n ≡ Some (seen block)) }
        ensures keeps { (m : ℕ) (b : Self.Seen) → blocks self.old m ≡ Some b → blocks self.new m ≡ Some b }
        ensures crash { (m : ℕ) (b : Self.Seen) → may_leave self.new m b → may_leave self.old m b }
        ensures cause { faults self.new ≡ faults self.old ↔ IsOk result }
        ensures honest { IsHonest self.new → IsHonest self.old }
        ensures usable { IsTrue (is_usable self.new) }
        ensures numbers { (m : ℕ) → has self.new m ≡ has self.old m };

    /// Replaces a block. A crash may now also leave the new block or a torn block.
    ///
    /// # Errors
    ///
    /// The device failed. The block with this number may be anything now, and no other block has changed.
    fn write(&mut self, n: u64, block: &B) -> Result<(), Self::Error>
        requires there { IsTrue (has self.old n) }
        requires usable { IsTrue (is_usable self.old) }
        ensures gives { write_gives self.old n (seen block.now) self.new }
        ensures written { OnOk result (blocks self.new n ≡ Some (seen block.now)) }
        ensures others { (m : ℕ) → m ≢ n → blocks self.new m ≡ blocks self.old m }
        ensures crash { (m : ℕ) (b : Self.Seen) → may_leave self.new m b
            → may_leave self.old m b ⊎ ((m ≡ n) × ((b ≡ seen block.now) ⊎ IsTorn b)) }
        ensures cause { faults self.new ≡ faults self.old ↔ IsOk result }
        ensures honest { IsHonest self.new → IsHonest self.old }
        ensures usable { IsTrue (is_usable self.new) }
        ensures numbers { (m : ℕ) → has self.new m ≡ has self.old m };

    /// Makes the blocks durable. After an `Ok`, a crash leaves each known block as it is.
    ///
    /// # Errors
    ///
    /// The device failed, and is not usable from then on. What was written since the last `sync` may be lost.
    fn sync(&mut self) -> Result<(), Self::Error>
        requires usable { IsTrue (is_usable self.old) }
        ensures gives { sync_gives self.old self.new }
        ensures keeps { OnOk result ((m : ℕ) → blocks self.new m ≡ blocks self.old m) }
        ensures durable { OnOk result ((m : ℕ) (block b : Self.Seen) → blocks self.new m ≡ Some block
            → may_leave self.new m b → b ≡ block) }
        ensures crash { (m : ℕ) (b : Self.Seen) → may_leave self.new m b → may_leave self.old m b }
        ensures cause { faults self.new ≡ faults self.old ↔ IsOk result }
        ensures honest { IsHonest self.new → IsHonest self.old }
        ensures usable { is_usable self.new ≡ is_ok result }
        ensures numbers { (m : ℕ) → has self.new m ≡ has self.old m };

    /// A crash may leave each known block unchanged, so no impl can claim that crashes are impossible.
    ghost stays: { (device : Self) (n : ℕ) (b : Self.Seen) → blocks device n ≡ Some b → may_leave device n b };
}
