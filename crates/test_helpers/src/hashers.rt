//! A hasher whose hashes a test chooses.
ghost use Rattle.std.specs.Prelude.{◌≡◌, fold};

use std::hash::{BuildHasher, Hasher};

/// Hashes to the last byte that was written. The last byte of a number is its highest byte, so a `u64` below 2^56 has
/// the hash 0.
#[derive(Clone, Copy)]
pub struct LastByte(pub u64);

impl Hasher for LastByte {
    ghost write = { λ s bytes. record { 0 = fold (λ _ b. b) s.0 bytes } };

    ghost finish = { λ s. s.0 };

    fn write(&mut self, bytes: &[u8]) {
        self.0 = bytes.iter().fold(self.0, |_, b| *b as u64);
    }

    fn finish(&self) -> u64 {
        self.0
    }
}

impl BuildHasher for LastByte {
    type Hasher = LastByte;

    ghost build_hasher = { λ s. s };

    fn build_hasher(&self) -> LastByte {
        *self
    }
}
