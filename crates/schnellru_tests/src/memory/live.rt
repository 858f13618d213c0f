ghost use Rattle.std.specs.Prelude.{◌≡◌};

use std::alloc::AllocError;
use std::cell::Cell;

#[derive(Drop)]
pub struct Lives {
    pub keys: Cell<u64>,
    pub values: Cell<u64>,
    pub clones: Cell<u64>,
}

impl Lives {
    pub fn new() -> Lives {
        Lives {
            keys: Cell::new(0),
            values: Cell::new(0),
            clones: Cell::new(0),
        }
    }

    pub fn are(&self, n: u64) -> bool {
        (self.keys.get() == n) & (self.values.get() == n)
    }

    pub fn key(&self, number: u64) -> Live<'_> {
        Live::new(number, &self.keys, &self.clones)
    }

    pub fn value(&self, number: u64) -> Live<'_> {
        Live::new(number, &self.values, &self.clones)
    }
}

/// A number. `lives` counts how many numbers are alive.
#[derive_where(PartialEq, Eq, Hash)]
pub struct Live<'a> {
    pub number: u64,
    #[derive_where(skip)]
    pub lives: &'a Cell<u64>,
    #[derive_where(skip)]
    pub clones: &'a Cell<u64>,
}

impl<'a> Live<'a> {
    fn new(number: u64, lives: &'a Cell<u64>, clones: &'a Cell<u64>) -> Live<'a>
        ensures { result.number ≡ number }
    {
        lives.set(lives.get().wrapping_add(1));
        Live {
            number,
            lives,
            clones,
        }
    }
}

impl Drop for Live<'_> {
    fn drop(self) {
        let Live {
            number: _,
            lives,
            clones: _,
        } = self;
        lives.set(lives.get().wrapping_sub(1));
    }
}

impl Clone for Live<'_> {
    ghost is_clone = { λ s copy. copy.number ≡ s.number };

    fn clone(&self) -> Result<Self, AllocError> {
        self.clones
            .set(self.clones.get().checked_sub(1).ok_or(AllocError)?);
        Ok(Live::new(self.number, self.lives, self.clones))
    }
}
