ghost use Rattle.std.specs.Prelude.{◌≡◌, Some, IfSome, IfOk};
ghost use Rattle.std.specs.Borrow.{Bor};
ghost use Rattle.lru_model.specs.Lists.{last};
ghost use Rattle.lru_model.specs.State.{Frees, IsMap};
ghost use Rattle.lru_model.specs.Pops.{PopOldestIf, TryPopOldest, Says};

use crate::map::LruMap;
use lru_limits::{KeyHasher, Limiter};
use std::hash::Hash;

impl<K: Eq + Hash, V, L: Limiter<K, V>, S: KeyHasher<K>> LruMap<K, V, L, S> {
    /// Removes and returns the oldest entry if the closure returns true for it. Otherwise, returns `None` and changes
    /// nothing.
    ///
    /// If each use writes the time into the value, `while map.pop_oldest_if(..).is_some() {}` removes the entries that
    /// were not used since a given time.
    ///
    /// ```
    /// assert_eq!(rt; map.pop_oldest_if(|key, _| *key == 9), None);
    /// assert_eq!(rt; map.pop_oldest_if(|key, _| *key == 1), Some((1, 10)));
    /// ```
    ///
    /// Cost: `O(1)`, and one call of the closure.
    ///
    /// Follows std's `Vec::pop_if`.
    pub fn pop_oldest_if<F: FnOnce(&K, &V) -> bool>(&mut self, accepts: F) -> Option<(K, V)>
        requires callable { (key : Bor K) (value : Bor V) → last self.old.pairs ≡ Some (key.now, value.now)
            → F.pre accepts key value }
        ensures step { PopOldestIf L.rules (Says (F.post accepts)) self.old result self.new }
        ensures freed { IfSome result (λ _. Frees (last self.old.table.places) self.old.table self.new.table) }
        ensures map { IsMap K.eq self.new }
    {
        self.show_map();
        let (key, value) = self.peek_oldest()?;
        if !accepts(key, value) {
            return None;
        }
        self.pop_oldest()
    }

    /// Removes and returns the oldest entry if the closure succeeds for it. Returns `Ok(None)` if the map is empty.
    ///
    /// ```
    /// assert_eq!(rt; map.try_pop_oldest(|_, _| Err(7u8)), Err(7));
    /// assert_eq!(rt; map.try_pop_oldest(|_, _| -> Result<(), u8> { Ok(()) }), Ok(Some((1, 10))));
    /// ```
    ///
    /// Cost: `O(1)`, and one call of the closure.
    ///
    /// # Errors
    ///
    /// Returns the error of the closure, and changes nothing.
    pub fn try_pop_oldest<E, F: FnOnce(&K, &V) -> Result<(), E>>(
        &mut self,
        release: F,
    ) -> Result<Option<(K, V)>, E>
        requires callable { (key : Bor K) (value : Bor V) → last self.old.pairs ≡ Some (key.now, value.now)
            → F.pre release key value }
        ensures step { TryPopOldest L.rules (Says (F.post release)) self.old result self.new }
        ensures freed { IfOk result (λ popped. IfSome popped (λ _.
            Frees (last self.old.table.places) self.old.table self.new.table)) }
        ensures map { IsMap K.eq self.new }
    {
        self.show_map();
        match self.peek_oldest() {
            None => Ok(None),
            Some((key, value)) => match release(key, value) {
                Ok(()) => Ok(self.pop_oldest()),
                Err(error) => Err(error),
            },
        }
    }
}
