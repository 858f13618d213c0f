ghost use Rattle.std.specs.Prelude.{MatchResult, List, Some};
ghost use Rattle.std.specs.Iterator.{IsFiniteIterable, Drains, YieldsThen};
ghost use Rattle.lru_model.specs.Extends.{InsertsAll, FailsAt};
ghost use Rattle.lru_model.specs.State.{IsMap};

use crate::map::LruMap;
use lru_limits::{Insertion, KeyHasher};
use std::alloc::AllocError;
use std::hash::Hash;

impl<K: Eq + Hash + Drop, V: Drop, L: Insertion<K, V, K>, S: KeyHasher<K>> LruMap<K, V, L, S> {
    /// Inserts entries one after another, as `insert` does.
    ///
    /// ```
    /// map.try_extend([(4, 40), (5, 50)])?;
    /// assert!(rt; map.peek_newest() == Some((&5, &50)));
    /// ```
    ///
    /// Cost: as `insert`, for each entry.
    ///
    /// # Errors
    ///
    /// The insert of an entry ran out of memory. The earlier entries were inserted, and the later entries were not. No
    /// contract says whether the iterator yielded later entries.
    ///
    /// Follows std's `Extend::extend`.
    pub fn try_extend<T: IntoIterator<Item = (K, V)>>(
        &mut self,
        entries: T,
    ) -> Result<(), AllocError>
    where
        T::IntoIter: Drop,
        requires finite { IsFiniteIterable T.into_iter_gives T.IntoIter.can_next T.IntoIter.remaining entries }
        ensures inserts { (walk : T.IntoIter) × T.into_iter_gives entries walk × MatchResult result
            (λ _. (pairs : List (K × V)) × Drains T.IntoIter.next_gives walk pairs
            × InsertsAll L.rules L.offers K.eq S.hash_of self.old pairs self.new)
            (λ _. (pairs : List (K × V)) × (pair : K × V) × (rest : T.IntoIter)
            × YieldsThen T.IntoIter.next_gives walk pairs (Some pair) rest
            × FailsAt L.rules L.offers K.eq S.hash_of self.old pairs pair self.new) }
        ensures map { IsMap K.eq self.new }
    {
        for (key, value) in entries {
            self.insert(key, value)?;
        }
        self.show_map();
        Ok(())
    }
}
