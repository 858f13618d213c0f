ghost use Rattle.std.specs.Prelude.{◌≡◌, ◌+◌, ◌<◌, ◌++◌, [], ◌∷◌, IfOk, OnErr};
ghost use Rattle.std.specs.Vec.{vec_len, vec_capacity};
ghost use Rattle.lru_model.specs.Callbacks.{InsertPasses};
ghost use Rattle.lru_model.specs.State.{IsMap};
ghost use Rattle.lru_model.specs.Theorems.{InsertEnds};

use crate::map::LruMap;
use lru_limits::{Insertion, KeyHasher, Limiter, LookupKey};
use lru_model::laws::inserts_pass_few;
use std::alloc::AllocError;
use std::hash::Hash;

impl<K: Eq + Hash + Drop, V: Drop, L: Limiter<K, V>, S: KeyHasher<K>> LruMap<K, V, L, S> {
    /// Does what `insert_with` does, but returns the entries with the result instead of passing them to a callback.
    ///
    /// ```
    /// let (done, left) = map.insert_and_keep(4, 40)?;
    /// assert!(rt; done == Ok(true) && left.as_slice() == [(1, 10)].as_slice());
    /// ```
    ///
    /// Cost: as `insert`, and memory for one entry more than the map contains, even if nothing is evicted. If the map
    /// is large, call `insert_with`.
    ///
    /// # Errors
    ///
    /// The allocation for the returned entries failed. The map has not changed, and the key and the value are dropped.
    pub fn insert_and_keep<I: LookupKey<K> + Drop>(
        &mut self,
        key: I,
        value: V,
    ) -> Result<(Result<bool, AllocError>, Vec<(K, V)>), AllocError>
    where
        L: Insertion<K, V, I>,
        ensures passed { IfOk result (λ answer. InsertPasses L.rules L.offers I.names
            S.hash_of key value self.old answer.0 answer.1.items self.new) }
        ensures ends { IfOk result
            (λ answer. InsertEnds L.rules L.offers I.names S.hash_of key value self.old answer.0 self.new) }
        ensures unchanged { OnErr result (self.new ≡ self.old) }
        ensures map { IsMap K.eq self.new }
    {
        inserts_pass_few::<K, V, I, L, S>();
        let mut left = Vec::with_capacity(self.alloc, self.len() + 1)?;
        let done = self.insert_with(key, value, &mut |key, value| keep(&mut left, (key, value)));
        Ok((done, left))
    }
}

fn keep<K: Drop, V: Drop>(pairs: &mut Vec<(K, V)>, pair: (K, V))
    ensures items { vec_len pairs.old < vec_capacity pairs.old → pairs.new.items ≡ pairs.old.items ++ pair ∷ [] }
    ensures len { vec_len pairs.old < vec_capacity pairs.old → vec_len pairs.new ≡ vec_len pairs.old + 1 }
    ensures capacity { vec_capacity pairs.new ≡ vec_capacity pairs.old }
{
    if pairs.len() < pairs.capacity() {
        pairs.push_reserved(pair);
    }
}
