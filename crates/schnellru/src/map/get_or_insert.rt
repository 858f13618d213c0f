ghost use Rattle.std.specs.Prelude.{◌≡◌, ◌<◌, true, length, None, Ok, OnErr, IsErrOf};
ghost use Rattle.lru_model.specs.Lists.{lookup};
ghost use Rattle.lru_model.specs.State.{IsMap};
ghost use Rattle.lru_model.specs.GetOrInserts.{MakesNewest, GetsOrInserts, SaysNewest, IsOutOfMemoryFor};
ghost use Rattle.lru_model.specs.GetOrInserts.{MakesNewestIfMade, GetsOrInsertsIfMade};
ghost use Rattle.std.specs.Borrow.{sem};
ghost use Rattle.schnellru.specs.Lending.Answers.{lent_or_none};

use crate::map::LruMap;
use crate::map::remove::discard;
use lru_limits::{Insertion, KeyHasher, Limiter, LookupKey};
use lru_model::GetOrInsertError;
use std::alloc::AllocError;
use std::hash::Hash;

#[derive(Drop)]
pub(crate) enum NotLent<E> {
    NotKept,
    Failed(E),
}

fn kept_or_error<V, E>(
    lent: Result<&mut V, NotLent<GetOrInsertError<E>>>,
) -> Result<Option<&mut V>, GetOrInsertError<E>>
    ensures { result ≡ lent_or_none lent.entry }
{
    match lent {
        Ok(value) => Ok(Some(value)),
        Err(NotLent::NotKept) => Ok(None),
        Err(NotLent::Failed(error)) => Err(error),
    }
}

fn kept_or<V>(lent: Result<&mut V, NotLent<AllocError>>) -> Result<Option<&mut V>, AllocError>
    ensures { result ≡ lent_or_none lent.entry }
{
    match lent {
        Ok(value) => Ok(Some(value)),
        Err(NotLent::NotKept) => Ok(None),
        Err(NotLent::Failed(e)) => Err(e),
    }
}

impl<K: Eq + Hash + Drop, V: Drop, L: Limiter<K, V>, S: KeyHasher<K>> LruMap<K, V, L, S> {
    ghost use Rattle.schnellru.specs.Lending.Made.{lends_or, lends_made};

    /// Makes the entry of a key the newest. If the key is not there, inserts the key as `insert` does, with the value
    /// that the closure returns. Returns whether the key is in the map afterwards.
    ///
    /// ```
    /// if map.ensure_newest(1, || 0)? {
    ///     if let Some(count) = map.newest_mut() {
    ///         *count = count.saturating_add(1);
    ///     }
    /// }
    /// ```
    ///
    /// Cost: as `get` if the key is there, else as `insert`.
    ///
    /// # Errors
    ///
    /// Fails as `insert` does, after the closure was called.
    pub fn ensure_newest<I: LookupKey<K> + Drop, F: FnOnce() -> V>(
        &mut self,
        key: I,
        make: F,
    ) -> Result<bool, AllocError>
    where
        L: Insertion<K, V, I>,
        requires callable { lookup (I.names key) self.old.pairs ≡ None → F.pre make }
        ensures step { MakesNewest L.rules L.offers I.names S.hash_of (F.post make) key self.old result self.new }
        ensures says { SaysNewest L.rules (I.names key) self.old result self.new }
        ensures out_of_memory { OnErr result
            (IsOutOfMemoryFor L.rules L.offers I.names S.hash_of (F.post make) key self.old self.new) }
        ensures map { IsMap K.eq self.new }
    {
        self.show_map();
        let answer = self.make_newest(key, make);
        self.show_map();
        answer
    }

    fn make_newest<I: LookupKey<K> + Drop, F: FnOnce() -> V>(
        &mut self,
        key: I,
        make: F,
    ) -> Result<bool, AllocError>
    where
        L: Insertion<K, V, I>,
        requires callable { lookup (I.names key) self.old.pairs ≡ None → F.pre make }
        ensures { MakesNewest L.rules L.offers I.names S.hash_of (F.post make) key self.old result self.new }
    {
        let hash = self.hasher.hash_named(&key);
        match self.find_hashed(hash, &key) {
            Some(b) => {
                self.promote_at(b);
                Ok(true)
            }
            None => self.insert_new(hash, key, make(), &mut discard),
        }
    }

    #[inline]
    fn lend_if_kept<E>(&mut self, kept: Result<bool, E>) -> Result<&mut V, NotLent<E>>
        requires { kept ≡ Ok true → 0 < length self.old.pairs }
        ensures* writes_back { sem 𝓛 (lends_or K.row V.row L.row S.row L.LinkType.row S.Hasher.row K.Hash L.Limiter
            L.LinkType.LinkType S.KeyHasher S.Hasher.Hasher self.entry
            (λ answer map. (answer ≡ kept) × (map ≡ self.old)) result) }
    {
        self.show_map();
        match kept {
            Ok(true) => Ok(self.newest_value_mut()),
            Ok(false) => Err(NotLent::NotKept),
            Err(error) => Err(NotLent::Failed(error)),
        }
    }

    pub(crate) fn lend_or_insert<I: LookupKey<K> + Drop, F: FnOnce() -> V>(
        &mut self,
        key: I,
        make: F,
    ) -> Result<&mut V, NotLent<AllocError>>
    where
        L: Insertion<K, V, I>,
        requires callable { lookup (I.names key) self.old.pairs ≡ None → F.pre make }
        ensures* writes_back { sem 𝓛 (lends_or K.row V.row L.row S.row L.LinkType.row S.Hasher.row K.Hash L.Limiter
            L.LinkType.LinkType S.KeyHasher S.Hasher.Hasher self.entry
            (GetsOrInserts L.rules L.offers I.names S.hash_of (F.post make) key self.old) result) }
    {
        let kept = self.ensure_newest(key, make);
        self.lend_if_kept(kept)
    }

    /// Lends the value of a key for writing. If the key is not there, inserts it with the value that the closure
    /// returns.
    ///
    /// If the key is there, its entry becomes the newest, and the closure is not called. If the new entry is not in the
    /// map afterwards, the result is `None`. A caller's proof cannot use the clause `writes_back`, so proved code calls
    /// `ensure_newest` and `newest_mut` instead.
    ///
    /// ```
    /// assert_eq!(rt; map.get_or_insert(1, || 10)?.copied(), Some(10));
    /// assert_eq!(rt; map.get_or_insert(1, || 20)?.copied(), Some(10));
    /// ```
    ///
    /// Cost: as `get` if the key is there, else as `insert`.
    ///
    /// # Errors
    ///
    /// Fails as `insert` does, after the closure was called.
    ///
    /// Follows schnellru's `LruMap::get_or_insert`.
    pub fn get_or_insert<I: LookupKey<K> + Drop, F: FnOnce() -> V>(
        &mut self,
        key: I,
        make: F,
    ) -> Result<Option<&mut V>, AllocError>
    where
        L: Insertion<K, V, I>,
        requires callable { lookup (I.names key) self.old.pairs ≡ None → F.pre make }
        ensures* writes_back { sem 𝓛 (lends_made K.row V.row L.row S.row L.LinkType.row S.Hasher.row K.Hash L.Limiter
            L.LinkType.LinkType S.KeyHasher S.Hasher.Hasher self.entry
            (GetsOrInserts L.rules L.offers I.names S.hash_of (F.post make) key self.old) result) }
    {
        let lent = self.lend_or_insert(key, make);
        kept_or(lent)
    }

    /// Does what `ensure_newest` does, with a closure that may fail. Cost: as `ensure_newest`.
    ///
    /// ```
    /// assert!(rt; map.ensure_newest_fallible(4, || Err(7u8)).is_err());
    /// assert!(rt; map.peek(&4).is_none());
    /// assert!(rt; map.ensure_newest_fallible(4, || Ok::<u64, u8>(40))?);
    /// assert!(rt; map.peek_newest() == Some((&4, &40)));
    /// ```
    ///
    /// # Errors
    ///
    /// `Caller` means that the closure failed, and contains the error of the closure. Nothing has changed. `Memory`
    /// means that the closure succeeded, and the insert failed as `insert` does.
    pub fn ensure_newest_fallible<I: LookupKey<K> + Drop, E, F: FnOnce() -> Result<V, E>>(
        &mut self,
        key: I,
        make: F,
    ) -> Result<bool, GetOrInsertError<E>>
    where
        L: Insertion<K, V, I>,
        requires callable { lookup (I.names key) self.old.pairs ≡ None → F.pre make }
        ensures step { MakesNewestIfMade L.rules L.offers I.names S.hash_of
            (F.post make) key self.old result self.new }
        ensures says { SaysNewest L.rules (I.names key) self.old result self.new }
        ensures out_of_memory { IsErrOf result GetOrInsertError.Memory →
            IsOutOfMemoryFor L.rules L.offers I.names S.hash_of (λ value. F.post make (Ok value)) key self.old
            self.new }
        ensures map { IsMap K.eq self.new }
    {
        self.show_map();
        let answer = self.make_newest_if_made(key, make);
        self.show_map();
        answer
    }

    fn make_newest_if_made<I: LookupKey<K> + Drop, E, F: FnOnce() -> Result<V, E>>(
        &mut self,
        key: I,
        make: F,
    ) -> Result<bool, GetOrInsertError<E>>
    where
        L: Insertion<K, V, I>,
        requires callable { lookup (I.names key) self.old.pairs ≡ None → F.pre make }
        ensures { MakesNewestIfMade L.rules L.offers I.names S.hash_of (F.post make) key self.old result self.new }
    {
        let hash = self.hasher.hash_named(&key);
        match self.find_hashed(hash, &key) {
            Some(b) => {
                self.promote_at(b);
                Ok(true)
            }
            None => {
                let value = match make() {
                    Ok(value) => value,
                    Err(error) => return Err(GetOrInsertError::Caller(error)),
                };
                match self.insert_new(hash, key, value, &mut discard) {
                    Ok(kept) => Ok(kept),
                    Err(_refused) => Err(GetOrInsertError::Memory),
                }
            }
        }
    }

    pub(crate) fn lend_or_insert_fallible<I: LookupKey<K> + Drop, E, F: FnOnce() -> Result<V, E>>(
        &mut self,
        key: I,
        make: F,
    ) -> Result<&mut V, NotLent<GetOrInsertError<E>>>
    where
        L: Insertion<K, V, I>,
        requires callable { lookup (I.names key) self.old.pairs ≡ None → F.pre make }
        ensures* writes_back { sem 𝓛 (lends_or K.row V.row L.row S.row L.LinkType.row S.Hasher.row K.Hash L.Limiter
            L.LinkType.LinkType S.KeyHasher S.Hasher.Hasher self.entry
            (GetsOrInsertsIfMade L.rules L.offers I.names S.hash_of (F.post make) key self.old) result) }
    {
        let kept = self.ensure_newest_fallible(key, make);
        self.lend_if_kept(kept)
    }

    /// Does what `get_or_insert` does, with a closure that may fail. Cost: as `get_or_insert`.
    ///
    /// ```
    /// assert!(rt; map.get_or_insert_fallible(5, || Err(7u8)).is_err());
    /// assert!(rt; map.peek(&5).is_none());
    /// assert_eq!(rt; map.get_or_insert_fallible(5, || Ok::<u64, u8>(50))?.copied(), Some(50));
    /// ```
    ///
    /// # Errors
    ///
    /// Fails as `ensure_newest_fallible` does.
    ///
    /// Follows schnellru's `LruMap::get_or_insert_fallible`.
    pub fn get_or_insert_fallible<I: LookupKey<K> + Drop, E, F: FnOnce() -> Result<V, E>>(
        &mut self,
        key: I,
        make: F,
    ) -> Result<Option<&mut V>, GetOrInsertError<E>>
    where
        L: Insertion<K, V, I>,
        requires callable { lookup (I.names key) self.old.pairs ≡ None → F.pre make }
        ensures* writes_back { sem 𝓛 (lends_made K.row V.row L.row S.row L.LinkType.row S.Hasher.row K.Hash L.Limiter
            L.LinkType.LinkType S.KeyHasher S.Hasher.Hasher self.entry
            (GetsOrInsertsIfMade L.rules L.offers I.names S.hash_of (F.post make) key self.old) result) }
    {
        let lent = self.lend_or_insert_fallible(key, make);
        kept_or_error(lent)
    }
}
