ghost use Rattle.std.specs.Prelude.{◌≡◌, [], length, true, false, IfSome, MatchOption, Option, Some, None, is_some};
ghost use Rattle.std.specs.Fn.{FnReturnsAt, FnOnceReturnsAt};
ghost use Rattle.std.specs.Map.{lookup};
ghost use Rattle.lru_model.specs.Calls.{Remove, cleared, promoted};
ghost use Rattle.lru_model.specs.Lists.{is_empty};
ghost use Rattle.lru_model.specs.State.{IsMap, IsWithin, Trims, contents, empty_map};
ghost use Rattle.lru_model.specs.Theorems.{KeepsValues};
ghost use Rattle.ordered_table.specs.EntrySize.{entry_size};
ghost use Rattle.lru_caches.specs.Answers.{IsAnswer, AreAnswers, Remembers};

use schnellru::{Insertion, KeyHasher, LookupKey, LruMap, RandomState, laws};
use std::alloc::Global;
use std::hash::Hash;
use std::marker::Model;

pub(crate) mod loader;
pub(crate) mod table;

/// A function that remembers its newest results, up to a limit.
///
/// ```
/// let mut squares = Memo::new(alloc, ByLength::new(9), |n: &u64| n.wrapping_mul(*n));
/// assert_eq!(rt; (squares.answer(3), squares.len()), (9, 1));
/// ```
#[derive(Drop)]
pub struct Memo<K: Eq + Hash, V, F, L: Insertion<K, V, K>, S: KeyHasher<K> = RandomState> {
    map: LruMap<K, V, L, S>,
    function: F,
}

impl<K: Eq + Hash, V, F, L: Insertion<K, V, K>, S: KeyHasher<K>> Model for Memo<K, V, F, L, S> {
    ghost use Rattle.lru_model.specs.Theorems.{KeepsValues};
    ghost use Rattle.lru_caches.specs.Answers.{Memoized};

    ghost Value = { Memoized K V L S F };

    ghost view = { λ m. record { map = m.map; function = m.function } };

    ghost invariant = { λ m. KeepsValues L.offers };
}

impl<K: Eq + Hash, V, F: Fn(&K) -> V, L: Insertion<K, V, K>> Memo<K, V, F, L, RandomState> {
    /// Makes a memo of a function, with no results yet.
    ///
    /// If strangers choose the keys, call `with_hasher`. Cost: `O(1)`, and no memory.
    ///
    /// ```
    /// let mut squares = Memo::new(alloc, ByLength::new(9), |n: &u64| n.wrapping_mul(*n));
    /// ```
    pub fn new(alloc: Global, limiter: L, function: F) -> Self
        requires { KeepsValues L.offers }
        ensures map { result.map ≡ empty_map limiter result.map.hasher (entry_size K.row V.row L.LinkType.row)
            (L.LinkType.number L.LinkType.MAX) }
        ensures empty { result.map.pairs ≡ [] }
        ensures known { AreAnswers K.eq (FnReturnsAt F.Fn result.function) result.map.pairs }
        ensures function { result.function ≡ function }
    {
        Memo {
            map: LruMap::with_limiter(alloc, limiter),
            function,
        }
    }
}

impl<K: Eq + Hash, V, F: Fn(&K) -> V, L: Insertion<K, V, K>, S: KeyHasher<K>> Memo<K, V, F, L, S> {
    /// Makes a memo of a function, with a hasher of keys.
    ///
    /// ```
    /// let seeded = RandomState::with_seeds([5, 6, 7, 8]);
    /// let cubes = Memo::with_hasher(alloc, ByLength::new(9), seeded, |n: &u64| n.wrapping_pow(3));
    /// assert!(rt; cubes.is_empty());
    /// ```
    ///
    /// Cost: `O(1)`, and no memory.
    pub fn with_hasher(alloc: Global, limiter: L, hasher: S, function: F) -> Self
        requires { KeepsValues L.offers }
        ensures map { result.map ≡ empty_map limiter hasher (entry_size K.row V.row L.LinkType.row)
            (L.LinkType.number L.LinkType.MAX) }
        ensures empty { result.map.pairs ≡ [] }
        ensures known { AreAnswers K.eq (FnReturnsAt F.Fn result.function) result.map.pairs }
        ensures function { result.function ≡ function }
    {
        Memo {
            map: LruMap::with_limiter_and_hasher(alloc, limiter, hasher),
            function,
        }
    }

    /// Returns how many results are stored.
    ///
    /// Cost: `O(1)`.
    ///
    /// ```
    /// assert_eq!(rt; (squares.answer(3), squares.len()), (9, 1));
    /// ```
    pub fn len(&self) -> usize
        ensures { result ≡ length self.now.map.pairs }
    {
        self.map.len()
    }

    /// Returns whether no result is stored.
    ///
    /// Cost: `O(1)`.
    ///
    /// ```
    /// let seeded = RandomState::with_seeds([5, 6, 7, 8]);
    /// let cubes = Memo::with_hasher(alloc, ByLength::new(9), seeded, |n: &u64| n.wrapping_pow(3));
    /// assert!(rt; cubes.is_empty());
    /// ```
    pub fn is_empty(&self) -> bool
        ensures { result ≡ is_empty self.now.map.pairs }
    {
        self.map.is_empty()
    }

    /// Returns the limiter.
    ///
    /// Cost: `O(1)`.
    ///
    /// ```
    /// assert_eq!(rt; squares.limiter().max_length(), 9);
    /// ```
    pub fn limiter(&self) -> &L
        ensures { result.now ≡ self.now.map.limiter }
    {
        self.map.limiter()
    }
}

impl<
    K: Eq + Hash + Drop,
    V: Copy + Drop,
    F: Fn(&K) -> V,
    L: Insertion<K, V, K>,
    S: KeyHasher<K>,
> Memo<K, V, F, L, S> {
    /// Returns a result of the function for `key`, or for a key that equals `key`. If no result is stored, calls the
    /// function and stores the result.
    ///
    /// Returns the result even if memory runs out or a limit prevents storing it.
    ///
    /// ```
    /// assert_eq!(rt; (squares.answer(3), squares.len()), (9, 1));
    /// ```
    ///
    /// Cost: a get and, if no result is stored, a call of the function and an insert.
    pub fn answer(&mut self, key: K) -> V
        requires callable { F.IsAlwaysCallable self.old.function }
        requires known { AreAnswers K.eq (FnReturnsAt F.Fn self.old.function) self.old.map.pairs }
        ensures answer { IsAnswer K.eq (FnReturnsAt F.Fn self.old.function) key result }
        ensures stored { IfSome (lookup (K.eq key) self.old.map.pairs) (λ value. result ≡ value) }
        ensures step { Remembers L.rules L.offers K.eq S.hash_of key result self.old.map self.new.map }
        ensures map { IsMap K.eq self.new.map }
        ensures known { AreAnswers K.eq (FnReturnsAt F.Fn self.new.function) self.new.map.pairs }
        ensures function { self.new.function ≡ self.old.function }
    {
        self.answer_full(key).0
    }

    /// Does what `answer` does, and also returns whether it called the function.
    ///
    /// ```
    /// squares.clear();
    /// assert_eq!(rt; (squares.answer_full(3), squares.answer_full(3)), ((9, true), (9, false)));
    /// ```
    ///
    /// Cost: as `answer`.
    pub fn answer_full(&mut self, key: K) -> (V, bool)
        requires callable { F.IsAlwaysCallable self.old.function }
        requires known { AreAnswers K.eq (FnReturnsAt F.Fn self.old.function) self.old.map.pairs }
        ensures answer { IsAnswer K.eq (FnReturnsAt F.Fn self.old.function) key result.0 }
        ensures called { MatchOption (lookup (K.eq key) self.old.map.pairs)
            ((result.1 ≡ true) × FnReturnsAt F.Fn self.old.function key result.0)
            (λ value. result ≡ (value, false)) }
        ensures step { Remembers L.rules L.offers K.eq S.hash_of key result.0 self.old.map self.new.map }
        ensures map { IsMap K.eq self.new.map }
        ensures known { AreAnswers K.eq (FnReturnsAt F.Fn self.new.function) self.new.map.pairs }
        ensures function { self.new.function ≡ self.old.function }
    {
        laws::calls_evict_the_oldest::<K, V, K, L, S>();
        if let Some(value) = self.map.get(&key) {
            return (*value, false);
        }
        let value = (self.function)(&key);
        let _kept = self.map.insert(key, value);
        (value, true)
    }
}

impl<K: Eq + Hash + Drop, V: Drop, F: Fn(&K) -> V, L: Insertion<K, V, K>, S: KeyHasher<K>> Memo<
    K,
    V,
    F,
    L,
    S,
> {
    /// Does what `answer` does, but lends the result to a closure, and returns what the closure returns. The results
    /// need not be `Copy`.
    ///
    /// ```
    /// let mut blocks = Memo::new(alloc, ByLength::new(9), |n: &usize| vec![in alloc; 7u8; *n].ok());
    /// assert_eq!(rt; (blocks.answer_with(3, |block| block.is_some()), blocks.len()), (true, 1));
    /// ```
    ///
    /// Cost: as `answer`, plus a call of the closure.
    pub fn answer_with<R, U: FnOnce(&V) -> R>(&mut self, key: K, read: U) -> R
        requires callable { F.IsAlwaysCallable self.old.function }
        requires readable { U.IsAlwaysCallable read }
        requires known { AreAnswers K.eq (FnReturnsAt F.Fn self.old.function) self.old.map.pairs }
        ensures answer { (value : V) × IsAnswer K.eq (FnReturnsAt F.Fn self.old.function) key value
            × Remembers L.rules L.offers K.eq S.hash_of key value self.old.map self.new.map
            × FnOnceReturnsAt U.FnOnce read value result }
        ensures map { IsMap K.eq self.new.map }
        ensures stored { IfSome (lookup (K.eq key) self.old.map.pairs)
            (λ value. FnOnceReturnsAt U.FnOnce read value result) }
        ensures known { AreAnswers K.eq (FnReturnsAt F.Fn self.new.function) self.new.map.pairs }
        ensures function { self.new.function ≡ self.old.function }
    {
        laws::calls_evict_the_oldest::<K, V, K, L, S>();
        if let Some(value) = self.map.get(&key) {
            return read(&*value);
        }
        let value = (self.function)(&key);
        let result = read(&value);
        let _ = self.map.insert(key, value);
        result
    }

    /// Returns the stored result of a key, and makes it the newest. Does not call the function.
    ///
    /// ```
    /// let mut lengths = Memo::new(alloc, ByLength::new(9), |text: &String| text.as_bytes().len());
    /// assert_eq!(rt; (lengths.get(&"word"), lengths.answer(String::from_str(alloc, "word")?)), (None, 4));
    /// assert_eq!(rt; lengths.get(&"word"), Some(4));
    /// ```
    ///
    /// Cost: as `LruMap::get`.
    pub fn get<Q: LookupKey<K>>(&mut self, key: &Q) -> Option<V>
    where
        V: Copy,
        requires known { AreAnswers K.eq (FnReturnsAt F.Fn self.old.function) self.old.map.pairs }
        ensures stored { result ≡ lookup (Q.names key.now) self.old.map.pairs }
        ensures step { self.new.map ≡ promoted (Q.names key.now) self.old.map }
        ensures map { IsMap K.eq self.new.map }
        ensures known { AreAnswers K.eq (FnReturnsAt F.Fn self.new.function) self.new.map.pairs }
        ensures function { self.new.function ≡ self.old.function }
    {
        self.get_with(key, |value| *value)
    }

    /// Does what `get` does, but lends the result to a closure, and returns what the closure returns.
    ///
    /// ```
    /// let mut lists = Memo::new(alloc, ByLength::new(9), |n: &usize| vec![in alloc; 7u8; *n].ok());
    /// assert_eq!(rt; (lists.get_with(&3, |_| 1), lists.answer_with(3, |_| 2)), (None, 2));
    /// assert_eq!(rt; lists.get_with(&3, |list| list.is_some()), Some(true));
    /// ```
    ///
    /// Cost: as `get`, plus a call of the closure.
    pub fn get_with<Q: LookupKey<K>, R, U: FnOnce(&V) -> R>(
        &mut self,
        key: &Q,
        read: U,
    ) -> Option<R>
        requires readable { U.IsAlwaysCallable read }
        requires known { AreAnswers K.eq (FnReturnsAt F.Fn self.old.function) self.old.map.pairs }
        ensures stored { MatchOption (lookup (Q.names key.now) self.old.map.pairs) (result ≡ None)
            (λ value. (given : R) × (result ≡ Some given) × FnOnceReturnsAt U.FnOnce read value given) }
        ensures step { self.new.map ≡ promoted (Q.names key.now) self.old.map }
        ensures map { IsMap K.eq self.new.map }
        ensures known { AreAnswers K.eq (FnReturnsAt F.Fn self.new.function) self.new.map.pairs }
        ensures function { self.new.function ≡ self.old.function }
    {
        let value = self.map.get(key)?;
        Some(read(&*value))
    }

    /// Sets another limiter, and drops the oldest results while the memo is over the new limit. Returns the old
    /// limiter. `LruMap::set_limiter` says which running total the new limiter must have.
    ///
    /// ```
    /// assert_eq!(rt; (squares.answer(3), squares.answer(4)), (9, 16));
    /// assert!(rt; squares.set_limiter(ByLength::new(1)).max_length() == 9 && squares.len() == 1);
    /// ```
    ///
    /// Cost: as `LruMap::set_limiter`.
    pub fn set_limiter(&mut self, limiter: L) -> L
        requires known { AreAnswers K.eq (FnReturnsAt F.Fn self.old.function) self.old.map.pairs }
        ensures limiter { result ≡ self.old.map.limiter }
        ensures step { Trims L.rules (record self.old.map { limiter = limiter }) self.new.map }
        ensures within { IsWithin L.rules (contents self.new.map) }
        ensures map { IsMap K.eq self.new.map }
        ensures known { AreAnswers K.eq (FnReturnsAt F.Fn self.new.function) self.new.map.pairs }
        ensures function { self.new.function ≡ self.old.function }
    {
        self.map.set_limiter(limiter)
    }

    /// Removes the stored result of a key, and returns whether there was one.
    ///
    /// ```
    /// assert!(rt; squares.answer(3) == 9 && squares.remove(&3) && squares.is_empty());
    /// ```
    ///
    /// Cost: `O(1)` expected.
    pub fn remove<Q: LookupKey<K>>(&mut self, key: &Q) -> bool
        requires known { AreAnswers K.eq (FnReturnsAt F.Fn self.old.function) self.old.map.pairs }
        ensures there { result ≡ is_some (lookup (Q.names key.now) self.old.map.pairs) }
        ensures step { (value : Option V) × Remove L.rules (Q.names key.now) self.old.map value self.new.map }
        ensures map { IsMap K.eq self.new.map }
        ensures known { AreAnswers K.eq (FnReturnsAt F.Fn self.new.function) self.new.map.pairs }
        ensures function { self.new.function ≡ self.old.function }
    {
        self.map.remove(key).is_some()
    }

    /// Drops all stored results.
    ///
    /// ```
    /// squares.clear();
    /// ```
    ///
    /// Cost: as `LruMap::clear`.
    pub fn clear(&mut self)
        ensures step { self.new.map ≡ cleared L.rules self.old.map }
        ensures map { IsMap K.eq self.new.map }
        ensures known { AreAnswers K.eq (FnReturnsAt F.Fn self.new.function) self.new.map.pairs }
        ensures function { self.new.function ≡ self.old.function }
    {
        self.map.clear();
    }
}
