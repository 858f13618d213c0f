ghost use Rattle.std.specs.Prelude.{◌≡◌, [], length, Option, None, Ok, IfOk, IfSome, OnErr, is_some};
ghost use Rattle.std.specs.Fn.{FnReturnsAt, FnOnceReturnsAt};
ghost use Rattle.std.specs.Map.{lookup};
ghost use Rattle.lru_model.specs.Calls.{Remove, cleared};
ghost use Rattle.lru_model.specs.Lists.{is_empty};
ghost use Rattle.lru_model.specs.Theorems.{KeepsValues};
ghost use Rattle.lru_model.specs.State.{IsMap, empty_map};
ghost use Rattle.ordered_table.specs.EntrySize.{entry_size};
ghost use Rattle.lru_caches.specs.Answers.{IsAnswer, AreAnswers, Remembers, ReadsLoaded, loads};

use schnellru::{Insertion, KeyHasher, LookupKey, LruMap, RandomState, laws};
use std::alloc::Global;
use std::hash::Hash;
use std::marker::Model;

/// A memo of a function that may fail, such as a read of a file. Errors are not stored.
///
/// ```
/// let disk = [10, 11, 12];
/// let mut blocks = Loader::new(alloc, ByLength::new(9), |n: &usize| disk.get(*n).copied().ok_or(*n));
/// assert_eq!(rt; (blocks.load(1), blocks.len()), (Ok(11), 1));
/// assert_eq!(rt; (blocks.load(3), blocks.len()), (Err(3), 1));
/// ```
#[derive(Drop)]
pub struct Loader<K: Eq + Hash, V, F, L: Insertion<K, V, K>, S: KeyHasher<K> = RandomState> {
    map: LruMap<K, V, L, S>,
    function: F,
}

impl<K: Eq + Hash, V, F, L: Insertion<K, V, K>, S: KeyHasher<K>> Model for Loader<K, V, F, L, S> {
    ghost use Rattle.lru_model.specs.Theorems.{KeepsValues};
    ghost use Rattle.lru_caches.specs.Answers.{Memoized};

    ghost Value = { Memoized K V L S F };

    ghost view = { λ m. record { map = m.map; function = m.function } };

    ghost invariant = { λ m. KeepsValues L.offers };
}

impl<K: Eq + Hash, V, E, F: Fn(&K) -> Result<V, E>, L: Insertion<K, V, K>> Loader<
    K,
    V,
    F,
    L,
    RandomState,
> {
    /// Makes an empty loader for a function.
    ///
    /// If strangers choose the keys, call `with_hasher`. Cost: `O(1)`, and no memory.
    ///
    /// ```
    /// let mut blocks = Loader::new(alloc, ByLength::new(9), |n: &usize| disk.get(*n).copied().ok_or(*n));
    /// ```
    pub fn new(alloc: Global, limiter: L, function: F) -> Self
        requires { KeepsValues L.offers }
        ensures map { result.map ≡ empty_map limiter result.map.hasher (entry_size K.row V.row L.LinkType.row)
            (L.LinkType.number L.LinkType.MAX) }
        ensures empty { result.map.pairs ≡ [] }
        ensures known { AreAnswers K.eq (loads (FnReturnsAt F.Fn result.function)) result.map.pairs }
        ensures function { result.function ≡ function }
    {
        Loader {
            map: LruMap::with_limiter(alloc, limiter),
            function,
        }
    }
}

impl<K: Eq + Hash, V, E, F: Fn(&K) -> Result<V, E>, L: Insertion<K, V, K>, S: KeyHasher<K>> Loader<
    K,
    V,
    F,
    L,
    S,
> {
    /// Makes an empty loader for a function, with a hasher of keys.
    ///
    /// ```
    /// let seeded = RandomState::with_seeds([5, 6, 7, 8]);
    /// let empty = Loader::with_hasher(alloc, ByLength::new(9), seeded, |n: &u64| n.checked_add(1).ok_or(*n));
    /// assert!(rt; empty.is_empty());
    /// ```
    ///
    /// Cost: `O(1)`, and no memory.
    pub fn with_hasher(alloc: Global, limiter: L, hasher: S, function: F) -> Self
        requires { KeepsValues L.offers }
        ensures map { result.map ≡ empty_map limiter hasher (entry_size K.row V.row L.LinkType.row)
            (L.LinkType.number L.LinkType.MAX) }
        ensures empty { result.map.pairs ≡ [] }
        ensures known { AreAnswers K.eq (loads (FnReturnsAt F.Fn result.function)) result.map.pairs }
        ensures function { result.function ≡ function }
    {
        Loader {
            map: LruMap::with_limiter_and_hasher(alloc, limiter, hasher),
            function,
        }
    }

    /// Returns how many values are stored.
    ///
    /// Cost: `O(1)`.
    ///
    /// ```
    /// assert_eq!(rt; (blocks.load(3), blocks.len()), (Err(3), 1));
    /// ```
    pub fn len(&self) -> usize
        ensures { result ≡ length self.now.map.pairs }
    {
        self.map.len()
    }

    /// Returns whether no value is stored.
    ///
    /// Cost: `O(1)`.
    ///
    /// ```
    /// let seeded = RandomState::with_seeds([5, 6, 7, 8]);
    /// let empty = Loader::with_hasher(alloc, ByLength::new(9), seeded, |n: &u64| n.checked_add(1).ok_or(*n));
    /// assert!(rt; empty.is_empty());
    /// ```
    pub fn is_empty(&self) -> bool
        ensures { result ≡ is_empty self.now.map.pairs }
    {
        self.map.is_empty()
    }
}

impl<
    K: Eq + Hash + Drop,
    V: Copy + Drop,
    E: Drop,
    F: Fn(&K) -> Result<V, E>,
    L: Insertion<K, V, K>,
    S: KeyHasher<K>,
> Loader<K, V, F, L, S> {
    /// Returns the value of a key. If no value is stored, calls the function, and stores its value.
    ///
    /// Returns the value even if memory runs out or a limit prevents storing it.
    ///
    /// ```
    /// assert_eq!(rt; (blocks.load(1), blocks.len()), (Ok(11), 1));
    /// ```
    ///
    /// Cost: a get and, if no value is stored, a call of the function and an insert.
    ///
    /// # Errors
    ///
    /// The function failed, with this error. Nothing has changed.
    pub fn load(&mut self, key: K) -> Result<V, E>
        requires callable { F.IsAlwaysCallable self.old.function }
        requires known { AreAnswers K.eq (loads (FnReturnsAt F.Fn self.old.function)) self.old.map.pairs }
        ensures value { IfOk result (IsAnswer K.eq (loads (FnReturnsAt F.Fn self.old.function)) key) }
        ensures stored { IfSome (lookup (K.eq key) self.old.map.pairs) (λ value. result ≡ Ok value) }
        ensures loaded { lookup (K.eq key) self.old.map.pairs ≡ None → FnReturnsAt F.Fn self.old.function key result }
        ensures step { IfOk result
            (λ value. Remembers L.rules L.offers K.eq S.hash_of key value self.old.map self.new.map) }
        ensures map { IsMap K.eq self.new.map }
        ensures failed { OnErr result (self.new.map ≡ self.old.map) }
        ensures known { AreAnswers K.eq (loads (FnReturnsAt F.Fn self.new.function)) self.new.map.pairs }
        ensures function { self.new.function ≡ self.old.function }
    {
        self.load_with(key, |value| *value)
    }
}

impl<
    K: Eq + Hash + Drop,
    V: Drop,
    E: Drop,
    F: Fn(&K) -> Result<V, E>,
    L: Insertion<K, V, K>,
    S: KeyHasher<K>,
> Loader<K, V, F, L, S> {
    /// Does what `load` does, but lends the value to a closure, and returns what the closure returns.
    ///
    /// ```
    /// let mut texts = Loader::new(alloc, ByLength::new(9), |n: &usize| vec![in alloc; 7u8; *n].map_err(|_| *n));
    /// assert_eq!(rt; (texts.load_with(3, |text| text.len()), texts.len()), (Ok(3), 1));
    /// ```
    ///
    /// Cost: as `load`, plus a call of the closure.
    ///
    /// # Errors
    ///
    /// As `load`. After an error, the closure is not called.
    pub fn load_with<R, U: FnOnce(&V) -> R>(&mut self, key: K, read: U) -> Result<R, E>
        requires callable { F.IsAlwaysCallable self.old.function }
        requires readable { U.IsAlwaysCallable read }
        requires known { AreAnswers K.eq (loads (FnReturnsAt F.Fn self.old.function)) self.old.map.pairs }
        ensures value { IfOk result (λ given. (value : V)
            × IsAnswer K.eq (loads (FnReturnsAt F.Fn self.old.function)) key value
            × Remembers L.rules L.offers K.eq S.hash_of key value self.old.map self.new.map
            × FnOnceReturnsAt U.FnOnce read value given) }
        ensures stored { IfSome (lookup (K.eq key) self.old.map.pairs)
            (λ value. (given : R) × (result ≡ Ok given) × FnOnceReturnsAt U.FnOnce read value given) }
        ensures loaded { lookup (K.eq key) self.old.map.pairs ≡ None →
            ReadsLoaded (FnReturnsAt F.Fn self.old.function key) (FnOnceReturnsAt U.FnOnce read) result }
        ensures map { IsMap K.eq self.new.map }
        ensures failed { OnErr result (self.new.map ≡ self.old.map) }
        ensures known { AreAnswers K.eq (loads (FnReturnsAt F.Fn self.new.function)) self.new.map.pairs }
        ensures function { self.new.function ≡ self.old.function }
    {
        laws::calls_evict_the_oldest::<K, V, K, L, S>();
        if let Some(value) = self.map.get(&key) {
            return Ok(read(&*value));
        }
        match (self.function)(&key) {
            Ok(value) => {
                let given = read(&value);
                let _ = self.map.insert(key, value);
                Ok(given)
            }
            Err(error) => Err(error),
        }
    }

    /// Removes the stored value of a key, and returns whether there was one.
    ///
    /// ```
    /// assert!(rt; blocks.load(1) == Ok(11) && blocks.remove(&1) && !blocks.remove(&1));
    /// ```
    ///
    /// Cost: `O(1)` expected.
    pub fn remove<Q: LookupKey<K>>(&mut self, key: &Q) -> bool
        requires known { AreAnswers K.eq (loads (FnReturnsAt F.Fn self.old.function)) self.old.map.pairs }
        ensures there { result ≡ is_some (lookup (Q.names key.now) self.old.map.pairs) }
        ensures step { (value : Option V) × Remove L.rules (Q.names key.now) self.old.map value self.new.map }
        ensures map { IsMap K.eq self.new.map }
        ensures known { AreAnswers K.eq (loads (FnReturnsAt F.Fn self.new.function)) self.new.map.pairs }
        ensures function { self.new.function ≡ self.old.function }
    {
        self.map.remove(key).is_some()
    }

    /// Drops all stored values.
    ///
    /// ```
    /// blocks.clear();
    /// ```
    ///
    /// Cost: as `LruMap::clear`.
    pub fn clear(&mut self)
        ensures step { self.new.map ≡ cleared L.rules self.old.map }
        ensures map { IsMap K.eq self.new.map }
        ensures known { AreAnswers K.eq (loads (FnReturnsAt F.Fn self.new.function)) self.new.map.pairs }
        ensures function { self.new.function ≡ self.old.function }
    {
        self.map.clear();
    }
}
