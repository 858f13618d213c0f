//! `MemoTable`. Contracts represent a table by its keys with their answers, newest first.
ghost use Rattle.std.specs.Prelude.{◌≡◌, [], length, IfSome, MatchOption, Some, None, true, false};
ghost use Rattle.std.specs.Fn.{FnOnceReturnsAt};
ghost use Rattle.std.specs.Map.{lookup};
ghost use Rattle.lru_model.specs.Lists.{front, is_empty, lookup_entry};
ghost use Rattle.lru_model.specs.Theorems.{IsNewest, KeepsValues};
ghost use Rattle.lru_caches.specs.Answers.{IsAnswer, AreAnswers};

use schnellru::{Insertion, KeyHasher, LruMap, RandomState, laws};
use std::alloc::Global;
use std::hash::Hash;
use std::marker::Model;

/// Defines which values are answers for a key of a [`MemoTable`].
///
/// ```
/// #[derive(Drop)]
/// struct Squares;
///
/// impl Question<u64, u64> for Squares {
///     ghost answers = { λ n value. value ≡ n * n };
/// }
/// ```
pub trait Question<K, V> {
    ghost answers: { K → V → Type 0 };
}

/// A table of the newest answers to a question, up to a limit. A function that calls itself can store its results here.
///
/// `get` returns only answers, because each caller of `store` must prove that the value is an answer.
///
/// ```
/// let mut squares = MemoTable::new(alloc, ByLength::new(9), Squares);
/// squares.store(3, 9);
/// assert_eq!(rt; (squares.get(&3), squares.get(&4), squares.len()), (Some(9), None, 1));
/// ```
#[derive(Drop)]
pub struct MemoTable<
    K: Eq + Hash,
    V,
    Q: Question<K, V>,
    L: Insertion<K, V, K>,
    S: KeyHasher<K> = RandomState,
> {
    map: LruMap<K, V, L, S>,
    question: Q,
}

impl<K: Eq + Hash, V, Q: Question<K, V>, L: Insertion<K, V, K>, S: KeyHasher<K>> Model
    for MemoTable<K, V, Q, L, S> {
    ghost use Rattle.std.specs.Prelude.{List};
    ghost use Rattle.lru_model.specs.Theorems.{KeepsValues};
    ghost use Rattle.lru_caches.specs.Answers.{AreAnswers};

    ghost Value = { List (K × V) };

    ghost view = { λ t. t.map.pairs };

    ghost invariant = { λ t. KeepsValues L.offers × AreAnswers K.eq Q.answers t.map.pairs };
}

impl<K: Eq + Hash, V, Q: Question<K, V>, L: Insertion<K, V, K>> MemoTable<K, V, Q, L, RandomState> {
    /// Makes an empty table.
    ///
    /// If strangers choose the keys, call `with_hasher`. Cost: `O(1)`, and no memory.
    ///
    /// ```
    /// let mut squares = MemoTable::new(alloc, ByLength::new(9), Squares);
    /// ```
    pub fn new(alloc: Global, limiter: L, question: Q) -> Self
        requires { KeepsValues L.offers }
        ensures { result ≡ [] }
    {
        MemoTable {
            map: LruMap::with_limiter(alloc, limiter),
            question,
        }
    }
}

impl<K: Eq + Hash, V, Q: Question<K, V>, L: Insertion<K, V, K>, S: KeyHasher<K>> MemoTable<
    K,
    V,
    Q,
    L,
    S,
> {
    /// Makes an empty table, with a hasher of keys.
    ///
    /// ```
    /// let seeded = RandomState::with_seeds([5, 6, 7, 8]);
    /// let empty = MemoTable::with_hasher(alloc, ByLength::new(9), seeded, Squares);
    /// assert!(rt; empty.is_empty());
    /// ```
    ///
    /// Cost: `O(1)`, and no memory.
    pub fn with_hasher(alloc: Global, limiter: L, hasher: S, question: Q) -> Self
        requires { KeepsValues L.offers }
        ensures { result ≡ [] }
    {
        MemoTable {
            map: LruMap::with_limiter_and_hasher(alloc, limiter, hasher),
            question,
        }
    }

    /// Returns how many answers are stored.
    ///
    /// Cost: `O(1)`.
    ///
    /// ```
    /// assert_eq!(rt; (squares.get(&3), squares.get(&4), squares.len()), (Some(9), None, 1));
    /// ```
    pub fn len(&self) -> usize
        ensures { result ≡ length self.now }
    {
        self.map.len()
    }

    /// Returns whether no answer is stored.
    ///
    /// Cost: `O(1)`.
    ///
    /// ```
    /// let seeded = RandomState::with_seeds([5, 6, 7, 8]);
    /// let empty = MemoTable::with_hasher(alloc, ByLength::new(9), seeded, Squares);
    /// assert!(rt; empty.is_empty());
    /// ```
    pub fn is_empty(&self) -> bool
        ensures { result ≡ is_empty self.now }
    {
        self.map.is_empty()
    }
}

impl<
    K: Eq + Hash + Drop,
    V: Drop,
    Q: Question<K, V>,
    L: Insertion<K, V, K>,
    S: KeyHasher<K>,
> MemoTable<K, V, Q, L, S> {
    /// Returns the stored answer for `key`, or for a key that equals `key`, and makes this answer the newest.
    ///
    /// ```
    /// assert_eq!(rt; (squares.get(&3), squares.get(&4), squares.len()), (Some(9), None, 1));
    /// ```
    ///
    /// Cost: `O(1)` expected.
    pub fn get(&mut self, key: &K) -> Option<V>
    where
        V: Copy,
        ensures answer { IfSome result (IsAnswer K.eq Q.answers key.now) }
        ensures stored { result ≡ lookup (K.eq key.now) self.old }
        ensures newest { self.new ≡ front (K.eq key.now) self.old }
    {
        self.get_with(key, |value| *value)
    }

    /// Does what `get` does, but lends the answer to a closure, and returns the closure's result.
    ///
    /// ```
    /// assert_eq!(rt; squares.get_with(&3, |square| square.wrapping_add(1)), Some(10));
    /// ```
    ///
    /// Cost: as `get`, plus a call of the closure.
    pub fn get_with<R, U: FnOnce(&V) -> R>(&mut self, key: &K, read: U) -> Option<R>
        requires readable { U.IsAlwaysCallable read }
        ensures answer { IfSome (lookup (K.eq key.now) self.old) (IsAnswer K.eq Q.answers key.now) }
        ensures stored { MatchOption (lookup (K.eq key.now) self.old) (result ≡ None)
            (λ value. (given : R) × (result ≡ Some given) × FnOnceReturnsAt U.FnOnce read value given) }
        ensures newest { self.new ≡ front (K.eq key.now) self.old }
    {
        let value = self.map.get(key)?;
        Some(read(&*value))
    }

    /// Stores an answer for a key as the newest, and returns true. Returns false if memory runs out or a limit prevents
    /// storing the answer. In this case, the table has no answer for the key.
    ///
    /// ```
    /// squares.store(3, 9);
    /// ```
    ///
    /// Cost: an insert.
    pub fn store(&mut self, key: K, value: V) -> bool
        requires answer { Q.answers key value }
        ensures stored { result ≡ true → lookup (K.eq key) self.new ≡ Some value }
        ensures newest { result ≡ true → IsNewest (K.eq key) self.new }
        ensures absent { result ≡ false → lookup_entry (K.eq key) self.new ≡ None }
    {
        laws::calls_evict_the_oldest::<K, V, K, L, S>();
        self.map.insert(key, value).unwrap_or(false)
    }
}
