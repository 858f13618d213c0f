//! The theorems of `references`, for maps that limit the cost of their entries, as `ByCost` and `ByWeight` do.
ghost use Rattle.std.specs.Prelude.{◌≡◌, ℕ, ◌-◌, ◌*◌, ◌^◌, ◌≤◌, ◌<◌, Bool, List, length, take, true};
ghost use Rattle.std.specs.Prelude.{Some, Ok, Result, IsOk};
ghost use Rattle.std.specs.declared.alloc.AllocError.{AllocError};
ghost use Rattle.group_table.specs.Change.{count_up};
ghost use Rattle.lru_limits.specs.Budget.{Budget, by_weight, weighs, budget_terms};
ghost use Rattle.lru_model.specs.Calls.{promoted, written};
ghost use Rattle.lru_model.specs.GetOrInserts.{MakesNewest, MakesNewestIfMade};
ghost use Rattle.lru_model.specs.Inserts.{Insert};
ghost use Rattle.lru_model.specs.Lists.{keys_of, lookup};
ghost use Rattle.lru_model.specs.State.{State, IsSized, empty_map};
ghost use Rattle.lru_model.specs.TryInserts.{TryInsert};
ghost use Rattle.lru_theory.specs.Budgets.{cached_within, faults_within};
ghost use Rattle.lru_theory.specs.Traces.{AreEqual};
ghost use Rattle.lru_replay.specs.References.{KeepsToCost, CostsAlike, Reference, Referenced, of_cost};

use lru_limits::KeyHasher;
use std::hash::Hash;

/// A new map keeps to its cost (`KeepsToCost`) under these premises. The limit is below 2 ^ 63, and below 234,881,023
/// times the cost of each key. An entry takes fewer than 2 ^ 32 - 1 bytes, and the links are wide enough for 2 ^ 31
/// buckets.
pub fn maps_keep_to_their_cost<K: Eq + Hash + Drop, V: Drop, S: KeyHasher<K>>()
    ensures { (weight : K → V → ℕ) (cost : K → ℕ) (limit entry_bytes max : ℕ) (hasher : S) →
        limit < 2 ^ 63 → ((key : K) → limit < 234881023 * cost key) → entry_bytes < 2 ^ 32 - 1 →
        2 ^ 31 < max →
        KeepsToCost weight cost (empty_map {K = K} {V = V} (record { limit = limit; cost = 0 }) hasher entry_bytes
        max) }
{}

/// These calls make a reference if they return `Ok`: an insert, a `try_insert`, and a call of a memo. The weight of the
/// inserted entry must be the cost of its key, and at most the limit. A get and a promotion make a reference if the map
/// contains the key. A value that is written through a get must cost as much as the old value.
pub fn calls_make_references<K: Eq + Hash + Drop, V: Drop, S: KeyHasher<K>>()
    ensures inserts { (weight : K → V → ℕ) (cost : K → ℕ) (key : K) (value : V) (kept : Bool)
        (old new : State K V Budget S) →
        CostsAlike K.eq weight cost → KeepsToCost weight cost old → IsSized new →
        weight key value ≡ cost key → cost key ≤ old.limiter.limit →
        Insert (by_weight weight) (weighs weight) K.eq S.hash_of key value old (Ok kept) new →
        Reference (of_cost K.eq weight cost) key old new }
    ensures tries { (weight : K → V → ℕ) (cost : K → ℕ) (key : K) (value : V) (old new : State K V Budget S) →
        CostsAlike K.eq weight cost → KeepsToCost weight cost old → IsSized new →
        weight key value ≡ cost key → cost key ≤ old.limiter.limit →
        TryInsert (budget_terms weight) (by_weight weight) key value old K.eq S.hash_of (Ok tt) new →
        Reference (of_cost K.eq weight cost) key old new }
    ensures gets { (weight : K → V → ℕ) (cost : K → ℕ) (names : K → Bool) (key : K) (value left : V)
        (old : State K V Budget S) →
        CostsAlike K.eq weight cost → KeepsToCost weight cost old →
        names ≡ K.eq key → lookup names old.pairs ≡ Some value → weight key left ≡ weight key value →
        Reference (of_cost K.eq weight cost) key old (written names left (promoted names old)) }
    ensures promotes { (weight : K → V → ℕ) (cost : K → ℕ) (names : K → Bool) (key : K) (value : V)
        (old : State K V Budget S) →
        CostsAlike K.eq weight cost → KeepsToCost weight cost old →
        names ≡ K.eq key → lookup names old.pairs ≡ Some value →
        Reference (of_cost K.eq weight cost) key old (promoted names old) }
    ensures remembers { (weight : K → V → ℕ) (cost : K → ℕ) (key : K) (value : V) (kept : Result Bool AllocError)
        (old new : State K V Budget S) →
        CostsAlike K.eq weight cost → KeepsToCost weight cost old → IsSized new → IsOk kept →
        weight key value ≡ cost key → cost key ≤ old.limiter.limit →
        MakesNewest (by_weight weight) (weighs weight) K.eq S.hash_of (λ made. made ≡ value) key old kept new →
        Reference (of_cost K.eq weight cost) key old new }
    ensures equal { (weight : K → V → ℕ) (cost : K → ℕ) (key other : K) (old new : State K V Budget S) →
        CostsAlike K.eq weight cost → K.eq other key ≡ true → Reference (of_cost K.eq weight cost) other old new →
        Reference (of_cost K.eq weight cost) key old new }
{}

/// Like inserts (see `calls_make_references`), `ensure_newest` and `get_or_insert` make a reference if they return
/// `Ok`.
pub fn gets_that_insert_make_references<
    K: Eq + Hash + Drop,
    V: Drop,
    F: FnOnce() -> V,
    S: KeyHasher<K>,
>()
    ensures { (weight : K → V → ℕ) (cost : K → ℕ) (make : F) (key : K) (kept : Bool) (old new : State K V Budget S) →
        CostsAlike K.eq weight cost → KeepsToCost weight cost old → IsSized new →
        ((value : V) → F.post make value → weight key value ≡ cost key) → cost key ≤ old.limiter.limit →
        MakesNewest (by_weight weight) (weighs weight) K.eq S.hash_of (F.post make) key old (Ok kept) new →
        Reference (of_cost K.eq weight cost) key old new }
{}

/// Like inserts (see `calls_make_references`), the fallible forms of `ensure_newest` and `get_or_insert` make a
/// reference if they return `Ok`.
pub fn gets_that_insert_if_made_make_references<
    K: Eq + Hash + Drop,
    V: Drop,
    E,
    F: FnOnce() -> Result<V, E>,
    S: KeyHasher<K>,
>()
    ensures { (weight : K → V → ℕ) (cost : K → ℕ) (make : F) (key : K) (kept : Bool) (old new : State K V Budget S) →
        CostsAlike K.eq weight cost → KeepsToCost weight cost old → IsSized new →
        ((value : V) → F.post make (Ok value) → weight key value ≡ cost key) → cost key ≤ old.limiter.limit →
        MakesNewestIfMade (by_weight weight) (weighs weight) K.eq S.hash_of (F.post make) key old (Ok kept) new →
        Reference (of_cost K.eq weight cost) key old new }
{}

/// After the references of a trace, the map contains the same keys as an LRU cache with this limit of cost (`keys`).
/// The program missed as often as this cache (`misses`). The map counts the misses in `placed` (`stored`). Equal keys
/// must cost the same.
pub fn references_keep_the_newest<K: Eq + Hash + Drop, V: Drop, S: KeyHasher<K>>()
    ensures keys { (weight : K → V → ℕ) (cost : K → ℕ) (trace : List K) (missed : ℕ) (old new : State K V Budget S) →
        CostsAlike K.eq weight cost → Referenced (of_cost K.eq weight cost) old trace missed new →
        AreEqual K.eq (keys_of new.pairs) (cached_within K.eq cost old.limiter.limit (keys_of old.pairs) trace) }
    ensures misses { (weight : K → V → ℕ) (cost : K → ℕ) (trace : List K) (missed : ℕ) (old new : State K V Budget S) →
        CostsAlike K.eq weight cost → Referenced (of_cost K.eq weight cost) old trace missed new →
        missed ≡ faults_within K.eq cost old.limiter.limit (keys_of old.pairs) trace }
    ensures stored { (weight : K → V → ℕ) (cost : K → ℕ) (trace : List K) (missed : ℕ) (old new : State K V Budget S) →
        CostsAlike K.eq weight cost → Referenced (of_cost K.eq weight cost) old trace missed new → IsSized old →
        new.counts.placed ≡ count_up old.counts.placed missed }
{}

/// Suppose that equal keys cost the same, and that the references of one trace are made on two maps, by any calls. If
/// the map with the smaller limit begins with exactly the newest few keys of the other map, this is still so after the
/// trace (`front`). In this case, it misses at least as often as the other map (`misses`).
pub fn more_capacity_never_misses_more<K: Eq + Hash + Drop, V: Drop, S: KeyHasher<K>>()
    ensures front { (weight : K → V → ℕ) (cost : K → ℕ) (trace : List K) (missed other_missed : ℕ)
        (old small other large : State K V Budget S) →
        CostsAlike K.eq weight cost → Referenced (of_cost K.eq weight cost) old trace missed small →
        Referenced (of_cost K.eq weight cost) other trace other_missed large →
        old.limiter.limit ≤ other.limiter.limit →
        AreEqual K.eq (keys_of old.pairs) (take (length old.pairs) (keys_of other.pairs)) →
        AreEqual K.eq (keys_of small.pairs) (take (length small.pairs) (keys_of large.pairs)) }
    ensures misses { (weight : K → V → ℕ) (cost : K → ℕ) (trace : List K) (missed other_missed : ℕ)
        (old small other large : State K V Budget S) →
        CostsAlike K.eq weight cost → Referenced (of_cost K.eq weight cost) old trace missed small →
        Referenced (of_cost K.eq weight cost) other trace other_missed large →
        old.limiter.limit ≤ other.limiter.limit →
        AreEqual K.eq (keys_of old.pairs) (take (length old.pairs) (keys_of other.pairs)) →
        other_missed ≤ missed }
{}
