//! Theorems on programs that make references on a map with `ByLength`. `docs/THEORY.md` explains each.
ghost use Rattle.std.specs.Prelude.{◌≡◌, ℕ, ◌+◌, ◌-◌, ◌*◌, ◌≤◌, ◌<◌, Bool, [], ◌∷◌, ◌++◌, List, length, take, true};
ghost use Rattle.std.specs.Prelude.{Some, None, Ok, Option, Result, IsOk};
ghost use Rattle.std.specs.declared.alloc.AllocError.{AllocError};
ghost use Rattle.std.specs.List.{IsDistinct};
ghost use Rattle.group_table.specs.Change.{count_up};
ghost use Rattle.lru_model.specs.Calls.{promoted, written, Remove, cleared};
ghost use Rattle.lru_model.specs.GetOrInserts.{MakesNewest, MakesNewestIfMade};
ghost use Rattle.lru_model.specs.Inserts.{Insert};
ghost use Rattle.lru_model.specs.Kept.{KeepsToLength};
ghost use Rattle.lru_model.specs.Lists.{keys_of, lookup};
ghost use Rattle.lru_model.specs.Reservations.{Reserve};
ghost use Rattle.lru_model.specs.Shrinks.{Shrink};
ghost use Rattle.lru_model.specs.State.{State, IsSized};
ghost use Rattle.lru_model.specs.TryInserts.{TryInsert};
ghost use Rattle.lru_model.specs.declared.results.ReserveError.{ReserveError};
ghost use Rattle.lru_theory.specs.Inclusion.{KeyCall, IsIncluded};
ghost use Rattle.lru_theory.specs.Policies.{Loads, Demands, Bypasses, Served};
ghost use Rattle.lru_theory.specs.Traces.{AreEqual, is_in, recency, misses, past_after};
ghost use Rattle.lru_replay.specs.References.{ChangesKeys, Reference, Referenced, Did, of_length};

use lru_limits::{Admission, ByLength, Insertion, KeyHasher, Limiter};
use std::hash::Hash;

/// These calls make a reference if they return `Ok`: an insert (`inserts`), a `try_insert` (`tries`), and a call of a
/// memo (`remembers`). If the map contains the key, a get (`gets`) and a promotion (`promotes`) make a reference. The
/// program may write to the value that a get lends. A reference to a key is also a reference to each equal key
/// (`equal`).
pub fn calls_make_references<K: Eq + Hash + Drop, V: Drop, S: KeyHasher<K>>()
    ensures inserts { (key : K) (value : V) (kept : Bool) (old new : State K V ByLength S) →
        KeepsToLength old → IsSized new →
        Insert ⟦<ByLength as Limiter<K, V>>⟧.rules ⟦<ByLength as Insertion<K, V, K>>⟧.offers K.eq S.hash_of key value
        old (Ok kept) new →
        Reference (of_length K.eq) key old new }
    ensures tries { (key : K) (value : V) (old new : State K V ByLength S) →
        KeepsToLength old → IsSized new →
        TryInsert ⟦<ByLength as Admission<K, V>>⟧.terms ⟦<ByLength as Limiter<K, V>>⟧.rules key value old K.eq
        S.hash_of (Ok tt) new →
        Reference (of_length K.eq) key old new }
    ensures gets { (names : K → Bool) (key : K) (value left : V) (old : State K V ByLength S) →
        names ≡ K.eq key → length old.pairs ≤ old.limiter → IsSized old → lookup names old.pairs ≡ Some value →
        Reference (of_length K.eq) key old (written names left (promoted names old)) }
    ensures promotes { (names : K → Bool) (key : K) (value : V) (old : State K V ByLength S) →
        names ≡ K.eq key → length old.pairs ≤ old.limiter → IsSized old → lookup names old.pairs ≡ Some value →
        Reference (of_length K.eq) key old (promoted names old) }
    ensures remembers { (key : K) (value : V) (kept : Result Bool AllocError) (old new : State K V ByLength S) →
        KeepsToLength old → IsSized new → IsOk kept →
        MakesNewest ⟦<ByLength as Limiter<K, V>>⟧.rules ⟦<ByLength as Insertion<K, V, K>>⟧.offers K.eq S.hash_of
        (λ made. made ≡ value) key old kept new →
        Reference (of_length K.eq) key old new }
    ensures equal { (key other : K) (old new : State K V ByLength S) →
        K.eq other key ≡ true → Reference (of_length K.eq) other old new → Reference (of_length K.eq) key old new }
{}

/// If `ensure_newest` or `get_or_insert`, with the closure `make`, returns `Ok`, the call makes a reference.
pub fn gets_that_insert_make_references<
    K: Eq + Hash + Drop,
    V: Drop,
    F: FnOnce() -> V,
    S: KeyHasher<K>,
>()
    ensures { (make : F) (key : K) (kept : Bool) (old new : State K V ByLength S) → KeepsToLength old → IsSized new →
        MakesNewest ⟦<ByLength as Limiter<K, V>>⟧.rules ⟦<ByLength as Insertion<K, V, K>>⟧.offers K.eq S.hash_of
        (F.post make) key old (Ok kept) new →
        Reference (of_length K.eq) key old new }
{}

/// If the fallible form of `ensure_newest` or `get_or_insert` returns `Ok`, the call makes a reference.
pub fn gets_that_insert_if_made_make_references<
    K: Eq + Hash + Drop,
    V: Drop,
    E,
    F: FnOnce() -> Result<V, E>,
    S: KeyHasher<K>,
>()
    ensures { (make : F) (key : K) (kept : Bool) (old new : State K V ByLength S) → KeepsToLength old → IsSized new →
        MakesNewestIfMade ⟦<ByLength as Limiter<K, V>>⟧.rules ⟦<ByLength as Insertion<K, V, K>>⟧.offers K.eq S.hash_of
        (F.post make) key old (Ok kept) new →
        Reference (of_length K.eq) key old new }
{}

/// Says what other calls do to the keys. `promotes` covers gets and promotions, even if the key is not in the map.
/// `looks` covers each call that changes nothing.
pub fn calls_change_the_keys<K: Eq + Hash + Drop, V: Drop, S: KeyHasher<K>>()
    ensures promotes { (names : K → Bool) (key : K) (old new : State K V ByLength S) →
        names ≡ K.eq key → IsSized new → new ≡ promoted names old → ChangesKeys K.eq (KeyCall.promotes key) old new }
    ensures removes { (names : K → Bool) (key : K) (result : Option V) (old new : State K V ByLength S) →
        names ≡ K.eq key → IsSized new → Remove ⟦<ByLength as Limiter<K, V>>⟧.rules names old result new →
        ChangesKeys K.eq (KeyCall.removes key) old new }
    ensures clears { (old new : State K V ByLength S) →
        IsSized new → new ≡ cleared ⟦<ByLength as Limiter<K, V>>⟧.rules old → ChangesKeys K.eq KeyCall.clears old new }
    ensures reserves { (n : ℕ) (result : Result (Unit {0}) ReserveError) (old new : State K V ByLength S) →
        IsSized new → Reserve ⟦<ByLength as Limiter<K, V>>⟧.rules n old result new →
        ChangesKeys K.eq KeyCall.looks old new }
    ensures shrinks { (result : Result Bool AllocError) (old new : State K V ByLength S) →
        IsSized new → Shrink old result new → ChangesKeys K.eq KeyCall.looks old new }
    ensures writes { (names : K → Bool) (value : V) (old : State K V ByLength S) →
        ChangesKeys K.eq KeyCall.looks old (written names value old) }
    ensures looks { (st : State K V ByLength S) → ChangesKeys K.eq KeyCall.looks st st }
{}

/// If a program made the references of a trace, and then makes one more reference, it made the references of the longer
/// trace. The number of misses stays if the last reference hits (`hits`), and rises by one otherwise (`misses`). The
/// map still keeps to its length (`keeps`).
pub fn programs_make_references<K: Eq + Hash + Drop, V: Drop, S: KeyHasher<K>>()
    ensures hits { (trace : List K) (missed : ℕ) (key : K) (value : V) (old mid new : State K V ByLength S) →
        Referenced (of_length K.eq) old trace missed mid → lookup (K.eq key) mid.pairs ≡ Some value →
        Reference (of_length K.eq) key mid new →
        Referenced (of_length K.eq) old (trace ++ key ∷ []) missed new }
    ensures misses { (trace : List K) (missed : ℕ) (key : K) (old mid new : State K V ByLength S) →
        Referenced (of_length K.eq) old trace missed mid → lookup (K.eq key) mid.pairs ≡ None →
        Reference (of_length K.eq) key mid new →
        Referenced (of_length K.eq) old (trace ++ key ∷ []) (missed + 1) new }
    ensures keeps { (trace : List K) (missed : ℕ) (old new : State K V ByLength S) →
        Referenced (of_length K.eq) old trace missed new → KeepsToLength old → KeepsToLength new }
{}

/// After the references of a trace, the map contains the `max_length` keys that were referenced last (`keys`). A
/// reference misses exactly if it is the first reference to its key, or if its reuse distance is at least `max_length`
/// (`misses`). The keys that the map had before the trace count as earlier references, the oldest key first. If
/// `max_length` is not 0, the map counts the misses in `placed`, up to `u64::MAX` (`stored`).
pub fn references_keep_the_newest<K: Eq + Hash + Drop, V: Drop, S: KeyHasher<K>>()
    ensures keys { (trace : List K) (missed : ℕ) (old new : State K V ByLength S) →
        IsDistinct K.eq (keys_of old.pairs) → length old.pairs ≤ old.limiter →
        Referenced (of_length K.eq) old trace missed new →
        AreEqual K.eq (keys_of new.pairs) (take old.limiter (recency K.eq (past_after (keys_of old.pairs) trace))) }
    ensures misses { (trace : List K) (missed : ℕ) (old new : State K V ByLength S) →
        IsDistinct K.eq (keys_of old.pairs) → length old.pairs ≤ old.limiter →
        Referenced (of_length K.eq) old trace missed new →
        missed ≡ misses K.eq old.limiter (keys_of old.pairs) trace }
    ensures stored { (trace : List K) (missed : ℕ) (old new : State K V ByLength S) →
        Referenced (of_length K.eq) old trace missed new → 0 < old.limiter → IsSized old →
        new.counts.placed ≡ count_up old.counts.placed missed }
{}

/// Suppose that the references of one trace are made on two maps, by any calls. If a smaller map of n places has
/// exactly the n newest keys of the larger map before the trace, this is still so after the trace (`front`). If the
/// keys of the smaller map are included in the keys of the larger map before the trace (`IsIncluded`), the smaller map
/// misses at least as often as the larger map (`misses`).
pub fn more_capacity_never_misses_more<K: Eq + Hash + Drop, V: Drop, S: KeyHasher<K>>()
    ensures front { (trace : List K) (missed other_missed : ℕ) (old small other large : State K V ByLength S) →
        Referenced (of_length K.eq) old trace missed small → Referenced (of_length K.eq) other trace other_missed large →
        old.limiter ≤ other.limiter → AreEqual K.eq (keys_of old.pairs) (take old.limiter (keys_of other.pairs)) →
        AreEqual K.eq (keys_of small.pairs) (take old.limiter (keys_of large.pairs)) }
    ensures misses { (trace : List K) (missed other_missed : ℕ) (old small other large : State K V ByLength S) →
        Referenced (of_length K.eq) old trace missed small → Referenced (of_length K.eq) other trace other_missed large →
        old.limiter ≤ other.limiter →
        IsIncluded K.eq old.limiter other.limiter (keys_of old.pairs) (keys_of other.pairs) →
        other_missed ≤ missed }
{}

/// If the keys of a smaller map are included in the keys of a larger map, they are included after the same calls, too
/// (`included`). So the larger map finds each key that the smaller map finds (`finds`). The calls are references, or
/// calls of `calls_change_the_keys`.
pub fn a_smaller_map_is_included<K: Eq + Hash + Drop, V: Drop, S: KeyHasher<K>>()
    ensures included { (calls : List (KeyCall K)) (old small other large : State K V ByLength S) →
        Did K.eq old calls small → Did K.eq other calls large → old.limiter ≤ other.limiter →
        IsIncluded K.eq old.limiter other.limiter (keys_of old.pairs) (keys_of other.pairs) →
        IsIncluded K.eq old.limiter other.limiter (keys_of small.pairs) (keys_of large.pairs) }
    ensures finds { (key : K) (calls : List (KeyCall K)) (old small other large : State K V ByLength S) →
        Did K.eq old calls small → Did K.eq other calls large → old.limiter ≤ other.limiter →
        IsIncluded K.eq old.limiter other.limiter (keys_of old.pairs) (keys_of other.pairs) →
        is_in K.eq key (keys_of small.pairs) ≡ true → is_in K.eq key (keys_of large.pairs) ≡ true }
{}

/// Take a map with `ByLength(k)` that begins with any keys, and any policy of h ≤ k places, even one that knows the
/// trace in advance. The policy begins with the keys `first`, and loads (or bypasses) keys `paid` times for the same
/// references. If the policy stores each referenced key, the map misses at most `k / (k + 1 - h) * paid + length first`
/// times. The bound holds for a policy that may load keys ahead (`loads`), and for a policy that loads on demand and
/// begins with at most h keys (`demands`). If the policy need not store referenced keys, and h < k, the map misses at
/// most `k / (k - h) * paid + length first` times (`bypasses`).
pub fn maps_are_competitive<K: Eq + Hash + Drop, V: Drop, S: KeyHasher<K>>()
    ensures loads { (trace : List K) (missed : ℕ) (old new : State K V ByLength S) (h paid : ℕ) (first left : List K) →
        IsDistinct K.eq (keys_of old.pairs) → length old.pairs ≤ old.limiter →
        Referenced (of_length K.eq) old trace missed new → h ≤ old.limiter →
        Served (Loads K.eq h) left first trace paid →
        (old.limiter + 1 - h) * missed ≤ old.limiter * paid + (old.limiter + 1 - h) * length first }
    ensures demands { (trace : List K) (missed : ℕ) (old new : State K V ByLength S) (h paid : ℕ)
        (first left : List K) →
        IsDistinct K.eq (keys_of old.pairs) → length old.pairs ≤ old.limiter →
        Referenced (of_length K.eq) old trace missed new → h ≤ old.limiter → length first ≤ h →
        Served (Demands K.eq h) left first trace paid →
        (old.limiter + 1 - h) * missed ≤ old.limiter * paid + (old.limiter + 1 - h) * length first }
    ensures bypasses { (trace : List K) (missed : ℕ) (old new : State K V ByLength S) (h paid : ℕ)
        (first left : List K) →
        IsDistinct K.eq (keys_of old.pairs) → length old.pairs ≤ old.limiter →
        Referenced (of_length K.eq) old trace missed new → h ≤ old.limiter →
        Served (Bypasses K.eq h) left first trace paid →
        (old.limiter - h) * missed ≤ old.limiter * paid + (old.limiter - h) * length first }
{
    references_keep_the_newest::<K, V, S>();
    lru_theory::lru_is_competitive::<K>();
}
