//! What an insert keeps: it loses no entry, and with `ByLength` it leaves the newest entries.

ghost use Rattle.std.specs.Prelude.{◌≡◌, ◌⊎◌, ℕ, ◌-◌, ◌^◌, ◌<◌, ◌≤◌, [], ◌∷◌, ◌++◌, length, reverse, Bool};
ghost use Rattle.std.specs.Prelude.{true, false, Result, Ok, List, None};
ghost use Rattle.std.specs.List.{Contains};
ghost use Rattle.std.specs.declared.alloc.AllocError.{AllocError};
ghost use Rattle.lru_model.specs.Lists.{lookup_entry, without};
ghost use Rattle.lru_model.specs.Sizes.{max_of_32_bits};
ghost use Rattle.lru_model.specs.State.{State, contents, growth_left, IsSized, empty_map};
ghost use Rattle.lru_model.specs.Inserts.{Insert};
ghost use Rattle.lru_model.specs.Callbacks.{InsertPasses};
ghost use Rattle.lru_model.specs.Calls.{written};
ghost use Rattle.lru_model.specs.Runs.{Step};
ghost use Rattle.lru_model.specs.Theorems.{Stores};
ghost use Rattle.lru_model.specs.Exact.{InsertsInList};
ghost use Rattle.lru_limits.specs.Laws.{ChangesNoPair};
ghost use Rattle.lru_model.specs.Kept.{LosesNothing, AcceptsNew, IsAdded, LeavesTheNewest};
ghost use Rattle.lru_model.specs.Kept.{KeepsToLength, most_exact_length, newest_after};
ghost use Rattle.lru_model.specs.Extends.{InsertsAll};

use lru_limits::{ByLength, Insertion, KeyHasher, Limiter, LookupKey};
use std::hash::Hash;

/// If the limiter changes no evicted or removed entry (`ChangesNoPair`), an insert loses no entry. `LosesNothing` says,
/// for each result, where the new entry and the old entries are afterwards (`all`). If the result is true, the map has
/// the stored entry, and the newest entries of other keys. The callback got the oldest entries, oldest first
/// (`stored`). Whatever the result is, every old entry of another key is in the map or was passed to the callback
/// (`others`).
pub fn nothing_is_lost<K: Eq + Hash, V, I: LookupKey<K>, L: Insertion<K, V, I>, S: KeyHasher<K>>()
    ensures all { (key : I) (value : V) (old : State K V L S) (result : Result Bool AllocError)
        (passed : List (K × V)) (new : State K V L S) →
        ChangesNoPair L.rules →
        InsertPasses L.rules L.offers I.names S.hash_of key value old result passed new →
        LosesNothing L.rules L.offers I.names key value old result passed new }
    ensures stored { (key : I) (value : V) (old : State K V L S) (passed : List (K × V)) (new : State K V L S) →
        ChangesNoPair L.rules →
        InsertPasses L.rules L.offers I.names S.hash_of key value old (Ok true) passed new →
        (pair : K × V) × Stores L.rules L.offers I.names key value old pair
        × (new.pairs ++ reverse passed ≡ pair ∷ without (I.names key) old.pairs) }
    ensures others { (key : I) (value : V) (old : State K V L S) (result : Result Bool AllocError)
        (passed : List (K × V)) (new : State K V L S) →
        ChangesNoPair L.rules →
        InsertPasses L.rules L.offers I.names S.hash_of key value old result passed new →
        (pair : K × V) → I.names key pair.0 ≡ false →
        Contains old.pairs pair → Contains new.pairs pair ⊎ Contains passed pair }
{}

/// If growth is left, an insert changes the entries as it would change a plain list without a table (`list`), whatever
/// `on_grow` returns. If the limiter also accepts a new entry, and is not over its limit with this entry, the insert
/// returns true, evicts nothing (`added`), and passes nothing to its callback (`passed`).
pub fn inserts_with_room_are_exact<
    K: Eq + Hash,
    V,
    I: LookupKey<K>,
    L: Insertion<K, V, I>,
    S: KeyHasher<K>,
>()
    ensures list { (key : I) (value : V) (old : State K V L S) (result : Result Bool AllocError)
        (new : State K V L S) →
        0 < growth_left old →
        Insert L.rules L.offers I.names S.hash_of key value old result new →
        InsertsInList L.rules L.offers I.names key value (contents old) result (contents new) }
    ensures added { (key : I) (value : V) (pair : K × V) (old : State K V L S) (result : Result Bool AllocError)
        (new : State K V L S) →
        0 < growth_left old → lookup_entry (I.names key) old.pairs ≡ None →
        AcceptsNew L.rules L.offers I.names key value (contents old) pair →
        Insert L.rules L.offers I.names S.hash_of key value old result new →
        IsAdded L.rules L.offers I.names key value pair old result new }
    ensures passed { (key : I) (value : V) (pair : K × V) (old : State K V L S) (result : Result Bool AllocError)
        (passed : List (K × V)) (new : State K V L S) →
        0 < growth_left old → lookup_entry (I.names key) old.pairs ≡ None →
        AcceptsNew L.rules L.offers I.names key value (contents old) pair →
        InsertPasses L.rules L.offers I.names S.hash_of key value old result passed new → passed ≡ [] }
{}

/// After a successful insert with `ByLength`, the map has the first `max_length` entries of this list: the stored key
/// with the new value, and then the old entries of other keys, newest first. The law holds for a map that keeps to its
/// length (`newest`; see `maps_keep_to_their_length`). It also holds for a map with at most `max_length` entries and
/// growth left (`with_room`). If the map keeps to its length, several inserts, one after another, leave the newest
/// entries, too (`lists`).
pub fn inserts_leave_the_newest<K: Eq + Hash + Drop, V: Drop, S: KeyHasher<K>>()
    ensures newest { (key : K) (value : V) (old : State K V ByLength S) (result : Result Bool AllocError)
        (new : State K V ByLength S) →
        KeepsToLength old →
        Insert ⟦<ByLength as Limiter<K, V>>⟧.rules ⟦<ByLength as Insertion<K, V, K>>⟧.offers K.eq S.hash_of key value
        old result new →
        LeavesTheNewest K.eq old.limiter key value old.pairs result new.pairs }
    ensures with_room { (key : K) (value : V) (old : State K V ByLength S) (result : Result Bool AllocError)
        (new : State K V ByLength S) →
        length old.pairs ≤ old.limiter → 0 < growth_left old →
        Insert ⟦<ByLength as Limiter<K, V>>⟧.rules ⟦<ByLength as Insertion<K, V, K>>⟧.offers K.eq S.hash_of key value
        old result new →
        LeavesTheNewest K.eq old.limiter key value old.pairs result new.pairs }
    ensures lists { (inserted : List (K × V)) (old new : State K V ByLength S) →
        KeepsToLength old →
        InsertsAll ⟦<ByLength as Limiter<K, V>>⟧.rules ⟦<ByLength as Insertion<K, V, K>>⟧.offers K.eq S.hash_of old
        inserted new →
        new.pairs ≡ newest_after K.eq old.limiter inserted old.pairs }
{}

/// If `max_length` is at most 939,524,096, and an entry has fewer than 4,294,967,295 bytes, a new map with `ByLength`
/// keeps to its length (`KeepsToLength`, `begins`). A map still keeps to its length after any `Step` that leaves a
/// sound table (`goes_on`), and after any write to a value (`written`).
pub fn maps_keep_to_their_length<K: Eq + Hash + Drop, V: Drop, S: KeyHasher<K>>()
    ensures begins { (most entry_bytes : ℕ) (hasher : S) →
        most ≤ most_exact_length → entry_bytes < 2 ^ 32 - 1 →
        KeepsToLength (empty_map {K = K} {V = V} {S = ByLength} most hasher entry_bytes max_of_32_bits) }
    ensures goes_on { (old new : State K V ByLength S) →
        KeepsToLength old → IsSized new →
        Step ⟦<ByLength as Limiter<K, V>>⟧.rules ⟦<ByLength as Insertion<K, V, K>>⟧.offers K.eq S.hash_of old new →
        KeepsToLength new }
    ensures written { (names : K → Bool) (value : V) (old : State K V ByLength S) →
        KeepsToLength old → KeepsToLength (written names value old) }
{}
