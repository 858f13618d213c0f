ghost use Rattle.std.specs.Prelude.{◌≡◌, ℕ, ◌+◌, ◌≤◌, Bool, true, Result};
ghost use Rattle.lru_limits.specs.Bytes.{both_own};
ghost use Rattle.lru_model.specs.Theorems.{CountsBytes, KeepsBytes, TakesAtMost};
ghost use Rattle.lru_model.specs.Runs.{Step, StepOrKeptWrite, Run};
ghost use Rattle.lru_model.specs.Sizes.{max_of_32_bits};
ghost use Rattle.lru_model.specs.State.{State, IsSized, Trims, empty_map};
ghost use Rattle.lru_model.specs.TryInserts.{TryInsert};

use lru_limits::{Admission, ByBytes, Insertion, KeyHasher, Limiter, OwnedBytes, Summing};
use std::hash::Hash;

/// A map with `ByBytes` keeps to its limit (`KeepsBytes`) if its limiter counts all bytes of the map, and the count is
/// at most the limit. Then the bytes of the map are at most the limit (`memory`). The map still keeps to its limit
/// after each `Step` (`kept`) and each `try_insert` (`tried`). No `Step` changes the limit (`limit`). The limiter
/// permits a growth only if the new table plus the owned bytes are within the limit (`grown`). This does not count the
/// old table, which exists until all entries have moved.
///
/// A new map keeps to its limit (`begins`). Suppose that `set_limiter` sets a limiter that counts the bytes of the map
/// (`CountsBytes`). If the table alone is within the new limit, the trim brings the map within the new limit
/// (`trimmed`).
pub fn calls_keep_the_bytes<
    K: OwnedBytes + Eq + Hash + Drop,
    V: OwnedBytes + Drop,
    S: KeyHasher<K>,
>()
    ensures kept { (old new : State K V ByBytes S) → IsSized old →
        Step ⟦<ByBytes as Limiter<K, V>>⟧.rules ⟦<ByBytes as Insertion<K, V, K>>⟧.offers K.eq S.hash_of old new →
        KeepsBytes (both_own K.owned V.owned) old → KeepsBytes (both_own K.owned V.owned) new }
    ensures limit { (old new : State K V ByBytes S) → IsSized old →
        Step ⟦<ByBytes as Limiter<K, V>>⟧.rules ⟦<ByBytes as Insertion<K, V, K>>⟧.offers K.eq S.hash_of old new →
        KeepsBytes (both_own K.owned V.owned) old → new.limiter.limit ≡ old.limiter.limit }
    ensures tried { (key : K) (value : V) (old : State K V ByBytes S) (result : Result (Unit {0}) (K × V))
        (new : State K V ByBytes S) → IsSized old →
        TryInsert ⟦<ByBytes as Admission<K, V>>⟧.terms ⟦<ByBytes as Limiter<K, V>>⟧.rules key value old K.eq
        S.hash_of result new →
        KeepsBytes (both_own K.owned V.owned) old → KeepsBytes (both_own K.owned V.owned) new }
    ensures memory { (st : State K V ByBytes S) → KeepsBytes (both_own K.owned V.owned) st →
        TakesAtMost (both_own K.owned V.owned) st.limiter.limit st }
    ensures grown { (st : State K V ByBytes S) (bytes : ℕ) →
        (⟦<ByBytes as Limiter<K, V>>⟧.rules.on_grow st.limiter bytes).allowed ≡ true →
        st.limiter.owned + bytes ≤ st.limiter.limit }
    ensures begins { (limit entry_bytes : ℕ) (hasher : S) →
        KeepsBytes (both_own K.owned V.owned) (empty_map {K = K} {V = V} {S = ByBytes}
        (record { limit = limit; owned = 0; table = 0 }) hasher entry_bytes max_of_32_bits) }
    ensures trimmed { (old new : State K V ByBytes S) → CountsBytes (both_own K.owned V.owned) old →
        old.limiter.table ≤ old.limiter.limit → Trims ⟦<ByBytes as Limiter<K, V>>⟧.rules old new →
        KeepsBytes (both_own K.owned V.owned) new }
{}

/// Any sequence of `Step`s keeps a map within its limit (`kept`), and does not change the limit (`limit`). Values may
/// be written between the steps, if each entry still owns as many bytes as before.
pub fn runs_keep_the_bytes<
    K: OwnedBytes + Eq + Hash + Drop,
    V: OwnedBytes + Drop,
    S: KeyHasher<K>,
>()
    ensures kept { (old new : State K V ByBytes S) → IsSized old →
        Run (StepOrKeptWrite ⟦<ByBytes as Limiter<K, V>>⟧.rules ⟦<ByBytes as Insertion<K, V, K>>⟧.offers K.eq
        S.hash_of ⟦<ByBytes as Summing<K, V>>⟧.cost_of) new old →
        KeepsBytes (both_own K.owned V.owned) old → KeepsBytes (both_own K.owned V.owned) new }
    ensures limit { (old new : State K V ByBytes S) → IsSized old →
        Run (StepOrKeptWrite ⟦<ByBytes as Limiter<K, V>>⟧.rules ⟦<ByBytes as Insertion<K, V, K>>⟧.offers K.eq
        S.hash_of ⟦<ByBytes as Summing<K, V>>⟧.cost_of) new old →
        KeepsBytes (both_own K.owned V.owned) old → new.limiter.limit ≡ old.limiter.limit }
{}
