//! What is proved of every call. A step is the change that one call makes to a map (`specs/Runs`). `Step` describes a
//! call that does not set the limiter. `AnyStep` also describes a change of the limiter, and a write to a value.

ghost use Rattle.std.specs.Prelude.{◌≡◌, ℕ, ◌+◌, ◌≤◌, Bool, length};
ghost use Rattle.std.specs.List.{IsDistinct};
ghost use Rattle.lru_limits.specs.Admissions.{offers_of};
ghost use Rattle.lru_limits.specs.Laws.{IsAccount};
ghost use Rattle.lru_limits.specs.Limits.{LimitsLength, LimitsMemory};
ghost use Rattle.lru_model.specs.Lists.{keys_of, IsFront};
ghost use Rattle.lru_model.specs.State.{State, IsSized, IsMap};
ghost use Rattle.lru_model.specs.Runs.{Step, AnyStep, StepAmong, EvictsFromOldEnd};
ghost use Rattle.lru_model.specs.Theorems.{UsesAtMost, IsSummed, others};

use lru_limits::{Budgeted, Insertion, KeyHasher, LookupKey};
use std::hash::Hash;

/// If no two keys are equal before a call, no two keys are equal after the call (`keys`). If `IsMap` holds before a
/// call, and the call leaves a sound table, `IsMap` still holds (`map`). The clause `map` of each call ensures that the
/// table is sound.
pub fn calls_keep_maps<K: Eq + Hash, V, I: LookupKey<K>, L: Insertion<K, V, I>, S: KeyHasher<K>>()
    ensures keys { (old new : State K V L S) →
        AnyStep L.rules L.offers I.names S.hash_of old new →
        IsDistinct K.eq (keys_of old.pairs) → IsDistinct K.eq (keys_of new.pairs) }
    ensures map { (old new : State K V L S) →
        AnyStep L.rules L.offers I.names S.hash_of old new →
        IsMap K.eq old → IsSized new → IsMap K.eq new }
{}

/// If the running total of the limiter is the sum of the costs of the entries, this is still true after each `Step`.
/// The premise `IsAccount` is a law of `Summing`.
pub fn calls_keep_sums<K: Eq + Hash, V, I: LookupKey<K>, L: Insertion<K, V, I>, S: KeyHasher<K>>()
    ensures { (cost : K → V → ℕ) (account : L → ℕ) → IsAccount L.rules L.offers cost account →
        (old new : State K V L S) →
        Step L.rules L.offers I.names S.hash_of old new →
        IsSummed cost account old → IsSummed cost account new }
{}

/// Suppose that the limiter limits the length to `most` entries (`LimitsLength`), as `ByLength` does. No `Step` changes
/// this limit (`limit`). If there are at most `most` entries before a `Step`, this is still true after the `Step`
/// (`length`).
pub fn calls_keep_the_length<
    K: Eq + Hash,
    V,
    I: LookupKey<K>,
    L: Insertion<K, V, I>,
    S: KeyHasher<K>,
>()
    ensures limit { (most : L → ℕ) → LimitsLength L.rules L.offers most → (old new : State K V L S) →
        Step L.rules L.offers I.names S.hash_of old new → most new.limiter ≡ most old.limiter }
    ensures length { (most : L → ℕ) → LimitsLength L.rules L.offers most → (old new : State K V L S) →
        Step L.rules L.offers I.names S.hash_of old new →
        length old.pairs ≤ most old.limiter → length new.pairs ≤ most old.limiter }
{}

/// Suppose that the limiter permits only tables of at most `most` bytes (`LimitsMemory`), as `ByMemoryUsage` does,
/// alone or in `Storing` or `Both`. No `Step` changes this limit (`limit`). If the table takes at most `most` bytes
/// before a `Step`, this is still true after the `Step` (`usage`).
pub fn calls_keep_the_memory_usage<
    K: Eq + Hash,
    V,
    I: LookupKey<K>,
    L: Insertion<K, V, I>,
    S: KeyHasher<K>,
>()
    ensures limit { (most : L → ℕ) → LimitsMemory L.rules L.offers most → (old new : State K V L S) →
        Step L.rules L.offers I.names S.hash_of old new → most new.limiter ≡ most old.limiter }
    ensures usage { (most : L → ℕ) → LimitsMemory L.rules L.offers most → (old new : State K V L S) →
        Step L.rules L.offers I.names S.hash_of old new →
        UsesAtMost (most old.limiter) old → UsesAtMost (most old.limiter) new }
{}

/// Suppose that the limiter has a budget, as `ByCost` and `ByWeight` have. No `Step` changes the budget (`budget`). If
/// the running total is the sum of the costs of the entries, and is at most the budget, it is still at most the budget
/// after each `Step` (`total`).
pub fn calls_keep_the_budget<K: Eq + Hash, V, L: Budgeted<K, V>, S: KeyHasher<K>>()
    ensures budget { (old new : State K V L S) →
        Step L.rules (offers_of L.terms) K.eq S.hash_of old new → L.budget_of new.limiter ≡ L.budget_of old.limiter }
    ensures total { (old new : State K V L S) →
        Step L.rules (offers_of L.terms) K.eq S.hash_of old new →
        IsSummed L.cost_of L.account old → L.account old.limiter ≤ L.budget_of old.limiter →
        L.account new.limiter ≤ L.budget_of new.limiter }
{}

/// Each `AnyStep` adds at most one entry.
pub fn calls_add_one_pair<
    K: Eq + Hash,
    V,
    I: LookupKey<K>,
    L: Insertion<K, V, I>,
    S: KeyHasher<K>,
>()
    ensures { (old new : State K V L S) →
        AnyStep L.rules L.offers I.names S.hash_of old new →
        length new.pairs ≤ length old.pairs + 1 }
{}

/// Consider the entries whose keys a call does not name. The call evicts only the oldest of these entries, and keeps
/// the order of the rest (`others`). This clause excludes `pop_newest`, which removes the newest entry. A call names
/// the key that it inserts, updates, looks up or removes, and the key whose value it writes. A retain names the keys
/// that its closure rejects.
///
/// An insert or an update evicts only the oldest entries. But if the limiter rejects the new value, the call removes
/// only the entry of the given key (`given`).
pub fn calls_evict_the_oldest<
    K: Eq + Hash,
    V,
    I: LookupKey<K>,
    L: Insertion<K, V, I>,
    S: KeyHasher<K>,
>()
    ensures others { (test : K → Bool) (old new : State K V L S) →
        StepAmong L.rules L.offers I.names S.hash_of test old new →
        IsFront (others test new.pairs) (others test old.pairs) }
    ensures given { (old new : State K V L S) (step : AnyStep L.rules L.offers I.names S.hash_of old new) →
        EvictsFromOldEnd L.rules L.offers I.names S.hash_of old new step }
{}
