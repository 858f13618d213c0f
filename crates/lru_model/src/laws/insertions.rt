//! What is proved of all insertions into the table, including the insertions of `try_insert`.

ghost use Rattle.std.specs.Prelude.{ℕ, ◌+◌, ◌≤◌, Result};
ghost use Rattle.lru_model.specs.State.{State, IsSized, potential};
ghost use Rattle.lru_model.specs.TryInserts.{TryInsert};
ghost use Rattle.lru_model.specs.Runs.{Run};
ghost use Rattle.lru_model.specs.PaidInsertions.{PaidStep};
ghost use Rattle.lru_model.specs.Theorems.{PaysForInsertions};

use lru_limits::{Admission, KeyHasher};
use std::hash::Hash;

/// A `try_insert` pays for its insertions into the table, even if it reserves growth. The number of insertions, plus
/// the `potential` (`specs/State`), rises by at most 3 (`rise`), and `PaysForInsertions` holds (`stored`). If each
/// reservation finds no growth left, `PaysForInsertions` also holds for any sequence of calls, including `try_insert`
/// (`runs`).
pub fn try_inserts_pay_for_moves<K: Eq + Hash, V, L: Admission<K, V>, S: KeyHasher<K>>()
    ensures rise { (key : K) (value : V) (old : State K V L S) (result : Result (Unit {0}) (K × V))
        (new : State K V L S) →
        IsSized old →
        TryInsert L.terms L.rules key value old K.eq S.hash_of result new →
        new.counts.insertions + potential new ≤ old.counts.insertions + potential old + 3 }
    ensures stored { (key : K) (value : V) (old : State K V L S) (result : Result (Unit {0}) (K × V))
        (new : State K V L S) →
        IsSized old →
        TryInsert L.terms L.rules key value old K.eq S.hash_of result new → PaysForInsertions old new }
    ensures runs { (old new : State K V L S) →
        Run (PaidStep L.terms L.rules K.eq S.hash_of) new old →
        IsSized old → PaysForInsertions old new }
{}
