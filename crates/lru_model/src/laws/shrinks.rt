ghost use Rattle.std.specs.Prelude.{◌≡◌, ℕ, ◌≤◌, Bool, true, false, length, Result, Ok};
ghost use Rattle.std.specs.declared.alloc.AllocError.{AllocError};
ghost use Rattle.group_table.specs.Change.{count_up};
ghost use Rattle.lru_model.specs.State.{State, buckets, potential};
ghost use Rattle.lru_model.specs.Shrinks.{Shrink};
ghost use Rattle.lru_model.specs.Theorems.{UsesAtMost};

use lru_limits::{KeyHasher, Limiter};
use std::hash::Hash;

/// A shrink keeps the entries, the limiter, and the counts `moved` and `placed`.
pub fn shrinks_keep_the_list<K: Eq + Hash, V, L: Limiter<K, V>, S: KeyHasher<K>>()
    ensures { (old : State K V L S) (result : Result Bool AllocError) (new : State K V L S) →
        Shrink old result new → (new.pairs ≡ old.pairs) × (new.limiter ≡ old.limiter)
        × (new.counts.moved ≡ old.counts.moved) × (new.counts.placed ≡ old.counts.placed) }
{}

/// If a shrink makes the table smaller, it rehashes and counts each entry, and the `potential` (`specs/State`) is then
/// at most the number of entries (`shrunk`). If the table keeps its size, the shrink changes nothing (`kept`).
pub fn shrinks_pay_for_moves<K: Eq + Hash, V, L: Limiter<K, V>, S: KeyHasher<K>>()
    ensures shrunk { (old new : State K V L S) →
        Shrink old (Ok true) new →
        (new.counts.shrunk ≡ count_up old.counts.shrunk (length old.pairs)) × (potential new ≤ length old.pairs) }
    ensures kept { (old : State K V L S) (result : Result Bool AllocError) (new : State K V L S) →
        (result ≡ Ok true → ⊥) → Shrink old result new → new ≡ old }
{}

/// A shrink raises neither the number of buckets (`fewer`) nor the bytes that the table takes (`usage`). If a shrink
/// made the table smaller, a second shrink finds nothing to do (`again`).
pub fn shrinks_leave_a_tight_table<K: Eq + Hash, V, L: Limiter<K, V>, S: KeyHasher<K>>()
    ensures fewer { (old : State K V L S) (result : Result Bool AllocError) (new : State K V L S) →
        Shrink old result new → buckets new ≤ buckets old }
    ensures usage { (old : State K V L S) (result : Result Bool AllocError) (new : State K V L S) (most : ℕ) →
        Shrink old result new → UsesAtMost most old → UsesAtMost most new }
    ensures again { (old mid : State K V L S) (result : Result Bool AllocError) (new : State K V L S) →
        Shrink old (Ok true) mid → Shrink mid result new → result ≡ Ok false }
{}
