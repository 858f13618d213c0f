//! Traces of references to keys: recency lists, reuse distances, and the misses of an LRU cache of n places.
//!
//! The functions do nothing: their contracts are the theorems. `docs/THEORY.md` explains each theorem.
#![tactic(auto)]

ghost use Rattle.std.specs.Prelude.{◌≡◌, ℕ, ◌+◌, ◌-◌, ◌*◌, ◌≤◌, ◌<◌, List, [], length, map, take, true};
ghost use Rattle.std.specs.Prelude.{Option, nat_lt, ◌&&◌};
ghost use Rattle.std.specs.List.{AllByRecursion};
ghost use Rattle.lru_theory.specs.Budgets.{affordable, cached_within, faults_within, misses_within, EqualCosts};
ghost use Rattle.lru_theory.specs.Traces.{is_in, recency, misses, cached, faults, past_after, AreEqual};
ghost use Rattle.lru_theory.specs.Policies.{Loads, Demands, Bypasses, Served};
ghost use Rattle.lru_theory.specs.Best.{min_misses, bypass_misses};
ghost use Rattle.lru_theory.specs.Inclusion.{KeyCall, refers, after_calls, IsIncluded, IsSubsequence};
ghost use Rattle.lru_theory.specs.Places.{keys_in, place_of, place_calls, call_faults, IsNoPromotion};

/// If an LRU cache of n places contains the n keys that were referenced last, this is still so after any trace
/// (`keys`). The cache misses exactly at the references whose reuse distance is at least n, and at the first reference
/// to each key (`misses`).
pub fn a_cache_is_the_newest<K: Eq>()
    ensures keys { (n : ℕ) (past trace : List K) →
        cached K.eq n (take n (recency K.eq past)) trace ≡ take n (recency K.eq (past_after past trace)) }
    ensures misses { (n : ℕ) (past trace : List K) →
        faults K.eq n (take n (recency K.eq past)) trace ≡ misses K.eq n past trace }
{}

/// More places never mean more misses.
pub fn more_places_never_miss_more<K: Eq>()
    ensures { (n m : ℕ) (past trace : List K) → n ≤ m → misses K.eq m past trace ≤ misses K.eq n past trace }
{}

/// Take any policy with h places, even one that knows the whole trace. Take an LRU cache of k ≥ h places that begins
/// with any keys. The policy begins with the keys `first`, and pays `paid` times.
///
/// - If the policy stores each referenced key, and may load keys ahead, LRU misses at most
///   `k / (k + 1 - h) * paid + length first` times (`loads`).
///
/// - The same bound holds for a demand policy that begins with at most h keys (`demands`).
///
/// - If the policy need not store referenced keys, and k > h, LRU misses at most `k / (k - h) * paid + length first`
///   times (`bypasses`).
pub fn lru_is_competitive<K: Eq>()
    ensures loads { (k h : ℕ) (past trace first left : List K) (paid : ℕ) → h ≤ k →
        Served (Loads K.eq h) left first trace paid →
        (k + 1 - h) * misses K.eq k past trace ≤ k * paid + (k + 1 - h) * length first }
    ensures demands { (k h : ℕ) (past trace first left : List K) (paid : ℕ) → h ≤ k → length first ≤ h →
        Served (Demands K.eq h) left first trace paid →
        (k + 1 - h) * misses K.eq k past trace ≤ k * paid + (k + 1 - h) * length first }
    ensures bypasses { (k h : ℕ) (past trace first left : List K) (paid : ℕ) → h ≤ k →
        Served (Bypasses K.eq h) left first trace paid →
        (k - h) * misses K.eq k past trace ≤ k * paid + (k - h) * length first }
{}

/// Take a policy with h places that may load keys ahead, begins with at most h keys, and pays `paid` times. Some demand
/// policy with h places and the same first keys misses at most `paid` times.
pub fn loading_ahead_gains_nothing<K: Eq>()
    ensures { (h : ℕ) (trace first left : List K) (paid : ℕ) → length first ≤ h →
        Served (Loads K.eq h) left first trace paid →
        (demanded : ℕ) × (other : List K) × Served (Demands K.eq h) other first trace demanded × (demanded ≤ paid) }
{}

/// A cache of n places is *included* in a cache of m ≥ n places if the larger cache contains the keys of the smaller
/// cache, in the same order, and at most m - n more keys. Any calls (`KeyCall`) keep the smaller cache included
/// (`included`). So the larger cache finds each key that the smaller cache finds (`finds`). In a trace, it misses at
/// most as often (`misses`).
pub fn a_smaller_cache_is_included<K: Eq>()
    ensures included { (n m : ℕ) (calls : List (KeyCall K)) (small large : List K) → n ≤ m →
        IsIncluded K.eq n m small large →
        IsIncluded K.eq n m (after_calls K.eq n calls small) (after_calls K.eq m calls large) }
    ensures finds { (key : K) (small large : List K) → IsSubsequence K.eq small large →
        is_in K.eq key small ≡ true → is_in K.eq key large ≡ true }
    ensures misses { (n m : ℕ) (trace small large : List K) → n ≤ m → IsIncluded K.eq n m small large →
        faults K.eq m large trace ≤ faults K.eq n small trace }
{}

/// One list of places holds the keys of LRU caches of every size, even if keys are removed. If no call is a promotion
/// (`promotes`), the cache of n places contains exactly the keys in the first n places (`keys`). So this cache contains
/// a key if fewer than n places come before the key (`finds`). If all calls are references, the number of misses is the
/// same as for a trace (`misses`).
pub fn deletes_leave_places<K: Eq>()
    ensures keys { (n : ℕ) (calls : List (KeyCall K)) (places : List (Option K)) → AllByRecursion IsNoPromotion calls →
        keys_in (take n (place_calls K.eq calls places)) ≡ after_calls K.eq n calls (keys_in (take n places)) }
    ensures finds { (n : ℕ) (key : K) (places : List (Option K)) → is_in K.eq key (keys_in (take n places))
        ≡ (is_in K.eq key (keys_in places) && nat_lt (place_of (K.eq key) places) n) }
    ensures misses { (n : ℕ) (trace keys : List K) →
        call_faults K.eq n (map refers trace) keys ≡ faults K.eq n keys trace }
{}

/// Suppose that the cache with the smaller budget has exactly the newest few keys of the other cache. This is still so
/// after any trace (`front`), and the smaller cache misses at least as often as the other cache (`misses`).
pub fn a_larger_budget_never_misses_more<K: Eq>()
    ensures front { (cost : K → ℕ) (n m some : ℕ) (keys trace : List K) → n ≤ m →
        let small = cached_within K.eq cost n (take some keys) trace in
        small ≡ take (length small) (cached_within K.eq cost m keys trace) }
    ensures misses { (cost : K → ℕ) (n m some : ℕ) (keys trace : List K) → n ≤ m →
        faults_within K.eq cost m keys trace ≤ faults_within K.eq cost n (take some keys) trace }
{}

/// Suppose that equal keys cost the same. If a cache with the limit n contains the longest prefix of the recency list
/// that costs at most n, this is still so after any trace (`keys`). A key alone may cost more than n. The cache misses
/// exactly at the references to keys that need more than n (`needs`), and at the first reference to each key
/// (`misses`).
pub fn a_budget_keeps_the_newest<K: Eq>()
    ensures keys { (cost : K → ℕ) (n : ℕ) (past trace : List K) → EqualCosts K.eq cost →
        cached_within K.eq cost n (affordable cost n (recency K.eq past)) trace
        ≡ affordable cost n (recency K.eq (past_after past trace)) }
    ensures misses { (cost : K → ℕ) (n : ℕ) (past trace : List K) → EqualCosts K.eq cost →
        faults_within K.eq cost n (affordable cost n (recency K.eq past)) trace
        ≡ misses_within K.eq cost n past trace }
{}

/// If a policy that stores each referenced key pays `paid` times, MIN misses at most `paid` times. The policy may load
/// keys ahead (`loads`), or only on demand (`demands`). The same holds for a policy that need not store referenced
/// keys, and MIN with bypass (`bypasses`). All these policies have n places, and begin with no keys. MIN is itself a
/// policy of the first kind, if n is not 0 (`min`), and MIN with bypass is a policy of the second kind (`bypass`).
pub fn min_is_best<K: Eq>()
    ensures loads { (n : ℕ) (trace left : List K) (paid : ℕ) → Served (Loads K.eq n) left [] trace paid →
        min_misses K.eq n trace ≤ paid }
    ensures demands { (n : ℕ) (trace left : List K) (paid : ℕ) → Served (Demands K.eq n) left [] trace paid →
        min_misses K.eq n trace ≤ paid }
    ensures bypasses { (n : ℕ) (trace left : List K) (paid : ℕ) → Served (Bypasses K.eq n) left [] trace paid →
        bypass_misses K.eq n trace ≤ paid }
    ensures min { (n : ℕ) (trace : List K) → 0 < n →
        (left : List K) × Served (Loads K.eq n) left [] trace (min_misses K.eq n trace) }
    ensures bypass { (n : ℕ) (trace : List K) →
        (left : List K) × Served (Bypasses K.eq n) left [] trace (bypass_misses K.eq n trace) }
{}

/// MIN has h ≥ 1 places, and begins with no keys. LRU has k ≥ h places, and begins with any keys. LRU misses at most
/// `k / (k + 1 - h)` times as often as MIN (`min`). If k > h, LRU misses at most `k / (k - h)` times as often as MIN
/// with bypass (`bypass`). An LRU cache of h places that begins with no keys misses at least as often as MIN (`least`).
pub fn lru_is_near_min<K: Eq>()
    ensures min { (k h : ℕ) (past trace : List K) → 0 < h → h ≤ k →
        (k + 1 - h) * misses K.eq k past trace ≤ k * min_misses K.eq h trace }
    ensures bypass { (k h : ℕ) (past trace : List K) → h ≤ k →
        (k - h) * misses K.eq k past trace ≤ k * bypass_misses K.eq h trace }
    ensures least { (n : ℕ) (trace : List K) → 0 < n → min_misses K.eq n trace ≤ misses K.eq n [] trace }
{}
