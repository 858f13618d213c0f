//! What is proved about inserts and other single calls. Each theorem is the contract of a function that does nothing.
//! More theorems: what an insert keeps (`kept`), insertions into the table (`insertions`), shrinks (`shrinks`), each
//! call (`calls`), calls one after another (`runs`), and maps with `ByBytes` (`bytes`).

ghost use Rattle.std.specs.Prelude.{◌≡◌, ◌≢◌, ℕ, ◌≤◌, ◌<◌, ◌+◌, ◌*◌, ◌/◌, ◌⊎◌, ◌∷◌, Bool, false, Option, Some, None};
ghost use Rattle.std.specs.Prelude.{IfSome, Result, Ok, true, IsOk, IsErr, length, List};
ghost use Rattle.std.specs.List.{IsDistinct};
ghost use Rattle.std.specs.declared.alloc.AllocError.{AllocError};
ghost use Rattle.group_table.specs.Bucket.{deleted};
ghost use Rattle.group_table.specs.Sizes.{full_capacity};
ghost use Rattle.lru_model.specs.Lists.{first, without_last, keys_of, lookup, lookup_entry, IsFront};
ghost use Rattle.lru_model.specs.Sizes.{usage, IsGreatestUsage};
ghost use Rattle.lru_model.specs.State.{State, Contents, contents, buckets, growth_left, potential, FirstFreeIs, IsSized};
ghost use Rattle.lru_model.specs.State.{IsPaid};
ghost use Rattle.lru_model.specs.Place.{Place, Outcome, placed, no_memory, IsPlaced, HasPairsButNoGrowth, FillsBucket};
ghost use Rattle.lru_model.specs.Calls.{Remove};
ghost use Rattle.lru_model.specs.Reservations.{Reserve};
ghost use Rattle.lru_model.specs.declared.results.ReserveError.{ReserveError};
ghost use Rattle.lru_model.specs.Callbacks.{InsertPasses};
ghost use Rattle.lru_model.specs.Inserts.{Insert, replacement, IsOutOfMemory};
ghost use Rattle.lru_model.specs.Exact.{Report, InsertsAsReported, InsertsGiven, InsertsInSmallTable, InsertsInList};
ghost use Rattle.lru_model.specs.Exact.{IsDetermined, AlwaysGrants, HasTables};
ghost use Rattle.lru_model.specs.Theorems.{PaysByStoring, CountsInsertions, Stores, KeepsValues, IsRefusedGrowth};
ghost use Rattle.lru_model.specs.Kept.{AcceptsNew, IsAdded};

use lru_limits::{Insertion, KeyHasher, Limiter, LookupKey};
use std::hash::Hash;

mod bytes;
mod calls;
mod insertions;
mod kept;
mod runs;
mod shrinks;

pub use bytes::{calls_keep_the_bytes, runs_keep_the_bytes};
pub use calls::{
    calls_add_one_pair, calls_evict_the_oldest, calls_keep_maps, calls_keep_sums,
    calls_keep_the_budget, calls_keep_the_length, calls_keep_the_memory_usage,
};
pub use insertions::try_inserts_pay_for_moves;
pub use kept::{
    inserts_leave_the_newest, inserts_with_room_are_exact, maps_keep_to_their_length,
    nothing_is_lost,
};
pub use runs::{
    runs_begin_with_maps, runs_evict_the_oldest, runs_keep_maps, runs_keep_sums,
    runs_keep_the_budget, runs_keep_the_length, runs_keep_the_memory_usage, runs_pay_for_moves,
};
pub use shrinks::{shrinks_keep_the_list, shrinks_leave_a_tight_table, shrinks_pay_for_moves};

/// If an insert into a map of n entries leaves m entries, and passes p entries to its callback, m + p is at most n + 1
/// (`few`). An insert with a callback is also an `Insert` (`step`).
pub fn inserts_pass_few<K: Eq + Hash, V, I: LookupKey<K>, L: Insertion<K, V, I>, S: KeyHasher<K>>()
    ensures few { (key : I) (value : V) (old : State K V L S) (result : Result Bool AllocError)
        (passed : List (K × V)) (new : State K V L S) →
        InsertPasses L.rules L.offers I.names S.hash_of key value old result
        passed new → length passed + length new.pairs ≤ length old.pairs + 1 }
    ensures step { (key : I) (value : V) (old : State K V L S) (result : Result Bool AllocError)
        (passed : List (K × V)) (new : State K V L S) →
        InsertPasses L.rules L.offers I.names S.hash_of key value old result passed new →
        Insert L.rules L.offers I.names S.hash_of key value old result new }
{}

/// An insert into a table of up to 16 buckets changes the entries as `small_report` (`specs/Exact`) says, unless memory
/// runs out. `small_report` computes whether the table queries the limiter, and how many entries are evicted because
/// growth is refused.
pub fn small_inserts_are_exact<
    K: Eq + Hash,
    V,
    I: LookupKey<K>,
    L: Insertion<K, V, I>,
    S: KeyHasher<K>,
>()
    ensures { (key : I) (value : V) (old : State K V L S) (result : Result Bool AllocError) (new : State K V L S) →
        buckets old ≤ 16 →
        Insert L.rules L.offers I.names S.hash_of key value old result new →
        InsertsInSmallTable L.rules L.offers I.names old key value result (contents new) }
{}

/// An insert changes the entries as the `Report` of the table (`specs/Exact`) says (`exact`). Every insert has a report
/// (`given`). Suppose that the limiter and the arguments determine what `on_insert` does (`IsDetermined`), and that two
/// inserts return `Ok`. If their arguments, reports, entries and limiters are equal, their results are equal, and so
/// are the entries and limiters afterwards (`alike`).
pub fn inserts_are_exact_unless_refused<
    K: Eq + Hash,
    V,
    I: LookupKey<K>,
    L: Insertion<K, V, I>,
    S: KeyHasher<K>,
>()
    ensures exact { (key : I) (value : V) (old : State K V L S) (result : Result Bool AllocError)
        (new : State K V L S) →
        Insert L.rules L.offers I.names S.hash_of key value old result new →
        InsertsAsReported L.rules L.offers I.names old S.hash_of key value result (contents new) }
    ensures given { (key : I) (value : V) (old : State K V L S) (result : Result Bool AllocError)
        (new : State K V L S) →
        Insert L.rules L.offers I.names S.hash_of key value old result new →
        (report : Report) × InsertsGiven L.rules L.offers I.names (λ s pair. report) key value (contents old) result
        (contents new) }
    ensures alike { (reports : L → K × V → Report) (key : I) (value : V) (old : Contents K V L)
        (result other : Result Bool AllocError) (new others : Contents K V L) →
        IsDetermined L.offers → IsOk result → IsOk other →
        InsertsGiven L.rules L.offers I.names reports key value old result new →
        InsertsGiven L.rules L.offers I.names reports key value old other others →
        (result ≡ other) × (new ≡ others) }
{}

/// An insert changes the entries as it would change a plain list without a table (`InsertsInList`), under two premises.
/// First, `on_grow` permits every growth and changes nothing, as in `ByLength` and `Unlimited`. Second, there is a
/// table for the entries, and a table for one entry more (`HasTables`). The insert may still run out of memory.
pub fn granted_inserts_are_exact<
    K: Eq + Hash,
    V,
    I: LookupKey<K>,
    L: Insertion<K, V, I>,
    S: KeyHasher<K>,
>()
    ensures { (key : I) (value : V) (old : State K V L S) (result : Result Bool AllocError) (new : State K V L S) →
        AlwaysGrants L.rules → HasTables old →
        Insert L.rules L.offers I.names S.hash_of key value old result new →
        InsertsInList L.rules L.offers I.names key value (contents old) result (contents new) }
{}

/// If an insert into a map of n entries grows the table, the new table can hold fewer than 4 * (n + 1) entries.
pub fn inserts_grow_little<
    K: Eq + Hash,
    V,
    I: LookupKey<K>,
    L: Insertion<K, V, I>,
    S: KeyHasher<K>,
>()
    ensures { (key : I) (value : V) (old : State K V L S) (result : Result Bool AllocError) (new : State K V L S) →
        IsSized old →
        Insert L.rules L.offers I.names S.hash_of key value old result new →
        buckets old < buckets new → full_capacity (buckets new) < 4 * (length old.pairs + 1) }
{}

/// Suppose that the map has entries, but no growth left. If the first free bucket in the search for the new key is
/// deleted, the new entry fills this bucket: the limiter is not queried, and no entry moves (`served`). If the limiter
/// also accepts the new entry, and is not over its limit with this entry, an insert evicts nothing (`added`).
/// Conversely, if an insertion keeps the number of buckets, and evicts and moves nothing, the first free bucket was
/// deleted (`only`).
pub fn deleted_buckets_serve<
    K: Eq + Hash,
    V,
    I: LookupKey<K>,
    L: Insertion<K, V, I>,
    S: KeyHasher<K>,
>()
    ensures served { (pair : K × V) (old : State K V L S) (outcome : Outcome) (new : State K V L S) →
        HasPairsButNoGrowth old →
        FirstFreeIs deleted (S.hash_of old.hasher pair.0) old.table.states →
        Place L.rules S.hash_of pair old outcome new →
        (outcome ≡ placed) × IsPlaced pair (buckets old) 0 old new ×
        FillsBucket (S.hash_of old.hasher pair.0) old.table new.table }
    ensures only { (pair : K × V) (old new : State K V L S) →
        HasPairsButNoGrowth old → IsSized old →
        Place L.rules S.hash_of pair old placed new →
        IsPlaced pair (buckets old) 0 old new → growth_left new ≡ 0 →
        FirstFreeIs deleted (S.hash_of old.hasher pair.0) old.table.states }
    ensures added { (key : I) (value : V) (pair : K × V) (old : State K V L S) (result : Result Bool AllocError)
        (new : State K V L S) →
        HasPairsButNoGrowth old → lookup_entry (I.names key) old.pairs ≡ None →
        FirstFreeIs deleted (S.hash_of old.hasher pair.0) old.table.states →
        AcceptsNew L.rules L.offers I.names key value (contents old) pair →
        Insert L.rules L.offers I.names S.hash_of key value old result new →
        IsAdded L.rules L.offers I.names key value pair old result new }
{}

/// The count of moved entries, plus the `potential` (`specs/State`), rises by at most 2 for the entry that the insert
/// stores (`rise`). So inserts moved at most two entries for each stored entry, plus one for each entry that a shrink
/// rehashed (`paid`). The table counts every insertion (`counted`). `rise` and `counted` hold until a count stops at
/// `u64::MAX`.
pub fn inserts_pay_for_moves<
    K: Eq + Hash,
    V,
    I: LookupKey<K>,
    L: Insertion<K, V, I>,
    S: KeyHasher<K>,
>()
    ensures rise { (key : I) (value : V) (old : State K V L S) (result : Result Bool AllocError) (new : State K V L S) →
        IsSized old →
        Insert L.rules L.offers I.names S.hash_of key value old result new →
        PaysByStoring old new }
    ensures paid { (key : I) (value : V) (old : State K V L S) (result : Result Bool AllocError) (new : State K V L S) →
        IsSized old → IsPaid (potential old) old.counts →
        Insert L.rules L.offers I.names S.hash_of key value old result new →
        IsPaid (potential new) new.counts }
    ensures counted { (key : I) (value : V) (old : State K V L S) (result : Result Bool AllocError)
        (new : State K V L S) →
        Insert L.rules L.offers I.names S.hash_of key value old result new →
        CountsInsertions old.counts new.counts }
{}

/// If growth is refused (`IsRefusedGrowth`), the entries that stay and the new entry fill at least half of the capacity
/// (`half`). If memory runs out, the map may have one entry fewer (`without_memory`). If the table has up to 16
/// buckets, only the oldest entry is evicted (`one`).
pub fn refused_growth_keeps_half<K: Eq + Hash, V, L: Limiter<K, V>, S: KeyHasher<K>>()
    ensures half { (pair : K × V) (old new : State K V L S) →
        IsRefusedGrowth L.rules old →
        Place L.rules S.hash_of pair old placed new →
        full_capacity (buckets old) / 2 ≤ length new.pairs }
    ensures without_memory { (pair : K × V) (old new : State K V L S) →
        IsRefusedGrowth L.rules old →
        Place L.rules S.hash_of pair old no_memory new →
        full_capacity (buckets old) / 2 ≤ length new.pairs + 1 }
    ensures one { (pair : K × V) (old new : State K V L S) →
        IsRefusedGrowth L.rules old → buckets old ≤ 16 →
        Place L.rules S.hash_of pair old placed new →
        new.pairs ≡ pair ∷ without_last old.pairs }
{}

/// If an insertion grows the table, it evicts nothing (`grown`). An insertion evicts entries only if the table needs to
/// grow and cannot: there is no larger table, or the limiter refuses the larger table (`otherwise`). An insertion that
/// runs out of memory evicts entries only if growth was refused (`without_memory`).
pub fn growth_keeps_the_list<K: Eq + Hash, V, L: Limiter<K, V>, S: KeyHasher<K>>()
    ensures grown { (pair : K × V) (old new : State K V L S) →
        buckets new ≢ buckets old →
        Place L.rules S.hash_of pair old placed new →
        new.pairs ≡ pair ∷ old.pairs }
    ensures otherwise { (pair : K × V) (old new : State K V L S) →
        Place L.rules S.hash_of pair old placed new →
        (new.pairs ≡ pair ∷ old.pairs) ⊎ IsRefusedGrowth L.rules old }
    ensures without_memory { (pair : K × V) (old new : State K V L S) →
        Place L.rules S.hash_of pair old no_memory new →
        (new.pairs ≡ old.pairs) ⊎ IsRefusedGrowth L.rules old }
{}

/// If no two keys of a map are equal, a removed key is not in the map afterwards.
pub fn removed_keys_are_absent<
    K: Eq + Hash,
    V,
    I: LookupKey<K>,
    L: Limiter<K, V>,
    S: KeyHasher<K>,
>()
    ensures { (key : I) (old : State K V L S) (result : Option V) (new : State K V L S) →
        IsDistinct K.eq (keys_of old.pairs) → Remove L.rules (I.names key) old result new →
        lookup_entry (I.names key) new.pairs ≡ None }
{}

/// A reservation keeps the entries, and the counts `moved`, `placed` and `shrunk`.
pub fn reservations_keep_the_list<K: Eq + Hash, V, L: Limiter<K, V>, S: KeyHasher<K>>()
    ensures { (n : ℕ) (old : State K V L S) (result : Result (Unit {0}) ReserveError) (new : State K V L S) →
        Reserve L.rules n old result new →
        (new.pairs ≡ old.pairs) × (new.counts.moved ≡ old.counts.moved) × (new.counts.placed ≡ old.counts.placed)
        × (new.counts.shrunk ≡ old.counts.shrunk) }
{}

/// After a successful reservation for n entries, the growth left is at least n.
pub fn reservations_make_room<K: Eq + Hash, V, L: Limiter<K, V>, S: KeyHasher<K>>()
    ensures { (n : ℕ) (old new : State K V L S) →
        IsSized old → Reserve L.rules n old (Ok tt) new → n ≤ growth_left new }
{}

/// If the table of a map uses n bytes, the largest table within a budget of n bytes uses exactly n bytes.
pub fn usages_are_their_budgets<K: Eq + Hash, V, L: Limiter<K, V>, S: KeyHasher<K>>()
    ensures { (old : State K V L S) (bytes greatest : ℕ) →
        IsSized old → usage old.entry_bytes (buckets old) ≡ Some bytes →
        IsGreatestUsage old.max old.entry_bytes bytes greatest → greatest ≡ bytes }
{}
