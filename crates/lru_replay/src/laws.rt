//! Laws on runs of calls.
ghost use Rattle.std.specs.Prelude.{ℕ, ◌+◌, ◌*◌, length, List};
ghost use Rattle.std.specs.List.{AllByRecursion, IsDistinct};
ghost use Rattle.lru_model.specs.Exact.{AlwaysGrants, HasTables, HasTableFor};
ghost use Rattle.lru_model.specs.Lists.{keys_of};
ghost use Rattle.lru_model.specs.Runs.{StepOrKeptWrite, Run};
ghost use Rattle.lru_model.specs.State.{State, contents, IsMap};
ghost use Rattle.lru_replay.specs.declared.calls.Call.{Call};
ghost use Rattle.lru_replay.specs.CallRuns.{IsRun, CallStep, ListCallStep, SummingStep, SetsNoLimiter, AreSteps};
ghost use Rattle.lru_replay.specs.Replies.{Reply};

use lru_limits::{Insertion, KeyHasher};
use lru_model::laws;
use std::hash::Hash;

/// A list of calls is a run of steps of the map, so the laws on runs hold for the list (`calls`). A list that
/// `run_summing` carries out is a run of steps, too. If this list sets no limiter, each write keeps the cost of its
/// entry (`summing`).
pub fn lists_are_runs<K: Eq + Hash, V, L: Insertion<K, V, K>, S: KeyHasher<K>>()
    ensures calls { (old new : State K V L S) (calls : List (Call K V L)) (replies : List (Reply K V)) →
        IsRun (CallStep L.rules L.offers K.eq S.hash_of) (IsMap K.eq) old calls replies new →
        AreSteps L.rules L.offers K.eq S.hash_of calls old new }
    ensures summing { (cost : K → V → ℕ) (account : L → ℕ) (old new : State K V L S) (calls : List (Call K V L))
        (replies : List (Reply K V)) →
        IsRun (SummingStep L.rules L.offers K.eq S.hash_of cost account) (IsMap K.eq) old calls replies new →
        AreSteps L.rules L.offers K.eq S.hash_of calls old new
        × (AllByRecursion SetsNoLimiter calls → Run (StepOrKeptWrite L.rules L.offers K.eq S.hash_of cost) new old) }
{}

/// A run has the same effect on a map as on a list of pairs with distinct keys (`exact`), under two premises. First,
/// the limiter permits every growth, as `ByLength`, `ByCost` and the unlimited limiters do. Second, there is a table
/// for each number of pairs that the map may have. For a map of n pairs and a run of m calls, a table for 8 * (n + m +
/// 1) pairs is enough (`reached`).
pub fn granted_calls_are_exact<K: Eq + Hash, V, L: Insertion<K, V, K>, S: KeyHasher<K>>()
    ensures exact { (old new : State K V L S) (calls : List (Call K V L)) (replies : List (Reply K V)) →
        AlwaysGrants L.rules → HasTables old →
        IsRun (CallStep L.rules L.offers K.eq S.hash_of)
        (λ st. IsMap K.eq st × HasTables st) old calls replies new →
        IsRun (ListCallStep L.rules L.offers K.eq (S.hash_of old.hasher))
        (λ list. IsDistinct K.eq (keys_of list.pairs)) (contents old) calls replies (contents new) }
    ensures reached { (old new : State K V L S) (calls : List (Call K V L)) (replies : List (Reply K V)) →
        HasTableFor (8 * (length old.pairs + length calls + 1)) old → IsMap K.eq old →
        IsRun (CallStep L.rules L.offers K.eq S.hash_of) (IsMap K.eq) old calls replies new →
        HasTables old × IsRun (CallStep L.rules L.offers K.eq S.hash_of)
        (λ st. IsMap K.eq st × HasTables st) old calls replies new }
{
    laws::granted_inserts_are_exact::<K, V, K, L, S>();
    laws::calls_add_one_pair::<K, V, K, L, S>();
}
