//! The traits of a limiter: the callbacks of a map, and their laws.
ghost use Rattle.std.specs.Prelude.{◌≡◌, IfOk, OnErr};
ghost use Rattle.lru_limits.specs.Laws.{IsInsertion};
ghost use Rattle.lru_limits.specs.Rules.{Rules, Offers};

use crate::keys::LookupKey;
use group_table::LinkType;
use std::alloc::{AllocError, Global};
use std::hash::Hash;

/// Decides when a map is over its limit, and whether its table may grow. The map notifies its limiter of each entry
/// that it evicts or removes.
///
/// A callback may be called with any state, length, key and value. In `rules`, the impl defines the result and the
/// effect of each callback as functions of the arguments.
///
/// ```
/// let limiter = ByLength::new(3);
/// assert!(rt; !Limiter::<u64, u64>::is_over_the_limit(&limiter, 3));
/// assert!(rt; Limiter::<u64, u64>::is_over_the_limit(&limiter, 4));
/// ```
pub trait Limiter<K, V> {
    /// The type of the map's links, which limits the number of entries.
    type LinkType: LinkType;

    ghost rules: { Rules K V Self };

    /// Returns whether a map of `length` entries is over the limit. A map over its limit evicts its oldest entry.
    ///
    /// Called in two cases:
    ///
    /// - Before an insert stores a new entry in a map that is not empty, `length` is the length of the map plus 1.
    ///   `try_insert` calls `is_over_the_limit` on a copy of the limiter, even if the map is empty, and evicts nothing.
    ///
    /// - In `trim`, in `set_limiter`, and at the end of an insert or an update that stored a value, `length` is the
    ///   length of the map. The map repeats the call after each eviction, until the map is empty.
    fn is_over_the_limit(&self, length: usize) -> bool
        ensures { result ≡ rules.is_over_the_limit self.now length };

    /// Called with each entry that is evicted, removed, popped or taken by an iterator, as soon as the entry is out of
    /// the map. The limiter may write to the key and the value before the caller of the map gets them.
    ///
    /// Also called with an entry that `on_insert` returned, if the map cannot store the entry. Not called with an entry
    /// that a clear or a `Drain` drops. The drop of the map or of an `IntoIter` does not call `on_removed` either, but
    /// no contract says so.
    fn on_removed(&mut self, key: &mut K, value: &mut V)
        ensures limiter { self.new ≡ (rules.on_removed self.old key.old value.old).limiter }
        ensures key { key.new ≡ (rules.on_removed self.old key.old value.old).key }
        ensures value { value.new ≡ (rules.on_removed self.old key.old value.old).value };

    /// Called once by each clear of the map, even if the map is empty. Dropping a `Drain` counts as a clear.
    fn on_cleared(&mut self)
        ensures { self.new ≡ rules.on_cleared self.old };

    /// Returns whether the map may have a larger table, of `new_memory_usage` bytes.
    ///
    /// Called by an insert that finds no bucket for a new entry, and by `try_reserve` and `try_insert` if too little
    /// growth is left. Not called if there is no larger table, or if the table is rehashed without growing. If the
    /// result is `false`, the insert evicts the oldest entries to store the new entry, and `try_reserve` and
    /// `try_insert` fail. If the result is `true`, the allocation of the table may still fail, and the limiter is not
    /// notified of this.
    fn on_grow(&mut self, new_memory_usage: usize) -> bool
        ensures limiter { self.new ≡ (rules.on_grow self.old new_memory_usage).limiter }
        ensures allowed { result ≡ (rules.on_grow self.old new_memory_usage).allowed };
}

/// Accepts or rejects entries. An offered entry has a key of type `I`.
///
/// `I` is the type of the key, or of a value that names the key. For example, a `&str` becomes a `String` only if the
/// limiter accepts the entry. The impl defines `offers`: what may be stored for an offered entry, when an offer may run
/// out of memory, and what a replacement does. Each [`crate::Admission`] is an `Insertion`.
///
/// ```
/// let mut limiter = ByCost::new(3);
/// assert!(rt; limiter.on_insert(alloc, 0, 1u64, 2u64)?.is_some());
/// assert!(rt; limiter.on_insert(alloc, 1, 2u64, 4u64)?.is_none());
/// ```
pub trait Insertion<K: Eq + Hash, V, I: LookupKey<K>>: Limiter<K, V> {
    ghost offers: { Offers K V Self I };

    /// Returns the entry to store, or `None` to reject the offered entry. Called by an insert with a new key and its
    /// value, before the insert evicts anything. The map has `length` entries. If the entry is rejected, they do not
    /// change.
    ///
    /// # Errors
    ///
    /// The limiter could not allocate the key, and has not changed. `offers.may_run_out` says when the limiter may run
    /// out of memory.
    fn on_insert(
        &mut self,
        alloc: Global,
        length: usize,
        key: I,
        value: V,
    ) -> Result<Option<(K, V)>, AllocError>
        ensures offered { IfOk result (offers.on_insert self.old length key value self.new) }
        ensures unchanged { OnErr result (self.new ≡ self.old) }
        ensures out_of_memory { OnErr result (offers.may_run_out self.old length key value) };

    /// Returns whether the new value is accepted. Called by an insert or an update before `new_value` replaces
    /// `old_value`. The map has `length` entries, and `new_key` names the stored `old_key`. The limiter may change
    /// `old_key` only to an equal key. If the value is rejected, the map removes the entry.
    fn on_replace(
        &mut self,
        length: usize,
        old_key: &mut K,
        new_key: I,
        old_value: &mut V,
        new_value: &mut V,
    ) -> bool
        ensures limiter { self.new ≡
            (offers.on_replace self.old length old_key.old new_key old_value.old new_value.old).limiter }
        ensures taken { result ≡
            (offers.on_replace self.old length old_key.old new_key old_value.old new_value.old).taken }
        ensures old_key { old_key.new ≡
            (offers.on_replace self.old length old_key.old new_key old_value.old new_value.old).key }
        ensures old_value { old_value.new ≡
            (offers.on_replace self.old length old_key.old new_key old_value.old new_value.old).old_value }
        ensures new_value { new_value.new ≡
            (offers.on_replace self.old length old_key.old new_key old_value.old new_value.old).new_value };

    /// States that the offered key names the key of the entry to store, and that `on_replace` leaves a key equal to
    /// `old_key`.
    ghost laws: { IsInsertion I.names K.eq offers };
}
