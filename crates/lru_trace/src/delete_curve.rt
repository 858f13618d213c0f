//! `DeleteCurve`.
ghost use Rattle.std.specs.Prelude.{◌≡◌, ◌+◌, ◌-◌, ◌<◌, ◌≤◌, ◌^◌, ℕ, List, [], ◌∷◌, ◌++◌, IfOk, OnOk, OnErr, IfSome, length};
ghost use Rattle.std.specs.Prelude.{take, sum, nat_eq, true};
ghost use Rattle.std.specs.Option.{option_map};
ghost use Rattle.lru_theory.specs.Places.{keys_in, place_of};
ghost use Rattle.lru_theory.specs.Traces.{is_in};
ghost use Rattle.lru_theory.specs.Inclusion.{KeyCall, refers, removes};
ghost use Rattle.lru_trace.specs.Deletes.{IsDeleteOf, IsSame, Placed, counted_at, missed_calls, place_number, places_of, referred};

use crate::places::Places;
use std::alloc::{AllocError, Global};
use std::collections::HashMap;
use std::marker::Model;

/// The misses of a trace in LRU caches of every size, counted in one pass. The trace may also delete keys.
///
/// A delete removes its key from each cache that contains the key. The memory is in proportion to the largest number of
/// keys that an unlimited cache contained at once. This number is at most 2 ^ 32 - 1.
///
/// ```
/// let mut curve = DeleteCurve::new(alloc)?;
/// for key in ["a", "b", "c"] {
///     curve.warm_up(key)?;
/// }
/// curve.delete("b")?;
/// for key in ["a", "b"] {
///     if curve.references() < u64::MAX {
///         curve.refer(key)?;
///     }
/// }
/// assert_eq!(rt; (curve.references(), curve.misses(2), curve.misses(3), curve.places()), (2, 2, 1, 3));
/// ```
#[derive(Drop)]
pub struct DeleteCurve {
    numbers: HashMap<String, usize>,
    places: Places,
    counts: Vec<u64>,
    references: u64,
    alloc: Global,
}

impl Model for DeleteCurve {
    ghost use Rattle.lru_trace.specs.Deletes.{Deleting, IsDeleting};

    ghost Value = { Deleting };

    ghost view = { λ c. record {
      names = c.numbers.entries;
      places = c.places;
      counts = c.counts.items;
      references = c.references;
    } };

    ghost invariant = { λ c. IsDeleting c.numbers.entries c.places c.counts.items c.references };
}

impl DeleteCurve {
    /// Makes a curve without references.
    pub fn new(alloc: Global) -> Result<Self, AllocError>
        ensures { IfOk result (IsDeleteOf [] []) }
    {
        Ok(DeleteCurve {
            numbers: HashMap::new(alloc),
            places: Places::new(alloc)?,
            counts: Vec::new(alloc),
            references: 0,
            alloc,
        })
    }

    fn make_count(&mut self) -> Result<(), AllocError>
        ensures spare { OnOk result (length self.new.places < length self.new.counts) }
        ensures rest { self.new ≡ record self.old { counts = self.new.counts } }
        ensures hits { (n : ℕ) → sum (take n self.new.counts) ≡ sum (take n self.old.counts) }
    {
        if self.counts.len() == self.places.len() {
            self.counts.push(0)?;
        }
        Ok(())
    }

    fn number_of(&self, key: &str) -> Option<usize>
        ensures number { result ≡ place_number self.now.names key.now }
        ensures there { IfSome result (λ number. is_in nat_eq number (keys_in self.now.places) ≡ true) }
    {
        self.numbers.get(key).copied()
    }

    fn newer(&self, own: Option<usize>) -> Option<u64>
        requires { IfSome own (λ number. is_in nat_eq number (keys_in self.now.places) ≡ true) }
        ensures { result ≡ option_map (λ number. place_of (nat_eq number) self.now.places) own }
    {
        match own {
            Some(number) => Some(self.places.place_of(number)),
            None => None,
        }
    }

    /// Returns how many places were newer than the place of the key, or `None` for a new key.
    fn place(&mut self, key: &str) -> Result<Option<u64>, AllocError>
        requires { length self.old.places < length self.old.counts }
        ensures ok { IfOk result (λ place. Placed key.now place self.old self.new) }
        ensures err { OnErr result (IsSame self.old self.new) }
    {
        let own = self.number_of(key);
        let place = self.newer(own);
        let name = String::from_str(self.alloc, key)?;
        self.numbers.reserve(1)?;
        let number = self.places.refer(own)?;
        let Ok(_) = self.numbers.insert(name, number) else {
            return Err(AllocError);
        };
        Ok(place)
    }

    fn count(&mut self, place: Option<u64>)
        requires fits { self.old.references < 2 ^ 64 - 1 }
        requires within { IfSome place (λ place. place < length self.old.counts) }
        ensures { self.new ≡ record self.old {
          counts = counted_at place self.old.counts;
          references = self.old.references + 1;
        } }
    {
        if let Some(place) = place {
            self.counts[place as usize] += 1;
        }
        self.references += 1;
    }

    /// References a key without counting the reference. Call `warm_up` before the first `refer`.
    ///
    /// Cost: as `refer`.
    ///
    /// # Errors
    ///
    /// Out of memory, or too many keys. The key was not referenced.
    pub fn warm_up(&mut self, key: &str) -> Result<(), AllocError>
        ensures ok { OnOk result ((warm : List (KeyCall (List ℕ))) → IsDeleteOf warm [] self.old →
            IsDeleteOf (warm ++ refers key.now ∷ []) [] self.new) }
        ensures err { OnErr result ((warm trace : List (KeyCall (List ℕ))) → IsDeleteOf warm trace self.old →
            IsDeleteOf warm trace self.new) }
        ensures references { self.new.references ≡ self.old.references }
    {
        self.make_count()?;
        self.place(key)?;
        Ok(())
    }

    /// References a key, and counts the reference.
    ///
    /// Cost: `O(log n)` expected for n places, amortised over the references.
    ///
    /// # Errors
    ///
    /// Out of memory, or too many keys. The reference is not counted.
    pub fn refer(&mut self, key: &str) -> Result<(), AllocError>
        requires { self.old.references < 2 ^ 64 - 1 }
        ensures ok { OnOk result ((warm trace : List (KeyCall (List ℕ))) → IsDeleteOf warm trace self.old →
            IsDeleteOf warm (trace ++ refers key.now ∷ []) self.new) }
        ensures err { OnErr result ((warm trace : List (KeyCall (List ℕ))) → IsDeleteOf warm trace self.old →
            IsDeleteOf warm trace self.new) }
        ensures references { self.new.references ≤ self.old.references + 1 }
    {
        self.make_count()?;
        let place = self.place(key)?;
        self.count(place);
        Ok(())
    }

    /// Deletes a key, if it is there.
    ///
    /// Cost: `O(log n)` expected for n places.
    ///
    /// # Errors
    ///
    /// Out of memory. The key was not deleted.
    pub fn delete(&mut self, key: &str) -> Result<(), AllocError>
        ensures warm { OnOk result ((warm : List (KeyCall (List ℕ))) → IsDeleteOf warm [] self.old →
            IsDeleteOf (warm ++ removes key.now ∷ []) [] self.new) }
        ensures ok { OnOk result ((warm trace : List (KeyCall (List ℕ))) → IsDeleteOf warm trace self.old →
            IsDeleteOf warm (trace ++ removes key.now ∷ []) self.new) }
        ensures err { OnErr result (self.new ≡ self.old) }
        ensures references { self.new.references ≡ self.old.references }
    {
        let Some(number) = self.numbers.get(key).copied() else {
            return Ok(());
        };
        self.places.free(number)?;
        self.numbers.remove(key);
        Ok(())
    }

    /// Returns how many references were counted.
    pub fn references(&self) -> u64
        ensures value { result ≡ self.now.references }
        ensures all { (warm trace : List (KeyCall (List ℕ))) → IsDeleteOf warm trace self.now → result ≡ referred trace }
    {
        self.references
    }

    /// Returns the largest number of keys that an unlimited cache contained at once.
    pub fn places(&self) -> usize
        ensures { (warm trace : List (KeyCall (List ℕ))) → IsDeleteOf warm trace self.now →
            result ≡ length (places_of warm trace) }
    {
        self.places.len()
    }

    /// Returns how many counted references miss in an LRU cache of `places` places.
    ///
    /// Cost: in proportion to the smaller of `places` and the number of places.
    pub fn misses(&self, places: usize) -> u64
        ensures { (warm trace : List (KeyCall (List ℕ))) → IsDeleteOf warm trace self.now →
            result ≡ missed_calls places warm trace }
    {
        let mut misses = self.references;
        let places = places.min(self.counts.len());
        for count in &self.counts[..places] {
            misses -= *count;
        }
        misses
    }
}
