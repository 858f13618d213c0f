//! `Curve`.
ghost use Rattle.std.specs.Prelude.{◌≡◌, ◌+◌, ◌-◌, ◌<◌, ◌≤◌, ◌^◌, ℕ, List, [], ◌∷◌, ◌++◌, IfOk, OnOk, OnErr, length};
ghost use Rattle.std.specs.Prelude.{take, sum, Option, Some, None, IfSome, is_some, nat_eq};
ghost use Rattle.std.specs.Set.{remove_key};
ghost use Rattle.std.specs.Option.{option_map};
ghost use Rattle.std.specs.Str.{bytes_eq};
ghost use Rattle.lru_theory.specs.Traces.{misses, past_after};
ghost use Rattle.lru_trace.specs.Counted.{Counted, IsOf};
ghost use Rattle.lru_trace.specs.Names.{number_in};
ghost use Rattle.lru_trace.specs.Rows.{keys};
ghost use Rattle.lru_trace.specs.Times.{KnowsRest};

use crate::best::Best;
use crate::distances::Distances;
use crate::names::Names;
use std::alloc::{AllocError, Global};
use std::marker::Model;

/// The misses of a trace in LRU caches of every size, counted in one pass.
///
/// A reference misses in a cache of n places if it is the first reference to its key, or if its reuse distance is at
/// least n. If the curve does not keep the references, its memory is in proportion to the number of keys. A curve has at
/// most 2 ^ 32 - 1 keys.
///
/// ```
/// let mut curve = Curve::new(alloc)?;
/// for key in ["a", "b", "a", "c", "a"] {
///     if curve.references() < u64::MAX {
///         curve.refer(key)?;
///     }
/// }
/// assert_eq!(rt; (curve.misses(0), curve.misses(1), curve.misses(2)), (5, 5, 3));
/// ```
#[derive(Drop)]
pub struct Curve {
    names: Names,
    distances: Distances,
    counts: Vec<u64>,
    firsts: usize,
    references: u64,
    kept: Option<Vec<usize>>,
    alloc: Global,
}

impl Model for Curve {
    ghost use Rattle.std.specs.Option.{option_map};
    ghost use Rattle.lru_trace.specs.Counted.{Counted, IsCounted};

    ghost Value = { Counted };

    ghost view = { λ c. record {
      names = c.names;
      recency = c.distances.recency;
      counts = c.counts.items;
      references = c.references;
      kept = option_map (λ v. v.items) c.kept;
    } };

    ghost invariant = { λ c. IsCounted c.names c.distances c.counts.items c.firsts c.references };
}

impl Curve {
    /// Makes a curve without references.
    pub fn new(alloc: Global) -> Result<Self, AllocError>
        ensures of { IfOk result (IsOf [] []) }
        ensures kept { IfOk result (λ curve. curve.kept ≡ None) }
    {
        Curve::make(alloc, None)
    }

    /// Makes a curve that also keeps the references, for `best`. Each reference takes 8 bytes.
    ///
    /// ```
    /// let mut curve = Curve::keeping_references(alloc)?;
    /// for key in ["a", "b", "c", "a", "b", "c"] {
    ///     if curve.references() < u64::MAX {
    ///         curve.refer(key)?;
    ///     }
    /// }
    /// if let Some(best) = curve.best()? {
    ///     let misses = (best.min_misses(2)?, best.bypass_misses(2)?);
    ///     assert!(rt; misses == (4, 4) && curve.misses(2) == 6);
    /// }
    /// ```
    pub fn keeping_references(alloc: Global) -> Result<Self, AllocError>
        ensures of { IfOk result (IsOf [] []) }
        ensures kept { IfOk result (λ curve. curve.kept ≡ Some []) }
    {
        Curve::make(alloc, Some(Vec::new(alloc)))
    }

    fn make(alloc: Global, kept: Option<Vec<usize>>) -> Result<Self, AllocError>
        requires { IfSome kept (λ v. v.items ≡ []) }
        ensures of { IfOk result (IsOf [] []) }
        ensures kept { IfOk result (λ curve. curve.kept ≡ option_map (λ v. v.items) kept) }
    {
        Ok(Curve {
            names: Names::new(alloc)?,
            distances: Distances::new(alloc)?,
            counts: Vec::new(alloc),
            firsts: 0,
            references: 0,
            kept,
            alloc,
        })
    }

    fn number_of(&mut self, key: &str) -> Result<usize, AllocError>
        ensures number { IfOk result (λ number. number_in self.new.names key.now ≡ Some number) }
        ensures others { (other : List ℕ) (number : ℕ) → number_in self.old.names other ≡ Some number →
            number_in self.new.names other ≡ Some number }
        ensures rest { self.new ≡ record self.old { names = self.new.names } }
        ensures err { OnErr result (self.new ≡ self.old) }
    {
        if let Some(number) = self.names.find(key) {
            return Ok(number);
        }
        let number = self.distances.add_key()?;
        match self.names.add(key) {
            Ok(()) => Ok(number),
            Err(error) => {
                self.distances.remove_key();
                Err(error)
            }
        }
    }

    fn make_count(&mut self) -> Result<(), AllocError>
        ensures spare { OnOk result (length self.new.recency < length self.new.counts) }
        ensures rest { self.new ≡ record self.old { counts = self.new.counts } }
        ensures hits { (n : ℕ) → sum (take n self.new.counts) ≡ sum (take n self.old.counts) }
    {
        if self.counts.len() == self.firsts {
            self.counts.push(0)?;
        }
        Ok(())
    }

    fn keep(&mut self, number: usize) -> Result<(), AllocError>
        ensures kept { OnOk result (self.new.kept ≡ option_map (λ ns. ns ++ number ∷ []) self.old.kept) }
        ensures rest { self.new ≡ record self.old { kept = self.new.kept } }
        ensures err { OnErr result (self.new ≡ self.old) }
    {
        if let Some(kept) = &mut self.kept {
            kept.push(number)?;
        }
        Ok(())
    }

    fn forget(&mut self)
        ensures kept { (ns : List ℕ) (number : ℕ) → self.old.kept ≡ Some (ns ++ number ∷ []) → self.new.kept ≡ Some ns }
        ensures none { self.old.kept ≡ None → self.new.kept ≡ None }
        ensures rest { self.new ≡ record self.old { kept = self.new.kept } }
    {
        if let Some(kept) = &mut self.kept {
            kept.pop();
        }
    }

    fn count(&mut self, key: &str, number: usize) -> Result<(), AllocError>
        requires fits { self.old.references < 2 ^ 64 - 1 }
        requires number { number_in self.old.names key.now ≡ Some number }
        requires spare { length self.old.recency < length self.old.counts }
        ensures ok { OnOk result ((warm trace : List (List ℕ)) (before : Option (List ℕ)) →
            self.old.kept ≡ option_map (λ ns. ns ++ number ∷ []) before →
            IsOf warm trace (record self.old { kept = before }) → IsOf warm (trace ++ key.now ∷ []) self.new) }
        ensures kept { self.new.kept ≡ self.old.kept }
        ensures err { OnErr result (self.new ≡ self.old) }
        ensures references { self.new.references ≤ self.old.references + 1 }
    {
        match self.distances.refer(number)? {
            Some(distance) => self.counts[distance as usize] += 1,
            None => self.firsts += 1,
        }
        self.references += 1;
        Ok(())
    }

    fn place(&mut self, number: usize) -> Result<(), AllocError>
        requires number { (key : List ℕ) × (number_in self.old.names key ≡ Some number) }
        requires spare { length self.old.recency < length self.old.counts }
        ensures ok { OnOk result (self.new ≡ record self.old {
          recency = number ∷ remove_key (nat_eq number) self.old.recency;
        }) }
        ensures err { OnErr result (self.new ≡ self.old) }
    {
        if self.distances.refer(number)?.is_none() {
            self.firsts += 1;
        }
        Ok(())
    }

    /// References a key without counting the reference. Call `warm_up` before the first `refer`.
    ///
    /// Cost: as `refer`.
    ///
    /// # Errors
    ///
    /// Out of memory, or too many keys. The key was not referenced.
    ///
    /// ```
    /// let mut curve = Curve::new(alloc)?;
    /// curve.warm_up("a")?;
    /// curve.warm_up("b")?;
    /// for key in ["a", "c", "b"] {
    ///     if curve.references() < u64::MAX {
    ///         curve.refer(key)?;
    ///     }
    /// }
    /// assert_eq!(rt; (curve.references(), curve.misses(2), curve.misses(3)), (3, 2, 1));
    /// ```
    pub fn warm_up(&mut self, key: &str) -> Result<(), AllocError>
        ensures ok { OnOk result ((warm : List (List ℕ)) → IsOf warm [] self.old →
            IsOf (warm ++ key.now ∷ []) [] self.new) }
        ensures err { OnErr result ((warm trace : List (List ℕ)) → IsOf warm trace self.old →
            IsOf warm trace self.new) }
        ensures references { self.new.references ≡ self.old.references }
        ensures kept { self.new.kept ≡ self.old.kept }
    {
        let number = self.number_of(key)?;
        self.make_count()?;
        self.place(number)
    }

    /// References a key, and counts the reference.
    ///
    /// Cost: `O(log n)` expected for n keys, amortised over the references.
    ///
    /// # Errors
    ///
    /// Out of memory, or too many keys. The reference is not counted.
    pub fn refer(&mut self, key: &str) -> Result<(), AllocError>
        requires { self.old.references < 2 ^ 64 - 1 }
        ensures ok { OnOk result ((warm trace : List (List ℕ)) → IsOf warm trace self.old →
            IsOf warm (trace ++ key.now ∷ []) self.new) }
        ensures err { OnErr result ((warm trace : List (List ℕ)) → IsOf warm trace self.old →
            IsOf warm trace self.new) }
        ensures references { self.new.references ≤ self.old.references + 1 }
        ensures keeps { is_some self.new.kept ≡ is_some self.old.kept }
    {
        let number = self.number_of(key)?;
        self.make_count()?;
        self.keep(number)?;
        match self.count(key, number) {
            Ok(()) => Ok(()),
            Err(error) => {
                self.forget();
                Err(error)
            }
        }
    }

    /// Returns the `Best` of the trace. If the curve does not keep the references, returns `None`.
    ///
    /// Cost: in proportion to the number of references.
    ///
    /// # Errors
    ///
    /// Out of memory.
    pub fn best(&self) -> Result<Option<Best>, AllocError>
        ensures some { IfOk result (λ best. is_some best ≡ is_some self.now.kept) }
        ensures all { IfOk result (λ best. (warm trace : List (List ℕ)) → IsOf warm trace self.now →
            KnowsRest trace best) }
    {
        match &self.kept {
            Some(kept) => Ok(Some(Best::new(self.alloc, kept)?)),
            None => Ok(None),
        }
    }

    /// Returns how many references were counted.
    pub fn references(&self) -> u64
        ensures value { result ≡ self.now.references }
        ensures all { (warm trace : List (List ℕ)) → IsOf warm trace self.now → result ≡ length trace }
    {
        self.references
    }

    /// Returns how many different keys were referenced, including in the warm-up.
    pub fn keys(&self) -> usize
        ensures value { result ≡ length self.now.recency }
        ensures all { (warm trace : List (List ℕ)) → IsOf warm trace self.now → result ≡ keys warm trace }
    {
        self.firsts
    }

    /// Returns how many counted references miss in an LRU cache of `places` places.
    ///
    /// Cost: in proportion to the smaller of `places` and the number of keys.
    pub fn misses(&self, places: usize) -> u64
        ensures all { (warm trace : List (List ℕ)) → IsOf warm trace self.now →
            result ≡ misses bytes_eq places (past_after [] warm) trace }
        ensures most { result ≤ self.now.references }
    {
        let mut misses = self.references;
        let places = places.min(self.counts.len());
        for count in &self.counts[..places] {
            misses -= *count;
        }
        misses
    }
}
