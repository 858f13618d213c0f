//! `ByteCurve`.
ghost use Rattle.std.specs.Prelude.{◌≡◌, ◌+◌, ◌-◌, ◌<◌, ◌≤◌, ◌^◌, ℕ, List, [], ◌∷◌, ◌++◌, IfOk, OnOk, OnErr, IfErr};
ghost use Rattle.std.specs.Prelude.{length, get_or, set, nat_lt, is_some, Some, None, IfSome, true, nat_eq};
ghost use Rattle.std.specs.List.Sorted.{IsNonDecreasing, IsPermutation};
ghost use Rattle.std.specs.Map.{keys_of};
ghost use Rattle.std.specs.Set.{remove_key};
ghost use Rattle.lru_theory.specs.Traces.{is_in};
ghost use Rattle.lru_trace.specs.Names.{number_in};
ghost use Rattle.lru_trace.specs.Sized.{IsSizedOf, Made, exceeds, need_of, missed_within, bytes_of, total_of};
ghost use Rattle.lru_trace.specs.Rows.{keys};
ghost use Rattle.lru_trace.specs.Slots.{weight_in};

use crate::distances::Distances;
use crate::names::Names;
use std::alloc::{AllocError, Global};
use std::marker::Model;
use thiserror::Error;

/// Why a reference was not made.
#[derive(Clone, Copy, Debug, PartialEq, Eq, Error)]
pub enum SizeError {
    /// Memory ran out, or there are too many keys.
    #[error("out of memory")]
    Memory,
    /// The sizes of all keys would sum to 2 ^ 64 or more.
    #[error("the sizes of the keys are too large")]
    TooLarge,
}

impl From<AllocError> for SizeError {
    ghost use Rattle.lru_trace.specs.declared.byte_curve.SizeError.TheVariants.{Memory};

    ghost from_gives = { λ _ e. e ≡ Memory };

    fn from(_: AllocError) -> Self {
        SizeError::Memory
    }
}

/// The misses of a trace in LRU caches with limits of bytes, counted in one pass.
///
/// The need of a reference is the size of its key, plus the sizes of the other keys that were referenced since the last
/// reference to this key. A reference misses if it is the first reference to its key, or if its need is above the
/// limit. The first reference to a key gives the size of the key. The memory is in proportion to the number of keys and
/// of limits. A curve has at most 2 ^ 32 - 1 keys.
///
/// ```
/// let mut curve = ByteCurve::new(alloc, vec![in alloc; 10, 30]?)?;
/// for (key, bytes) in [("a", 10), ("b", 20), ("a", 10), ("a", 10)] {
///     if curve.references() < u64::MAX && curve.refer(key, bytes).is_err() {
///         break;
///     }
/// }
/// assert_eq!(rt; (curve.misses(10), curve.misses(30), curve.misses(20)), (Some(3), Some(2), None));
/// ```
#[derive(Drop)]
pub struct ByteCurve {
    names: Names,
    distances: Distances,
    limits: Vec<u64>,
    counts: Vec<u64>,
    references: u64,
    total: u64,
}

impl Model for ByteCurve {
    ghost use Rattle.lru_trace.specs.Sized.{Sized, IsSized};

    ghost Value = { Sized };

    ghost view = { λ c. record {
      names = c.names;
      recency = c.distances.recency;
      sizes = c.distances.weights;
      limits = c.limits.items;
      counts = c.counts.items;
      references = c.references;
    } };

    ghost invariant = { λ c.
        IsSized c.names c.distances c.limits.items c.counts.items c.references c.total };
}

fn count_of(limits: &[u64], need: Option<u64>) -> usize
    requires { IsNonDecreasing limits.now }
    ensures few { result ≤ length limits.now }
    ensures below { (i : ℕ) → i < length limits.now → nat_lt i result ≡ exceeds need (get_or limits.now i 0) }
{
    if let Some(need) = need {
        for i in 0..limits.len() {
            if need <= limits[i] {
                return i;
            }
        }
    }
    limits.len()
}

impl ByteCurve {
    /// Makes a curve without references, for these limits.
    ///
    /// # Errors
    ///
    /// Out of memory.
    pub fn new(alloc: Global, limits: Vec<u64>) -> Result<Self, AllocError>
        ensures of { IfOk result (IsSizedOf [] []) }
        ensures limits { IfOk result (λ curve. IsPermutation limits.items curve.limits) }
    {
        let mut limits = limits;
        limits.sort_unstable();
        let counts = vec![in alloc; 0; limits.len() + 1]?;
        Ok(ByteCurve {
            names: Names::new(alloc)?,
            distances: Distances::new(alloc)?,
            limits,
            counts,
            references: 0,
            total: 0,
        })
    }

    fn find(&mut self, number: usize) -> Result<Option<u64>, AllocError>
        requires { is_in nat_eq number self.old.recency ≡ true }
        ensures need { IfOk result (λ need. need ≡ need_of (weight_in self.old.sizes) number self.old.recency) }
        ensures ok { OnOk result (self.new ≡ record self.old {
          recency = number ∷ remove_key (nat_eq number) self.old.recency;
        }) }
        ensures err { OnErr result (self.new ≡ self.old) }
    {
        let size = self.distances.weight(number);
        match self.distances.refer(number)? {
            Some(behind) => Ok(Some(size + behind)),
            None => Ok(None),
        }
    }

    fn add(&mut self, key: &str, bytes: u64) -> Result<(), SizeError>
        requires { number_in self.old.names key.now ≡ None }
        ensures made { OnOk result (Made key.now bytes None self.old self.new) }
        ensures err { OnErr result (self.new ≡ self.old) }
        ensures large { IfErr result (λ e. e ≡ SizeError.TooLarge → (number_in self.old.names key.now ≡ None)
            × (2 ^ 64 ≤ total_of self.old + bytes)) }
        ensures rest { self.new ≡ record self.old {
          names = self.new.names;
          recency = self.new.recency;
          sizes = self.new.sizes;
        } }
    {
        let Some(total) = self.total.checked_add(bytes) else {
            return Err(SizeError::TooLarge);
        };
        self.distances.reserve()?;
        let number = self.distances.add_weighed_key(bytes)?;
        if self.names.add(key).is_err() {
            self.distances.remove_key();
            return Err(SizeError::Memory);
        }
        self.distances.refer(number)?;
        self.total = total;
        Ok(())
    }

    fn make(&mut self, key: &str, bytes: u64) -> Result<Option<u64>, SizeError>
        ensures made { IfOk result (λ need. Made key.now bytes need self.old self.new) }
        ensures err { OnErr result (self.new ≡ self.old) }
        ensures large { IfErr result (λ e. e ≡ SizeError.TooLarge → (number_in self.old.names key.now ≡ None)
            × (2 ^ 64 ≤ total_of self.old + bytes)) }
        ensures rest { self.new ≡ record self.old {
          names = self.new.names;
          recency = self.new.recency;
          sizes = self.new.sizes;
        } }
    {
        if let Some(number) = self.names.find(key) {
            return Ok(self.find(number)?);
        }
        self.add(key, bytes)?;
        Ok(None)
    }

    fn count(&mut self, need: Option<u64>)
        requires { self.old.references < 2 ^ 64 - 1 }
        ensures counts { (at : ℕ) × (at < length self.old.counts)
            × ((i : ℕ) → i < length self.old.limits → nat_lt i at ≡ exceeds need (get_or self.old.limits i 0))
            × (self.new ≡ record self.old {
              counts = set self.old.counts at (get_or self.old.counts at 0 + 1);
              references = self.old.references + 1;
            }) }
    {
        let at = count_of(&self.limits, need);
        self.counts[at] += 1;
        self.references += 1;
    }

    /// References a key without counting the reference. Call `warm_up` before the first `refer`.
    ///
    /// Cost: as `refer`.
    ///
    /// # Errors
    ///
    /// As `refer`. The key was not referenced.
    pub fn warm_up(&mut self, key: &str, bytes: u64) -> Result<(), SizeError>
        ensures ok { OnOk result ((warm : List (List ℕ × ℕ)) → IsSizedOf warm [] self.old →
            IsSizedOf (warm ++ (key.now, bytes) ∷ []) [] self.new) }
        ensures err { OnErr result ((warm trace : List (List ℕ × ℕ)) → IsSizedOf warm trace self.old →
            IsSizedOf warm trace self.new) }
        ensures large { IfErr result (λ e. e ≡ SizeError.TooLarge → (warm : List (List ℕ × ℕ)) →
            IsSizedOf warm [] self.old → 2 ^ 64 ≤ bytes_of ((warm ++ (key.now, bytes) ∷ []) ++ [])) }
        ensures references { self.new.references ≡ self.old.references }
        ensures limits { self.new.limits ≡ self.old.limits }
    {
        self.make(key, bytes)?;
        Ok(())
    }

    /// References a key, and counts the reference. If the key was referenced before, ignores `bytes`.
    ///
    /// Cost: `O(log n + m)` expected for n keys and m limits, amortised over the references.
    ///
    /// # Errors
    ///
    /// After an error, the reference is not counted.
    pub fn refer(&mut self, key: &str, bytes: u64) -> Result<(), SizeError>
        requires { self.old.references < 2 ^ 64 - 1 }
        ensures ok { OnOk result ((warm trace : List (List ℕ × ℕ)) → IsSizedOf warm trace self.old →
            IsSizedOf warm (trace ++ (key.now, bytes) ∷ []) self.new) }
        ensures err { OnErr result ((warm trace : List (List ℕ × ℕ)) → IsSizedOf warm trace self.old →
            IsSizedOf warm trace self.new) }
        ensures large { IfErr result (λ e. e ≡ SizeError.TooLarge → (warm trace : List (List ℕ × ℕ)) →
            IsSizedOf warm trace self.old → 2 ^ 64 ≤ bytes_of (warm ++ (trace ++ (key.now, bytes) ∷ []))) }
        ensures references { self.new.references ≤ self.old.references + 1 }
        ensures limits { self.new.limits ≡ self.old.limits }
    {
        let need = self.make(key, bytes)?;
        self.count(need);
        Ok(())
    }

    /// Returns how many references were counted.
    pub fn references(&self) -> u64
        ensures value { result ≡ self.now.references }
        ensures all { (warm trace : List (List ℕ × ℕ)) → IsSizedOf warm trace self.now → result ≡ length trace }
    {
        self.references
    }

    /// Returns how many different keys were referenced, including in the warm-up.
    pub fn keys(&self) -> usize
        ensures { (warm trace : List (List ℕ × ℕ)) → IsSizedOf warm trace self.now →
            result ≡ keys (keys_of warm) (keys_of trace) }
    {
        self.distances.referenced()
    }

    /// Returns the sum of the sizes of all referenced keys, including the keys of the warm-up.
    pub fn bytes(&self) -> u64
        ensures { (warm trace : List (List ℕ × ℕ)) → IsSizedOf warm trace self.now → result ≡ bytes_of (warm ++ trace) }
    {
        self.total
    }

    /// Returns how many counted references miss in an LRU cache with this limit. If the curve does not have the limit,
    /// returns `None`.
    ///
    /// Cost: in proportion to the number of limits.
    pub fn misses(&self, limit: u64) -> Option<u64>
        ensures there { is_some result ≡ is_in nat_eq limit self.now.limits }
        ensures all { (warm trace : List (List ℕ × ℕ)) → IsSizedOf warm trace self.now →
            IfSome result (λ misses. misses ≡ missed_within limit warm trace) }
    {
        let mut misses = self.references;
        for i in 0..self.limits.len() {
            misses -= self.counts[i];
            if self.limits[i] == limit {
                return Some(misses);
            }
        }
        None
    }
}
