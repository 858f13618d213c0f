//! A curve of entries or of bytes.
ghost use Rattle.std.specs.Prelude.{◌≡◌, ◌+◌, ◌-◌, ◌<◌, ◌≤◌, ◌^◌, ℕ, List, [], ◌∷◌, ◌++◌, IfOk, OnOk, IfErr, is_some, length};
ghost use Rattle.std.specs.Map.{keys_of};
ghost use Rattle.lru_trace.specs.Curves.{IsCurveOf, AreAlike, AreTooLarge, Follows, Has, Leads, measure_in, references_of, keeps};
ghost use Rattle.lru_trace.specs.Rows.{keys_among, missed, needed};
ghost use Rattle.lru_trace.specs.Rows as rows;
ghost use Rattle.lru_trace.specs.Times.{KnowsRest};

use crate::best::Best;
use crate::byte_curve::{ByteCurve, SizeError};
use crate::curve::Curve;
use crate::delete_curve::DeleteCurve;
use crate::options::Measure;
use std::alloc::AllocError;

/// A curve for sizes in bytes, or for sizes in entries, with or without deletes.
#[derive(Drop)]
pub enum AnyCurve {
    Places(Curve),
    Deletes(DeleteCurve),
    Bytes(ByteCurve),
}

impl AnyCurve {
    fn warm_up(&mut self, key: &str, size: u64) -> Result<(), SizeError>
        ensures ok { OnOk result ((warm : List (List ℕ × ℕ)) → IsCurveOf warm [] self.old →
            IsCurveOf (warm ++ (key.now, size) ∷ []) [] self.new) }
        ensures large { IfErr result (λ e. e ≡ SizeError.TooLarge → (warm : List (List ℕ × ℕ)) →
            IsCurveOf warm [] self.old → AreTooLarge (warm ++ (key.now, size) ∷ []) []) }
        ensures references { references_of self.new ≡ references_of self.old }
        ensures alike { AreAlike self.old self.new }
    {
        match self {
            AnyCurve::Places(curve) => Ok(curve.warm_up(key)?),
            AnyCurve::Deletes(curve) if size == 0 => Ok(curve.delete(key)?),
            AnyCurve::Deletes(curve) => Ok(curve.warm_up(key)?),
            AnyCurve::Bytes(curve) => curve.warm_up(key, size),
        }
    }

    fn count(&mut self, key: &str, size: u64) -> Result<(), SizeError>
        requires { references_of self.old < 2 ^ 64 - 1 }
        ensures ok { OnOk result ((warm trace : List (List ℕ × ℕ)) → IsCurveOf warm trace self.old →
            IsCurveOf warm (trace ++ (key.now, size) ∷ []) self.new) }
        ensures large { IfErr result (λ e. e ≡ SizeError.TooLarge → (warm trace : List (List ℕ × ℕ)) →
            IsCurveOf warm trace self.old → AreTooLarge warm (trace ++ (key.now, size) ∷ [])) }
        ensures references { references_of self.new ≤ references_of self.old + 1 }
        ensures alike { AreAlike self.old self.new }
    {
        match self {
            AnyCurve::Places(curve) => Ok(curve.refer(key)?),
            AnyCurve::Deletes(curve) if size == 0 => Ok(curve.delete(key)?),
            AnyCurve::Deletes(curve) => Ok(curve.refer(key)?),
            AnyCurve::Bytes(curve) => curve.refer(key, size),
        }
    }

    /// References a key, and counts the reference unless `warm` is true. With deletes, the size 0 deletes the key.
    pub(crate) fn refer(&mut self, warm: bool, key: &str, size: u64) -> Result<(), SizeError>
        requires { references_of self.old < 2 ^ 64 - 1 }
        ensures ok { OnOk result (Follows warm self.old ((key.now, size) ∷ []) self.new) }
        ensures large { IfErr result (λ e. e ≡ SizeError.TooLarge →
            Leads warm self.old ((key.now, size) ∷ []) AreTooLarge) }
        ensures references { references_of self.new ≤ references_of self.old + 1 }
        ensures alike { AreAlike self.old self.new }
    {
        if warm {
            return self.warm_up(key, size);
        }
        self.count(key, size)
    }

    pub(crate) fn measure(&self) -> Measure
        ensures { result ≡ measure_in self.now }
    {
        match self {
            AnyCurve::Places(_) => Measure::Places,
            AnyCurve::Deletes(_) => Measure::PlacesWithDeletes,
            AnyCurve::Bytes(_) => Measure::Bytes,
        }
    }

    pub(crate) fn references(&self) -> u64
        ensures { (warm trace : List (List ℕ × ℕ)) → IsCurveOf warm trace self.now →
            result ≡ rows.references_of (measure_in self.now) trace }
    {
        match self {
            AnyCurve::Places(curve) => curve.references(),
            AnyCurve::Deletes(curve) => curve.references(),
            AnyCurve::Bytes(curve) => curve.references(),
        }
    }

    pub(crate) fn keys(&self) -> usize
        ensures { (warm trace : List (List ℕ × ℕ)) → IsCurveOf warm trace self.now →
            result ≡ keys_among (measure_in self.now) warm trace }
    {
        match self {
            AnyCurve::Places(curve) => curve.keys(),
            AnyCurve::Deletes(curve) => curve.places(),
            AnyCurve::Bytes(curve) => curve.keys(),
        }
    }

    /// Returns the size of a cache that can contain all keys.
    pub(crate) fn needed(&self) -> usize
        ensures { (warm trace : List (List ℕ × ℕ)) → IsCurveOf warm trace self.now →
            result ≡ needed (measure_in self.now) warm trace }
    {
        match self {
            AnyCurve::Places(curve) => curve.keys(),
            AnyCurve::Deletes(curve) => curve.places(),
            AnyCurve::Bytes(curve) => curve.bytes() as usize,
        }
    }

    pub(crate) fn misses(&self, size: usize) -> u64
        requires { Has self.now size }
        ensures { (warm trace : List (List ℕ × ℕ)) → IsCurveOf warm trace self.now →
            result ≡ missed (measure_in self.now) warm trace size }
    {
        match self {
            AnyCurve::Places(curve) => curve.misses(size),
            AnyCurve::Deletes(curve) => curve.misses(size),
            AnyCurve::Bytes(curve) => curve.misses(size as u64).unwrap_or(0),
        }
    }

    pub(crate) fn best(&self) -> Result<Option<Best>, AllocError>
        ensures some { IfOk result (λ best. is_some best ≡ keeps self.now) }
        ensures all { IfOk result (λ best. (warm trace : List (List ℕ × ℕ)) → IsCurveOf warm trace self.now →
            KnowsRest (keys_of trace) best) }
    {
        match self {
            AnyCurve::Places(curve) => curve.best(),
            AnyCurve::Deletes(_) | AnyCurve::Bytes(_) => Ok(None),
        }
    }
}
