//! Values that look up a key, and the hash of a key.
ghost use Rattle.std.specs.Prelude.{◌≡◌, Bool, ℕ, IsTrue};
ghost use Rattle.lru_limits.specs.Hashing.{hash_by, hash_by-equal};
ghost use Rattle.lru_limits.specs.Laws.{IsLookup};
ghost use Rattle.lru_limits.specs.Texts.{names_text, names_text-lawful};

use std::hash::{BuildHasher, Hash};

/// A value that looks up a key. All keys that the value names are equal, and the value has their hash.
///
/// Every key type implements `LookupKey` for its own keys, and `&str` implements it for `String` keys. In your own
/// impl, `names` defines which key a value names, and `is_key` computes `names`. Prove two laws (`IsLookup`). For the
/// law `writes`, note that the derived `Hash` of a struct with one field writes what the field writes.
///
/// ```
/// let key = String::from_str(rt.alloc(), "a")?;
/// assert!(rt; "a".is_key(&key));
/// assert!(rt; !"b".is_key(&key));
/// ```
pub trait LookupKey<K: Eq + Hash>: Hash {
    ghost names: { Self → K → Bool };

    /// Returns whether the value names this key.
    fn is_key(&self, key: &K) -> bool
        ensures { result ≡ names self.now key.now };

    ghost laws: { IsLookup names K.eq Self.hash_input K.hash_input };
}

impl<K: Eq + Hash> LookupKey<K> for K {
    ghost names = { K.eq };

    ghost laws = { record {
      writes = K.respects_eq;
      one = K.Eq.laws.congr;
    } };

    #[inline]
    fn is_key(&self, key: &K) -> bool {
        *self == *key
    }
}

impl LookupKey<String> for &str {
    ghost names = { λ q k. names_text q.now k };

    ghost laws = { names_text-lawful (λ q. q.now) };

    #[inline]
    fn is_key(&self, key: &String) -> bool {
        *self == key.as_str()
    }
}

/// Hashes keys, and values that name keys. Every `BuildHasher` is a `KeyHasher`.
///
/// ```
/// assert_eq!(rt; KeyHasher::<String>::hash_named(&state, &"a"), state.hash_one(&key));
/// ```
pub trait KeyHasher<K: Eq + Hash>: BuildHasher {
    ghost hash_of: { Self → K → ℕ };

    /// Returns the hash of the key that the value names.
    fn hash_named<Q: LookupKey<K>>(&self, key: &Q) -> u64
        ensures { (k : K) → IsTrue (Q.names key.now k) → result ≡ hash_of self.now k };

    /// Equal keys have equal hashes.
    ghost respects_eq: { (s : Self) (x y : K) → IsTrue (K.eq x y) → hash_of s x ≡ hash_of s y };

    ghost by_builder: { (s : Self) (k : K) →
        hash_of s k ≡ hash_by K.hash_input Self.BuildHasher Self.Hasher.Hasher s k };
}

impl<K: Eq + Hash, S: BuildHasher> KeyHasher<K> for S {
    ghost hash_of = { hash_by K.hash_input S.BuildHasher S.Hasher.Hasher };

    ghost respects_eq = { hash_by-equal K.respects_eq S.BuildHasher S.Hasher.Hasher };

    ghost by_builder = { λ s k _. hash_by K.hash_input S.BuildHasher S.Hasher.Hasher s k };

    #[inline]
    fn hash_named<Q: LookupKey<K>>(&self, key: &Q) -> u64 {
        self.hash_one(key)
    }
}
