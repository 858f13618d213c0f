//! A fast seeded hasher: each eight bytes of a write cost one multiplication. The hashes may change in later versions.
ghost use Rattle.std.specs.Prelude.{◌≡◌, ◌+◌, ◌*◌, ◌^◌, ◌<◌, length, fold};
ghost use Rattle.std.specs.Int.{w64, from_le_bytes};
ghost use Rattle.lru_limits.specs.Mixing.{folded, joined, written, closed, seeded};

use std::fmt::{Debug, Formatter, Result, Write};
use std::hash::{BuildHasher, Hasher};
use std::marker::Model;

// The first 64 fractional bits of the square roots of 2, 3, 5 and 7.
const STATE: u64 = 0x6a09_e667_f3bc_c908;

const WORD_KEY: u64 = 0xbb67_ae85_84ca_a73b;

const REST_KEY: u64 = 0x3c6e_f372_fe94_f82b;

const REST_FACTOR: u64 = 0xa54f_f53a_5f1d_36f1;

/// Builds hashers with four seeds. Contracts represent a `RandomState` by the hasher that it builds.
///
/// In a map with an equal `RandomState`, the hash of a key is `state.hash_one(&key)`. The default seeds are 1, 2, 3, 4,
/// so an attacker can choose keys that collide.
///
/// ```
/// let state = RandomState::with_seeds([5, 6, 7, 8]);
/// assert_eq!(rt; state.hash_one(&"a"), state.hash_one(&key));
/// ```
#[derive(Clone, Copy)]
pub struct RandomState {
    state: u64,
    word_key: u64,
    rest_key: u64,
}

impl Model for RandomState {
    ghost use Rattle.lru_limits.specs.Mixing.{Mixer};

    ghost Value = { Mixer };

    ghost view = { λ s. record { state = s.state; word_key = s.word_key; rest_key = s.rest_key } };

    ghost inverse = { λ s. record { state = s.state; word_key = s.word_key; rest_key = s.rest_key } };
}

impl RandomState {
    /// Makes the state with these seeds.
    ///
    /// ```
    /// let state = RandomState::with_seeds([5, 6, 7, 8]);
    /// ```
    pub const fn with_seeds(seeds: [u64; 4]) -> RandomState
        ensures { result ≡ seeded seeds }
    {
        RandomState {
            state: seeds[0] ^ STATE,
            word_key: seeds[1] ^ WORD_KEY,
            rest_key: folded(seeds[2] ^ REST_KEY, seeds[3] ^ REST_FACTOR),
        }
    }
}

impl Default for RandomState {
    ghost use Rattle.std.specs.Prelude.{◌∷◌, []};

    ghost is_default = { λ s. s ≡ seeded (1 ∷ 2 ∷ 3 ∷ 4 ∷ []) };

    fn default() -> RandomState {
        RandomState::with_seeds([1, 2, 3, 4])
    }
}

/// Does not show the seeds.
impl Debug for RandomState {
    fn fmt<W: Write>(&self, f: &mut Formatter<W>) -> Result {
        f.debug_struct("RandomState").finish_non_exhaustive()
    }
}

impl BuildHasher for RandomState {
    type Hasher = DefaultHasher;

    ghost build_hasher = { λ s. s };

    #[inline]
    fn build_hasher(&self) -> DefaultHasher {
        DefaultHasher {
            state: self.state,
            word_key: self.word_key,
            rest_key: self.rest_key,
        }
    }
}

/// The hasher that a `RandomState` makes.
///
/// A whole number is written as its bytes, the lowest byte first: `write_u64(n)` does what `write(&n.to_le_bytes())`
/// does. The hash may change if one write is split into two.
///
/// ```
/// let mut hasher = state.build_hasher();
/// key.hash(&mut hasher);
/// assert_eq!(rt; hasher.finish(), state.hash_one(&key));
/// ```
#[derive(Drop)]
pub struct DefaultHasher {
    state: u64,
    word_key: u64,
    rest_key: u64,
}

impl Model for DefaultHasher {
    ghost use Rattle.lru_limits.specs.Mixing.{Mixer};

    ghost Value = { Mixer };

    ghost view = { λ h. record { state = h.state; word_key = h.word_key; rest_key = h.rest_key } };
}

#[inline]
const fn folded(a: u64, b: u64) -> u64
    ensures { result ≡ folded a b }
{
    let product = a as u128 * b as u128;
    (product & u64::MAX as u128) as u64 ^ (product >> 64) as u64
}

// Returns one to seven bytes as a number, lowest byte first, by two or three loads that may overlap.
#[inline]
fn short_number(bytes: &[u8]) -> u64
    requires some { 0 < length bytes.now }
    requires few { length bytes.now < 8 }
    ensures { result ≡ from_le_bytes w64 bytes.now }
{
    let len = bytes.len();
    if len >= 4 {
        let first = u32::from_le_bytes([bytes[0], bytes[1], bytes[2], bytes[3]]);
        let last = u32::from_le_bytes([
            bytes[len - 4],
            bytes[len - 3],
            bytes[len - 2],
            bytes[len - 1],
        ]);
        let above = last as u64 >> (8 * (8 - len));
        first as u64 + (above << 32)
    } else {
        let middle = (bytes[len / 2] as u64) << (8 * (len / 2));
        let last = (bytes[len - 1] as u64) << (8 * (len - 1));
        bytes[0] as u64 | (middle | last)
    }
}

impl DefaultHasher {
    #[inline]
    fn join_word(&mut self, word: u64)
        ensures { self.new ≡ record self.old { state = joined self.old.word_key self.old.state word } }
    {
        self.state = folded(self.state ^ word, self.word_key);
    }

    // Mixes fewer than eight bytes into the state, with their count as the top byte.
    #[inline]
    fn join_rest(&mut self, bytes: u64, count: u64)
        requires few { count < 8 }
        requires short { bytes < 2 ^ 56 }
        ensures { self.new ≡ record self.old {
          state = joined self.old.rest_key self.old.state
              (bytes + count * 2 ^ 56);
        } }
    {
        self.state = folded(self.state ^ (bytes + (count << 56)), self.rest_key);
    }
}

impl Hasher for DefaultHasher {
    ghost write = { written };

    ghost finish = { closed };

    fn write(&mut self, bytes: &[u8]) {
        let (words, rest) = bytes.as_chunks::<8>();
        let key = self.word_key;
        self.state = words.iter().fold(
            self.state,
            |state, word| folded(state ^ u64::from_le_bytes(*word), key),
        );
        if rest.len() > 0 {
            self.join_rest(short_number(rest), rest.len() as u64);
        }
    }

    #[inline]
    fn write_u8(&mut self, i: u8) {
        self.join_rest(i as u64, 1);
    }

    #[inline]
    #[tactic(auto, using(crate::proofs::MixingLemmas::number_writes))]
    fn write_u16(&mut self, i: u16) {
        self.join_rest(i as u64, 2);
    }

    #[inline]
    #[tactic(auto, using(crate::proofs::MixingLemmas::number_writes))]
    fn write_u32(&mut self, i: u32) {
        self.join_rest(i as u64, 4);
    }

    #[inline]
    #[tactic(auto, using(crate::proofs::MixingLemmas::number_writes))]
    fn write_u64(&mut self, i: u64) {
        self.join_word(i);
    }

    #[inline]
    fn write_u128(&mut self, i: u128) {
        self.join_word((i & u64::MAX as u128) as u64);
        self.join_word((i >> 64) as u64);
    }

    #[inline]
    #[tactic(auto, using(crate::proofs::MixingLemmas::number_writes))]
    fn write_usize(&mut self, i: usize) {
        self.join_word(i as u64);
    }

    #[inline]
    fn finish(&self) -> u64 {
        self.state
    }
}
