//! Clones of maps, with and without enough memory.
ghost use Rattle.std.specs.Prelude.{◌≡◌};
ghost use Rattle.lru_limits.specs.Limiters.{no_rules};

use super::live::{Live, Lives};
use schnellru::{Limiter, LruMap, Storing};
use std::hash::BuildHasher;
use test_helpers::{LastByte, check};

/// Limits nothing. After a clear, writes into `clones` the number of keys that are alive.
impl<K, V> Limiter<K, V> for Live<'_> {
    type LinkType = u32;

    ghost rules = { no_rules };

    fn is_over_the_limit(&self, _length: usize) -> bool {
        false
    }

    fn on_removed(&mut self, _key: &mut K, _value: &mut V) {}

    fn on_cleared(&mut self) {
        self.clones.set(self.lives.get());
    }

    fn on_grow(&mut self, _new_memory_usage: usize) -> bool {
        true
    }
}

impl BuildHasher for Live<'_> {
    type Hasher = LastByte;

    ghost build_hasher = { λ _. record { 0 = 0 } };

    fn build_hasher(&self) -> LastByte {
        LastByte(0)
    }
}

type Map<'a> = LruMap<Live<'a>, Live<'a>, Storing<Live<'a>>, Live<'a>>;

/// Copies a map of seven entries. Only the first `allowed` clones succeed. Returns whether the copy clones each key,
/// each value, the limiter and the hasher once. If a clone fails, the copy must drop the other clones.
fn is_cloned_once(map: &Map, lives: &Lives, allowed: u64) -> bool {
    lives.clones.set(allowed);
    let is_made = map.clone().is_ok();
    let left = lives.clones.get();
    (is_made == (allowed >= 16)) & (left == allowed.saturating_sub(16)) & lives.are(8)
}

/// Also tests that a clear drops the entries before it notifies the limiter.
#[test]
fn each_key_and_value_is_cloned_once(rt: HostRuntime) {
    let lives = Lives::new();
    let (limiter, hasher) = (Storing(lives.key(0)), lives.value(0));
    let mut map = LruMap::with_hasher(rt.alloc(), limiter, hasher, 16);
    for number in 0..7u64 {
        let _ = map.insert(lives.key(number), lives.value(number));
    }
    for allowed in 0..=17u64 {
        check!(rt; is_cloned_once(&map, &lives, allowed));
    }
    map.clear();
    let left = lives.clones.get();
    drop(map.into_iter().next());
    check!(rt; (left == 1) & lives.are(0));
}
