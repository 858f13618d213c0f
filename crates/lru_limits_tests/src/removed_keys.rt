//! A limiter that contains a vector, which clauses see as a list.
ghost use Rattle.std.specs.Prelude.{◌≡◌, ◌∷◌, [], ◌++◌, IfOk, true, false, length, nat_lt, if◌then◌else◌};
ghost use Rattle.lru_limits.specs.Stores.{answers};

use lru_limits::Limiter;
use std::alloc::{AllocError, Global};
use std::marker::Model;

const MOST: usize = 3;

#[derive(Drop)]
struct RemovedKeys {
    keys: Vec<u64>,
}

impl Model for RemovedKeys {
    ghost use Rattle.std.specs.Prelude.{◌≤◌, List, ℕ, vec_capacity};

    ghost Value = { List ℕ };

    ghost view = { λ r. r.keys.items };

    ghost invariant = { λ r. 3 ≤ vec_capacity r.keys };
}

impl RemovedKeys {
    fn new(alloc: Global) -> Result<RemovedKeys, AllocError>
        ensures { IfOk result (λ r. r ≡ []) }
    {
        Ok(RemovedKeys {
            keys: Vec::with_capacity(alloc, MOST)?,
        })
    }
}

impl<V> Limiter<u64, V> for RemovedKeys {
    type LinkType = u32;

    ghost rules = { record {
      is_over_the_limit = λ s n. false;
      on_removed = λ s k v. record { limiter = if nat_lt (length s) 3 then s ++ k ∷ [] else s; key = k; value = v };
      on_cleared = λ s. [];
      on_grow = λ s bytes. answers s true;
    } };

    fn is_over_the_limit(&self, _length: usize) -> bool {
        false
    }

    fn on_removed(&mut self, key: &mut u64, _value: &mut V) {
        if self.keys.len() < MOST {
            let has_room = self.keys.push(*key).is_ok();
            prove!(has_room);
        }
    }

    fn on_cleared(&mut self) {
        self.keys.clear();
    }

    fn on_grow(&mut self, _new_memory_usage: usize) -> bool {
        true
    }
}
