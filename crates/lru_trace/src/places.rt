ghost use Rattle.std.specs.Prelude.{◌≡◌, ◌<◌, ◌≤◌, ◌+◌, ℕ, List, [], ◌∷◌, IfOk, OnOk, OnErr, IfSome, MatchOption, true, false, Some, None};
ghost use Rattle.std.specs.Prelude.{length, is_some, nat_eq};
ghost use Rattle.lru_theory.specs.Places.{keys_in, place_of};
ghost use Rattle.lru_theory.specs.Traces.{is_in};
ghost use Rattle.lru_trace.specs.Places.{Chosen, Freed, Referred, free_at};

use crate::distances::Distances;
use std::alloc::{AllocError, Global};
use std::collections::BTreeMap;
use std::marker::Model;

/// The places of `deletes_leave_places`, newest first. A place is free, or contains a key. A key is a number.
///
/// Each place has a number, and the time of the reference that moved it to the front. A key has the number of its
/// place.
#[derive(Drop)]
pub struct Places {
    distances: Distances,
    times: Vec<u64>,
    free: BTreeMap<u64, usize>,
    clock: u64,
}

impl Model for Places {
    ghost use Rattle.std.specs.Prelude.{List, Option, ℕ, map};
    ghost use Rattle.lru_trace.specs.Places.{ArePlaces, is_free, mark};

    ghost Value = { List (Option ℕ) };

    ghost view = { λ p. map (mark (is_free p.free.entries p.times.items)) p.distances.recency };

    ghost invariant = { λ p. ArePlaces p.distances p.times.items p.free.entries p.clock };
}

fn newest(free: &BTreeMap<u64, usize>) -> Option<(u64, usize)>
    ensures { MatchOption result ((time : ℕ) → free_at free.now.entries time ≡ None)
        (λ p. (free_at free.now.entries p.0 ≡ Some p.1)
        × ((time : ℕ) → is_some (free_at free.now.entries time) ≡ true → time ≤ p.0)) }
{
    match free.last_key_value() {
        Some((time, id)) => Some((*time, *id)),
        None => None,
    }
}

fn choose(
    free: &mut BTreeMap<u64, usize>,
    times: &[u64],
    own: Option<usize>,
) -> Result<Option<usize>, AllocError>
    requires { IfSome own (λ id. id < length times.now) }
    ensures ok { IfOk result (λ chosen. Chosen own times.now free.old.entries free.new.entries chosen) }
    ensures err { OnErr result (free.new.entries ≡ free.old.entries) }
{
    let Some((time, id)) = newest(free) else {
        return Ok(own);
    };
    match own {
        Some(own) if time <= times[own] => Ok(Some(own)),
        Some(own) => {
            let Ok(_) = free.insert(times[own], own) else {
                return Err(AllocError);
            };
            free.remove(&time);
            Ok(Some(id))
        }
        None => {
            free.remove(&time);
            Ok(Some(id))
        }
    }
}

impl Places {
    pub fn new(alloc: Global) -> Result<Self, AllocError>
        ensures { IfOk result (λ places. places ≡ []) }
    {
        Ok(Places {
            distances: Distances::new(alloc)?,
            times: Vec::new(alloc),
            free: BTreeMap::new(alloc),
            clock: 0,
        })
    }

    pub fn len(&self) -> usize
        ensures { result ≡ length self.now }
    {
        self.distances.referenced()
    }

    /// Returns how many places are newer than the place of the key.
    pub fn place_of(&self, key: usize) -> u64
        requires { is_in nat_eq key (keys_in self.now) ≡ true }
        ensures { result ≡ place_of (nat_eq key) self.now }
    {
        self.distances.position(key).unwrap_or(0)
    }

    /// Deletes a key: its place becomes free.
    pub fn free(&mut self, key: usize) -> Result<(), AllocError>
        requires { is_in nat_eq key (keys_in self.old) ≡ true }
        ensures ok { OnOk result (Freed key self.old self.new) }
        ensures err { OnErr result (self.new ≡ self.old) }
    {
        let time = self.times[key];
        let Ok(_) = self.free.insert(time, key) else {
            return Err(AllocError);
        };
        Ok(())
    }

    fn add(&mut self) -> Result<usize, AllocError>
        ensures ok { IfOk result (λ id. (self.new ≡ Some id ∷ self.old) × (is_in nat_eq id (keys_in self.old) ≡ false)) }
        ensures err { OnErr result (self.new ≡ self.old) }
    {
        let Some(later) = self.clock.checked_add(1) else {
            return Err(AllocError);
        };
        self.times.reserve(1)?;
        let id = self.distances.add_key()?;
        self.times.push_reserved(self.clock);
        self.distances.refer(id)?;
        self.clock = later;
        Ok(id)
    }

    /// References a key, or a new key (`None`). Returns the new number of the key.
    pub fn refer(&mut self, key: Option<usize>) -> Result<usize, AllocError>
        requires { IfSome key (λ id. is_in nat_eq id (keys_in self.old) ≡ true) }
        ensures ok { IfOk result (λ id. Referred key id self.old self.new) }
        ensures err { OnErr result (self.new ≡ self.old) }
    {
        let Some(later) = self.clock.checked_add(1) else {
            return Err(AllocError);
        };
        self.distances.reserve()?;
        let Some(id) = choose(&mut self.free, &self.times, key)? else {
            return self.add();
        };
        self.distances.refer(id)?;
        self.times[id] = self.clock;
        self.clock = later;
        Ok(id)
    }
}
