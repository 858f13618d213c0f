//! Reuse distances of a trace, one reference at a time.
ghost use Rattle.std.specs.Prelude.{◌≡◌, ◌+◌, ◌^◌, ◌<◌, [], ◌∷◌, ◌++◌, IfOk, OnErr, OnOk, is_ok, true, false, nat_eq};
ghost use Rattle.std.specs.Prelude.{◌-◌, length, take, drop, sum, sum_by};
ghost use Rattle.std.specs.Set.{remove_key};
ghost use Rattle.lru_theory.specs.Traces.{is_in};
ghost use Rattle.lru_trace.specs.Blocks.{AreSums};
ghost use Rattle.lru_trace.specs.Slots.{Recent, position, slot_weight, weight_in, weights_of};

use crate::tree::{BLOCK, Tree};
use std::alloc::{AllocError, Global};
use std::marker::Model;
use std::mem;

/// The slot of a key that was not referenced.
const NO_SLOT: usize = usize::MAX;

/// The content of a free slot.
const NO_KEY: u32 = u32::MAX;

/// The keys of a trace, by the time of their last reference.
///
/// A key is a number that `add_key` or `add_weighed_key` returned. Its weight is 1, or the weight that
/// `add_weighed_key` got.
///
/// Each reference writes its key to the next slot of a log, and frees the slot that its key had before. `blocks`
/// contains the weight of each block of slots. If the log is full, the keys move to the front of a new log, which is
/// about two thirds full. A key takes about 15 bytes, and 8 more if it has a weight.
#[derive(Drop)]
pub struct Distances {
    log: Vec<u32>,
    slots: Vec<usize>,
    weights: Vec<u64>,
    blocks: Tree,
    used: usize,
    alloc: Global,
}

impl Model for Distances {
    ghost use Rattle.std.specs.Prelude.{◌-◌, ◌*◌, length, vec_len};
    ghost use Rattle.lru_trace.specs.Slots.{Recent, IsLog, newest, live};

    ghost Value = { Recent };

    ghost view = { λ d. record {
      recency = newest (live d.log.items);
      keys = vec_len d.slots;
      weights = d.weights.items;
      room = 16 * length d.blocks - vec_len d.log;
    } };

    ghost invariant = { λ d. IsLog d.log d.slots.items d.weights.items d.blocks d.used };
}

fn weight_in(weights: &[u64], key: usize) -> u64
    ensures { result ≡ weight_in weights.now key }
{
    match weights.get(key) {
        Some(weight) => *weight,
        None => 1,
    }
}

fn sum_of(log: &[u32], weights: &[u64]) -> u64
    requires { sum_by (slot_weight (weight_in weights.now)) log.now < 2 ^ 64 }
    ensures { result ≡ sum_by (slot_weight (weight_in weights.now)) log.now }
{
    let mut sum = 0;
    for number in log {
        if *number != NO_KEY {
            sum += weight_in(weights, *number as usize);
        }
    }
    sum
}

/// Returns the sum of the weights of the slots after this slot.
fn weight_behind(log: &[u32], weights: &[u64], blocks: &Tree, slot: usize) -> u64
    requires within { slot < length log.now }
    requires sums { AreSums (weights_of (weight_in weights.now) log.now) blocks.now }
    requires fits { sum blocks.now < 2 ^ 64 }
    ensures { result ≡ sum (drop (slot + 1) (weights_of (weight_in weights.now) log.now)) }
{
    let block = slot / BLOCK;
    let end = (BLOCK * (block + 1)).min(log.len());
    sum_of(&log[slot + 1..end], weights) + blocks.weight_behind(block)
}

impl Distances {
    pub fn new(alloc: Global) -> Result<Self, AllocError>
        ensures recency { IfOk result (λ trace. trace.recency ≡ []) }
        ensures keys { IfOk result (λ trace. trace.keys ≡ 0) }
        ensures weights { IfOk result (λ trace. trace.weights ≡ []) }
    {
        Ok(Distances {
            log: Vec::with_capacity(alloc, BLOCK)?,
            slots: Vec::new(alloc),
            weights: Vec::new(alloc),
            blocks: Tree::new(alloc, 1)?,
            used: 0,
            alloc,
        })
    }

    pub fn add_key(&mut self) -> Result<usize, AllocError>
        ensures key { IfOk result (λ key. key ≡ self.old.keys) }
        ensures recency { self.new.recency ≡ self.old.recency }
        ensures keys { OnOk result (self.new.keys ≡ self.old.keys + 1) }
        ensures weights { self.new.weights ≡ self.old.weights }
        ensures room { self.new.room ≡ self.old.room }
        ensures err { OnErr result (self.new.keys ≡ self.old.keys) }
    {
        let key = self.slots.len();
        if key >= NO_KEY as usize {
            return Err(AllocError);
        }
        self.slots.push(NO_SLOT)?;
        Ok(key)
    }

    pub fn add_weighed_key(&mut self, weight: u64) -> Result<usize, AllocError>
        requires { length self.old.weights ≡ self.old.keys }
        ensures key { IfOk result (λ key. key ≡ self.old.keys) }
        ensures recency { self.new.recency ≡ self.old.recency }
        ensures keys { OnOk result (self.new.keys ≡ self.old.keys + 1) }
        ensures weights { OnOk result (self.new.weights ≡ self.old.weights ++ weight ∷ []) }
        ensures room { self.new.room ≡ self.old.room }
        ensures err { OnErr result (self.new ≡ self.old) }
    {
        let key = self.slots.len();
        if key >= NO_KEY as usize {
            return Err(AllocError);
        }
        self.weights.reserve(1)?;
        self.slots.push(NO_SLOT)?;
        self.weights.push_reserved(weight);
        Ok(key)
    }

    /// Removes the key that was added last, if it was not referenced.
    pub fn remove_key(&mut self)
        requires some { 0 < self.old.keys }
        requires absent { is_in nat_eq (self.old.keys - 1) self.old.recency ≡ false }
        ensures recency { self.new.recency ≡ self.old.recency }
        ensures keys { self.new.keys ≡ self.old.keys - 1 }
        ensures weights { self.new.weights ≡ take (self.old.keys - 1) self.old.weights }
        ensures room { self.new.room ≡ self.old.room }
    {
        self.slots.pop();
        self.weights.truncate(self.slots.len());
    }

    pub fn referenced(&self) -> usize
        ensures { result ≡ length self.now.recency }
    {
        self.used
    }

    pub fn weight(&self, key: usize) -> u64
        ensures { result ≡ weight_in self.now.weights key }
    {
        weight_in(&self.weights, key)
    }

    /// Returns the sum of the weights of the keys that were referenced after the last reference to this key.
    pub fn position(&self, key: usize) -> Option<u64>
        requires { key < self.now.keys }
        ensures { result ≡ position (weight_in self.now.weights) key self.now.recency }
    {
        let slot = self.slots[key];
        if slot == NO_SLOT {
            return None;
        }
        Some(weight_behind(&self.log, &self.weights, &self.blocks, slot))
    }

    fn take_out(&mut self, key: usize) -> Option<u64>
        requires { key < self.old.keys }
        ensures result { result ≡ position (weight_in self.old.weights) key self.old.recency }
        ensures after { self.new ≡ record self.old { recency = remove_key (nat_eq key) self.old.recency } }
        ensures absent { is_in nat_eq key self.new.recency ≡ false }
    {
        let slot = self.slots[key];
        if slot == NO_SLOT {
            return None;
        }
        let weight = self.weight(key);
        let behind = weight_behind(&self.log, &self.weights, &self.blocks, slot);
        self.blocks.subtract(slot / BLOCK, weight);
        self.log[slot] = NO_KEY;
        self.slots[key] = NO_SLOT;
        self.used -= 1;
        Some(behind)
    }

    fn append(&mut self, key: usize)
        requires key { key < self.old.keys }
        requires absent { is_in nat_eq key self.old.recency ≡ false }
        requires room { 0 < self.old.room }
        requires fits { sum_by (weight_in self.old.weights) (key ∷ self.old.recency) < 2 ^ 64 }
        ensures recency { self.new.recency ≡ key ∷ self.old.recency }
        ensures keys { self.new.keys ≡ self.old.keys }
        ensures weights { self.new.weights ≡ self.old.weights }
        ensures room { self.new.room + 1 ≡ self.old.room }
    {
        let slot = self.log.len();
        let weight = self.weight(key);
        self.log.push_reserved(key as u32);
        self.slots[key] = slot;
        self.blocks.add(slot / BLOCK, weight);
        self.used += 1;
    }

    fn make_room(&mut self) -> Result<(), AllocError>
        requires { self.old.room ≡ 0 }
        ensures recency { self.new.recency ≡ self.old.recency }
        ensures keys { self.new.keys ≡ self.old.keys }
        ensures weights { self.new.weights ≡ self.old.weights }
        ensures room { OnOk result (0 < self.new.room) }
    {
        let blocks = (self.used + self.used / 2) / BLOCK + 1;
        let sums = Tree::new(self.alloc, blocks)?;
        let free = Vec::with_capacity(self.alloc, BLOCK * blocks)?;
        let log = mem::replace(&mut self.log, free);
        self.blocks = sums;
        self.slots.fill(NO_SLOT);
        self.used = 0;
        for key in &log {
            if *key != NO_KEY {
                self.append(*key as usize);
            }
        }
        Ok(())
    }

    /// Makes room for one reference.
    ///
    /// # Errors
    ///
    /// Out of memory for a new log.
    pub fn reserve(&mut self) -> Result<(), AllocError>
        ensures recency { self.new.recency ≡ self.old.recency }
        ensures keys { self.new.keys ≡ self.old.keys }
        ensures weights { self.new.weights ≡ self.old.weights }
        ensures room { OnOk result (0 < self.new.room) }
        ensures enough { 0 < self.old.room → is_ok result ≡ true }
    {
        if self.log.len() == BLOCK * self.blocks.len() {
            self.make_room()?;
        }
        Ok(())
    }

    /// References a key, and returns the sum of the weights of the other keys that were referenced since the last
    /// reference to this key. If all weights are 1, this sum is the reuse distance. If the key was not referenced
    /// before, returns `None`.
    ///
    /// Cost: `O(log n)` for n keys, amortised over the references.
    ///
    /// # Errors
    ///
    /// Out of memory for a new log. The key was not referenced.
    pub fn refer(&mut self, key: usize) -> Result<Option<u64>, AllocError>
        requires key { key < self.old.keys }
        requires fits { sum_by (weight_in self.old.weights) (key ∷ remove_key (nat_eq key) self.old.recency) < 2 ^ 64 }
        ensures distance { IfOk result (λ distance.
            distance ≡ position (weight_in self.old.weights) key self.old.recency) }
        ensures recency { OnOk result (self.new.recency ≡ key ∷ remove_key (nat_eq key) self.old.recency) }
        ensures keys { self.new.keys ≡ self.old.keys }
        ensures weights { self.new.weights ≡ self.old.weights }
        ensures enough { 0 < self.old.room → is_ok result ≡ true }
        ensures err { OnErr result (self.new.recency ≡ self.old.recency) }
    {
        self.reserve()?;
        let distance = self.take_out(key);
        self.append(key);
        Ok(distance)
    }
}
