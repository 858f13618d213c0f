//! Slots with weights, and the sum of the weights behind each slot.
ghost use Rattle.std.specs.Prelude.{◌≡◌, ◌+◌, ◌-◌, ◌^◌, ◌<◌, ◌≤◌, IfOk, length, get_or, set, drop, replicate, sum};

use std::alloc::{AllocError, Global};
use std::boxed::Box;
use std::marker::Model;

pub const BLOCK: usize = 16;

/// Slots with weights. Contracts represent a tree by the weight of each slot.
///
/// If there are more than `BLOCK` slots, `sums` is a tree with a slot for each block of slots. The weight of this slot is
/// the sum of the block.
#[derive(Drop)]
pub struct Tree {
    weights: Vec<u64>,
    sums: Option<Box<Tree>>,
}

impl Model for Tree {
    ghost use Rattle.std.specs.Prelude.{ℕ, List, ◌^◌, ◌<◌, IfSome, length, sum};
    ghost use Rattle.lru_trace.specs.Blocks.{IsAbove};

    ghost Value = { List ℕ };

    ghost view = { λ t. t.weights.items };

    ghost invariant = { λ t. (sum t.weights.items < 2 ^ 64)
        × IfSome t.sums (λ sums. IsAbove t.weights.items sums.value) };

    ghost size = { length };

    ghost use Rattle.std.proofs.Common.{arith};

    ghost size_decreases = { λ t h. Prim.grind arith };
}

fn sum_of(weights: &[u64]) -> u64
    requires { sum weights.now < 2 ^ 64 }
    ensures { result ≡ sum weights.now }
{
    weights.iter().sum()
}

impl Tree {
    pub fn new(alloc: Global, slots: usize) -> Result<Self, AllocError>
        ensures { IfOk result (λ tree. tree ≡ replicate slots 0) }
    {
        let weights = vec![in alloc; 0; slots]?;
        if slots <= BLOCK {
            return Ok(Tree {
                weights,
                sums: None,
            });
        }
        let sums = Tree::new(alloc, (slots - 1) / BLOCK + 1)?;
        let sums = Some(Box::new(alloc, sums)?);
        Ok(Tree { weights, sums })
    }

    pub fn len(&self) -> usize
        ensures { result ≡ length self.now }
    {
        self.weights.len()
    }

    pub fn add(&mut self, slot: usize, weight: u64)
        requires within { slot < length self.old }
        requires fits { sum self.old + weight < 2 ^ 64 }
        ensures { self.new ≡ set self.old slot (get_or self.old slot 0 + weight) }
    {
        self.weights[slot] += weight;
        if let Some(sums) = &mut self.sums {
            sums.add(slot / BLOCK, weight);
        }
    }

    pub fn subtract(&mut self, slot: usize, weight: u64)
        requires within { slot < length self.old }
        requires enough { weight ≤ get_or self.old slot 0 }
        ensures { self.new ≡ set self.old slot (get_or self.old slot 0 - weight) }
    {
        self.weights[slot] -= weight;
        if let Some(sums) = &mut self.sums {
            sums.subtract(slot / BLOCK, weight);
        }
    }

    pub fn weight_behind(&self, slot: usize) -> u64
        requires { slot < length self.now }
        ensures { result ≡ sum (drop (slot + 1) self.now) }
    {
        let Some(sums) = &self.sums else {
            return sum_of(&self.weights[slot + 1..]);
        };
        let block = slot / BLOCK;
        let end = (BLOCK * (block + 1)).min(self.weights.len());
        sum_of(&self.weights[slot + 1..end]) + sums.weight_behind(block)
    }
}
