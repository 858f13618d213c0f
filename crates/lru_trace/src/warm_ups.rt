//! A law on the misses after a warm-up.
ghost use Rattle.std.specs.Prelude.{◌≡◌, ◌-◌, ℕ, List, [], ◌++◌};
ghost use Rattle.lru_theory.specs.Traces.{misses, cached, faults, past_after};

/// The misses after a warm-up are the misses of the whole trace, minus the misses of the warm-up (`minus`). An LRU
/// cache misses equally often if it begins with the keys that the warm-up leaves (`faults`).
pub fn a_warm_up_is_left_out<K: Eq>()
    ensures minus { (n : ℕ) (warm trace : List K) →
        misses K.eq n (past_after [] warm) trace ≡ misses K.eq n [] (warm ++ trace) - misses K.eq n [] warm }
    ensures faults { (n : ℕ) (warm trace : List K) →
        misses K.eq n (past_after [] warm) trace ≡ faults K.eq n (cached K.eq n [] warm) trace }
{}
