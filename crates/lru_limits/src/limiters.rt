//! Limiters that read no keys or values, a pair of limiters for one map, and an adapter for your own limiter.
ghost use Rattle.std.specs.Prelude.{◌≡◌, ◌-◌, ◌^◌};

use crate::accounts::{ByCost, Costed};
use crate::limiter::Limiter;
use group_table::LinkType;

mod both;
mod by_length;
mod by_memory_usage;
mod storing;
mod unlimited;
mod unlimited_compact;

pub use both::Both;
pub use by_length::ByLength;
pub use by_memory_usage::ByMemoryUsage;
pub use storing::Storing;
pub use unlimited::Unlimited;
pub use unlimited_compact::UnlimitedCompact;

/// States the width of a map's links: 32 bits under `ByLength`, `ByMemoryUsage`, `ByBytes` and `UnlimitedCompact`, and
/// 64 bits under `Unlimited`, `ByCost` and `ByWeight`. `Storing` has the links of the limiter inside, and `Both` has
/// the links of its first limiter. The contract covers neither `ByBytes` nor `ByWeight` nor `Both`.
pub fn limiters_fix_their_links<K, V, C: Costed, L: Limiter<K, V>>()
    ensures by_length { ⟦<<ByLength as Limiter<K, V>>::LinkType as LinkType>⟧.MAX ≡ 2 ^ 32 - 1 }
    ensures by_memory_usage { ⟦<<ByMemoryUsage as Limiter<K, V>>::LinkType as LinkType>⟧.MAX ≡ 2 ^ 32 - 1 }
    ensures unlimited_compact { ⟦<<UnlimitedCompact as Limiter<K, V>>::LinkType as LinkType>⟧.MAX ≡ 2 ^ 32 - 1 }
    ensures unlimited { ⟦<<Unlimited as Limiter<K, V>>::LinkType as LinkType>⟧.MAX ≡ 2 ^ 64 - 1 }
    ensures by_cost { ⟦<<ByCost as Limiter<K, C>>::LinkType as LinkType>⟧.MAX ≡ 2 ^ 64 - 1 }
    ensures storing { ⟦<<Storing<L> as Limiter<K, V>>::LinkType as LinkType>⟧.MAX ≡ L.LinkType.MAX }
{}
