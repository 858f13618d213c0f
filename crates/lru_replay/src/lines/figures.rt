//! What `stats` reports about a map.
ghost use Rattle.std.specs.Prelude.{◌≡◌, ℕ, Option, Some, None};

use lru_limits::{ByCost, ByLength, ByMemoryUsage, UnlimitedCompact};

/// A limiter of a replay.
pub trait ReportsCost {
    ghost reported: { Self → Option ℕ };

    /// Returns the running total of costs, if there is one.
    fn reported_cost(&self) -> Option<u64>
        ensures { result ≡ reported self.now };
}

impl ReportsCost for ByLength {
    ghost reported = { λ _. None };

    fn reported_cost(&self) -> Option<u64> {
        None
    }
}

impl ReportsCost for ByMemoryUsage {
    ghost reported = { λ _. None };

    fn reported_cost(&self) -> Option<u64> {
        None
    }
}

impl ReportsCost for UnlimitedCompact {
    ghost reported = { λ _. None };

    fn reported_cost(&self) -> Option<u64> {
        None
    }
}

impl ReportsCost for ByCost {
    ghost reported = { λ b. Some b.cost };

    fn reported_cost(&self) -> Option<u64> {
        Some(self.cost())
    }
}

#[derive(Clone, Copy)]
pub struct Figures {
    pub len: usize,
    pub capacity: usize,
    pub memory: usize,
    pub moved: u64,
    pub placed: u64,
    pub shrunk: u64,
}
