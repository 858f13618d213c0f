//! The full buckets of a table, in rising order.
ghost use Rattle.std.specs.Prelude.{ℕ, ◌+◌, ◌<◌};
ghost use Rattle.group_table.specs.Control.{buckets_of};
ghost use Rattle.group_table.specs.FullBuckets.{IsAhead, IsNextFull};

use crate::control::Control;
use crate::group::{lowest_lane, without_lowest};

// The position of a walk over the full buckets. `lanes` is a mask of the full buckets that the walk has still to visit
// in the current group, so that a step does not load the group again.
#[derive(Drop)]
pub(crate) struct FullBuckets {
    start: usize,
    lanes: u16,
}

impl FullBuckets {
    pub(crate) fn of(control: &Control) -> FullBuckets
        requires { 0 < buckets_of control.now }
        ensures { IsAhead control.now result 0 }
    {
        FullBuckets {
            start: 0,
            lanes: control.group(0).match_full(),
        }
    }

    #[inline]
    pub(crate) fn next(&mut self, control: &Control) -> usize
        requires { (from : ℕ) × IsAhead control.now self.old from }
        ensures next { (from : ℕ) → IsAhead control.now self.old from → IsNextFull control.now from result }
        ensures ahead { (from : ℕ) → IsAhead control.now self.old from → result < buckets_of control.now
            → IsAhead control.now self.new (result + 1) }
    {
        let count = control.buckets();
        'groups: while self.lanes == 0 {
            let start = self.start + 16;
            if start >= count {
                return count;
            }
            self.start = start;
            self.lanes = control.group(start).match_full();
        }
        let b = (self.start + lowest_lane(self.lanes)).min(count);
        self.lanes = without_lowest(self.lanes);
        b
    }
}
