//! Tests whether each run of 16 neighbouring buckets that includes bucket b contains an empty bucket.
ghost use Rattle.std.specs.Prelude.{◌≡◌, ◌≢◌, ◌+◌, ◌-◌, ◌%◌, ◌^◌, ◌<◌, Bool, if◌then◌else◌, nat_lt, slice_index};
ghost use Rattle.std.specs.Prelude.{MatchBool};
ghost use Rattle.group_table.specs.Bytes.{empty_byte};
ghost use Rattle.group_table.specs.Control.{buckets_of, HasEmptyByte, IsCircle};
ghost use Rattle.group_table.specs.Neighbours.{HasEmptyNeighbours, IsHemmedIn};
ghost use Rattle.group_table.specs.Group.{IsEmptyAt};
ghost use Rattle.group_table.specs.Lanes.{IsMaskAt};

use crate::control::Control;
use crate::group::lanes_below;

#[inline]
fn empty_before(control: &Control, b: usize) -> u16
    requires { b < buckets_of control.now }
    ensures lanes { IsMaskAt (λ byte. byte ≡ empty_byte) control.now
        ((b + (buckets_of control.now - 16)) % buckets_of control.now) result }
    ensures circle { IsCircle control.now }
{
    control.group(control.sixteen_before(b)).match_empty()
}

#[inline]
fn empty_from(control: &Control, b: usize) -> u16
    requires { b < buckets_of control.now }
    ensures lanes { IsMaskAt (λ byte. byte ≡ empty_byte) control.now b result }
{
    control.group(b).match_empty()
}

#[inline]
fn ones_if_less(low: u32, high: u16) -> usize
    ensures { result ≡ (if nat_lt low high then 2 ^ 64 - 1 else 0) }
{
    let difference = low as i64 - high as i64;
    (difference >> 32).cast_unsigned() as usize
}

// Take the row of used (full or deleted) buckets that contains b. If the row is shorter than 16 buckets, each run
// contains an empty bucket.
#[inline]
pub(crate) fn ones_if_empty_neighbours(control: &Control, b: usize) -> usize
    requires bucket { b < buckets_of control.now }
    requires used { slice_index control.now b ≢ empty_byte }
    requires some_empty { HasEmptyByte control.now }
    ensures { (empty : Bool) × (result ≡ (if empty then 2 ^ 64 - 1 else 0))
        × MatchBool empty (HasEmptyNeighbours (IsEmptyAt control.now) (buckets_of control.now) b)
        (IsHemmedIn (IsEmptyAt control.now) (buckets_of control.now) b) }
{
    // `used` has a bit for each used bucket from b up to the next empty bucket. `used` is less than the mask of the
    // empty buckets before b if and only if the row around b is shorter than 16 buckets. Comparing the masks takes
    // fewer instructions than two counts and their sum.
    let used = lanes_below(empty_from(control, b));
    ones_if_less(used, empty_before(control, b))
}
