//! Groups of sixteen control bytes. Each byte is a lane, and a mask has a bit for each lane.
ghost use Rattle.std.specs.Prelude.{◌≡◌, ◌≢◌, ◌≤◌, ◌<◌, ◌+◌, ◌-◌, ◌^◌, ◌↔◌, ℕ, length, slice_index};
ghost use Rattle.std.specs.Int.Count.{count_trailing_zeros};
ghost use Rattle.group_table.specs.Bytes.{empty_byte, IsTag, IsFreeByte};
ghost use Rattle.group_table.specs.Lanes.{IsMaskOf, HasLane, lowest};

use crate::control::{DELETED, EMPTY};
use std::simd::prelude::*;

/// Returns a mask of sixteen neighbouring control bytes: bit i is set if and only if byte i is the tag. `docs/TABLE.md`
/// shows masks.
///
/// ```
/// let bytes: [u8; 16] = [0, 255, 128, 5, 255, 255, 255, 255, 255, 255, 255, 255, 255, 255, 255, 255];
/// assert_eq!(rt; match_tag(&bytes, 0), 0x0001);
/// ```
#[inline]
pub fn match_tag(bytes: &[u8; 16], tag: u8) -> u16
    ensures { IsMaskOf (λ byte. byte ≡ tag) bytes.now result }
{
    u8x16::from_array(*bytes)
        .simd_eq(u8x16::splat(tag))
        .to_bitmask() as u16
}

/// Returns which of the bytes are 255, the byte of an empty bucket.
///
/// ```
/// let bytes: [u8; 16] = [0, 255, 128, 5, 255, 255, 255, 255, 255, 255, 255, 255, 255, 255, 255, 255];
/// assert_eq!(rt; match_empty(&bytes), 0xfff2);
/// ```
#[inline]
pub fn match_empty(bytes: &[u8; 16]) -> u16
    ensures { IsMaskOf (λ byte. byte ≡ empty_byte) bytes.now result }
{
    match_tag(bytes, EMPTY)
}

/// Returns which of the bytes have the top bit set: 255 for an empty bucket, and 128 for a deleted bucket.
///
/// ```
/// let bytes: [u8; 16] = [0, 255, 128, 5, 255, 255, 255, 255, 255, 255, 255, 255, 255, 255, 255, 255];
/// assert_eq!(rt; match_free(&bytes), 0xfff6);
/// ```
#[inline]
pub fn match_free(bytes: &[u8; 16]) -> u16
    ensures { IsMaskOf IsFreeByte bytes.now result }
{
    u8x16::from_array(*bytes)
        .simd_ge(u8x16::splat(DELETED))
        .to_bitmask() as u16
}

// Sixteen neighbouring control bytes; each byte is a lane.
#[derive(Drop)]
pub(crate) struct Group {
    lanes: [u8; 16],
}

impl Group {
    #[inline]
    pub(crate) fn load(bytes: &[u8], at: usize) -> Group
        requires { at + 16 ≤ length bytes.now }
        ensures { (lane : ℕ) → lane < 16 → slice_index result.lanes lane ≡ slice_index bytes.now (at + lane) }
    {
        Group {
            lanes: u8x16::from_slice(&bytes[at..]).to_array(),
        }
    }

    #[inline]
    pub(crate) fn match_tag(&self, tag: u8) -> u16
        ensures { IsMaskOf (λ byte. byte ≡ tag) self.now.lanes result }
    {
        match_tag(&self.lanes, tag)
    }

    #[inline]
    pub(crate) fn match_empty(&self) -> u16
        ensures { IsMaskOf (λ byte. byte ≡ empty_byte) self.now.lanes result }
    {
        match_empty(&self.lanes)
    }

    #[inline]
    pub(crate) fn match_free(&self) -> u16
        ensures { IsMaskOf IsFreeByte self.now.lanes result }
    {
        match_free(&self.lanes)
    }

    #[inline]
    pub(crate) fn match_full(&self) -> u16
        ensures { IsMaskOf IsTag self.now.lanes result }
    {
        u8x16::from_array(self.lanes)
            .simd_lt(u8x16::splat(DELETED))
            .to_bitmask() as u16
    }
}

#[inline]
pub(crate) fn lowest_lane(mask: u16) -> usize
    requires { mask ≢ 0 }
    ensures value { result ≡ lowest mask }
    ensures bound { result < 16 }
    ensures set { HasLane mask result }
    ensures first { (lane : ℕ) → HasLane mask lane → result ≤ lane }
{
    mask.trailing_zeros() as usize
}

#[inline]
pub(crate) fn without_lowest(mask: u16) -> u16
    requires { mask ≢ 0 }
    ensures less { result < mask }
    ensures rest { (lane : ℕ) → HasLane result lane ↔ (HasLane mask lane × (lane ≢ lowest mask)) }
{
    mask & (mask - 1)
}

#[inline]
pub(crate) fn lanes_below(mask: u16) -> u32
    ensures some { mask ≢ 0 → result ≡ 2 ^ count_trailing_zeros 16 mask - 1 }
    ensures none { mask ≡ 0 → result ≡ 2 ^ 32 - 1 }
{
    let mask = mask as u32;
    mask.wrapping_sub(1) & !mask
}
