//! Control bytes: one for each bucket, and 16 more, so that one read gets 16 bytes from any bucket on.
ghost use Rattle.std.specs.Prelude.{◌≡◌, ℕ, ◌+◌, ◌-◌, ◌%◌, ◌^◌, ◌<◌, ◌≤◌, [], length, max, replicate, slice_index};
ghost use Rattle.std.specs.Prelude.{slice_set, Bool, if◌then◌else◌, nat_eq, nat_lt, ◌⊎◌, IfOk};
ghost use Rattle.group_table.specs.Sizes.{IsPowerFromFour};
ghost use Rattle.group_table.specs.Probe.{hash_tag};
ghost use Rattle.group_table.specs.Bytes.{empty_byte, deleted_byte, IsTag};
ghost use Rattle.group_table.specs.Control.{buckets_of, IsCircle};

use crate::group::Group;
use std::alloc::{AllocError, Global};
use std::marker::Model;

pub(crate) const EMPTY: u8 = 0xff;

pub(crate) const DELETED: u8 = 0x80;

#[derive(Drop)]
pub(crate) struct Control {
    bytes: Vec<u8>,
    last: usize,
}

impl Model for Control {
    ghost use Rattle.std.specs.Prelude.{ℕ, List};
    ghost use Rattle.group_table.specs.Control.{IsControl};

    ghost Value = { List ℕ };

    ghost view = { λ c. c.bytes.items };

    ghost invariant = { λ c. IsControl c.bytes.items c.last };
}

impl Control {
    pub(crate) fn new(alloc: Global) -> Control
        ensures { result ≡ [] }
    {
        Control {
            bytes: Vec::new(alloc),
            last: 0,
        }
    }

    pub(crate) fn with_buckets(alloc: Global, buckets: usize) -> Result<Control, AllocError>
        requires count { IsPowerFromFour buckets }
        requires addressable { buckets + 16 < 2 ^ 63 }
        ensures { IfOk result (λ c. c ≡ replicate (buckets + 16) empty_byte) }
    {
        let bytes = vec![in alloc; EMPTY; buckets + 16]?;
        Ok(Control {
            bytes,
            last: buckets - 1,
        })
    }

    pub(crate) fn copied(&self, alloc: Global) -> Result<Control, AllocError>
        ensures { IfOk result (λ c. c ≡ self.now) }
    {
        let bytes = Vec::from_slice(alloc, self.bytes.as_slice())?;
        Ok(Control {
            bytes,
            last: self.last,
        })
    }

    #[inline]
    pub(crate) fn is_empty(&self) -> bool
        ensures { result ≡ nat_eq (buckets_of self.now) 0 }
    {
        self.last == 0
    }

    // In a table with buckets, a search seldom begins at bucket 0, so the first test usually decides. The search needs
    // `hash & last` anyway. The sum in the second test keeps the compiler from joining the tests.
    #[inline]
    pub(crate) fn is_empty_at(&self, hash: u64) -> bool
        ensures { result ≡ nat_eq (buckets_of self.now) 0 }
    {
        hash as usize & self.last == 0 && self.bytes.len() + self.last == 0
    }

    #[inline]
    pub(crate) fn buckets(&self) -> usize
        ensures { result ≡ buckets_of self.now }
    {
        if self.is_empty() { 0 } else { self.last + 1 }
    }

    #[inline]
    pub(crate) fn has_bucket(&self, b: usize) -> bool
        requires { 0 < buckets_of self.now }
        ensures { result ≡ nat_lt b (buckets_of self.now) }
    {
        b <= self.last
    }

    #[inline]
    pub(crate) fn wrap(&self, place: usize) -> usize
        requires { 0 < buckets_of self.now }
        ensures value { result ≡ place % buckets_of self.now }
        ensures bound { result < buckets_of self.now }
        ensures circle { IsCircle self.now }
    {
        wrap(place, self.last)
    }

    #[inline]
    pub(crate) fn sixteen_before(&self, b: usize) -> usize
        requires { 0 < buckets_of self.now }
        ensures value { result ≡ (b + (buckets_of self.now - 16)) % buckets_of self.now }
        ensures bound { result < buckets_of self.now }
    {
        sixteen_before(b, self.last)
    }

    #[inline]
    pub(crate) fn byte(&self, b: usize) -> u8
        requires { b < buckets_of self.now }
        ensures { result ≡ slice_index self.now b }
    {
        self.bytes[b]
    }

    #[inline]
    pub(crate) fn group(&self, start: usize) -> Group
        requires { start < buckets_of self.now }
        ensures bytes { (lane : ℕ) → lane < 16 → slice_index result.lanes lane ≡ slice_index self.now (start + lane) }
        ensures circle { IsCircle self.now }
    {
        Group::load(self.bytes.as_slice(), start)
    }

    #[inline]
    pub(crate) fn set(&mut self, b: usize, byte: u8)
        requires { b < buckets_of self.old }
        ensures { self.new ≡ slice_set (slice_set self.old b byte) (b + max 16 (buckets_of self.old)) byte }
    {
        set_both(self.bytes.as_mut_slice(), self.last, b, byte);
    }

    pub(crate) fn clear(&mut self)
        ensures { self.new ≡ replicate (length self.old) empty_byte }
    {
        self.bytes.fill(EMPTY);
    }
}

#[inline]
pub(crate) fn tag_of(hash: u64) -> u8
    ensures value { result ≡ hash_tag hash }
    ensures tag { IsTag result }
{
    (hash >> 57) as u8
}

#[inline]
pub(crate) fn emptied_byte(gives_room: usize) -> u8
    ensures { (gives : Bool) → gives_room ≡ (if gives then 2 ^ 64 - 1 else 0) →
        result ≡ (if gives then empty_byte else deleted_byte) }
{
    (gives_room & 0x7f) as u8 | DELETED
}

#[inline]
pub(crate) fn room_taken(byte: u8) -> usize
    requires { (byte ≡ deleted_byte) ⊎ (byte ≡ empty_byte) }
    ensures { result ≡ (if nat_eq byte empty_byte then 1 else 0) }
{
    byte as usize & 1
}

#[inline]
fn set_both(bytes: &mut [u8], last: usize, b: usize, byte: u8)
    requires circle { IsCircle bytes.old }
    requires last { last + 1 ≡ buckets_of bytes.old }
    requires within { b < buckets_of bytes.old }
    ensures { bytes.new ≡ slice_set (slice_set bytes.old b byte) (b + max 16 (buckets_of bytes.old)) byte }
{
    bytes[b] = byte;
    // If b is one of the first 16 buckets, writes the repetition of its byte. Otherwise, this line writes the same byte
    // again, which avoids a branch.
    bytes[sixteen_before(b, last) + 16] = byte;
}

#[inline]
fn wrap(place: usize, last: usize) -> usize
    requires { IsPowerFromFour (last + 1) }
    ensures value { result ≡ place % (last + 1) }
    ensures bound { result ≤ last }
{
    place & last
}

#[inline]
fn sixteen_before(b: usize, last: usize) -> usize
    requires power { IsPowerFromFour (last + 1) }
    requires fits { last < 2 ^ 63 }
    ensures value { result ≡ (b + (last + 1 - 16)) % (last + 1) }
    ensures bound { result ≤ last }
{
    wrap(b.wrapping_sub(16), last)
}
