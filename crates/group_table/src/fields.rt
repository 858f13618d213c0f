//! Writes the control bytes and the entries of a table together.
ghost use Rattle.std.specs.Prelude.{◌≡◌, ℕ, ◌<◌, ◌≤◌, length, replicate, slice_set, slice_index, slice_index_or};
ghost use Rattle.std.specs.Prelude.{None, Some, IsSome, IfOk};
ghost use Rattle.group_table.specs.Control.{buckets_of};
ghost use Rattle.group_table.specs.Layout.{Agrees, IsLaidOut, written};

use crate::control::{Control, DELETED};
use crate::entries::Entries;
use crate::link::LinkType;
use std::alloc::{AllocError, Global};

pub(crate) fn no_links<N: LinkType>(alloc: Global, count: usize) -> Result<Vec<N>, AllocError>
    ensures { IfOk result (λ v. v.items ≡ replicate count N.MAX) }
{
    let mut links = Vec::with_capacity(alloc, count)?;
    for _ in 0..count {
        links.push_reserved(N::MAX);
    }
    Ok(links)
}

// Drops the entries in the first `count` places. The other places hold no entry.
pub(crate) fn drop_first<T: Drop>(control: &Control, entries: &mut Entries<T>, count: usize)
    requires buckets { length entries.old ≤ buckets_of control.now }
    requires within { count ≤ length entries.old }
    requires agrees { (b : ℕ) → b < count → Agrees (slice_index control.now b) (slice_index_or entries.old b None) }
    requires others { (b : ℕ) → count ≤ b → slice_index_or entries.old b None ≡ None }
    ensures { entries.new ≡ replicate (length entries.old) None }
{
    for b in 0..count {
        if control.byte(b) < DELETED {
            drop(entries.read(b));
        }
    }
}

pub(crate) fn drop_entries<T: Drop>(control: &Control, entries: &mut Entries<T>, len: usize)
    requires laid_out { IsLaidOut control.now entries.old }
    requires none_left { len ≡ 0 → entries.old ≡ replicate (length entries.old) None }
    ensures { entries.new ≡ replicate (length entries.old) None }
{
    if len > 0 {
        drop_first(control, entries, control.buckets());
    }
}

#[inline]
pub(crate) fn fill_bucket<T>(
    control: &mut Control,
    entries: &mut Entries<T>,
    b: usize,
    tag: u8,
    entry: T,
)
    requires laid_out { IsLaidOut control.old entries.old }
    requires bucket { b < length entries.old }
    requires free_there { slice_index_or entries.old b None ≡ None }
    ensures control { control.new ≡ written control.old entries.old b tag }
    ensures entries { entries.new ≡ slice_set entries.old b (Some entry) }
{
    control.set(b, tag);
    entries.write(b, entry);
}

// Writes the tag and the entry of a bucket. `byte` is the old control byte. If it is a tag, returns the old entry.
#[inline]
pub(crate) fn put<T>(
    control: &mut Control,
    entries: &mut Entries<T>,
    b: usize,
    byte: u8,
    tag: u8,
    entry: T,
) -> Option<T>
    requires one_each { buckets_of control.old ≡ length entries.old }
    requires bucket { b < length entries.old }
    requires agrees { Agrees byte (slice_index_or entries.old b None) }
    ensures control { control.new ≡ written control.old entries.old b tag }
    ensures entries { entries.new ≡ slice_set entries.old b (Some entry) }
    ensures stood { result ≡ slice_index_or entries.old b None }
{
    control.set(b, tag);
    if byte < DELETED {
        let stood = entries.read(b);
        entries.write(b, entry);
        Some(stood)
    } else {
        entries.write(b, entry);
        None
    }
}

#[inline]
pub(crate) fn empty_bucket<T>(
    control: &mut Control,
    entries: &mut Entries<T>,
    b: usize,
    byte: u8,
) -> T
    requires laid_out { IsLaidOut control.old entries.old }
    requires bucket { b < length entries.old }
    requires full { IsSome (slice_index_or entries.old b None) }
    ensures control { control.new ≡ written control.old entries.old b byte }
    ensures entries { entries.new ≡ slice_set entries.old b None }
    ensures entry { slice_index_or entries.old b None ≡ Some result }
{
    control.set(b, byte);
    entries.read(b)
}
