//! The order of a table with a pending promotion. The bucket `promoted`, if any, counts as the newest, but may still be
//! elsewhere in the links.
ghost use Rattle.std.specs.Prelude.{◌≡◌, ◌<◌, ℕ, length, Some, None, IfSome};
ghost use Rattle.group_table.specs.Bucket.{IsFull};
ghost use Rattle.lru_model.specs.Lists.{first as first_bucket, last as last_bucket};
ghost use Rattle.ordered_table.specs.OrderedTable.{IsLinked, in_front, bucket_after, bucket_before};

use crate::linked::LinkedTable;
use group_table::LinkType;

#[inline]
pub(crate) fn newest<K, V, N: LinkType>(
    table: &LinkedTable<K, V, N>,
    promoted: Option<usize>,
) -> usize
    requires { 0 < length (in_front promoted table.now.order) }
    ensures { first_bucket (in_front promoted table.now.order) ≡ Some result }
{
    match promoted {
        Some(b) => b,
        None => table.newest(),
    }
}

#[inline]
pub(crate) fn oldest<K, V, N: LinkType>(
    table: &LinkedTable<K, V, N>,
    promoted: Option<usize>,
) -> usize
    requires linked { IsLinked table.now }
    requires promoted { IfSome promoted (IsFull table.now.slots) }
    requires some { 0 < length table.now.order }
    ensures { last_bucket (in_front promoted table.now.order) ≡ Some result }
{
    let b = table.oldest();
    match promoted {
        // In the links, the promoted bucket is the last, so the bucket before it, if any, is the oldest.
        Some(p) if p == b => {
            if table.newest() == p {
                p
            } else {
                table.newer_unless_first(p)
            }
        }
        _ => b,
    }
}

#[inline]
pub(crate) fn older_unless_last<K, V, N: LinkType>(
    table: &LinkedTable<K, V, N>,
    promoted: Option<usize>,
    b: usize,
) -> usize
    requires linked { IsLinked table.now }
    requires promoted { IfSome promoted (IsFull table.now.slots) }
    requires full { IsFull table.now.slots b }
    ensures { (c : ℕ) → bucket_after b (in_front promoted table.now.order) ≡ Some c → result ≡ c }
{
    match promoted {
        None => table.older_unless_last(b),
        Some(p) => {
            let next = if b == p {
                table.newest()
            } else {
                table.older_unless_last(b)
            };
            if next == p {
                table.older_unless_last(p)
            } else {
                next
            }
        }
    }
}

#[inline]
pub(crate) fn newer_unless_first<K, V, N: LinkType>(
    table: &LinkedTable<K, V, N>,
    promoted: Option<usize>,
    b: usize,
) -> usize
    requires linked { IsLinked table.now }
    requires promoted { IfSome promoted (IsFull table.now.slots) }
    requires full { IsFull table.now.slots b }
    ensures { (c : ℕ) → bucket_before b (in_front promoted table.now.order) ≡ Some c → result ≡ c }
{
    match promoted {
        None => table.newer_unless_first(b),
        Some(p) => {
            if table.newest() == b {
                return p;
            }
            let next = table.newer_unless_first(b);
            if next == p && table.newest() != p {
                table.newer_unless_first(p)
            } else {
                next
            }
        }
    }
}

#[inline(always)]
pub(crate) fn settle<K, V, N: LinkType>(
    table: &mut LinkedTable<K, V, N>,
    promoted: &mut Option<usize>,
)
    requires linked { IsLinked table.old }
    requires promoted { IfSome promoted.old (IsFull table.old.slots) }
    ensures slots { table.new.slots ≡ table.old.slots }
    ensures order { table.new.order ≡ in_front promoted.old table.old.order }
    ensures insertions { table.new.insertions ≡ table.old.insertions }
    ensures linked { IsLinked table.new }
    ensures none { promoted.new ≡ None }
{
    if let Some(b) = *promoted {
        *promoted = None;
        table.promote(b);
    }
}
