//! `Chain`: a table whose entries have links to their neighbours. A promotion or demotion writes at most four entries.
ghost use Rattle.std.specs.Prelude.{◌≡◌, ◌≢◌, ◌⊎◌, ◌<◌, ◌≤◌, ℕ, [], ◌∷◌, ◌++◌, List, Some, Contains, map, length};
ghost use Rattle.std.specs.Prelude.{IsTrue, MatchBool};
ghost use Rattle.group_table.specs.Bucket.{Slot, IsFull};
ghost use Rattle.group_table.specs.Relocation.{Renumbers, moved_to};
ghost use Rattle.ordered_table.specs.OrderedTable.{without_bucket};
ghost use Rattle.ordered_table.specs.declared.linked.Entry.{Entry};
ghost use Rattle.ordered_table.specs.Chain.{KeepsOrder, InChain, OutOfChain, HasGap, IsWhole, Moved, MovesLinks};
ghost use Rattle.ordered_table.specs.Chain.{HasPlace, moved_link, SetsNewer, SetsOlder, SetsLinks, SetsEnd};
ghost use Rattle.ordered_table.specs.Chain.{newer_at, older_at, pair_slots};

use crate::linked::Entry;
use group_table::{LinkType, Table};

// A table with links to its newest and its oldest entry. Both links are `MAX` if there are no entries.
#[derive(Drop)]
pub(crate) struct Chain<K, V, N> {
    pub(crate) table: Table<Entry<K, V, N>>,
    pub(crate) newest: N,
    pub(crate) oldest: N,
}

impl<K, V, N: LinkType> Chain<K, V, N> {
    #[inline]
    pub(crate) fn unlink(&mut self, b: usize)
        requires { InChain N.number N.link N.MAX self.old b }
        ensures pairs { pair_slots self.new.table.slots ≡ pair_slots self.old.table.slots }
        ensures insertions { self.new.table.insertions ≡ self.old.table.insertions }
        ensures chain { (order : List ℕ) → KeepsOrder N.number N.link N.MAX self.old order → Contains order b →
            KeepsOrder N.number N.link N.MAX self.new (without_bucket b order) }
    {
        let entry = self.table.get(b);
        let (newer, older) = (entry.newer, entry.older);
        self.close_gap(newer, older, false);
    }

    #[inline]
    pub(crate) fn close_gap(&mut self, newer: N, older: N, last: bool)
        requires gap { (order : List ℕ) × (b : ℕ) × HasGap N.number N.link N.MAX self.old order b newer older }
        requires last { IsTrue last → older ≡ N.MAX }
        ensures pairs { pair_slots self.new.table.slots ≡ pair_slots self.old.table.slots }
        ensures insertions { self.new.table.insertions ≡ self.old.table.insertions }
        ensures chain { (order : List ℕ) (b : ℕ) → HasGap N.number N.link N.MAX self.old order b newer older →
            KeepsOrder N.number N.link N.MAX self.new (without_bucket b order) }
    {
        if last {
            self.set_older(newer, N::MAX);
            self.oldest = newer;
        } else {
            self.set_older(newer, older);
            self.set_newer(older, newer);
        }
    }

    // Returns whether the link leads to a bucket. Compares it with the number of buckets, not with `MAX`, to save an
    // instruction.
    #[inline]
    pub(crate) fn leads(&self, link: N) -> bool
        requires some { 0 < length self.now.table.slots }
        requires reached { length self.now.table.slots < N.number N.MAX }
        requires there { link ≡ N.MAX ⊎ IsFull self.now.table.slots (N.number link) }
        ensures { MatchBool result (link ≢ N.MAX) (link ≡ N.MAX) }
    {
        self.table.has_bucket(link.into_usize())
    }

    #[inline]
    pub(crate) fn link_newest(&mut self, b: usize)
        requires full { IsFull self.old.table.slots b }
        requires some { self.old.newest ≢ N.MAX }
        requires chained { OutOfChain N.number N.link N.MAX self.old b }
        ensures pairs { pair_slots self.new.table.slots ≡ pair_slots self.old.table.slots }
        ensures insertions { self.new.table.insertions ≡ self.old.table.insertions }
        ensures chain { (order : List ℕ) → KeepsOrder N.number N.link N.MAX self.old order → (Contains order b → ⊥) →
            KeepsOrder N.number N.link N.MAX self.new (b ∷ order) }
    {
        let first = self.newest;
        let link = N::from_usize(b);
        set_links(&mut self.table, b, N::MAX, first);
        write_newer(&mut self.table, first, link);
        self.newest = link;
    }

    pub(crate) fn link_oldest(&mut self, b: usize)
        requires full { IsFull self.old.table.slots b }
        requires some { self.old.oldest ≢ N.MAX }
        requires chained { OutOfChain N.number N.link N.MAX self.old b }
        ensures pairs { pair_slots self.new.table.slots ≡ pair_slots self.old.table.slots }
        ensures insertions { self.new.table.insertions ≡ self.old.table.insertions }
        ensures chain { (order : List ℕ) → KeepsOrder N.number N.link N.MAX self.old order → (Contains order b → ⊥) →
            KeepsOrder N.number N.link N.MAX self.new (order ++ b ∷ []) }
    {
        let last = self.oldest;
        let link = N::from_usize(b);
        set_links(&mut self.table, b, last, N::MAX);
        write_older(&mut self.table, last, link);
        self.oldest = link;
    }

    // Puts a bucket in front of this chain. The entry in the bucket already has its links: `newer` is `MAX`, and
    // `older` is `first`.
    #[inline]
    pub(crate) fn link_placed(&mut self, b: usize, first: N)
        requires first { first ≡ self.old.newest }
        requires full { IsFull self.old.table.slots b }
        requires newer { newer_at self.old.table.slots b ≡ Some N.MAX }
        requires older { older_at self.old.table.slots b ≡ Some first }
        requires chained { OutOfChain N.number N.link N.MAX self.old b }
        ensures pairs { pair_slots self.new.table.slots ≡ pair_slots self.old.table.slots }
        ensures insertions { self.new.table.insertions ≡ self.old.table.insertions }
        ensures chain { (order : List ℕ) → KeepsOrder N.number N.link N.MAX self.old order → (Contains order b → ⊥) →
            KeepsOrder N.number N.link N.MAX self.new (b ∷ order) }
    {
        let link = N::from_usize(b);
        self.set_newer(first, link);
        self.newest = link;
    }

    #[inline]
    fn set_newer(&mut self, at: N, to: N)
        requires some { 0 < length self.old.table.slots }
        requires reached { length self.old.table.slots < N.number N.MAX }
        requires there { at ≡ N.MAX ⊎ IsFull self.old.table.slots (N.number at) }
        ensures slots { SetsNewer N.number self.old.table.slots self.new.table.slots at to }
        ensures newest { self.new.newest ≡ self.old.newest }
        ensures oldest { SetsEnd N.MAX self.old.oldest self.new.oldest at to }
        ensures insertions { self.new.table.insertions ≡ self.old.table.insertions }
    {
        if self.leads(at) {
            write_newer(&mut self.table, at, to);
        } else {
            self.oldest = to;
        }
    }

    #[inline]
    fn set_older(&mut self, at: N, to: N)
        requires some { 0 < length self.old.table.slots }
        requires reached { length self.old.table.slots < N.number N.MAX }
        requires there { at ≡ N.MAX ⊎ IsFull self.old.table.slots (N.number at) }
        ensures slots { SetsOlder N.number self.old.table.slots self.new.table.slots at to }
        ensures newest { SetsEnd N.MAX self.old.newest self.new.newest at to }
        ensures oldest { self.new.oldest ≡ self.old.oldest }
        ensures insertions { self.new.table.insertions ≡ self.old.table.insertions }
    {
        if self.leads(at) {
            write_older(&mut self.table, at, to);
        } else {
            self.newest = to;
        }
    }

    // Rewrites the links of the moved entries, and the two ends. For each old bucket that was full, `links` contains
    // the new bucket.
    pub(crate) fn rewrite(&mut self, links: &[N])
        requires reached { length self.old.table.slots < N.number N.MAX }
        requires moved { Moved N.number N.link N.MAX self.old links.now }
        ensures pairs { pair_slots self.new.table.slots ≡ pair_slots self.old.table.slots }
        ensures insertions { self.new.table.insertions ≡ self.old.table.insertions }
        ensures chain { (before : List (Slot (Entry K V N))) (order : List ℕ) →
            IsWhole N.number N.link N.MAX before self.old.newest self.old.oldest order
            → Renumbers N.number N.MAX before self.old.table.slots links.now →
            KeepsOrder N.number N.link N.MAX self.new (map (moved_to N.number N.MAX links.now) order) }
    {
        for old in 0..links.len() {
            let moved = links[old];
            if !is_max(moved) {
                move_links(&mut self.table, moved.into_usize(), links);
            }
        }
        self.newest = moved_link(links, self.newest);
        self.oldest = moved_link(links, self.oldest);
    }
}

#[inline]
fn write_newer<K, V, N: LinkType>(table: &mut Table<Entry<K, V, N>>, at: N, to: N)
    requires { IsFull table.old.slots (N.number at) }
    ensures slots { SetsNewer N.number table.old.slots table.new.slots at to }
    ensures insertions { table.new.insertions ≡ table.old.insertions }
{
    table.get_mut(at.into_usize()).newer = to;
}

#[inline]
fn write_older<K, V, N: LinkType>(table: &mut Table<Entry<K, V, N>>, at: N, to: N)
    requires { IsFull table.old.slots (N.number at) }
    ensures slots { SetsOlder N.number table.old.slots table.new.slots at to }
    ensures insertions { table.new.insertions ≡ table.old.insertions }
{
    table.get_mut(at.into_usize()).older = to;
}

#[inline]
fn set_links<K, V, N: LinkType>(table: &mut Table<Entry<K, V, N>>, b: usize, newer: N, older: N)
    requires { IsFull table.old.slots b }
    ensures links { SetsLinks table.old.slots table.new.slots b newer older }
    ensures insertions { table.new.insertions ≡ table.old.insertions }
{
    let entry = table.get_mut(b);
    entry.newer = newer;
    entry.older = older;
}

#[inline]
fn move_links<K, V, N: LinkType>(table: &mut Table<Entry<K, V, N>>, b: usize, links: &[N])
    requires full { IsFull table.old.slots b }
    requires fewer { length links.now ≤ N.number N.MAX }
    requires newer { (l : N) → newer_at table.old.slots b ≡ Some l → HasPlace N.number N.MAX links.now l }
    requires older { (l : N) → older_at table.old.slots b ≡ Some l → HasPlace N.number N.MAX links.now l }
    ensures links { MovesLinks N.number N.MAX links.now table.old.slots table.new.slots b }
    ensures insertions { table.new.insertions ≡ table.old.insertions }
{
    let entry = table.get_mut(b);
    entry.newer = moved_link(links, entry.newer);
    entry.older = moved_link(links, entry.older);
}

#[inline]
fn moved_link<N: LinkType>(links: &[N], link: N) -> N
    requires place { HasPlace N.number N.MAX links.now link }
    requires fewer { length links.now ≤ N.number N.MAX }
    ensures { result ≡ moved_link N.number N.MAX links.now link }
{
    if is_max(link) {
        link
    } else {
        links[link.into_usize()]
    }
}

#[inline]
fn is_max<N: LinkType>(link: N) -> bool
    ensures { MatchBool result (link ≡ N.MAX) (link ≢ N.MAX) }
{
    link.into_usize() == N::MAX.into_usize()
}
