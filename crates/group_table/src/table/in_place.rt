ghost use Rattle.std.specs.Prelude.{◌≡◌, ℕ, ◌+◌, ◌-◌, ◌^◌, ◌<◌, ◌≤◌, length, replicate, count_by, is_some};
ghost use Rattle.std.specs.Prelude.{slice_index_or};
ghost use Rattle.group_table.specs.Sizes.{IsPowerFromFour, full_capacity};
ghost use Rattle.group_table.specs.Bytes.{empty_byte};
ghost use Rattle.group_table.specs.Bucket.{is_deleted};
ghost use Rattle.group_table.specs.Layout.{slots_of, IsLaidOut, IsValid};
ghost use Rattle.group_table.specs.Moves.{place_at};
ghost use Rattle.group_table.specs.Relocation.{Moves, KeepsHashes, GivesHashes};

use crate::control::{Control, DELETED, EMPTY, tag_of};
use crate::entries::Entries;
use crate::fields::put;
use crate::link::LinkType;
use crate::probe::{first_free, is_read_first};

// Inserts every entry again into cleared control bytes, and writes the new bucket of each entry to `links`.
pub(crate) fn place_again<T, N: LinkType, H: Fn(&T) -> u64>(
    before: &Control,
    control: &mut Control,
    entries: &mut Entries<T>,
    links: &mut Vec<N>,
    hash_of: &H,
)
    requires callable { H.IsAlwaysCallable hash_of.now }
    requires before { IsLaidOut before.now entries.old }
    requires count { IsPowerFromFour (length entries.old) }
    requires fits { length control.old < 2 ^ 63 }
    requires cleared { control.old ≡ replicate (length entries.old + 16) empty_byte }
    requires within { count_by is_some entries.old ≤ full_capacity (length entries.old) }
    requires below { length entries.old < N.number N.MAX }
    requires one_each { length links.old.items ≡ length entries.old }
    requires none_linked { (b : ℕ) → slice_index_or links.old.items b N.MAX ≡ N.MAX }
    ensures valid { IsValid control.new entries.new
        (full_capacity (length entries.old) - count_by is_some entries.old) }
    ensures buckets { length entries.new ≡ length entries.old }
    ensures one_each { length links.new.items ≡ length entries.old }
    ensures none_deleted { count_by is_deleted (slots_of control.new entries.new) ≡ 0 }
    ensures entries { count_by is_some entries.new ≡ count_by is_some entries.old }
    ensures moves { Moves N.number N.MAX (place_at entries.old)
        (slots_of control.new entries.new) links.new.items }
    ensures hashes { (hash_at : ℕ → ℕ) → GivesHashes H.Fn hash_of.now (place_at entries.old) hash_at →
        KeepsHashes N.number N.MAX (place_at entries.old)
        (slots_of control.new entries.new) links.new.items hash_at }
{
    for b in 0..before.buckets() {
        // Bucket b already has its new entry, or had no entry before.
        if control.byte(b) < DELETED || before.byte(b) >= DELETED {
            continue;
        }
        let mut hash = hash_of(entries.get(b));
        if is_read_first(control, hash, b) {
            control.set(b, tag_of(hash));
            links[b] = N::from_usize(b);
            continue;
        }
        let mut old = b;
        let mut next = Some(entries.read(b));
        'turns: while let Some(entry) = next {
            let place = first_free(control, hash);
            // All entries in the places up to b are already inserted.
            let byte = if place <= b {
                EMPTY
            } else {
                before.byte(place)
            };
            next = put(control, entries, place, byte, tag_of(hash), entry);
            links[old] = N::from_usize(place);
            old = place;
            if let Some(waiting) = &next {
                hash = hash_of(waiting);
            }
        }
    }
}
