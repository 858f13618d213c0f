ghost use Rattle.ordered_table.specs.OrderedTable.{pairs_of};

use crate::ordered::OrderedTable;
use group_table::LinkType;

/// Two tables are equal if they have equal entries in the same order, in any buckets.
///
/// Cost: `O(n)` for n entries, and `O(1)` if the lengths differ.
impl<K: PartialEq, V: PartialEq, N: LinkType> PartialEq for OrderedTable<K, V, N> {
    ghost use Rattle.std.specs.Prelude.{◌&&◌};
    ghost use Rattle.std.specs.Cmp.{and_per, on_per};
    ghost use Rattle.std.specs.Cmp.Lexicographic.{pointwise, lists_per};

    ghost eq = { λ a b. pointwise (λ p q. K.eq p.0 q.0 && V.eq p.1 q.1) (pairs_of a) (pairs_of b) };

    ghost laws = { on_per (λ t. pairs_of t)
        (lists_per (and_per (on_per (λ p. p.0) K.laws) (on_per (λ p. p.1) V.laws))) };

    fn eq(&self, other: &Self) -> bool {
        let mut theirs = other.iter();
        let mut ours = self.iter();
        if ours.len() != theirs.len() {
            return false;
        }
        'entries: while let Some((key, value)) = ours.next() {
            match theirs.next() {
                Some((other_key, other_value)) => {
                    if *key != *other_key || *value != *other_value {
                        return false;
                    }
                }
                None => return false,
            }
        }
        true
    }
}
