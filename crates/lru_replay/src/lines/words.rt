//! What lines mean: the first line is the limit of the map, and each other line is a call.
ghost use Rattle.std.specs.Prelude.{◌≡◌, ℕ, List, IfSome, IfNone, true, false};
ghost use Rattle.lru_replay.specs.Grammar.{SpellsNumber, SpellsPair, StartsAsNumber, IsSplit, said_of, call_words};
ghost use Rattle.lru_replay.specs.Grammar.{SpellsCall, limit_words, FitsLimit, SpellsLimit};

use crate::calls::Call;
use crate::lines::bytes::index_of;

/// The lines of a replay, as the program's help lists them.
pub const LINES: &str = "\
The first line is the limit of the map:
    length N      at most N entries
    memory N E    a table of at most N bytes, with E bytes for an entry
    cost N        values whose sum is at most N
    compact       none

Each other line is a call:
    insert K V   put K V   update K V   get K   peek K   contains K   promote K   demote K
    remove K   remove-entry K   pop-oldest   pop-newest   reserve N   shrink   clear   drain N
    list   stats
";

#[derive(Clone, Copy)]
pub enum Numbers {
    Zero,
    One(u64),
    Two(u64, u64),
}

#[derive(Clone, Copy)]
pub enum Limit {
    /// `length N`: at most N pairs.
    Length(u32),
    /// `memory N E`: a table of at most N bytes, if an entry counts as E bytes.
    Memory(usize, usize),
    /// `cost N`: the sum of the values is at most N.
    Cost(u64),
    /// `compact`: no limit.
    Compact,
}

pub fn call_of<L>(line: &[u8]) -> Option<Call<u64, u64, L>>
    ensures some { IfSome result (λ call. SpellsCall line.now call) }
    ensures none { IfNone result ((call : Call ℕ ℕ L) → SpellsCall line.now call → ⊥) }
{
    let (word, given) = split(line)?;
    call_with(word, given)
}

pub fn limit_of(line: &[u8]) -> Option<Limit>
    ensures some { IfSome result (λ limit. SpellsLimit line.now limit) }
    ensures none { IfNone result ((limit : Limit) → SpellsLimit line.now limit → ⊥) }
{
    let (word, given) = split(line)?;
    limit_with(word, given)
}

fn split(line: &[u8]) -> Option<(&[u8], Numbers)>
    ensures some { IfSome result (λ parts. IsSplit line.now parts.0.now parts.1) }
    ensures none { IfNone result ((word : List ℕ) (given : Numbers) → IsSplit line.now word given → ⊥) }
{
    let at = index_of(line, b' ');
    let word = &line[..at];
    if at == line.len() {
        return Some((word, Numbers::Zero));
    }
    let rest = &line[at + 1..];
    if let Some((key, value)) = number_pair(rest) {
        return Some((word, Numbers::Two(key, value)));
    }
    let n = number(rest)?;
    Some((word, Numbers::One(n)))
}

fn number_pair(words: &[u8]) -> Option<(u64, u64)>
    ensures some { IfSome result (λ pair. SpellsPair words.now pair.0 pair.1) }
    ensures none { IfNone result ((k v : ℕ) → SpellsPair words.now k v → ⊥) }
{
    let at = index_of(words, b' ');
    if at == words.len() {
        return None;
    }
    let first = number(&words[..at])?;
    let second = number(&words[at + 1..])?;
    Some((first, second))
}

fn number(word: &[u8]) -> Option<u64>
    ensures some { IfSome result (λ n. SpellsNumber word.now n) }
    ensures none { IfNone result ((n : ℕ) → SpellsNumber word.now n → ⊥) }
{
    if !starts_as_number(word) {
        return None;
    }
    let text = str::from_utf8(word).ok()?;
    text.parse().ok()
}

/// Returns false if the word is empty, begins with a plus, or has a leading zero, such as `07`. `parse` rejects all
/// other words that are no numbers.
fn starts_as_number(word: &[u8]) -> bool
    ensures yes { result ≡ true → StartsAsNumber word.now }
    ensures no { result ≡ false → StartsAsNumber word.now → ⊥ }
{
    if word.is_empty() || word[0] == b'+' {
        return false;
    }
    word[0] != b'0' || word.len() == 1
}

fn call_with<L>(word: &[u8], given: Numbers) -> Option<Call<u64, u64, L>>
    ensures { result ≡ said_of call_words word.now given }
{
    match given {
        Numbers::Zero if word == b"list".as_slice() => Some(Call::List),
        Numbers::Zero if word == b"pop-oldest".as_slice() => Some(Call::PopOldest),
        Numbers::Zero if word == b"pop-newest".as_slice() => Some(Call::PopNewest),
        Numbers::Zero if word == b"clear".as_slice() => Some(Call::Clear),
        Numbers::Zero if word == b"stats".as_slice() => Some(Call::Stats),
        Numbers::Zero if word == b"shrink".as_slice() => Some(Call::Shrink),
        Numbers::Zero => None,
        Numbers::One(n) if word == b"get".as_slice() => Some(Call::Get(n)),
        Numbers::One(n) if word == b"peek".as_slice() => Some(Call::Peek(n)),
        Numbers::One(n) if word == b"contains".as_slice() => Some(Call::Contains(n)),
        Numbers::One(n) if word == b"promote".as_slice() => Some(Call::Promote(n)),
        Numbers::One(n) if word == b"demote".as_slice() => Some(Call::Demote(n)),
        Numbers::One(n) if word == b"remove".as_slice() => Some(Call::Remove(n)),
        Numbers::One(n) if word == b"remove-entry".as_slice() => Some(Call::RemoveEntry(n)),
        Numbers::One(n) if word == b"reserve".as_slice() => Some(Call::Reserve(n as usize)),
        Numbers::One(n) if word == b"drain".as_slice() => Some(Call::Drain {
            front: n as usize,
            back: 0,
        }),
        Numbers::One(_) => None,
        Numbers::Two(k, v) if word == b"insert".as_slice() => Some(Call::Insert(k, v)),
        Numbers::Two(k, v) if word == b"put".as_slice() => Some(Call::InsertWith(k, v)),
        Numbers::Two(k, v) if word == b"update".as_slice() => Some(Call::Update(k, v)),
        Numbers::Two(_, _) => None,
    }
}

fn limit_with(word: &[u8], given: Numbers) -> Option<Limit>
    ensures some { IfSome result (λ limit. FitsLimit limit × (said_of limit_words word.now given ≡ Some limit)) }
    ensures none { IfNone result ((limit : Limit) → FitsLimit limit →
        said_of limit_words word.now given ≡ Some limit → ⊥) }
{
    match given {
        Numbers::Zero if word == b"compact".as_slice() => Some(Limit::Compact),
        Numbers::Zero => None,
        Numbers::One(n) if word == b"length".as_slice() => {
            let most = u32::try_from(n).ok()?;
            Some(Limit::Length(most))
        }
        Numbers::One(n) if word == b"cost".as_slice() => Some(Limit::Cost(n)),
        Numbers::One(_) => None,
        Numbers::Two(n, e) if word == b"memory".as_slice() => Some(Limit::Memory(
            n as usize, e as usize,
        )),
        Numbers::Two(_, _) => None,
    }
}
