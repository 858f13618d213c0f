//! Callers that search for an entry once, and then write, promote or remove it.
ghost use Rattle.std.specs.Prelude.{◌≡◌, ◌<◌, Some, None, IfSome, true, false, is_some};
ghost use Rattle.lru_limits.specs.Texts.{names_text};
ghost use Rattle.lru_model.specs.Lists.{lookup, lookup_entry, without};
ghost use Rattle.lru_model.specs.Calls.{promoted, demoted, written};

use schnellru::LruMap;

fn refresh(map: &mut LruMap<String, u64>, text: &str, value: u64) -> bool
    ensures there { result ≡ is_some (lookup (names_text text.now) map.old.pairs) }
    ensures map { map.new ≡ promoted (names_text text.now) (written (names_text text.now) value map.old) }
{
    match map.find_entry(&text) {
        Some(mut entry) => {
            *entry.get_mut() = value;
            entry.promote();
            true
        }
        None => false,
    }
}

fn take_below(map: &mut LruMap<String, u64>, text: &str, least: u64) -> Option<(String, u64)>
    ensures below { IfSome result (λ pair. pair.1 < least) }
    ensures taken { IfSome result (λ pair. lookup_entry (names_text text.now) map.old.pairs ≡ Some pair) }
    ensures left { IfSome result (λ _. map.new.pairs ≡ without (names_text text.now) map.old.pairs) }
    ensures stays { result ≡ None → map.new ≡ promoted (names_text text.now) map.old }
{
    let mut entry = map.find_entry(&text)?;
    if *entry.get() < least {
        return Some(entry.remove_entry());
    }
    entry.promote();
    None
}

fn put_last(map: &mut LruMap<String, u64>, text: &str, value: u64) -> bool
    ensures there { result ≡ is_some (lookup (names_text text.now) map.old.pairs) }
    ensures map { map.new ≡ written (names_text text.now) value (demoted (names_text text.now) map.old) }
{
    match map.find_entry(&text) {
        Some(mut entry) => {
            entry.demote();
            let place = entry.into_mut();
            *place = value;
            true
        }
        None => false,
    }
}
