//! Texts that become a `String` only when they are stored, and a limiter that counts them. `docs/LIMITERS.md` explains
//! both.
ghost use Rattle.std.specs.Prelude.{◌≡◌, ◌+◌, ⊤, min};
ghost use Rattle.lru_limits.specs.Limiters.{no_rules};
ghost use Rattle.lru_limits.specs.Stores.{replaces};
ghost use Rattle.lru_limits.specs.Texts.{names_text, names_text-lawful, GivesText, given-names_text, same_text};

use lru_limits::{Insertion, Limiter, LookupKey};
use std::alloc::{AllocError, Global};

/// A text that names the `String` with the same bytes.
#[derive(Clone, Copy, PartialEq, Eq, Hash)]
pub struct InsertKey<'a>(pub &'a str);

impl LookupKey<String> for InsertKey<'_> {
    ghost names = { λ q k. names_text q.0.now k };

    ghost laws = { names_text-lawful (λ q. q.0.now) };

    fn is_key(&self, key: &String) -> bool {
        self.0 == key.as_str()
    }
}

/// A limiter that limits nothing, accepts texts, and counts them.
#[derive(Clone, Copy, Default)]
pub struct Counting {
    pub inserts: u32,
    pub replacements: u32,
}

impl Limiter<String, u32> for Counting {
    type LinkType = u32;

    ghost rules = { no_rules };

    fn is_over_the_limit(&self, _length: usize) -> bool {
        false
    }

    fn on_removed(&mut self, _key: &mut String, _value: &mut u32) {}

    fn on_cleared(&mut self) {}

    fn on_grow(&mut self, _new_memory_usage: usize) -> bool {
        true
    }
}

impl<'a> Insertion<String, u32, InsertKey<'a>> for Counting {
    ghost offers = { record {
      on_insert = λ s length i v t given. (t ≡ record s { inserts = min (s.inserts + 1) 4294967295 })
          × GivesText i.0.now v given;
      may_run_out = λ s length i v. ⊤;
      on_replace = λ s length k i v w. replaces (record s { replacements = min (s.replacements + 1) 4294967295 }) k v w;
    } };

    fn on_insert(
        &mut self,
        alloc: Global,
        _length: usize,
        key: InsertKey<'a>,
        value: u32,
    ) -> Result<Option<(String, u32)>, AllocError> {
        let text = String::from_str(alloc, key.0)?;
        self.inserts = self.inserts.saturating_add(1);
        Ok(Some((text, value)))
    }

    fn on_replace(
        &mut self,
        _length: usize,
        _old_key: &mut String,
        _new_key: InsertKey<'a>,
        _old_value: &mut u32,
        _new_value: &mut u32,
    ) -> bool {
        self.replacements = self.replacements.saturating_add(1);
        true
    }

    ghost laws = { record {
      names_given = λ s length i v t k w given. given-names_text i.0.now v k w given.1;
      keeps_key = λ s length k i v w named. same_text k;
    } };
}
