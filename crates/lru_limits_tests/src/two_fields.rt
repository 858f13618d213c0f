//! A look-up key of two fields. `docs/LIMITERS.md` explains it.
ghost use Rattle.std.specs.Prelude.{◌≡◌, ◌&&◌, nat_eq};
ghost use Rattle.std.specs.Hash as fed;
ghost use Rattle.lru_limits.specs.Keys.{number-lawful, field-lawful, both-lawful};
ghost use Rattle.lru_limits.specs.Texts.{names_text, names_text-lawful};

use lru_limits::LookupKey;

/// A name that belongs to a tenant.
#[derive(Drop, PartialEq, Eq, Hash)]
pub struct Name {
    pub tenant: u64,
    pub text: String,
}

/// A look-up key for a `Name`, without a `String`.
#[derive(Clone, Copy, PartialEq, Eq, Hash)]
pub struct Naming<'a> {
    pub tenant: u64,
    pub text: &'a str,
}

impl LookupKey<Name> for Naming<'_> {
    ghost names = { λ q k. nat_eq q.tenant k.tenant && names_text q.text.now k.text };

    ghost laws = { both-lawful
        (field-lawful (λ q. q.tenant) (λ k. k.tenant) (number-lawful fed.u64))
        (field-lawful (λ q. q.text.now) (λ k. k.text) (names_text-lawful (λ bytes. bytes))) };

    fn is_key(&self, key: &Name) -> bool {
        self.tenant == key.tenant && self.text == key.text.as_str()
    }
}
