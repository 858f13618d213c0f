//! A look-up key for byte strings.
ghost use Rattle.lru_c.specs.Bytes.{names_bytes, names_bytes-lawful};

use lru_limits::LookupKey;

/// A look-up key: it names the `Vec` with the same bytes, so a look-up copies nothing.
#[derive(Clone, Copy, PartialEq, Eq, Hash)]
pub struct Named<'a>(pub &'a [u8]);

impl LookupKey<Vec<u8>> for Named<'_> {
    ghost names = { λ q k. names_bytes q.0.now k };

    ghost laws = { names_bytes-lawful (λ q. q.0.now) };

    #[inline]
    fn is_key(&self, key: &Vec<u8>) -> bool {
        self.0 == key.as_slice()
    }
}
