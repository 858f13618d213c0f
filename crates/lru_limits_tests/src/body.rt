//! A value whose type says how many bytes it owns: an example of docs/LIMITERS.md.
ghost use Rattle.lru_limits.specs.Bytes.{both_own};

use lru_limits::OwnedBytes;

#[derive(Drop)]
pub struct Body {
    pub name: String,
    pub bytes: Vec<u8>,
}

impl OwnedBytes for Body {
    ghost owned = { λ body. both_own ⟦<String as OwnedBytes>⟧.owned ⟦<Vec<u8> as OwnedBytes>⟧.owned body.name body.bytes };

    fn owned_bytes(&self) -> u64 {
        self.name
            .owned_bytes()
            .saturating_add(self.bytes.owned_bytes())
    }
}
