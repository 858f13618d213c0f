ghost use Rattle.std.specs.Prelude.{◌≡◌, ◌<◌, ◌≤◌, ◌+◌, ◌∷◌, [], ◌++◌, length, take, drop};
ghost use Rattle.lru_replay.specs.Lines.{Lacks};

pub fn index_of(bytes: &[u8], byte: u8) -> usize
    ensures within { result ≤ length bytes.now }
    ensures before { Lacks byte (take result bytes.now) }
    ensures found { result < length bytes.now →
        bytes.now ≡ take result bytes.now ++ byte ∷ drop (result + 1) bytes.now }
    ensures through { result < length bytes.now →
        take (result + 1) bytes.now ≡ take result bytes.now ++ byte ∷ [] }
{
    for (i, b) in bytes.iter().enumerate() {
        if *b == byte {
            return i;
        }
    }
    bytes.len()
}
