//! Texts in pieces.
ghost use Rattle.std.specs.Prelude.{◌≡◌, ◌++◌, ◌∷◌};
ghost use Rattle.bn_types.specs.Splitting.{pieces_after, split_by};

/// The text before the first such mark, and the rest, which begins with that mark or is empty.
pub fn split_first(text: &[u8], mark: u8) -> (&[u8], &[u8])
    ensures pieces { split_by mark text.now ≡ result.0.now ∷ pieces_after mark result.1.now }
    ensures whole { text.now ≡ result.0.now ++ result.1.now }
{
    for (i, byte) in text.iter().enumerate() {
        if *byte == mark {
            return text.split_at(i);
        }
    }
    (text, &[])
}
