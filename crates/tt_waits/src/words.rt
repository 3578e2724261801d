//! Words of bits.
ghost use Rattle.std.specs.Prelude.{◌≡◌, ◌<◌, ◌≤◌, ◌+◌, ℕ, length, slice_index, ◌⊎◌};
ghost use Rattle.std.specs.Int.Bits.{bit_or};

/// Puts the bits of `width` words from `other` on into those from `into` on.
pub(crate) fn join_words(words: &mut [u64], into: usize, other: usize, width: usize)
    requires into { into + width ≤ length words.old }
    requires other { other + width ≤ length words.old }
    requires apart { (other ≡ into) ⊎ ((other + width ≤ into) ⊎ (into + width ≤ other)) }
    ensures length { length words.new ≡ length words.old }
    ensures joined { (w : ℕ) → w < width → slice_index words.new (into + w)
        ≡ bit_or (slice_index words.old (into + w)) (slice_index words.old (other + w)) }
    ensures others { (x : ℕ) → (x < into) ⊎ (into + width ≤ x) → slice_index words.new x ≡ slice_index words.old x }
{
    for word in 0..width {
        words[into + word] |= words[other + word];
    }
}
