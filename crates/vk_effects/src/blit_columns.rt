// The columns that blits read. Rows are read likewise.
ghost use Rattle.std.specs.Prelude.{◌≡◌, ℕ, ℤ, pos, ◌+◌, ◌-◌, ◌<◌, ◌≤◌, ◌⊎◌, min, max, Some, None};
ghost use Rattle.vk_model.specs.Cells.{source_of};
ghost use Rattle.vk_effects.specs.Reads.{IsScaled, upright_column, turned_column};

/// The source column of a destination column, where no coordinate is below 0: a column past the source is not read, none is
/// read for a column beside the destination, and none from a source without width.
pub fn blit_scales_columns()
    ensures upright { (size s0 s1 d0 d1 x : ℕ) → IsScaled s0 s1 d0 d1 x → upright_column s0 s1 d0 d1 x < size →
        source_of size (pos s0) (pos s1) (pos d0) (pos d1) x ≡ Some (upright_column s0 s1 d0 d1 x) }
    ensures turned { (size s0 s1 d0 d1 x : ℕ) → IsScaled s0 s1 d0 d1 x → turned_column s0 s1 d0 d1 x < size →
        source_of size (pos s0) (pos s1) (pos d1) (pos d0) x ≡ Some (turned_column s0 s1 d0 d1 x) }
    ensures past_the_source { (size s0 s1 d0 d1 x : ℕ) → IsScaled s0 s1 d0 d1 x → size ≤ upright_column s0 s1 d0 d1 x →
        source_of size (pos s0) (pos s1) (pos d0) (pos d1) x ≡ None }
    ensures turned_past_the_source { (size s0 s1 d0 d1 x : ℕ) → IsScaled s0 s1 d0 d1 x → size ≤ turned_column s0 s1 d0 d1 x →
        source_of size (pos s0) (pos s1) (pos d1) (pos d0) x ≡ None }
    ensures beside { (size : ℕ) (s0 s1 : ℤ) (d0 d1 x : ℕ) → (x < min d0 d1) ⊎ (max d0 d1 ≤ x) →
        source_of size s0 s1 (pos d0) (pos d1) x ≡ None }
    ensures no_width { (size : ℕ) (s d0 d1 : ℤ) (x : ℕ) → source_of size s s d0 d1 x ≡ None }
{}

/// Where source and destination have one size, column k of the source goes to column k of the destination, or turned round
/// to the k-th from its end.
pub fn blit_of_one_size_moves_columns()
    ensures upright { (s d n k : ℕ) → k < n → upright_column s (s + n) d (d + n) (d + k) ≡ s + k }
    ensures turned { (s d n k : ℕ) → k < n → turned_column s (s + n) d (d + n) (d + k) ≡ s + (n - 1 - k) }
{}
