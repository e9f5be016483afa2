// Texels as texels of another format, and as words.
ghost use Rattle.std.specs.Prelude.{◌≡◌, ℕ, ◌+◌, ◌*◌, ◌<◌, ◌≤◌, List, slice_index, length};
ghost use Rattle.cells.specs.Contents.{UNDEFINED, cells};
ghost use Rattle.formats.specs.Texel.{component_bits};
ghost use Rattle.formats.specs.Components.{expanded, low_bytes};
ghost use Rattle.vk_model.specs.Texels.{format_at, expanded_texel};
ghost use Rattle.vk_model.specs.Cells.{converted};

/// Where each cell of a texel is defined, what is made of it has the bytes that the conversion gives. One cell that is not
/// defined leaves none defined.
pub fn texels_are_converted_whole()
    ensures defined { (f : List ℕ → List ℕ) (texel : ℕ → ℕ) (size byte : ℕ) → ((b : ℕ) → b < size → texel b < UNDEFINED) →
        converted f texel size byte ≡ slice_index (f (cells size texel)) byte }
    ensures undefined { (f : List ℕ → List ℕ) (texel : ℕ → ℕ) (size byte b : ℕ) → b < size → UNDEFINED ≤ texel b →
        converted f texel size byte ≡ UNDEFINED }
{}

/// An expanded texel is four words of four bytes each, the lowest byte first: the components that the texel stands for. A
/// component that the format lacks is 0, and 1 if it is the fourth.
pub fn expanded_texel_is_four_words()
    ensures words { (format : ℕ) (texel : List ℕ) → length (expanded (format_at format) texel) ≡ 4 }
    ensures bytes { (format : ℕ) (texel : List ℕ) (word byte : ℕ) → word < 4 → byte < 4 →
        slice_index (expanded_texel format texel) (word * 4 + byte)
        ≡ slice_index (low_bytes 4 (slice_index (expanded (format_at format) texel) word)) byte }
    ensures green { (format : ℕ) (texel : List ℕ) → length (component_bits (format_at format)) < 2 →
        slice_index (expanded (format_at format) texel) 1 ≡ 0 }
    ensures blue { (format : ℕ) (texel : List ℕ) → length (component_bits (format_at format)) < 3 →
        slice_index (expanded (format_at format) texel) 2 ≡ 0 }
    ensures alpha { (format : ℕ) (texel : List ℕ) → length (component_bits (format_at format)) < 4 →
        slice_index (expanded (format_at format) texel) 3 ≡ 1 }
{}
