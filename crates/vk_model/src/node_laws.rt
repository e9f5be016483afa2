// What the operations leave at each place.
ghost use Rattle.std.specs.Prelude.{◌≡◌, ℕ, ℤ, ◌<◌, ◌≤◌, ◌+◌, ◌*◌, min, ◌⊎◌, List, slice_index};
ghost use Rattle.vk_types.specs.declared.handles.Kind.{Kind};
ghost use Rattle.vk_types.specs.declared.regions.Rect.{Rect};
ghost use Rattle.vk_types.specs.declared.handles.HandleId.{HandleId};
ghost use Rattle.vk_types.specs.declared.ops.Op.TheVariants.{CopyBuffer, ClearImage, CopyImage, BufferToImage};
ghost use Rattle.vk_types.specs.Touches.{the_end, rows_size};
ghost use Rattle.vk_model.specs.Cells.{Contents, place, ahead};
ghost use Rattle.vk_model.specs.Log.{Command};
ghost use Rattle.vk_model.specs.Meaning.{apply, LiesIn};

/// What a copy between buffers leaves at each place.
pub fn copy_is_exact()
    ensures inside { (kinds : ℕ → Kind) (q : ℕ) (src : HandleId) (src_at : ℕ) (dst : HandleId) (dst_at size : ℕ) (c : Contents) →
        src_at + size ≤ the_end → dst_at + size ≤ the_end → (i : ℕ) → i < size →
        apply kinds (Command q (record { op = CopyBuffer src src_at dst dst_at size })) c dst.0 (dst_at + i) ≡ c src.0 (src_at + i) }
    ensures outside { (kinds : ℕ → Kind) (q : ℕ) (src : HandleId) (src_at : ℕ) (dst : HandleId) (dst_at size : ℕ) (c : Contents) →
        src_at + size ≤ the_end → dst_at + size ≤ the_end →
        (id i : ℕ) → (dst.0 ≡ id → ⊥) ⊎ ((i < dst_at) ⊎ (dst_at + size ≤ i)) →
        apply kinds (Command q (record { op = CopyBuffer src src_at dst dst_at size })) c id i ≡ c id i }
{}

/// What operations that write a rectangle of an image leave at each byte of a texel in it.
pub fn image_writes_are_exact()
    ensures clear { (kinds : ℕ → Kind) (q : ℕ) (image : HandleId) (rect : Rect) (c : Contents) (x y byte left top : ℕ) →
        LiesIn (kinds image.0) rect x y byte left top → (texel : List ℕ) →
        apply kinds (Command q (record { op = ClearImage image rect texel })) c image.0 (place (kinds image.0) x y byte) ≡ slice_index texel byte }
    ensures copy { (kinds : ℕ → Kind) (q : ℕ) (dst : HandleId) (rect : Rect) (c : Contents) (x y byte left top : ℕ) →
        LiesIn (kinds dst.0) rect x y byte left top → (src : HandleId) (src_x src_y : ℤ) →
        place (kinds src.0) (ahead src_x left) (ahead src_y top) byte < the_end →
        apply kinds (Command q (record { op = CopyImage src src_x src_y dst rect })) c dst.0 (place (kinds dst.0) x y byte)
        ≡ c src.0 (place (kinds src.0) (ahead src_x left) (ahead src_y top) byte) }
    ensures rows { (kinds : ℕ → Kind) (q : ℕ) (dst : HandleId) (rect : Rect) (c : Contents) (x y byte left top : ℕ) →
        LiesIn (kinds dst.0) rect x y byte left top → (src : HandleId) (src_at stride size : ℕ) →
        src_at + top * stride + left * size + byte < min (src_at + rows_size rect stride size) the_end →
        apply kinds (Command q (record { op = BufferToImage src src_at stride size dst rect })) c dst.0 (place (kinds dst.0) x y byte)
        ≡ c src.0 (src_at + top * stride + left * size + byte) }
{}
