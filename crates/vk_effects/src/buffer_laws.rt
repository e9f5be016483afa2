// What operations that write a buffer leave.
ghost use Rattle.std.specs.Prelude.{◌≡◌, ℕ, ◌+◌, ◌*◌, ◌<◌, ◌≤◌, ◌⊎◌, Bool, true, false};
ghost use Rattle.vk_types.specs.declared.handles.Kind.{Kind};
ghost use Rattle.vk_types.specs.declared.handles.HandleId.{HandleId};
ghost use Rattle.vk_types.specs.declared.regions.Rect.{Rect};
ghost use Rattle.vk_types.specs.declared.ops.Op.TheVariants.{FillBuffer, BufferToImage, ImageToBuffer};
ghost use Rattle.vk_types.specs.Touches.{the_end, rows_size, buffer_texel};
ghost use Rattle.vk_model.specs.Texels.{expanded_texel};
ghost use Rattle.vk_model.specs.Cells.{Contents, place, ahead, converted, texel_size, format_of};
ghost use Rattle.vk_model.specs.Log.{Command};
ghost use Rattle.vk_model.specs.Meaning.{apply, LiesIn};
ghost use Rattle.vk_effects.specs.Rows.{row_place, IsInNoRow, IsByteOf, IsOfARow, ComesUp, ComesDown};

/// A fill writes its byte to its range, and to no other place.
pub fn fill_is_exact()
    ensures inside { (kinds : ℕ → Kind) (q : ℕ) (dst : HandleId) (dst_at size byte : ℕ) (c : Contents) →
        dst_at + size ≤ the_end → (i : ℕ) → i < size →
        apply kinds (Command q (record { op = FillBuffer dst dst_at size byte })) c dst.0 (dst_at + i) ≡ byte }
    ensures outside { (kinds : ℕ → Kind) (q : ℕ) (dst : HandleId) (dst_at size byte : ℕ) (c : Contents) →
        (id i : ℕ) → (dst.0 ≡ id → ⊥) ⊎ ((i < dst_at) ⊎ (dst_at + size ≤ i)) →
        apply kinds (Command q (record { op = FillBuffer dst dst_at size byte })) c id i ≡ c id i }
{}

/// A byte of a texel of a rectangle lies in the range of its rows, and comes up from there.
pub fn rows_come_up_exactly()
    ensures in_the_range { (rect : Rect) (at stride size left top byte : ℕ) → IsByteOf rect size left top byte →
        row_place at stride size left top byte < at + rows_size rect stride size }
    ensures up { (kinds : ℕ → Kind) (q : ℕ) (src : HandleId) (src_at stride size : ℕ) (dst : HandleId) (rect : Rect) (c : Contents)
        (x y byte left top : ℕ) → LiesIn (kinds dst.0) rect x y byte left top → ComesUp rect src_at stride size byte →
        apply kinds (Command q (record { op = BufferToImage src src_at stride size dst rect })) c dst.0 (place (kinds dst.0) x y byte)
        ≡ c src.0 (row_place src_at stride size left top byte) }
{}

/// The rows of a rectangle of an image as rows of a buffer, a later row over an earlier one. Without `expand` a byte of the
/// buffer is a byte of the image; with it a byte of the texel's four words. Bytes between the rows stay.
pub fn rows_come_down_exactly()
    ensures plain { (kinds : ℕ → Kind) (q : ℕ) (src : HandleId) (rect : Rect) (dst : HandleId) (dst_at stride size : ℕ) (c : Contents)
        (left top byte : ℕ) → ComesDown (kinds src.0) rect dst_at stride size left top byte → size ≡ texel_size (kinds src.0) →
        apply kinds (Command q (record { op = ImageToBuffer src rect dst dst_at stride size false })) c dst.0
        (row_place dst_at stride size left top byte)
        ≡ c src.0 (place (kinds src.0) (ahead rect.x left) (ahead rect.y top) byte) }
    ensures expanded { (kinds : ℕ → Kind) (q : ℕ) (src : HandleId) (rect : Rect) (dst : HandleId) (dst_at stride size : ℕ) (c : Contents)
        (left top byte : ℕ) → ComesDown (kinds src.0) rect dst_at stride 16 left top byte →
        apply kinds (Command q (record { op = ImageToBuffer src rect dst dst_at stride size true })) c dst.0
        (row_place dst_at stride 16 left top byte)
        ≡ converted (expanded_texel (format_of (kinds src.0)))
        (λ b. c src.0 (place (kinds src.0) (ahead rect.x left) (ahead rect.y top) b)) (texel_size (kinds src.0)) byte }
    ensures outside { (kinds : ℕ → Kind) (q : ℕ) (src : HandleId) (rect : Rect) (dst : HandleId) (dst_at stride size : ℕ)
        (expand : Bool) (c : Contents) (id i : ℕ) →
        (dst.0 ≡ id → ⊥) ⊎ IsInNoRow dst_at rect.h stride (rect.w * buffer_texel size expand) i →
        apply kinds (Command q (record { op = ImageToBuffer src rect dst dst_at stride size expand })) c id i ≡ c id i }
    ensures of_a_row_or_none { (rect : Rect) (at stride size i : ℕ) → at ≤ i → 0 < size →
        IsOfARow rect at stride size i ⊎ IsInNoRow at rect.h stride (rect.w * size) i }
{}
