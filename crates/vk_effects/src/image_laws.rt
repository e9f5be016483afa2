// What operations that write a rectangle of an image leave.
ghost use Rattle.std.specs.Prelude.{◌≡◌, ℕ, ℤ, ◌≤◌, ◌⊎◌, List};
ghost use Rattle.vk_types.specs.declared.handles.Kind.{Kind};
ghost use Rattle.vk_types.specs.declared.handles.HandleId.{HandleId};
ghost use Rattle.vk_types.specs.declared.regions.Rect.{Rect};
ghost use Rattle.vk_types.specs.declared.regions.Coords.{Coords};
ghost use Rattle.vk_types.specs.declared.ops.Op.TheVariants.{ClearImage, CopyImage, BlitImage, BufferToImage};
ghost use Rattle.vk_model.specs.Texels.{converted_texel};
ghost use Rattle.vk_model.specs.Fitting.{size_of};
ghost use Rattle.vk_model.specs.Cells.{Contents, place, ahead, column_at, row_at, height_of, converted, texel_size, format_of};
ghost use Rattle.vk_model.specs.Log.{Command};
ghost use Rattle.vk_model.specs.Meaning.{apply, LiesIn};
ghost use Rattle.cells.specs.Contents.{UNDEFINED};
ghost use Rattle.vk_effects.specs.Places.{IsOutside};
ghost use Rattle.vk_effects.specs.Reads.{ReadsTexel, ReadsNone, IsBelow};

/// Clears, copies between images, rows from a buffer and blits change an image inside their rectangle alone.
pub fn images_change_in_their_rectangle()
    ensures clear { (kinds : ℕ → Kind) (q : ℕ) (image : HandleId) (rect : Rect) (texel : List ℕ) (c : Contents) (id i : ℕ) →
        (image.0 ≡ id → ⊥) ⊎ IsOutside (kinds image.0) rect i →
        apply kinds (Command q (record { op = ClearImage image rect texel })) c id i ≡ c id i }
    ensures copy { (kinds : ℕ → Kind) (q : ℕ) (src : HandleId) (src_x src_y : ℤ) (dst : HandleId) (rect : Rect) (c : Contents)
        (id i : ℕ) → (dst.0 ≡ id → ⊥) ⊎ IsOutside (kinds dst.0) rect i →
        apply kinds (Command q (record { op = CopyImage src src_x src_y dst rect })) c id i ≡ c id i }
    ensures rows { (kinds : ℕ → Kind) (q : ℕ) (src : HandleId) (src_at stride size : ℕ) (dst : HandleId) (rect : Rect) (c : Contents)
        (id i : ℕ) → (dst.0 ≡ id → ⊥) ⊎ IsOutside (kinds dst.0) rect i →
        apply kinds (Command q (record { op = BufferToImage src src_at stride size dst rect })) c id i ≡ c id i }
    ensures blit { (kinds : ℕ → Kind) (q : ℕ) (src dst : HandleId) (coords : Coords) (clip : Rect) (c : Contents) (id i : ℕ) →
        (dst.0 ≡ id → ⊥) ⊎ IsOutside (kinds dst.0) clip i →
        apply kinds (Command q (record { op = BlitImage src dst coords clip })) c id i ≡ c id i }
{}

/// A copy between images finds nothing below its source, where nothing is defined past the end of that image.
pub fn copy_finds_nothing_below()
    ensures { (kinds : ℕ → Kind) (q : ℕ) (src : HandleId) (src_x src_y : ℤ) (dst : HandleId) (rect : Rect) (c : Contents)
        (x y byte left top : ℕ) → LiesIn (kinds dst.0) rect x y byte left top →
        IsBelow (kinds src.0) (c src.0) (ahead src_y top) →
        apply kinds (Command q (record { op = CopyImage src src_x src_y dst rect })) c dst.0 (place (kinds dst.0) x y byte)
        ≡ UNDEFINED }
{}

/// A place in the clip of a blit gets a byte of the texel that its column and its row read, as one of the format of the
/// image that is written. Where they read none it is as before.
pub fn blit_reads_the_nearest_texel()
    ensures nearest { (kinds : ℕ → Kind) (q : ℕ) (src dst : HandleId) (coords : Coords) (clip : Rect) (c : Contents)
        (x y byte left top source_x source_y : ℕ) → LiesIn (kinds dst.0) clip x y byte left top →
        ReadsTexel (kinds src.0) coords x y source_x source_y →
        apply kinds (Command q (record { op = BlitImage src dst coords clip })) c dst.0 (place (kinds dst.0) x y byte)
        ≡ converted (converted_texel (format_of (kinds src.0)) (format_of (kinds dst.0)))
        (λ b. c src.0 (place (kinds src.0) source_x source_y b)) (texel_size (kinds src.0)) byte }
    ensures none { (kinds : ℕ → Kind) (q : ℕ) (src dst : HandleId) (coords : Coords) (clip : Rect) (c : Contents) (i : ℕ) →
        ReadsNone (kinds src.0) coords (column_at (kinds dst.0) i) (row_at (kinds dst.0) i) →
        apply kinds (Command q (record { op = BlitImage src dst coords clip })) c dst.0 i ≡ c dst.0 i }
{}
