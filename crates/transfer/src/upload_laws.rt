// What an upload leaves.
ghost use Rattle.std.specs.Prelude.{◌≡◌, ℕ, ◌+◌, ◌≤◌, Option, Some, IfSome, unsigned_abs};
ghost use Rattle.cells.specs.Contents.{Content};
ghost use Rattle.formats.specs.Rows.{PixelStorage, needed_length};
ghost use Rattle.gl_model.specs.declared.objects.ImageInfo.{ImageInfo};
ghost use Rattle.gl_model.specs.ImageEffect.{Picture, texel_bytes, after_upload};
ghost use Rattle.vk_types.specs.declared.handles.Kind.{Kind};
ghost use Rattle.vk_types.specs.declared.handles.Kind.TheVariants.{Buffer};
ghost use Rattle.vk_types.specs.declared.handles.HandleId.{HandleId};
ghost use Rattle.vk_types.specs.declared.regions.Rect.{Rect};
ghost use Rattle.vk_types.specs.Touches.{the_end};
ghost use Rattle.vk_model.specs.Cells.{Contents};
ghost use Rattle.vk_model.specs.Log.{NoneEmpty};
ghost use Rattle.vk_model.specs.Fitting.{LiesInside, NodeFits};
ghost use Rattle.transfer.specs.Shown.{store_kind, Shows, ShowsRange, IsShown, after_node};
ghost use Rattle.transfer.specs.Uploads.{upload_of};

/// Where a buffer shows the bytes that the rows need, an upload leaves an image that shows what TexSubImage2D leaves, at
/// each cell that is defined, and all else is as before.
pub fn upload_is_exact()
    ensures image { (kinds : ℕ → Kind) (q : ℕ) (c : Contents) (src image : HandleId) (at : ℕ) (store : PixelStorage) (old : Picture)
        (rect : Rect) (source : Content) (base : ℕ) →
        IsShown kinds c image.0 old → LiesInside rect old.info.width old.info.height →
        at + needed_length store (texel_bytes old.info) rect.w rect.h ≤ the_end →
        ShowsRange (c src.0) at source base (needed_length store (texel_bytes old.info) rect.w rect.h) →
        Shows (after_node kinds q (upload_of src at store old.info image rect) c image.0)
        (after_upload old (unsigned_abs rect.x) (unsigned_abs rect.y) rect.w rect.h store source base) }
    ensures others { (kinds : ℕ → Kind) (q : ℕ) (c : Contents) (src image : HandleId) (at : ℕ) (store : PixelStorage)
        (info : ImageInfo) (rect : Rect) (id i : ℕ) → (image.0 ≡ id → ⊥) →
        after_node kinds q (upload_of src at store info image rect) c id i ≡ c id i }
{}

/// An upload fits where its rows lie in a buffer and its rectangle in the image, and touches no empty range.
pub fn upload_fits()
    ensures fits { (kinds : ℕ → Option Kind) (src image : HandleId) (at len : ℕ) (store : PixelStorage) (info : ImageInfo) (rect : Rect) →
        kinds src.0 ≡ Some (Buffer len) → kinds image.0 ≡ Some (store_kind info) → LiesInside rect info.width info.height →
        at + needed_length store (texel_bytes info) rect.w rect.h ≤ len →
        IfSome (upload_of src at store info image rect) (NodeFits kinds) }
    ensures none_empty { (src image : HandleId) (at : ℕ) (store : PixelStorage) (info : ImageInfo) (rect : Rect) →
        at + needed_length store (texel_bytes info) rect.w rect.h ≤ the_end →
        IfSome (upload_of src at store info image rect) NoneEmpty }
{}
