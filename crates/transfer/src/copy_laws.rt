// What a copy between images leaves.
ghost use Rattle.std.specs.Prelude.{◌≡◌, ◌≢◌, ℕ, ℤ, true, Option, Some, IfSome, unsigned_abs};
ghost use Rattle.formats.specs.Pairs.{same_format};
ghost use Rattle.gl_model.specs.declared.objects.ImageInfo.{ImageInfo};
ghost use Rattle.gl_model.specs.ImageEffect.{Picture, after_copy};
ghost use Rattle.vk_types.specs.declared.handles.Kind.{Kind};
ghost use Rattle.vk_types.specs.declared.handles.HandleId.{HandleId};
ghost use Rattle.vk_types.specs.declared.regions.Rect.{Rect};
ghost use Rattle.vk_model.specs.Cells.{Contents};
ghost use Rattle.vk_model.specs.Log.{NoneEmpty};
ghost use Rattle.vk_model.specs.Fitting.{LiesInside, NodeFits};
ghost use Rattle.transfer.specs.Shown.{store_kind, Shows, IsShown, after_node};
ghost use Rattle.transfer.specs.Copies.{copy_of};

/// A copy leaves an image that shows what CopyTexSubImage2D leaves, at each cell that is defined, and all else is as before.
pub fn copy_is_exact()
    ensures image { (kinds : ℕ → Kind) (q : ℕ) (c : Contents) (src dst : HandleId) (read old : Picture) (x y : ℤ) (rect : Rect) →
        IsShown kinds c src.0 read → IsShown kinds c dst.0 old → LiesInside rect old.info.width old.info.height →
        same_format read.info.format old.info.format ≡ true →
        Shows (after_node kinds q (copy_of src read.info x y dst rect) c dst.0)
        (after_copy old read (unsigned_abs rect.x) (unsigned_abs rect.y) x y rect.w rect.h) }
    ensures others { (kinds : ℕ → Kind) (q : ℕ) (c : Contents) (src dst : HandleId) (read : ImageInfo) (x y : ℤ) (rect : Rect)
        (id i : ℕ) → (dst.0 ≡ id → ⊥) → after_node kinds q (copy_of src read x y dst rect) c id i ≡ c id i }
{}

/// A copy fits where its rectangle lies in the image and the two images are apart and of one format, and touches no empty range.
pub fn copy_fits()
    ensures fits { (kinds : ℕ → Option Kind) (src dst : HandleId) (read written : ImageInfo) (x y : ℤ) (rect : Rect) →
        kinds src.0 ≡ Some (store_kind read) → kinds dst.0 ≡ Some (store_kind written) → src.0 ≢ dst.0 →
        LiesInside rect written.width written.height → same_format read.format written.format ≡ true →
        IfSome (copy_of src read x y dst rect) (NodeFits kinds) }
    ensures none_empty { (src dst : HandleId) (read : ImageInfo) (x y : ℤ) (rect : Rect) →
        IfSome (copy_of src read x y dst rect) NoneEmpty }
{}
