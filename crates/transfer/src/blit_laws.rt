// What a blit leaves.
ghost use Rattle.std.specs.Prelude.{◌≡◌, ◌≢◌, ℕ, ◌≤◌, Bool, Option, Some, IfSome, List};
ghost use Rattle.gl_model.specs.declared.objects.ImageInfo.{ImageInfo};
ghost use Rattle.gl_model.specs.declared.state.ScissorBox.{ScissorBox};
ghost use Rattle.gl_model.specs.ImageEffect.{Picture, in_scissor, in_common, after_blit};
ghost use Rattle.vk_types.specs.declared.handles.Kind.{Kind};
ghost use Rattle.vk_types.specs.declared.handles.HandleId.{HandleId};
ghost use Rattle.vk_types.specs.declared.regions.Coords.{Coords};
ghost use Rattle.vk_model.specs.Cells.{Contents};
ghost use Rattle.vk_model.specs.Log.{NoneEmpty};
ghost use Rattle.vk_model.specs.Fitting.{NodeFits};
ghost use Rattle.transfer.specs.Shown.{store_kind, Shows, IsShown, after_node};
ghost use Rattle.transfer.specs.Clears.{IsCommonArea, scissor_of};
ghost use Rattle.transfer.specs.Blits.{corners_of, AreWords, AreCells, blit_of};

/// A blit leaves an image that shows what BlitFramebuffer leaves, at each cell that is defined, and all else is as before.
pub fn blit_is_exact()
    ensures image { (kinds : ℕ → Kind) (q : ℕ) (c : Contents) (src dst : HandleId) (read old : Picture) (coords : Coords) (on : Bool)
        (box : ScissorBox) (attached : List ImageInfo) (area : ℕ × ℕ) →
        IsShown kinds c src.0 read → IsShown kinds c dst.0 old → AreCells read.cells → AreWords coords →
        IsCommonArea old.info attached area →
        Shows (after_node kinds q (blit_of src read.info dst coords (scissor_of on box) area) c dst.0)
        (after_blit old read (corners_of coords) (in_scissor on box) (in_common attached)) }
    ensures others { (kinds : ℕ → Kind) (q : ℕ) (c : Contents) (src dst : HandleId) (read : ImageInfo) (coords : Coords)
        (scissor : Option ScissorBox) (area : ℕ × ℕ) (id i : ℕ) → (dst.0 ≡ id → ⊥) →
        after_node kinds q (blit_of src read dst coords scissor area) c id i ≡ c id i }
{}

/// A blit fits where its area lies in the image and the two images are apart, and touches no empty range.
pub fn blit_fits()
    ensures fits { (kinds : ℕ → Option Kind) (src dst : HandleId) (read written : ImageInfo) (coords : Coords)
        (scissor : Option ScissorBox) (area : ℕ × ℕ) →
        kinds src.0 ≡ Some (store_kind read) → kinds dst.0 ≡ Some (store_kind written) → src.0 ≢ dst.0 →
        area.0 ≤ written.width → area.1 ≤ written.height →
        IfSome (blit_of src read dst coords scissor area) (NodeFits kinds) }
    ensures none_empty { (src dst : HandleId) (read : ImageInfo) (coords : Coords) (scissor : Option ScissorBox) (area : ℕ × ℕ) →
        IfSome (blit_of src read dst coords scissor area) NoneEmpty }
{}
