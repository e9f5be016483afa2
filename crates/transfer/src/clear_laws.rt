// What a clear leaves.
ghost use Rattle.std.specs.Prelude.{◌≡◌, ℕ, ◌≤◌, Bool, Option, Some, IfSome, List};
ghost use Rattle.cells.specs.Contents.{undefined_cells};
ghost use Rattle.gl_model.specs.declared.objects.ImageInfo.{ImageInfo};
ghost use Rattle.gl_model.specs.declared.state.ScissorBox.{ScissorBox};
ghost use Rattle.gl_model.specs.ImageEffect.{Picture, in_scissor, in_common, clear_texel, after_clear};
ghost use Rattle.vk_types.specs.declared.handles.Kind.{Kind};
ghost use Rattle.vk_types.specs.declared.handles.HandleId.{HandleId};
ghost use Rattle.vk_model.specs.Cells.{Contents};
ghost use Rattle.vk_model.specs.Log.{NoneEmpty};
ghost use Rattle.vk_model.specs.Fitting.{NodeFits};
ghost use Rattle.transfer.specs.Shown.{store_kind, Shows, IsShown, after_node};
ghost use Rattle.transfer.specs.Clears.{IsCommonArea, scissor_of, clear_of};

/// A clear leaves an image that shows what ClearBuffer leaves, at each cell that is defined, and all else is as before.
pub fn clear_is_exact()
    ensures image { (kinds : ℕ → Kind) (q : ℕ) (c : Contents) (image : HandleId) (old : Picture) (signed : Bool) (value : List ℕ)
        (on : Bool) (box : ScissorBox) (attached : List ImageInfo) (area : ℕ × ℕ) →
        IsShown kinds c image.0 old → IsCommonArea old.info attached area →
        Shows (after_node kinds q (clear_of image old.info signed value (scissor_of on box) area) c image.0)
        (after_clear old (in_scissor on box) (in_common attached) (clear_texel old.info signed value)) }
    ensures others { (kinds : ℕ → Kind) (q : ℕ) (c : Contents) (image : HandleId) (info : ImageInfo) (signed : Bool) (value : List ℕ)
        (scissor : Option ScissorBox) (area : ℕ × ℕ) (id i : ℕ) → (image.0 ≡ id → ⊥) →
        after_node kinds q (clear_of image info signed value scissor area) c id i ≡ c id i }
{}

/// A clear fits where its area lies in the image, and touches no empty range.
pub fn clear_fits()
    ensures fits { (kinds : ℕ → Option Kind) (image : HandleId) (info : ImageInfo) (signed : Bool) (value : List ℕ)
        (scissor : Option ScissorBox) (area : ℕ × ℕ) →
        kinds image.0 ≡ Some (store_kind info) → area.0 ≤ info.width → area.1 ≤ info.height →
        IfSome (clear_of image info signed value scissor area) (NodeFits kinds) }
    ensures none_empty { (image : HandleId) (info : ImageInfo) (signed : Bool) (value : List ℕ) (scissor : Option ScissorBox)
        (area : ℕ × ℕ) → IfSome (clear_of image info signed value scissor area) NoneEmpty }
{}

/// What is not defined is shown by all places. So where a call leaves an image undefined, no node has to write it.
pub fn undefined_is_shown()
    ensures { (seen : ℕ → ℕ) (n : ℕ) → Shows seen (undefined_cells n) }
{}
