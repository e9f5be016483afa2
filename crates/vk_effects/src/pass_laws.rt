// What an attachment of a pass leaves.
ghost use Rattle.std.specs.Prelude.{◌≡◌, ℕ, ◌<◌, ◌≤◌, ◌⊎◌, Bool, true, false, List, ◌∷◌, ◌++◌, All, slice_index};
ghost use Rattle.vk_types.specs.declared.handles.Kind.{Kind};
ghost use Rattle.vk_types.specs.declared.handles.HandleId.{HandleId};
ghost use Rattle.vk_types.specs.declared.regions.Clear.{Clear};
ghost use Rattle.vk_types.specs.declared.ops.Load.{Load};
ghost use Rattle.vk_types.specs.declared.ops.Load.TheVariants.{DontCare};
ghost use Rattle.vk_types.specs.declared.ops.Op.TheVariants.{PassPart};
ghost use Rattle.vk_types.specs.Touches.{the_end};
ghost use Rattle.vk_model.specs.Fitting.{size_of};
ghost use Rattle.vk_model.specs.Cells.{Contents, place, byte_at};
ghost use Rattle.vk_model.specs.Log.{Command};
ghost use Rattle.vk_model.specs.Meaning.{apply, LiesIn};
ghost use Rattle.cells.specs.Contents.{UNDEFINED};
ghost use Rattle.vk_effects.specs.Places.{IsOutside};

/// What is kept of an attachment is the last clear over a place, and what the load leaves where there is no clear. What is
/// not kept is not defined.
pub fn pass_loads_and_clears_in_order()
    ensures last_clear { (kinds : ℕ → Kind) (q pass point : ℕ) (image : HandleId) (load' : Load) (before after : List Clear)
        (clear : Clear) (c : Contents) (x y byte left top : ℕ) → LiesIn (kinds image.0) clear.rect x y byte left top →
        All (λ later. IsOutside (kinds image.0) later.rect (place (kinds image.0) x y byte)) after →
        apply kinds (Command q (record { op = PassPart pass point image load' true (before ++ clear ∷ after) })) c image.0
        (place (kinds image.0) x y byte)
        ≡ slice_index clear.texel byte }
    ensures loaded { (kinds : ℕ → Kind) (q pass point : ℕ) (image : HandleId) (clears : List Clear) (c : Contents) (i : ℕ) →
        All (λ clear. IsOutside (kinds image.0) clear.rect i) clears →
        apply kinds (Command q (record { op = PassPart pass point image Load.Load true clears })) c image.0 i ≡ c image.0 i }
    ensures cleared_by_the_load { (kinds : ℕ → Kind) (q pass point : ℕ) (image : HandleId) (texel : List ℕ) (clears : List Clear)
        (c : Contents) (i : ℕ) → All (λ clear. IsOutside (kinds image.0) clear.rect i) clears →
        i < size_of (kinds image.0) → i < the_end →
        apply kinds (Command q (record { op = PassPart pass point image (Load.Clear texel) true clears })) c image.0 i
        ≡ slice_index texel (byte_at (kinds image.0) i) }
    ensures not_loaded { (kinds : ℕ → Kind) (q pass point : ℕ) (image : HandleId) (clears : List Clear) (c : Contents) (i : ℕ) →
        All (λ clear. IsOutside (kinds image.0) clear.rect i) clears → i < the_end →
        apply kinds (Command q (record { op = PassPart pass point image DontCare true clears })) c image.0 i ≡ UNDEFINED }
    ensures not_kept { (kinds : ℕ → Kind) (q pass point : ℕ) (image : HandleId) (load' : Load) (clears : List Clear) (c : Contents)
        (i : ℕ) → i < the_end →
        apply kinds (Command q (record { op = PassPart pass point image load' false clears })) c image.0 i ≡ UNDEFINED }
    ensures past_the_image { (kinds : ℕ → Kind) (q pass point : ℕ) (image : HandleId) (texel : List ℕ) (clears : List Clear)
        (c : Contents) (i : ℕ) → All (λ clear. IsOutside (kinds image.0) clear.rect i) clears → size_of (kinds image.0) ≤ i →
        apply kinds (Command q (record { op = PassPart pass point image (Load.Clear texel) true clears })) c image.0 i ≡ c image.0 i }
{}
