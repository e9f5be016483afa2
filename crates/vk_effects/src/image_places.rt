// The bytes of an image by column and row.
ghost use Rattle.std.specs.Prelude.{◌≡◌, ℕ, ◌<◌, ◌≤◌, ◌⊎◌};
ghost use Rattle.vk_types.specs.declared.handles.Kind.{Kind};
ghost use Rattle.vk_types.specs.declared.handles.Kind.TheVariants.{Image};
ghost use Rattle.vk_types.specs.declared.regions.Rect.{Rect};
ghost use Rattle.vk_types.specs.Touches.{the_end};
ghost use Rattle.vk_model.specs.Fitting.{size_of, IsKind, LiesInside};
ghost use Rattle.vk_model.specs.Cells.{place, column_at, row_at, byte_at, width_of, height_of, texel_size};
ghost use Rattle.vk_effects.specs.Places.{IsTexel, IsInside, IsOutside};

/// A place of an image is a column, a row and a byte of a texel. An image that a device may have ends early, and its texels
/// lie before its end.
pub fn places_of_an_image()
    ensures column { (kind : Kind) (x y byte : ℕ) → x < width_of kind → byte < texel_size kind →
        column_at kind (place kind x y byte) ≡ x }
    ensures row { (kind : Kind) (x y byte : ℕ) → x < width_of kind → byte < texel_size kind →
        row_at kind (place kind x y byte) ≡ y }
    ensures byte { (kind : Kind) (x y byte : ℕ) → byte < texel_size kind → byte_at kind (place kind x y byte) ≡ byte }
    ensures place { (kind : Kind) (i : ℕ) → place kind (column_at kind i) (row_at kind i) (byte_at kind i) ≡ i }
    ensures before_its_end { (kind : Kind) (x y byte : ℕ) → IsTexel kind x y → byte < texel_size kind →
        place kind x y byte < size_of kind }
    ensures has_an_end { (format width height : ℕ) → IsKind (Image format width height) →
        size_of (Image format width height) ≤ the_end }
{}

/// Each place of an image is inside a rectangle of the image or outside it.
pub fn places_are_inside_or_outside()
    ensures { (kind : Kind) (rect : Rect) (i : ℕ) → i < the_end → 0 < width_of kind →
        LiesInside rect (width_of kind) (height_of kind) → IsInside kind rect i ⊎ IsOutside kind rect i }
{}
