// What reads give.
ghost use Rattle.std.specs.Prelude.{◌≡◌, ℕ, ◌+◌, ◌*◌, ◌≤◌, List, length, Option, Some, None, IfSome};
ghost use Rattle.cells.specs.Contents.{Content, cells, Agrees};
ghost use Rattle.formats.specs.declared.pixel.PixelFormat.{PixelFormat};
ghost use Rattle.formats.specs.declared.pixel.PixelType.{PixelType};
ghost use Rattle.formats.specs.Rows.{PixelStorage, needed_length};
ghost use Rattle.gl_model.specs.declared.objects.ImageInfo.{ImageInfo};
ghost use Rattle.gl_model.specs.ImageRows.{pair_texel};
ghost use Rattle.gl_model.specs.ImageEffect.{Picture, read_cells, after_read};
ghost use Rattle.vk_types.specs.declared.handles.Kind.{Kind};
ghost use Rattle.vk_types.specs.declared.handles.Kind.TheVariants.{Buffer};
ghost use Rattle.vk_types.specs.declared.handles.HandleId.{HandleId};
ghost use Rattle.vk_types.specs.declared.regions.Rect.{Rect};
ghost use Rattle.vk_types.specs.Touches.{the_end};
ghost use Rattle.vk_model.specs.Cells.{Contents};
ghost use Rattle.vk_model.specs.Fitting.{NodeFits};
ghost use Rattle.vk_model.specs.Log.{Command, NoneEmpty};
ghost use Rattle.vk_model.specs.Meaning.{apply};
ghost use Rattle.transfer.specs.Shown.{store_kind, Shows, IsShown, after_node};
ghost use Rattle.transfer.specs.Blits.{AreCells};
ghost use Rattle.readback.specs.declared.plan.ReadPlan.{ReadPlan};
ghost use Rattle.readback.specs.Plans.{plan_of, plan_size, read_node, pack_of, placed};

/// A buffer that a client's read brought the image to shows what lies in the image, and all else is as before.
pub fn read_is_exact()
    ensures buffer { (kinds : ℕ → Kind) (q : ℕ) (c : Contents) (image buffer : HandleId) (read : Picture) (pixels : PixelFormat)
        (kind : PixelType) (rect : Rect) (plan : ReadPlan) (at : ℕ) →
        IsShown kinds c image.0 read → AreCells read.cells → plan_of read.info pixels kind rect ≡ Some plan →
        at + plan_size plan ≤ the_end →
        Shows (λ i. apply kinds (Command q (read_node plan image buffer at)) c buffer.0 (at + i))
        (read_cells read pixels kind plan.part.rect.x plan.part.rect.y plan.part.rect.w plan.part.rect.h) }
    ensures others { (kinds : ℕ → Kind) (q : ℕ) (c : Contents) (image buffer : HandleId) (plan : ReadPlan) (at id i : ℕ) →
        (buffer.0 ≡ id → ⊥) → apply kinds (Command q (read_node plan image buffer at)) c id i ≡ c id i }
{}

/// A pack buffer shows what ReadPixels leaves in it, at each cell that is defined: the rows, a later one over an earlier one,
/// and elsewhere what it had. All else is as before.
pub fn pack_is_exact()
    ensures buffer { (kinds : ℕ → Kind) (q : ℕ) (c : Contents) (image buffer : HandleId) (read : Picture) (pixels : PixelFormat)
        (kind : PixelType) (rect : Rect) (base : ℕ) (store : PixelStorage) (old : Content) →
        IsShown kinds c image.0 read → AreCells read.cells → Shows (c buffer.0) old →
        base + needed_length store (pair_texel read.info.format pixels kind) rect.w rect.h ≤ the_end →
        Shows (after_node kinds q (pack_of read.info pixels kind rect image buffer base store) c buffer.0)
        (after_read old base read pixels kind store rect.x rect.y rect.w rect.h) }
    ensures others { (kinds : ℕ → Kind) (q : ℕ) (c : Contents) (image buffer : HandleId) (info : ImageInfo) (pixels : PixelFormat)
        (kind : PixelType) (rect : Rect) (base : ℕ) (store : PixelStorage) (id i : ℕ) → (buffer.0 ≡ id → ⊥) →
        after_node kinds q (pack_of info pixels kind rect image buffer base store) c id i ≡ c id i }
{}

/// The placed bytes of a host read agree with what ReadPixels gives, where the buffer shows what lies in the image.
pub fn place_is_exact()
    ensures { (read : Picture) (pixels : PixelFormat) (kind : PixelType) (rect : Rect) (plan : ReadPlan) (seen : ℕ → ℕ)
        (host : List ℕ) → plan_of read.info pixels kind rect ≡ Some plan →
        Shows seen (read_cells read pixels kind plan.part.rect.x plan.part.rect.y plan.part.rect.w plan.part.rect.h) →
        Agrees host (cells (plan_size plan) seen) →
        Agrees (placed plan host) (read_cells read pixels kind rect.x rect.y rect.w rect.h) }
{}

/// Where the rectangle meets no pixel, any bytes agree with what ReadPixels gives.
pub fn blank_is_exact()
    ensures { (read : Picture) (pixels : PixelFormat) (kind : PixelType) (rect : Rect) (bytes : List ℕ) →
        plan_of read.info pixels kind rect ≡ None → length bytes ≡ rect.w * rect.h * pair_texel read.info.format pixels kind →
        Agrees bytes (read_cells read pixels kind rect.x rect.y rect.w rect.h) }
{}

/// The nodes fit where the buffer has room, and touch no empty range.
pub fn read_fits()
    ensures client { (kinds : ℕ → Option Kind) (image buffer : HandleId) (info : ImageInfo) (pixels : PixelFormat)
        (kind : PixelType) (rect : Rect) (plan : ReadPlan) (at len : ℕ) →
        kinds image.0 ≡ Some (store_kind info) → kinds buffer.0 ≡ Some (Buffer len) → plan_of info pixels kind rect ≡ Some plan →
        at + plan_size plan ≤ len → NodeFits kinds (read_node plan image buffer at) }
    ensures pack { (kinds : ℕ → Option Kind) (image buffer : HandleId) (info : ImageInfo) (pixels : PixelFormat)
        (kind : PixelType) (rect : Rect) (base len : ℕ) (store : PixelStorage) →
        kinds image.0 ≡ Some (store_kind info) → kinds buffer.0 ≡ Some (Buffer len) →
        base + needed_length store (pair_texel info.format pixels kind) rect.w rect.h ≤ len →
        IfSome (pack_of info pixels kind rect image buffer base store) (NodeFits kinds) }
    ensures client_none_empty { (image buffer : HandleId) (info : ImageInfo) (pixels : PixelFormat) (kind : PixelType) (rect : Rect)
        (plan : ReadPlan) (at : ℕ) → plan_of info pixels kind rect ≡ Some plan → at + plan_size plan ≤ the_end →
        NoneEmpty (read_node plan image buffer at) }
    ensures pack_none_empty { (image buffer : HandleId) (info : ImageInfo) (pixels : PixelFormat) (kind : PixelType) (rect : Rect)
        (base : ℕ) (store : PixelStorage) →
        base + needed_length store (pair_texel info.format pixels kind) rect.w rect.h ≤ the_end →
        IfSome (pack_of info pixels kind rect image buffer base store) NoneEmpty }
{}
