// What barriers leave.
ghost use Rattle.std.specs.Prelude.{◌≡◌, ℕ, ◌<◌, None, Some};
ghost use Rattle.vk_types.specs.declared.handles.Kind.{Kind};
ghost use Rattle.vk_types.specs.declared.accesses.Layout.{Layout};
ghost use Rattle.vk_types.specs.declared.accesses.Layout.TheVariants.{Undefined};
ghost use Rattle.vk_types.specs.declared.regions.Barrier.{Barrier};
ghost use Rattle.vk_types.specs.declared.ops.Op.{Op};
ghost use Rattle.vk_types.specs.Touches.{the_end};
ghost use Rattle.vk_model.specs.Cells.{Contents};
ghost use Rattle.vk_model.specs.Log.{Command};
ghost use Rattle.vk_model.specs.Meaning.{apply};
ghost use Rattle.cells.specs.Contents.{UNDEFINED};

/// A barrier changes no bytes, but that an image whose layout it changes from `Undefined` is no longer defined.
pub fn barrier_changes_no_bytes()
    ensures no_layouts { (kinds : ℕ → Kind) (q : ℕ) (b : Barrier) (c : Contents) (id i : ℕ) → b.layouts ≡ None →
        apply kinds (Command q (record { op = Op.Barrier b })) c id i ≡ c id i }
    ensures from_another { (kinds : ℕ → Kind) (q : ℕ) (b : Barrier) (c : Contents) (id i : ℕ) (old new : Layout) →
        b.layouts ≡ Some (old, new) → (old ≡ Undefined → ⊥) →
        apply kinds (Command q (record { op = Op.Barrier b })) c id i ≡ c id i }
    ensures from_undefined { (kinds : ℕ → Kind) (q : ℕ) (b : Barrier) (c : Contents) (i : ℕ) (new : Layout) →
        b.layouts ≡ Some (Undefined, new) → i < the_end →
        apply kinds (Command q (record { op = Op.Barrier b })) c b.id.0 i ≡ UNDEFINED }
{}
