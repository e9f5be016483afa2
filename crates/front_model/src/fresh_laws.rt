// What the store of an object has in it before an object has it.
ghost use Rattle.std.specs.Prelude.{◌≡◌, ℕ, ◌≤◌, false, List, length};
ghost use Rattle.cells.specs.Contents.{UNDEFINED, cell_at};
ghost use Rattle.vk_types.specs.declared.handles.Kind.{Kind};
ghost use Rattle.vk_types.specs.Touches.{the_end};
ghost use Rattle.back_core.specs.Link.{Link, created, wrote};
ghost use Rattle.back_core.specs.Needs.{IsFresh};
ghost use Rattle.front_model.specs.Face.{Face, recorded, nodes_touch};
ghost use Rattle.front_model.specs.Stands.{Hands, Holds};

/// A handle that was just made has no cell that is defined. Then it has the bytes that the host writes to its start.
pub fn fresh_handles_show()
    ensures blank { (f : Face) (hands : Hands) (s : Link) (id : ℕ) (kind : Kind) → Holds f hands s → IsFresh s id →
        recorded f (created s id kind) id ≡ (λ p. UNDEFINED) }
    ensures filled { (f : Face) (hands : Hands) (s : Link) (id : ℕ) (bytes : List ℕ) → Holds f hands s →
        ((index : ℕ) → nodes_touch (f.pending index) id ≡ false) → length bytes ≤ the_end → recorded f s id ≡ (λ p. UNDEFINED) →
        recorded f (wrote s id 0 bytes) id ≡ cell_at bytes }
{}
