// What no node changes.
ghost use Rattle.std.specs.Prelude.{◌≡◌, ℕ, ◌≤◌, false};
ghost use Rattle.vk_types.specs.declared.handles.Kind.{Kind};
ghost use Rattle.vk_types.specs.declared.ops.Node.{Node};
ghost use Rattle.vk_types.specs.Touches.{the_end};
ghost use Rattle.vk_model.specs.Cells.{Contents};
ghost use Rattle.vk_model.specs.Log.{Command};
ghost use Rattle.vk_model.specs.Meaning.{apply, is_written};
ghost use Rattle.vk_effects.specs.Targets.{target};

/// A node changes one object, its target, and of that only places in the ranges that it touches and writes.
pub fn only_the_target_changes()
    ensures others { (kinds : ℕ → Kind) (q : ℕ) (n : Node) (c : Contents) (id i : ℕ) → ((target n.op).0 ≡ id → ⊥) →
        apply kinds (Command q n) c id i ≡ c id i }
    ensures past_the_end { (kinds : ℕ → Kind) (q : ℕ) (n : Node) (c : Contents) (id i : ℕ) → the_end ≤ i →
        apply kinds (Command q n) c id i ≡ c id i }
    ensures unwritten { (kinds : ℕ → Kind) (q : ℕ) (n : Node) (c : Contents) (id i : ℕ) → is_written (Command q n) id i ≡ false →
        apply kinds (Command q n) c id i ≡ c id i }
{}
