// What lies past the ends of objects.
ghost use Rattle.std.specs.Prelude.{ℕ, ◌+◌, ◌≤◌, List, length, Some};
ghost use Rattle.vk_types.specs.declared.handles.Kind.{Kind};
ghost use Rattle.vk_types.specs.declared.ops.Node.{Node};
ghost use Rattle.vk_model.specs.Fitting.{size_of, NodeFits};
ghost use Rattle.vk_model.specs.Cells.{Contents};
ghost use Rattle.vk_model.specs.Log.{Command, HostWrite};
ghost use Rattle.vk_model.specs.Meaning.{apply, nothing};
ghost use Rattle.vk_effects.specs.Places.{HasNothingPastEnds};

/// Nothing is defined past the ends of objects: not on a new device, and not after nodes that fit and writes inside them.
pub fn nothing_lies_past_the_ends()
    ensures at_first { (kinds : ℕ → Kind) → HasNothingPastEnds kinds nothing }
    ensures nodes { (kinds : ℕ → Kind) (q : ℕ) (n : Node) (c : Contents) → NodeFits (λ id. Some (kinds id)) n →
        HasNothingPastEnds kinds c → HasNothingPastEnds kinds (apply kinds (Command q n) c) }
    ensures host_writes { (kinds : ℕ → Kind) (id at : ℕ) (bytes : List ℕ) (c : Contents) →
        at + length bytes ≤ size_of (kinds id) → HasNothingPastEnds kinds c →
        HasNothingPastEnds kinds (apply kinds (HostWrite id at bytes) c) }
{}
