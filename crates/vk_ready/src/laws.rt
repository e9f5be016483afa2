// Which nodes are ready.
ghost use Rattle.std.specs.Prelude.{◌≡◌, ◌↔◌, ℕ, ◌<◌, List, length, slice_get, Some, Contains, false};
ghost use Rattle.vk_ready.specs.declared.nodes.WaitingNode.{WaitingNode};
ghost use Rattle.vk_ready.specs.Ready.{edge, ready_places, ready_place};

/// The first node is always ready.
pub fn first_node_is_ready()
    ensures first { (list : List WaitingNode) → 0 < length list → ready_place list 0 ≡ 0 }
    ensures some { (list : List WaitingNode) → 0 < length list → 0 < length (ready_places list) }
{}

/// A place is among the ready ones exactly where a node of the list stands there to which no earlier one has an edge.
pub fn ready_places_are_exact()
    ensures { (list : List WaitingNode) (place : ℕ) → Contains (ready_places list) place
        ↔ ((place < length list) × ((j : ℕ) (x y : WaitingNode) → j < place → slice_get list j ≡ Some x → slice_get list place ≡ Some y → edge x y ≡ false)) }
{}
