// What a front did not record.
ghost use Rattle.std.specs.Prelude.{◌≡◌, ℕ, Some, slice_get};
ghost use Rattle.vk_types.specs.declared.ops.Node.{Node};
ghost use Rattle.vk_model.specs.Log.{Command};
ghost use Rattle.back_core.specs.Own.{log_of};
ghost use Rattle.back_core.specs.Link.{Link};
ghost use Rattle.front_model.specs.Face.{Face};
ghost use Rattle.front_model.specs.Stands.{Hands, Holds, WritesNoConstants};

/// No node of the group's list, and none that is pending, writes constants: none fills a buffer or clears an image. So nodes only
/// move what the host wrote.
pub fn no_constants_are_recorded()
    ensures listed { (f : Face) (hands : Hands) (s : Link) (k queue : ℕ) (n : Node) → Holds f hands s →
        slice_get (log_of s.mine) k ≡ Some (Command queue n) → WritesNoConstants n.op }
    ensures pending { (f : Face) (hands : Hands) (s : Link) (index k : ℕ) (n : Node) → Holds f hands s →
        slice_get (f.pending index) k ≡ Some n → WritesNoConstants n.op }
{}
