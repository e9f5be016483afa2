// Logs of one queue that have a barrier exactly where one is licensed stay sound.
ghost use Rattle.std.specs.Prelude.{◌≡◌, ℕ, Bool, true, false, List, [], ◌∷◌, ◌++◌, length, Option, Some, None, is_some, IfSome, Contains};
ghost use Rattle.vk_types.specs.declared.handles.HandleId.{HandleId};
ghost use Rattle.vk_types.specs.declared.regions.Touch.{Touch};
ghost use Rattle.vk_types.specs.declared.regions.Barrier.{Barrier};
ghost use Rattle.vk_types.specs.declared.ops.Op.{Op};
ghost use Rattle.vk_types.specs.declared.ops.Node.{Node};
ghost use Rattle.vk_types.specs.Accesses.{host_read};
ghost use Rattle.vk_types.specs.Touches.{touches, barrier_of};
ghost use Rattle.vk_model.specs.Log.{Item, Command, touches_object, IsSound, IsOneQueue};
ghost use Rattle.vk_model.specs.Tracking.{IsTracked};
ghost use Rattle.barriers.specs.Licence.{Use, Accessed, Fenced, barrier_due, is_licensed};
ghost use Rattle.barriers.specs.Trackers.{IsTouchOf};
ghost use Rattle.barriers.specs.Logs.{AreUsesIn, joint_access, jointly};
ghost use Rattle.barriers.specs.Recording.{HasLayouts};

use vk_model::trackers_keep_logs_sound;

/// A log and the uses of each object go on together. The barrier that is due before a touch, and a node before whose
/// touches none is licensed, leave the log sound and its objects tracked; the barrier and the node's joint access are the
/// last uses then. A read by the host before which no barrier is licensed is a use too, and no item of the log.
pub fn licensed_barriers_keep_logs_sound()
    ensures starts { (id : ℕ) → AreUsesIn [] id [] }
    ensures barrier { (log : List Item) → IsOneQueue log → IsSound log →
        (id : HandleId) (is_image : Bool) (last : Option ℕ) (uses : List Use) → IsTracked log id.0 last → AreUsesIn log id.0 uses →
        (touch : Touch) (barrier : Barrier) (n : Node) → IsTouchOf id is_image touch → barrier_due id is_image uses touch ≡ Some barrier →
        n.op ≡ Op.Barrier barrier →
        IsSound (log ++ Command 0 n ∷ []) × IsTracked (log ++ Command 0 n ∷ []) id.0 (Some (length log))
        × AreUsesIn (log ++ Command 0 n ∷ []) id.0 (uses ++ Fenced barrier ∷ []) }
    ensures node { (log : List Item) → IsOneQueue log → IsSound log →
        (is_image : ℕ → Bool) (last : ℕ → Option ℕ) (uses : ℕ → List Use) (n : Node) → barrier_of n ≡ None →
        ((id : ℕ) → touches_object n id ≡ true → IsTracked log id (last id) × AreUsesIn log id (uses id)) →
        ((t : Touch) → Contains (touches n) t → is_licensed (is_image t.id.0) (uses t.id.0) (jointly n t) ≡ false) →
        IsSound (log ++ Command 0 n ∷ [])
        × ((id : ℕ) → touches_object n id ≡ true → IsTracked (log ++ Command 0 n ∷ []) id (last id)
        × AreUsesIn (log ++ Command 0 n ∷ []) id (uses id ++ Accessed (joint_access n id) ∷ [])) }
    ensures others { (log : List Item) (id : ℕ) (last : Option ℕ) (uses : List Use) (x : Item) → IsTracked log id last →
        AreUsesIn log id uses → ((q : ℕ) (n : Node) → x ≡ Command q n → touches_object n id ≡ false) →
        IsTracked (log ++ x ∷ []) id last × AreUsesIn (log ++ x ∷ []) id uses }
    ensures read { (log : List Item) (id : ℕ) (uses : List Use) (is_image : Bool) (touch : Touch) → AreUsesIn log id uses →
        touch.access ≡ host_read → is_licensed is_image uses touch ≡ false →
        AreUsesIn log id (uses ++ Accessed host_read ∷ []) }
    ensures queue { (log : List Item) (x : Item) → IsOneQueue log → ((q : ℕ) (n : Node) → x ≡ Command q n → q ≡ 0) →
        IsOneQueue (log ++ x ∷ []) }
{
    trackers_keep_logs_sound();
}

/// Behind the barrier that is due before a touch none is licensed before it, nor is one where none is due.
pub fn no_barrier_is_licensed_twice()
    ensures none { (id : HandleId) (is_image : Bool) (uses : List Use) (touch : Touch) → barrier_due id is_image uses touch ≡ None →
        is_licensed is_image uses touch ≡ false }
    ensures once { (id : HandleId) (is_image : Bool) (uses : List Use) (touch : Touch) (barrier : Barrier) → IsTouchOf id is_image touch →
        barrier_due id is_image uses touch ≡ Some barrier → is_licensed is_image (uses ++ Fenced barrier ∷ []) touch ≡ false }
{}

/// A node's touch with its joint access is one of its object. The barrier that is due is one of the touch's object, and it names
/// layouts exactly where that is an image: the new one is the one that the touch needs.
pub fn due_barriers_fit()
    ensures touch { (is_image : ℕ → Bool) (n : Node) → barrier_of n ≡ None → HasLayouts is_image n → (t : Touch) → Contains (touches n) t →
        IsTouchOf t.id (is_image t.id.0) (jointly n t) }
    ensures of { (id : HandleId) (is_image : Bool) (uses : List Use) (touch : Touch) (barrier : Barrier) →
        barrier_due id is_image uses touch ≡ Some barrier → barrier.id ≡ id }
    ensures layouts { (id : HandleId) (is_image : Bool) (uses : List Use) (touch : Touch) (barrier : Barrier) →
        IsTouchOf id is_image touch → barrier_due id is_image uses touch ≡ Some barrier → is_some barrier.layouts ≡ is_image }
    ensures new { (id : HandleId) (is_image : Bool) (uses : List Use) (touch : Touch) (barrier : Barrier) →
        barrier_due id is_image uses touch ≡ Some barrier → IfSome barrier.layouts (λ both. Some both.1 ≡ touch.layout) }
{}
