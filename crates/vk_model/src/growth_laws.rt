// Logs that stay sound as they grow.
ghost use Rattle.std.specs.Prelude.{◌≡◌, ℕ, ◌+◌, ◌⊎◌, true, List, [], ◌∷◌, ◌++◌, length, take, slice_get, Option, Some, None, false};
ghost use Rattle.vk_types.specs.declared.regions.Barrier.{Barrier};
ghost use Rattle.vk_types.specs.declared.ops.Node.{Node};
ghost use Rattle.vk_types.specs.Accesses.{in_common};
ghost use Rattle.vk_types.specs.Touches.{barrier_of};
ghost use Rattle.vk_model.specs.Cells.{place};
ghost use Rattle.vk_model.specs.Log.{Item, Command, touches_object, touches_with, conflict_on, Conflicts, FindsLayouts, IsSound, ReachesNext, IsOneQueue};
ghost use Rattle.vk_model.specs.Tracking.{IsLastBarrier, IsTracked, IsSince, TouchesSince};

/// What a sound log needs of an item that is added at its end: all that conflict with it reach it, and it finds its layouts.
pub fn sound_log_grows()
    ensures { (log : List Item) (x : Item) → IsSound log →
        ((q : ℕ) (n : Node) → x ≡ Command q n → (j p : ℕ) (a : Node) →
        slice_get log j ≡ Some (Command p a) → Conflicts a n → ReachesNext log j x) →
        ((q : ℕ) (n : Node) → x ≡ Command q n → FindsLayouts log n) →
        IsSound (log ++ x ∷ []) }
{}

/// A beginning of a sound log is sound.
pub fn sound_log_begins_soundly()
    ensures { (log more : List Item) → IsSound (log ++ more) → IsSound log }
{}

/// A tracker knows the last barrier of an object. A barrier that waits for all that touched the object since, or for the
/// last barrier where nothing did, and a node that waits for the last barriers of its objects and conflicts with
/// nothing since on the object of that barrier, leave the log sound and tracked.
pub fn trackers_keep_logs_sound()
    ensures starts { (id : ℕ) → IsTracked [] id None }
    ensures barrier { (log : List Item) → IsOneQueue log → (id : ℕ) (last : Option ℕ) (n : Node) (y : Barrier) →
        IsSound log → IsTracked log id last → barrier_of n ≡ Some y → y.id.0 ≡ id → FindsLayouts log n →
        ((k q : ℕ) (a : Node) → IsSince last k → slice_get log k ≡ Some (Command q a) → touches_object a id ≡ true →
        touches_with a id y.first ≡ true) →
        ((place : ℕ) (l : IsLastBarrier log id place) → last ≡ Some place →
        TouchesSince log id last ⊎ (in_common l.barrier.second y.first ≡ true)) →
        IsSound (log ++ Command 0 n ∷ []) × IsTracked (log ++ Command 0 n ∷ []) id (Some (length log)) }
    ensures node { (log : List Item) → IsOneQueue log → (last : ℕ → Option ℕ) (n : Node) → IsSound log → FindsLayouts log n →
        ((id : ℕ) → touches_object n id ≡ true → IsTracked log id (last id)) →
        ((id place : ℕ) (l : IsLastBarrier log id place) → touches_object n id ≡ true → last id ≡ Some place →
        touches_with n id l.barrier.second ≡ true) →
        ((id k q : ℕ) (a : Node) → touches_object n id ≡ true → IsSince (last id) k → slice_get log k ≡ Some (Command q a) →
        touches_object a id ≡ true → conflict_on id a n ≡ false) →
        IsSound (log ++ Command 0 n ∷ []) }
    ensures kept { (log : List Item) (id : ℕ) (last : Option ℕ) (x : Item) → IsTracked log id last →
        ((q : ℕ) (n : Node) → x ≡ Command q n → touches_object n id ≡ true → barrier_of n ≡ None) →
        ((q : ℕ) (n : Node) (place : ℕ) (l : IsLastBarrier log id place) → x ≡ Command q n → touches_object n id ≡ true →
        last ≡ Some place → touches_with n id l.barrier.second ≡ true) →
        IsTracked (log ++ x ∷ []) id last }
{}
