// What holds of all objects of a log as nodes are recorded, each behind the barriers that are due before it.
ghost use Rattle.std.specs.Prelude.{◌≡◌, ◌≢◌, ℕ, Bool, true, false, List, ◌∷◌, [], ◌++◌, fold, slice_get, Option, Some, None};
ghost use Rattle.std.specs.List.{AllByRecursion};
ghost use Rattle.vk_types.specs.Accesses.{no_access, host_read};
ghost use Rattle.vk_types.specs.declared.accesses.Access.{Access};
ghost use Rattle.vk_types.specs.declared.handles.HandleId.{HandleId};
ghost use Rattle.vk_types.specs.declared.regions.Touch.{Touch};
ghost use Rattle.vk_types.specs.declared.regions.Barrier.{Barrier};
ghost use Rattle.vk_types.specs.declared.ops.Node.{Node};
ghost use Rattle.vk_types.specs.Touches.{barrier_of};
ghost use Rattle.vk_model.specs.Log.{Item, Command, commands, touches_object, IsSound, IsOneQueue, NoneEmpty, NoConflict};
ghost use Rattle.vk_model.specs.Tracking.{IsTracked};
ghost use Rattle.barriers.specs.declared.tracker.Tracker.{Tracker};
ghost use Rattle.barriers.specs.Licence.{Use, Accessed, Fenced, barrier_due, is_licensed, writes};
ghost use Rattle.barriers.specs.Trackers.{Tracks, IsTouchOf, due_by, new_tracker, taken};
ghost use Rattle.barriers.specs.Logs.{AreUsesIn, uses_in, joint_access};
ghost use Rattle.barriers.specs.Recording.{AreLicensed, AreFenced, MayChangePlaces, node_for, with_due, HasLayouts, AreNoneEmpty, AreUsed, IsMadeKnown};

use crate::licensed_barriers_keep_logs_sound;

/// Over a sound log the last barrier of an object, if it has one, is where the uses say.
pub fn sound_logs_are_tracked()
    ensures { (log : List Item) (id : ℕ) (uses : List Use) → IsSound log → AreNoneEmpty log → AreUsesIn log id uses →
        (last : Option ℕ) × IsTracked log id last }
{}

/// A node behind the barriers that are due before it keeps a log sound, and each barrier is licensed. So does a barrier alone,
/// where one is due before some touch. A read by the host before which none is licensed is one more use.
pub fn due_barriers_keep_logs_sound()
    ensures node { (log : List Item) (is_image : ℕ → Bool) (uses : ℕ → List Use) (n : Node) →
        IsOneQueue log → IsSound log → AreNoneEmpty log → AreUsed is_image log uses → barrier_of n ≡ None → HasLayouts is_image n →
        IsSound (log ++ commands 0 (with_due is_image uses n))
        × AreUsed is_image (log ++ commands 0 (with_due is_image uses n)) (λ id. uses id ++ uses_in (commands 0 (with_due is_image uses n)) id) }
    ensures barrier { (log : List Item) (is_image : ℕ → Bool) (uses : ℕ → List Use) (t : Touch) →
        IsOneQueue log → IsSound log → AreNoneEmpty log → AreUsed is_image log uses → IsTouchOf t.id (is_image t.id.0) t →
        IsSound (log ++ commands 0 (node_for (barrier_due t.id (is_image t.id.0) (uses t.id.0) t)))
        × AreUsed is_image (log ++ commands 0 (node_for (barrier_due t.id (is_image t.id.0) (uses t.id.0) t)))
        (λ id. uses id ++ uses_in (commands 0 (node_for (barrier_due t.id (is_image t.id.0) (uses t.id.0) t))) id) }
    ensures read { (log : List Item) (id : HandleId) (is_image : Bool) (uses : List Use) (touch : Touch) → AreUsesIn log id.0 uses →
        AreLicensed id is_image uses → touch.access ≡ host_read → is_licensed is_image uses touch ≡ false →
        AreUsesIn log id.0 (uses ++ Accessed host_read ∷ []) × AreLicensed id is_image (uses ++ Accessed host_read ∷ []) }
{
    licensed_barriers_keep_logs_sound();
}

/// Nodes that do not conflict may stand in either order: neither what a tracker knows, nor what was licensed, tells it.
pub fn uses_change_places()
    ensures nodes { (id : ℕ) (xs ys : List Node) → AllByRecursion NoneEmpty xs → AllByRecursion NoneEmpty ys → NoConflict xs ys →
        MayChangePlaces (uses_in (commands 0 xs) id) (uses_in (commands 0 ys) id) }
    ensures tracks { (t : Tracker) (id : HandleId) (is_image : Bool) (front xs ys : List Use) → MayChangePlaces xs ys →
        Tracks t id is_image (front ++ xs ++ ys) → Tracks t id is_image (front ++ ys ++ xs) }
    ensures fenced { (id : HandleId) (is_image : Bool) (front xs ys : List Use) → MayChangePlaces xs ys →
        AreFenced id is_image (front ++ xs ++ ys) → AreFenced id is_image (front ++ ys ++ xs) }
{}

/// What a tracker takes in, and what is due by it.
pub fn trackers_take_uses()
    ensures starts { (id : HandleId) (is_image : Bool) → Tracks (new_tracker id is_image) id is_image [] }
    ensures nodes { (t : Tracker) (id : HandleId) (is_image : Bool) (uses : List Use) (nodes : List Node) → Tracks t id is_image uses →
        Tracks (fold taken t (uses_in (commands 0 nodes) id.0)) id is_image (uses ++ uses_in (commands 0 nodes) id.0) }
    ensures access { (t : Tracker) (id : HandleId) (is_image : Bool) (uses : List Use) (access : Access) → Tracks t id is_image uses →
        access ≢ no_access → Tracks (taken t (Accessed access)) id is_image (uses ++ Accessed access ∷ []) }
    ensures barrier { (t : Tracker) (id : HandleId) (is_image : Bool) (uses : List Use) (barrier : Barrier) → Tracks t id is_image uses →
        Tracks (taken t (Fenced barrier)) id is_image (uses ++ Fenced barrier ∷ []) }
    ensures due { (t : Tracker) (id : HandleId) (is_image : Bool) (uses : List Use) (touch : Touch) → Tracks t id is_image uses →
        due_by t touch ≡ barrier_due id is_image uses touch }
{}

/// A read by the host before which no barrier is due is one more use, and none is due before the next one.
pub fn host_reads_are_uses()
    ensures fenced { (id : HandleId) (is_image : Bool) (uses : List Use) (touch : Touch) → AreFenced id is_image uses → touch.access ≡ host_read →
        barrier_due id is_image uses touch ≡ None → AreFenced id is_image (uses ++ Accessed host_read ∷ []) }
    ensures again { (id : HandleId) (is_image : Bool) (uses : List Use) (touch : Touch) → touch.access ≡ host_read →
        barrier_due id is_image uses touch ≡ None → barrier_due id is_image (uses ++ Accessed host_read ∷ []) touch ≡ None }
{}

/// Where no barrier is due before a read by the host, a barrier to reads by the host stands behind each node that writes the object.
pub fn writes_are_made_known()
    ensures { (log : List Item) (id : HandleId) (is_image : Bool) (uses : List Use) (touch : Touch) → AreUsesIn log id.0 uses →
        touch.access ≡ host_read → barrier_due id is_image uses touch ≡ None → (k queue : ℕ) (n : Node) →
        slice_get log k ≡ Some (Command queue n) → barrier_of n ≡ None → touches_object n id.0 ≡ true → writes (joint_access n id.0) ≡ true →
        IsMadeKnown log id.0 k }
{}
