// What each step does to what the objects hold.
ghost use Rattle.std.specs.Prelude.{◌≡◌, ◌≢◌, ℕ, ◌+◌, ◌<◌, ◌≤◌, ◌⊎◌, List, [], ◌∷◌, ◌++◌, length, slice_get, Contains, Option, Some, None, true, false, if◌then◌else◌, nat_lt, nat_le, ◌&&◌, ◌-◌, slice_index};
ghost use Rattle.std.specs.List.{AllByRecursion};
ghost use Rattle.cells.specs.Contents.{UNDEFINED};
ghost use Rattle.vk_types.specs.declared.handles.HandleId.{HandleId};
ghost use Rattle.vk_types.specs.declared.handles.Kind.{Kind};
ghost use Rattle.vk_types.specs.declared.batches.Batch.{Batch};
ghost use Rattle.vk_types.specs.declared.batches.QueueSerial.{QueueSerial};
ghost use Rattle.vk_types.specs.declared.ops.Node.{Node};
ghost use Rattle.vk_types.specs.declared.regions.Touch.{Touch};
ghost use Rattle.vk_types.specs.declared.regions.Barrier.{Barrier};
ghost use Rattle.vk_types.specs.Touches.{touches, barrier_of, the_end};
ghost use Rattle.vk_types.specs.declared.ops.Op.TheVariants as op;
ghost use Rattle.vk_model.specs.Log.{commands, touches_object, NoConflict};
ghost use Rattle.vk_model.specs.Fitting.{NodeFits};
ghost use Rattle.barriers.specs.declared.tracker.Tracker.{Tracker};
ghost use Rattle.barriers.specs.Licence.{Fenced, barrier_due};
ghost use Rattle.barriers.specs.Logs.{jointly};
ghost use Rattle.barriers.specs.Trackers.{IsTouchOf, due_by};
ghost use Rattle.barriers.specs.Recording.{handle, node_for, with_due, HasLayouts};
ghost use Rattle.vk_model.specs.Meaning.{after_all};
ghost use Rattle.back_core.specs.Link.{Link, created, wrote, enqueued, fetched, gave, kinds_of};
ghost use Rattle.back_core.specs.Needs.{IsOfGroup, IsFresh};
ghost use Rattle.back_core.specs.Answers.{Learns};
ghost use Rattle.front_model.specs.declared.object.Object.{Object};
ghost use Rattle.front_model.specs.Face.{Waiting, Slot, Stored, Face, put_object, view, recorded, nodes_touch, whole_log};
ghost use Rattle.front_model.specs.Stands.{Hands, no_hands, Holds, new_face, is_image_of, uses_of, host_touch, IsTrackedBy, IsRecordable};
ghost use Rattle.front_model.specs.Steps.{fresh_slot, with_nodes, MayRecord, IsNextBatch, flushed, with_object, stored_as, with_waiting, taken_from, with_read, KeepsContents, IsBehind, IsOrdered, IsTarget};

use barriers::{
    due_barriers_fit, due_barriers_keep_logs_sound, no_barrier_is_licensed_twice,
    trackers_take_uses,
};

/// A front with nothing in it shows nothing. The link's steps change no view, but for a write into the store of an object.
pub fn link_steps_show()
    ensures starts { (s : Link) (group : ℕ) → view (new_face group) s ≡ (λ o p. UNDEFINED) }
    ensures creates { (f : Face) (hands : Hands) (s : Link) (id : ℕ) (kind : Kind) → Holds f hands s → IsFresh s id → view f (created s id kind) ≡ view f s }
    ensures writes_hand { (f : Face) (hands : Hands) (s : Link) (id at : ℕ) (bytes : List ℕ) (slot : Slot) → Holds f hands s → hands id ≡ Some slot →
        ((index : ℕ) → nodes_touch (f.pending index) id ≡ false) → view f (wrote s id at bytes) ≡ view f s }
    ensures writes { (f : Face) (hands : Hands) (s : Link) (o : Object) (b : Stored) (at : ℕ) (bytes : List ℕ) → Holds f hands s → f.objects o ≡ Some b →
        b.waiting ≡ [] → ((index : ℕ) → nodes_touch (f.pending index) b.handle ≡ false) → at + length bytes ≤ the_end →
        view f (wrote s b.handle at bytes)
        ≡ put_object (view f s) o (λ i. if nat_le at i && nat_lt i (at + length bytes) then slice_index bytes (i - at) else view f s o i) }
    ensures fetches { (f : Face) (s : Link) (id at : ℕ) (bytes : List ℕ) → view (with_read f id) (fetched s id at bytes) ≡ view f s }
    ensures learns { (f : Face) (s t : Link) → Learns s t → view f t ≡ view f s }
    ensures enqueues { (f : Face) (hands : Hands) (s : Link) (index : ℕ) (batch : Batch) → Holds f hands s → IsOfGroup f.group index →
        IsNextBatch f index batch → view (flushed f index) (enqueued s batch) ≡ view f s }
    ensures gives { (f : Face) (s : Link) (id : ℕ) (uses : List QueueSerial) → view f (gave s id uses) ≡ view f s }
{}

/// What recording, staging, beginning and ending do to the view.
pub fn front_steps_show()
    // the nodes come after all that was recorded
    ensures records { (f : Face) (hands : Hands) (s : Link) (index : ℕ) (nodes : List Node) → Holds f hands s → MayRecord f hands s index nodes →
        recorded (with_nodes f index nodes) s ≡ after_all (kinds_of s) (commands 0 nodes) (recorded f s) }
    // an object that they do not touch, nor any staging buffer of what waits on it, shows what it showed
    ensures apart { (f : Face) (hands : Hands) (s : Link) (index : ℕ) (nodes : List Node) (o : Object) (b : Stored) → Holds f hands s →
        MayRecord f hands s index nodes → f.objects o ≡ Some b → nodes_touch nodes b.handle ≡ false →
        ((place id : ℕ) (w : Waiting) → slice_get b.waiting place ≡ Some w → w.staging ≡ Some id → nodes_touch nodes id ≡ false) →
        view (with_nodes f index nodes) s o ≡ view f s o }
    // a copy between two objects on which nothing waits
    ensures copies { (f : Face) (hands : Hands) (s : Link) (index : ℕ) (nodes : List Node) (o q : Object) (b c : Stored) (src dst : HandleId) (src_at dst_at size : ℕ) →
        Holds f hands s → MayRecord f hands s index nodes → IsBehind nodes (record { op = op.CopyBuffer src src_at dst dst_at size }) →
        f.objects o ≡ Some b → b.waiting ≡ [] → b.handle ≡ src.0 → f.objects q ≡ Some c → c.waiting ≡ [] → c.handle ≡ dst.0 →
        src_at + size ≤ the_end → dst_at + size ≤ the_end →
        view (with_nodes f index nodes) s
        ≡ put_object (view f s) q (λ i. if nat_le dst_at i && nat_lt i (dst_at + size) then view f s o (src_at + (i - dst_at)) else view f s q i) }
    // a copy from any handle to an object on which nothing waits
    ensures uploads { (f : Face) (hands : Hands) (s : Link) (index : ℕ) (nodes : List Node) (q : Object) (c : Stored) (src dst : HandleId) (src_at dst_at size : ℕ) →
        Holds f hands s → MayRecord f hands s index nodes → IsBehind nodes (record { op = op.CopyBuffer src src_at dst dst_at size }) → f.objects q ≡ Some c → c.waiting ≡ [] → c.handle ≡ dst.0 →
        src_at + size ≤ the_end → dst_at + size ≤ the_end →
        view (with_nodes f index nodes) s
        ≡ put_object (view f s) q (λ i. if nat_le dst_at i && nat_lt i (dst_at + size) then recorded f s src.0 (src_at + (i - dst_at)) else view f s q i) }
    // the first of what waits on an object, taken and recorded behind barriers
    ensures drains { (f : Face) (hands also : Hands) (s : Link) (index : ℕ) (nodes : List Node) (o : Object) (b : Stored) (w : Waiting) → Holds f hands s →
        f.objects o ≡ Some b → slice_get b.waiting 0 ≡ Some w → barrier_of w.node ≡ None →
        Holds (with_object f o (Some (taken_from b 0))) also s → MayRecord (with_object f o (Some (taken_from b 0))) also s index nodes →
        IsBehind nodes w.node →
        view (with_nodes (with_object f o (Some (taken_from b 0))) index nodes) s ≡ view f s }
    // barriers alone
    ensures barriers { (f : Face) (hands : Hands) (s : Link) (index : ℕ) (fences : List Node) → Holds f hands s → MayRecord f hands s index fences →
        AllByRecursion KeepsContents fences → view (with_nodes f index fences) s ≡ view f s }
    ensures begins { (f : Face) (s : Link) (o : Object) (id : ℕ) (slot : Slot) →
        view (with_object f o (Some (stored_as id slot))) s ≡ put_object (view f s) o (recorded f s id) }
    ensures ends { (f : Face) (s : Link) (o : Object) → view (with_object f o None) s ≡ put_object (view f s) o (λ p. UNDEFINED) }
    // an update of bytes from the staging buffer
    ensures stages { (f : Face) (s : Link) (o : Object) (b : Stored) (id : ℕ) (src dst : HandleId) (src_at dst_at size : ℕ) → f.objects o ≡ Some b →
        src.0 ≡ id → dst.0 ≡ b.handle → src.0 ≢ dst.0 → src_at + size ≤ the_end → dst_at + size ≤ the_end →
        ((place : ℕ) (w : Waiting) → slice_get b.waiting place ≡ Some w → touches_object w.node id ≡ false) →
        view (with_object f o (Some (with_waiting b (record { staging = Some id; node = record { op = op.CopyBuffer src src_at dst dst_at size } })))) s
        ≡ put_object (view f s) o (λ i. if nat_le dst_at i && nat_lt i (dst_at + size) then recorded f s id (src_at + (i - dst_at)) else view f s o i) }
    // what lies wholly in a range shows nowhere else
    ensures supersedes { (f : Face) (hands : Hands) (s : Link) (o : Object) (b : Stored) (place : ℕ) (w : Waiting) (src dst : HandleId) (src_at dst_at len at size : ℕ) →
        Holds f hands s → f.objects o ≡ Some b → slice_get b.waiting place ≡ Some w → w.node.op ≡ op.CopyBuffer src src_at dst dst_at len →
        at ≤ dst_at → dst_at + len ≤ at + size →
        (i : ℕ) → (i < at) ⊎ (at + size ≤ i) → view (with_object f o (Some (taken_from b place))) s o i ≡ view f s o i }
{}

/// A node behind the barriers that are due before it may be recorded, as far as order and licence go, and so may the barrier that is due
/// before a read by the host.
pub fn due_nodes_may_be_recorded()
    ensures node { (f : Face) (hands : Hands) (s : Link) (n : Node) → Holds f hands s → barrier_of n ≡ None → HasLayouts (is_image_of s) n →
        IsOrdered f s (with_due (is_image_of s) (uses_of f s) n) }
    // a node that fits touches images with layouts, and buffers without
    ensures layouts { (s : Link) (n : Node) → barrier_of n ≡ None → NodeFits s.kinds n → HasLayouts (is_image_of s) n }
    // and in all, where it fits, there is room for it and two barriers, and nodes of other contexts do not conflict
    ensures may { (f : Face) (hands : Hands) (s : Link) (index : ℕ) (n : Node) → Holds f hands s → barrier_of n ≡ None →
        IsOfGroup f.group index → IsRecordable n → NodeFits s.kinds n → length (f.pending index) + 3 < 4294967294 →
        ((t : Touch) → Contains (touches n) t → IsTarget f hands t.id.0) →
        ((i : ℕ) → i ≢ index → NoConflict (with_due (is_image_of s) (uses_of f s) n) (f.pending i)) →
        MayRecord f hands s index (with_due (is_image_of s) (uses_of f s) n) }
    // they do not conflict where the node does not, and nothing else touches an object for which a barrier is due
    ensures apart { (f : Face) (s : Link) (n : Node) (others : List Node) → NoConflict (n ∷ []) others →
        ((t : Touch) (barrier : Barrier) → Contains (touches n) t →
        barrier_due t.id (is_image_of s t.id.0) (uses_of f s t.id.0) (jointly n t) ≡ Some barrier → nodes_touch others t.id.0 ≡ false) →
        NoConflict (with_due (is_image_of s) (uses_of f s) n) others }
    // nor where nothing else touches what the node touches
    ensures parted { (f : Face) (s : Link) (n : Node) (others : List Node) →
        ((t : Touch) → Contains (touches n) t → nodes_touch others t.id.0 ≡ false) →
        NoConflict (with_due (is_image_of s) (uses_of f s) n) others }
    // a barrier alone, of an object that no other context touches
    ensures alone { (f : Face) (hands : Hands) (s : Link) (index : ℕ) (t : Touch) → Holds f hands s →
        IsTouchOf t.id (is_image_of s t.id.0) t → IsOfGroup f.group index → length (f.pending index) + 1 < 4294967294 →
        IsTarget f hands t.id.0 → ((i : ℕ) → i ≢ index → nodes_touch (f.pending i) t.id.0 ≡ false) →
        MayRecord f hands s index (node_for (barrier_due t.id (is_image_of s t.id.0) (uses_of f s t.id.0) t)) }
    ensures host { (f : Face) (hands : Hands) (s : Link) (id : ℕ) → Holds f hands s → is_image_of s id ≡ false →
        IsOrdered f s (node_for (barrier_due (handle id) (is_image_of s id) (uses_of f s id) (host_touch id))) }
    // such barriers of buffers leave all contents
    ensures behind { (f : Face) (s : Link) (n : Node) → HasLayouts (is_image_of s) n → ((t : Touch) → Contains (touches n) t → is_image_of s t.id.0 ≡ false) →
        barrier_of n ≡ None → IsBehind (with_due (is_image_of s) (uses_of f s) n) n }
    ensures keeps { (f : Face) (s : Link) (id : ℕ) → is_image_of s id ≡ false →
        AllByRecursion KeepsContents (node_for (barrier_due (handle id) (is_image_of s id) (uses_of f s id) (host_touch id))) }
    // behind it no other is due
    ensures once { (f : Face) (s : Link) (id : ℕ) (barrier : Barrier) → is_image_of s id ≡ false →
        barrier_due (handle id) (is_image_of s id) (uses_of f s id) (host_touch id) ≡ Some barrier →
        barrier_due (handle id) (is_image_of s id) (uses_of f s id ++ Fenced barrier ∷ []) (host_touch id) ≡ None }
    // what a tracker tells is what is due
    ensures told { (f : Face) (s : Link) (id : ℕ) (t : Tracker) (touch : Touch) → IsTrackedBy f s t id →
        due_by t touch ≡ barrier_due (handle id) (is_image_of s id) (uses_of f s id) touch }
{
    due_barriers_keep_logs_sound();
    due_barriers_fit();
    no_barrier_is_licensed_twice();
    trackers_take_uses();
}
