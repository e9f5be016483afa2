// Each step keeps what holds of a front.
ghost use Rattle.std.specs.Prelude.{◌≡◌, ◌≢◌, ℕ, ◌+◌, ◌<◌, ◌≤◌, ◌⊎◌, List, [], ◌∷◌, ◌++◌, length, slice_get, Option, Some, None, true, false};
ghost use Rattle.vk_types.specs.declared.handles.Kind.{Kind};
ghost use Rattle.vk_types.specs.declared.batches.Batch.{Batch};
ghost use Rattle.vk_types.specs.declared.batches.QueueSerial.{QueueSerial};
ghost use Rattle.vk_types.specs.declared.ops.Node.{Node};
ghost use Rattle.vk_model.specs.Log.{NoneEmpty};
ghost use Rattle.vk_model.specs.Fitting.{NodeFits};
ghost use Rattle.back_core.specs.Own.{log_of, IsReadable};
ghost use Rattle.back_core.specs.Link.{Link, IsNew, put, created, wrote, enqueued, fetched, gave, abandoned};
ghost use Rattle.back_core.specs.Needs.{IsOfGroup, IsFresh, HostMay, MayEnqueue, MayGive, HasBatch};
ghost use Rattle.back_core.specs.Answers.{Learns};
ghost use Rattle.front_model.specs.declared.object.Object.{Object};
ghost use Rattle.front_model.specs.Face.{Waiting, Slot, Stored, Face, nodes_touch, IsUpdate};
ghost use Rattle.front_model.specs.Stands.{Hands, no_hands, Holds, Owns, IsQuiet, IsKnownToHost, new_face};
ghost use Rattle.front_model.specs.Steps.{fresh_slot, AreUses, IsTarget, with_read, heard_hands, with_nodes, noted_hands, MayRecord, IsNextBatch, flushed, with_object, stored_as, with_waiting, taken_from};

use back_core::uses_are_low;
use barriers::{
    host_reads_are_uses, trackers_take_uses, uses_change_places, writes_are_made_known,
};
use vk_model::{conflict_is_mutual, lists_change_places};

/// A front with nothing in it holds on a link that its group has not used. Then each step keeps what holds.
pub fn steps_hold()
    ensures starts { (s : Link) (group : ℕ) → group < 8 → IsNew s group → Holds (new_face group) no_hands s }
    // the link
    ensures creates { (f : Face) (hands : Hands) (s : Link) (id : ℕ) (kind : Kind) → Holds f hands s → IsFresh s id →
        Holds f (put hands id (Some (fresh_slot id kind))) (created s id kind) }
    ensures writes { (f : Face) (hands : Hands) (s : Link) (id at : ℕ) (bytes : List ℕ) → Holds f hands s →
        ((index : ℕ) → nodes_touch (f.pending index) id ≡ false) → (len : ℕ) → s.kinds id ≡ Some (Kind.Buffer len) →
        Holds f hands (wrote s id at bytes) }
    ensures fetches { (f : Face) (hands : Hands) (s : Link) (id at : ℕ) (bytes : List ℕ) → Holds f hands s → IsTarget f hands id →
        ((index : ℕ) → nodes_touch (f.pending index) id ≡ false) → IsKnownToHost f s id →
        Holds (with_read f id) (heard_hands hands id) (fetched s id at bytes) }
    ensures learns { (f : Face) (hands : Hands) (s t : Link) → Holds f hands s → Learns s t → Holds f hands t }
    ensures enqueues { (f : Face) (hands : Hands) (s : Link) (index : ℕ) (batch : Batch) → Holds f hands s → IsOfGroup f.group index →
        IsNextBatch f index batch → batch.number < 18446744073709551615 → Holds (flushed f index) hands (enqueued s batch) }
    ensures gives { (f : Face) (hands : Hands) (s : Link) (id : ℕ) (slot : Slot) (uses : List QueueSerial) → Holds f hands s →
        hands id ≡ Some slot → AreUses uses slot → Holds f (put hands id None) (gave s id uses) }
    // the front
    ensures records { (f : Face) (hands : Hands) (s : Link) (index : ℕ) (nodes : List Node) → Holds f hands s → MayRecord f hands s index nodes →
        Holds (with_nodes f index nodes) (noted_hands hands index (f.last index + 1) nodes) s }
    ensures begins { (f : Face) (hands : Hands) (s : Link) (o : Object) (id : ℕ) (slot : Slot) → Holds f hands s → hands id ≡ Some slot →
        f.objects o ≡ None → Holds (with_object f o (Some (stored_as id slot))) (put hands id None) s }
    ensures ends { (f : Face) (hands : Hands) (s : Link) (o : Object) (b : Stored) → Holds f hands s → f.objects o ≡ Some b → b.waiting ≡ [] →
        Holds (with_object f o None) (put hands b.handle (Some b.slot)) s }
    ensures stages { (f : Face) (hands : Hands) (s : Link) (o : Object) (b : Stored) (id : ℕ) (kind : Kind) (node : Node) → Holds f hands s →
        f.objects o ≡ Some b → hands id ≡ Some (fresh_slot id kind) → NodeFits s.kinds node → NoneEmpty node →
        IsUpdate (Some id) b.handle node.op →
        Holds (with_object f o (Some (with_waiting b (record { staging = Some id; node = node })))) (put hands id None) s }
    ensures takes { (f : Face) (hands : Hands) (s : Link) (o : Object) (b : Stored) (place id : ℕ) (node : Node) (kind : Kind) → Holds f hands s →
        f.objects o ≡ Some b → slice_get b.waiting place ≡ Some (record { staging = Some id; node = node }) → s.kinds id ≡ Some kind →
        Holds (with_object f o (Some (taken_from b place))) (put hands id (Some (fresh_slot id kind))) s }
    // the same of a clear, which has no staging buffer
    ensures stages_clear { (f : Face) (hands : Hands) (s : Link) (o : Object) (b : Stored) (node : Node) → Holds f hands s → f.objects o ≡ Some b →
        NodeFits s.kinds node → NoneEmpty node → IsUpdate None b.handle node.op →
        Holds (with_object f o (Some (with_waiting b (record { staging = None; node = node })))) hands s }
    ensures takes_clear { (f : Face) (hands : Hands) (s : Link) (o : Object) (b : Stored) (place : ℕ) (node : Node) → Holds f hands s → f.objects o ≡ Some b →
        slice_get b.waiting place ≡ Some (record { staging = None; node = node }) → Holds (with_object f o (Some (taken_from b place))) hands s }
{
    lists_change_places();
    conflict_is_mutual();
    uses_are_low();
    uses_change_places();
    trackers_take_uses();
    host_reads_are_uses();
}

/// What the calls of the link need holds.
pub fn steps_may()
    ensures enqueue { (f : Face) (hands : Hands) (s : Link) (index : ℕ) (batch : Batch) → Holds f hands s → IsOfGroup f.group index →
        IsNextBatch f index batch → MayEnqueue s batch }
    ensures give { (f : Face) (hands : Hands) (s : Link) (id : ℕ) (slot : Slot) (uses : List QueueSerial) → Holds f hands s →
        hands id ≡ Some slot → AreUses uses slot → MayGive s id uses }
    ensures wait { (f : Face) (hands : Hands) (s : Link) (o : Object) (b : Stored) (index : ℕ) → Holds f hands s → f.objects o ≡ Some b →
        nodes_touch (f.pending index) b.handle ≡ false → 1 ≤ b.slot.used index → HasBatch s index (b.slot.used index) }
    ensures write_fresh { (f : Face) (hands : Hands) (s : Link) (id len at size : ℕ) → Holds f hands s → hands id ≡ Some (fresh_slot id (Kind.Buffer len)) →
        1 ≤ size → at + size ≤ len → HostMay s id at size }
    ensures untouched { (f : Face) (hands : Hands) (s : Link) (id index : ℕ) (kind : Kind) → Holds f hands s → hands id ≡ Some (fresh_slot id kind) →
        nodes_touch (f.pending index) id ≡ false }
    ensures host { (f : Face) (hands : Hands) (s : Link) (o : Object) (quiet : IsQuiet f s o) (len at size : ℕ) → Holds f hands s →
        quiet.stored.slot.kind ≡ Kind.Buffer len → 1 ≤ size → at + size ≤ len → HostMay s quiet.stored.handle at size }
    ensures kinds { (f : Face) (hands : Hands) (s : Link) (o : Object) (b : Stored) → Holds f hands s → f.objects o ≡ Some b → s.kinds b.handle ≡ Some b.slot.kind }
    ensures hands { (f : Face) (hands : Hands) (s : Link) (id : ℕ) (slot : Slot) → Holds f hands s → hands id ≡ Some slot → s.kinds id ≡ Some slot.kind }
    ensures distinct { (f : Face) (hands : Hands) (s : Link) (o q : Object) (b c : Stored) → Holds f hands s → f.objects o ≡ Some b → f.objects q ≡ Some c →
        b.handle ≡ c.handle → o ≡ q }
    ensures in_no_object { (f : Face) (hands : Hands) (s : Link) (o : Object) (b : Stored) (id : ℕ) (slot : Slot) → Holds f hands s → hands id ≡ Some slot →
        f.objects o ≡ Some b → b.handle ≢ id }
    ensures owns { (f : Face) (hands : Hands) (s : Link) → Holds f hands s → Owns f.objects s }
    ensures lets_go { (f : Face) (hands : Hands) (s : Link) (id : ℕ) (slot : Slot) → Holds f hands s → hands id ≡ Some slot → Owns f.objects (abandoned s id) }
    // a handle in hand that nodes used: its last uses are batches, and once they are retired the host may read it
    ensures wait_hand { (f : Face) (hands : Hands) (s : Link) (id : ℕ) (slot : Slot) (index : ℕ) → Holds f hands s → hands id ≡ Some slot →
        nodes_touch (f.pending index) id ≡ false → 1 ≤ slot.used index → HasBatch s index (slot.used index) }
    ensures host_hand { (f : Face) (hands : Hands) (s : Link) (id : ℕ) (slot : Slot) (len at size : ℕ) → Holds f hands s → hands id ≡ Some slot →
        slot.kind ≡ Kind.Buffer len → ((index : ℕ) → nodes_touch (f.pending index) id ≡ false) → ((index : ℕ) → slot.used index ≤ s.done index) →
        1 ≤ size → at + size ≤ len → HostMay s id at size }
    // what an update copies from is a buffer
    ensures staging { (f : Face) (hands : Hands) (s : Link) (o : Object) (b : Stored) (place id : ℕ) (w : Waiting) → Holds f hands s → f.objects o ≡ Some b →
        slice_get b.waiting place ≡ Some w → w.staging ≡ Some id → (len : ℕ) × (s.kinds id ≡ Some (Kind.Buffer len)) }
{
    lists_change_places();
}

/// An object that is quiet stays so, through each step that does not touch it.
pub fn quiet_objects_stay()
    ensures creates { (f : Face) (hands : Hands) (s : Link) (o : Object) (id : ℕ) (kind : Kind) → Holds f hands s → IsFresh s id → IsQuiet f s o →
        IsQuiet f (created s id kind) o }
    ensures writes { (f : Face) (s : Link) (o : Object) (id at : ℕ) (bytes : List ℕ) → IsQuiet f s o → IsQuiet f (wrote s id at bytes) o }
    ensures fetches { (f : Face) (s : Link) (o : Object) (id at : ℕ) (bytes : List ℕ) → ((index : ℕ) → nodes_touch (f.pending index) id ≡ false) →
        IsQuiet f s o → IsQuiet (with_read f id) (fetched s id at bytes) o }
    ensures learns { (f : Face) (s t : Link) (o : Object) → Learns s t → IsQuiet f s o → IsQuiet f t o }
    ensures enqueues { (f : Face) (s : Link) (o : Object) (index : ℕ) (batch : Batch) → IsNextBatch f index batch → IsQuiet f s o →
        IsQuiet (flushed f index) (enqueued s batch) o }
    ensures gives { (f : Face) (s : Link) (o : Object) (id : ℕ) (uses : List QueueSerial) → IsQuiet f s o → IsQuiet f (gave s id uses) o }
    ensures records { (f : Face) (s : Link) (o : Object) (index : ℕ) (nodes : List Node) → (quiet : IsQuiet f s o) →
        nodes_touch nodes quiet.stored.handle ≡ false → IsQuiet (with_nodes f index nodes) s o }
    ensures others { (f : Face) (s : Link) (o q : Object) (b : Option Stored) → IsQuiet f s o → o ≢ q → IsQuiet (with_object f q b) s o }
    // where no barrier is due before a read by the host, what nodes wrote was made known to it
    ensures known { (f : Face) (hands : Hands) (s : Link) (id at size : ℕ) → Holds f hands s → ((index : ℕ) → nodes_touch (f.pending index) id ≡ false) →
        IsKnownToHost f s id → IsReadable (log_of s.mine) id at size }
{
    writes_are_made_known();
    host_reads_are_uses();
}
