// What it comes to that the host reads and writes a buffer, on plain values.
ghost use Rattle.std.specs.Prelude.{◌≡◌, ℕ, ◌+◌, ◌<◌, ◌≤◌, List, Some, length};
ghost use Rattle.vk_types.specs.Touches.{the_end};
ghost use Rattle.tables.specs.Table.{entry};
ghost use Rattle.object_helper.specs.Objects.{ObjectStore};
ghost use Rattle.back_core.specs.Own.{log_of, IsReadable};
ghost use Rattle.back_core.specs.Link.{Link, contents_of, fetched, wrote};
ghost use Rattle.back_core.specs.Needs.{HostMay, HasBatch};
ghost use Rattle.back_core.specs.Answers.{Learns};
ghost use Rattle.front_model.specs.declared.object.Object.{Object};
ghost use Rattle.front_model.specs.declared.object.Object.TheVariants.{Buffer};
ghost use Rattle.front_model.specs.Face.{Stored, Face, put_object, outline_at, view};
ghost use Rattle.front_model.specs.Stands.{Holds, Owns, Moved, IsQuiet, no_hands};
ghost use Rattle.object_helper.specs.Objects.{heard};
ghost use Rattle.front_moves.specs.Objects.{key_of, ChangesOne};
ghost use Rattle.front_model.specs.Wanted.{with_bytes};
ghost use Rattle.front_moves.specs.Core.{CoreParts, face, HasBytes, IsUntouched, IsRetired, IsOpen};

use front_model::{
    due_nodes_may_be_recorded, link_steps_show, quiet_objects_show, quiet_objects_stay, steps_hold,
    steps_may,
};

/// The host may use a buffer that is quiet: it reads what the buffer shows, and what it writes is shown.
pub(crate) fn host_comes_to()
    ensures may { (c : CoreParts) (s : Link) (b at size : ℕ) (x : ObjectStore) → Holds (face c) no_hands s → IsQuiet (face c) s (Buffer b) →
        entry (key_of (Buffer b)) c.stores ≡ Some x → (len : ℕ) × HasBytes (face c) b len × (at + size ≤ len) → 0 < size → HostMay s x.handle.0 at size }
    ensures readable { (c : CoreParts) (s : Link) (b at size : ℕ) (x : ObjectStore) → IsQuiet (face c) s (Buffer b) → entry (key_of (Buffer b)) c.stores ≡ Some x →
        IsReadable (log_of s.mine) x.handle.0 at size }
    ensures bytes { (c : CoreParts) (s : Link) (b : ℕ) (x : ObjectStore) → IsQuiet (face c) s (Buffer b) → entry (key_of (Buffer b)) c.stores ≡ Some x →
        contents_of s x.handle.0 ≡ view (face c) s (Buffer b) }
    ensures reads { (c d : CoreParts) (s t : Link) (b at : ℕ) (bytes : List ℕ) (x : ObjectStore) → Holds (face c) no_hands s → IsQuiet (face c) s (Buffer b) →
        entry (key_of (Buffer b)) c.stores ≡ Some x → d ≡ record c { stores = d.stores } → ChangesOne (key_of (Buffer b)) heard c.stores d.stores → t ≡ fetched s x.handle.0 at bytes →
        Moved (face d) t (view (face c) s) (outline_at (face c)) (IsQuiet (face c) s) }
    ensures writes { (c : CoreParts) (s t : Link) (b at : ℕ) (bytes : List ℕ) (x : ObjectStore) → Holds (face c) no_hands s → IsQuiet (face c) s (Buffer b) →
        entry (key_of (Buffer b)) c.stores ≡ Some x → (len : ℕ) × HasBytes (face c) b len → at + length bytes ≤ the_end → t ≡ wrote s x.handle.0 at bytes →
        Moved (face c) t (put_object (view (face c) s) (Buffer b) (with_bytes (view (face c) s (Buffer b)) at bytes)) (outline_at (face c)) (IsQuiet (face c) s) }
    ensures owns { (c : CoreParts) (s t : Link) → Holds (face c) no_hands s → t ≡ s → Owns (face c).objects t }
{
    steps_hold();
    steps_may();
    link_steps_show();
    quiet_objects_show();
    quiet_objects_stay();
}

/// Waiting for the batches that use an object shows what was shown.
pub(crate) fn waiting_comes_to()
    ensures may { (f : Face) (s t : Link) (o : Object) (index number : ℕ) (x : Stored) → Holds f no_hands s → Learns s t → IsUntouched f o →
        f.objects o ≡ Some x → number ≡ x.slot.used index → 0 < number → HasBatch t index number }
    ensures moved { (f : Face) (s t : Link) → Holds f no_hands s → Learns s t → Moved f t (view f s) (outline_at f) (IsQuiet f s) }
    ensures owns { (f : Face) (s t : Link) → Holds f no_hands s → Learns s t → Owns f.objects t }
{
    steps_hold();
    steps_may();
    link_steps_show();
    quiet_objects_stay();
}

/// The host may use a buffer that nothing pending touches and each batch of which is retired, where by its tracker no barrier is due before
/// it reads.
pub(crate) fn settle_comes_to()
    ensures { (f : Face) (s : Link) (b len : ℕ) → Holds f no_hands s → HasBytes f b len → IsUntouched f (Buffer b) → IsRetired f s (Buffer b) → IsOpen f (Buffer b) →
        IsQuiet f s (Buffer b) }
{
    quiet_objects_stay();
    due_nodes_may_be_recorded();
}
